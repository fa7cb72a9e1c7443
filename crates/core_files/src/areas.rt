//! The areas of a partition's memory.

ghost use Rattle.std.specs.Prelude.{◌≡◌, ◌+◌, ◌<◌, ◌≤◌, ◌∷◌, [], ◌++◌, true, length, map, take};
ghost use Rattle.std.specs.List.{flat_map, sum_by};
ghost use Rattle.guest_bus.specs.Memory.{all_from, bytes_at, is_readable};
ghost use Rattle.guest_memory.specs.Loading.{area_of};
ghost use Rattle.machine_model.specs.CoreFile.{area_bytes};
ghost use Rattle.machine_model.specs.Structures.{word};
ghost use Rattle.system_state.specs.State.{areas_in, memory_of};
ghost use Rattle.core_files.specs.Length.{area_length};

use crate::fields::{put_structure, write_at};
use system_state::structures::Structure;
use system_state::{Sys, read_memory};
use xm_base::PartId;
use xm_conf::Area;

/// Writes the areas of a partition at a place, their number before them, and returns the place after them.
pub(crate) fn put_areas(into: &mut [u8], at: usize, areas: &[Area], sys: &Sys, p: PartId) -> usize
    requires partition { p < length sys.now.machine.parts }
    requires areas { areas_in p sys.now.machine ≡ map area_of areas.now }
    requires few { length areas.now ≤ 8 }
    requires room { at + 1 + sum_by area_length (map area_of areas.now) ≤ length into.old }
    ensures text { take result into.new ≡ take at into.old ++ length areas.now ∷ [] ++ flat_map (area_bytes (memory_of p sys.now.machine)) (map area_of areas.now) }
    ensures place { result ≡ at + 1 + sum_by area_length (map area_of areas.now) }
    ensures room { length into.new ≡ length into.old }
{
    let at = put_number(into, at, areas);
    put_each(into, at, areas, sys, p)
}

/// Writes the number of areas at a place, and returns the place after it.
fn put_number(into: &mut [u8], at: usize, areas: &[Area]) -> usize
    requires few { length areas.now ≤ 8 }
    requires room { at + 1 ≤ length into.old }
    ensures text { take result into.new ≡ take at into.old ++ length areas.now ∷ [] }
    ensures place { result ≡ at + 1 }
    ensures room { length into.new ≡ length into.old }
{
    write_at(into, at, &[areas.len() as u8])
}

/// Writes areas of a partition at a place, each with its bytes, and returns the place after them.
fn put_each(into: &mut [u8], at: usize, areas: &[Area], sys: &Sys, p: PartId) -> usize
    requires partition { p < length sys.now.machine.parts }
    requires areas { areas_in p sys.now.machine ≡ map area_of areas.now }
    requires room { at + sum_by area_length (map area_of areas.now) ≤ length into.old }
    ensures text { take result into.new ≡ take at into.old ++ flat_map (area_bytes (memory_of p sys.now.machine)) (map area_of areas.now) }
    ensures place { result ≡ at + sum_by area_length (map area_of areas.now) }
    ensures room { length into.new ≡ length into.old }
{
    let mut after = at;
    for area in areas {
        after = put_area(into, after, area, sys, p);
    }
    after
}

/// Writes an area of a partition with its bytes at a place, and returns the place after it.
fn put_area(into: &mut [u8], at: usize, area: &Area, sys: &Sys, p: PartId) -> usize
    requires partition { p < length sys.now.machine.parts }
    requires readable { all_from (is_readable (areas_in p sys.now.machine)) area.now.start area.now.size ≡ true }
    requires room { at + area_length (area_of area.now) ≤ length into.old }
    ensures text { take result into.new ≡ take at into.old ++ area_bytes (memory_of p sys.now.machine) (area_of area.now) }
    ensures place { result ≡ at + area_length (area_of area.now) }
    ensures room { length into.new ≡ length into.old }
{
    let at = put_structure(into, at, &area_head(area));
    put_memory(into, at, area, sys, p)
}

/// The start and the size of an area, 8 bytes.
fn area_head(area: &Area) -> Structure
    ensures value { result ≡ word area.now.start ++ word area.now.size }
    ensures size { length result ≡ 8 }
{
    let mut bytes = Structure::new();
    bytes.word(area.start);
    bytes.word(area.size);
    bytes
}

/// Writes the bytes of an area of a partition at a place, and returns the place after them.
fn put_memory(into: &mut [u8], at: usize, area: &Area, sys: &Sys, p: PartId) -> usize
    requires partition { p < length sys.now.machine.parts }
    requires readable { all_from (is_readable (areas_in p sys.now.machine)) area.now.start area.now.size ≡ true }
    requires room { at + area.now.size ≤ length into.old }
    ensures text { take result into.new ≡ take at into.old ++ bytes_at (memory_of p sys.now.machine) area.now.start area.now.size }
    ensures place { result ≡ at + area.now.size }
    ensures room { length into.new ≡ length into.old }
{
    let after = at + area.size as usize;
    read_memory(sys, p, area.start, &mut into[at..after]);
    after
}
