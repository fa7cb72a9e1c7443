//! The whole core file.

ghost use Rattle.std.specs.Prelude.{◌≡◌, ◌+◌, ◌<◌, ◌≤◌, length, map, take};
ghost use Rattle.std.specs.List.{sum_by};
ghost use Rattle.guest_memory.specs.Loading.{area_of};
ghost use Rattle.machine_model.specs.CoreFile.{core_file};
ghost use Rattle.machine_model.specs.View.{part_of, view_of};
ghost use Rattle.system_state.specs.State.{part_at};
ghost use Rattle.core_files.specs.Head.{core_head};
ghost use Rattle.core_files.specs.Length.{area_length, core_length_of, head_length};

use crate::areas::put_areas;
use crate::fields::{put_count, put_structure, put_word};
use crate::logs::{look_at_logs, put_logs};
use crate::registers::{look_at_registers, put_registers};
use crate::standing::{made_ports, processor, standing, timer};
use system_state::Sys;
use virt_clocks::Clock;
use xm_base::{PartId, proof};
use xm_conf::{Area, Conf};

/// Bytes of a core file up to the number of areas, which is the last of them.
const HEAD_BYTES: usize = 3471;

/// Bytes that state the start and the size of an area.
const AREA_HEAD_BYTES: usize = 8;

/// How many bytes the core file of a partition has. No tick and no reset changes it.
pub fn core_length(sys: &Sys, p: PartId) -> usize
    // Called for a partition that exists.
    requires { p < length sys.now.machine.parts }
    // The length of a partition's core file: 3471 bytes, and 8 with its bytes for each area; it is that of the defined
    // list.
    ensures value { result ≡ core_length_of (view_of sys.now.machine.system p) }
    ensures length { result ≡ length (core_file (view_of sys.now.machine.system p) (part_at p sys.now.machine)) }
{
    proof! {
        look_at_registers(sys, p);
        look_at_logs(sys, p);
    }
    // As many partitions run as are configured.
    proof! { let _count = sys.count(); }
    length_of(configured_areas(sys.conf(), p))
}

/// How many bytes the core file of a partition with these areas has.
fn length_of(areas: &[Area]) -> usize
    requires { length areas.now ≤ 8 }
    ensures { result ≡ head_length + sum_by area_length (map area_of areas.now) }
{
    let mut length = HEAD_BYTES;
    for area in areas {
        length += AREA_HEAD_BYTES + area.size as usize;
    }
    length
}

/// The areas of a partition.
#[tactic(auto, unfolding(machine_model::specs::View::part_of, xm_conf::specs::Description::described))]
fn configured_areas(conf: &Conf, p: PartId) -> &[Area]
    requires { p < length conf.now.parts }
    ensures value { result.now ≡ (part_of conf.now p).areas }
    ensures few { length result.now ≤ 8 }
{
    &conf.raw().parts[usize::from(p)].areas
}

/// Writes the core file of a partition into a slice of its length.
pub fn core_into(sys: &Sys, p: PartId, into: &mut [u8])
    // Called for a partition that exists and with a slice of the core file's length.
    requires partition { p < length sys.now.machine.parts }
    requires size { length into.old ≡ core_length_of (view_of sys.now.machine.system p) }
    // A slice of that length gets exactly the bytes of the defined list.
    ensures file { into.new ≡ core_file (view_of sys.now.machine.system p) (part_at p sys.now.machine) }
{
    // As many partitions run as are configured.
    proof! { let _count = sys.count(); }
    let areas = configured_areas(sys.conf(), p);
    let at = put_head(into, sys, p);
    put_areas(into, at, areas, sys, p);
}

/// Writes what the core file of a partition has before its areas and their number into a slice of 3470 bytes.
pub fn head_into(sys: &Sys, p: PartId, into: &mut [u8])
    // Called for a partition that exists and with a slice of that length.
    requires partition { p < length sys.now.machine.parts }
    requires size { length into.old ≡ 3470 }
    // A slice of that length gets exactly the bytes that the defined list has there.
    ensures head { into.new ≡ core_head (view_of sys.now.machine.system p) (part_at p sys.now.machine) }
{
    put_head(into, sys, p);
}

/// Writes all that stands before the areas and their number, and returns the place after it.
fn put_head(into: &mut [u8], sys: &Sys, p: PartId) -> usize
    requires partition { p < length sys.now.machine.parts }
    requires room { 3470 ≤ length into.old }
    ensures text { take result into.new ≡ core_head (view_of sys.now.machine.system p) (part_at p sys.now.machine) }
    ensures place { result ≡ 3470 }
    ensures room { length into.new ≡ length into.old }
{
    let at = put_structure(into, 0, &standing(sys, p));
    let at = put_structure(into, at, &processor(sys, p));
    let at = put_structure(into, at, &timer(sys, p, Clock::Hw));
    let at = put_structure(into, at, &timer(sys, p, Clock::Exec));
    let at = put_count(into, at, sys.inputs_left(p));
    let at = put_word(into, at, made_ports(sys, p));
    let at = put_registers(into, at, sys, p);
    put_logs(into, at, sys, p)
}
