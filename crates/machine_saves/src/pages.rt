//! The pages of memory that are not as they were loaded.

ghost use Rattle.std.specs.Prelude.{◌≡◌, ℕ, ◌+◌, ◌*◌, ◌<◌, ◌≤◌, ◌++◌, OnOk, drop, length, not, take};
ghost use Rattle.std.specs.List.{flat_map};
ghost use Rattle.std.specs.Str.{bytes_eq};
ghost use Rattle.guest_bus.specs.Memory.{bytes_at};
ghost use Rattle.guest_memory.specs.Loading.{area_of};
ghost use Rattle.guest_memory.specs.Memories.{map_at};
ghost use Rattle.machine_model.specs.Partition.{areas_of};
ghost use Rattle.machine_model.specs.View.{part_of, view_of};
ghost use Rattle.saved_machines.specs.Saving.{loaded_of};
ghost use Rattle.system_state.specs.State.{memory_of};
ghost use Rattle.machine_saves.specs.Loaded.{AreLoaded};
ghost use Rattle.machine_saves.specs.lemmas.SaveTerms.{IsAreaOf, area_text, changed_bytes, changed_page, page_of, page_text, pages_text};

use crate::fields::put_word_count;
use guest_memory::Ram;
use system_state::Sys;
use xm_base::{Memory, PartId, proof};
use xm_conf::{Area, Conf};

/// Bytes of a page.
const PAGE_BYTES: usize = 256;

/// Puts the pages of each area of a partition that are not as they were loaded.
pub(crate) fn put_areas(out: &mut Vec<u8>, sys: &Sys, loaded: &Ram, p: PartId) -> Result<(), Memory>
    requires partition { p < length sys.now.machine.parts }
    requires loaded { AreLoaded sys.now.machine.system loaded.now }
    ensures { OnOk result (out.new.items ≡ out.old.items ++ flat_map (area_text (loaded_of sys.now.machine.system p) (memory_of p sys.now.machine)) (areas_of (view_of sys.now.machine.system p))) }
{
    // As many partitions run as are configured.
    proof! { let _count = sys.count(); }
    let areas = configured_areas(sys.conf(), p);
    let now = sys.ram();
    for number in 0..areas.len() {
        let area = &areas[number];
        let before = area_bytes(loaded, p, number as u8, area);
        put_area(
            out,
            area_bytes(now, p, number as u8, area),
            before,
            area.start,
        )?;
    }
    Ok(())
}

/// The areas of a partition.
#[tactic(auto, unfolding(machine_model::specs::View::part_of, xm_conf::specs::Description::described))]
fn configured_areas(conf: &Conf, p: PartId) -> &[Area]
    requires { p < length conf.now.parts }
    ensures value { result.now ≡ (part_of conf.now p).areas }
    ensures few { length result.now ≤ 8 }
{
    &conf.raw().parts[usize::from(p)].areas
}

/// The bytes of an area of a partition.
fn area_bytes<'a>(ram: &'a Ram, p: PartId, number: u8, area: &Area) -> &'a [u8]
    requires { IsAreaOf ram.now p number (area_of area.now) }
    ensures value { result.now ≡ bytes_at (map_at p ram.now) area.now.start area.now.size }
    ensures size { length result.now ≡ area.now.size }
    ensures small { length result.now < 4294967296 }
{
    part(
        ram.whole(),
        ram.place(p, number) as usize,
        size_of(area) as usize,
    )
}

/// How many bytes an area has.
fn size_of(area: &Area) -> u32
    ensures { result ≡ area.now.size }
{
    area.size
}

/// This many bytes from a place on.
fn part(bytes: &[u8], at: usize, count: usize) -> &[u8]
    requires { at + count ≤ length bytes.now }
    ensures { result.now ≡ take count (drop at bytes.now) }
{
    &bytes[at..at + count]
}

/// Puts the pages of an area that are not as they were loaded, their number before them.
#[tactic(auto, unfolding(crate::specs::lemmas::SaveTerms::pages_text))]
fn put_area(out: &mut Vec<u8>, now: &[u8], loaded: &[u8], start: u32) -> Result<(), Memory>
    requires same { length loaded.now ≡ length now.now }
    requires small { length now.now < 4294967296 }
    ensures { OnOk result (out.new.items ≡ out.old.items ++ pages_text (changed_bytes loaded.now now.now start)) }
{
    put_word_count(out, count_changed(now, loaded))?;
    put_changed(out, now, loaded, start)
}

/// How many pages of an area are not as they were loaded.
fn count_changed(now: &[u8], loaded: &[u8]) -> usize
    requires { length loaded.now ≡ length now.now }
    ensures { (start : ℕ) → result ≡ length (changed_bytes loaded.now now.now start) }
{
    let mut count = 0;
    for number in 0..now.len() / PAGE_BYTES {
        count += changes(now, loaded, number);
    }
    count
}

/// How many pages have a number and are not as they were loaded: one or none.
#[tactic(auto, unfolding(crate::specs::lemmas::SaveTerms::changed_page))]
fn changes(now: &[u8], loaded: &[u8], number: usize) -> usize
    requires now { 256 * number + 256 ≤ length now.now }
    requires loaded { 256 * number + 256 ≤ length loaded.now }
    ensures value { (start : ℕ) → result ≡ length (changed_page loaded.now now.now start number) }
    ensures few { result ≤ 1 }
{
    if is_changed(now, loaded, number) {
        1
    } else {
        0
    }
}

/// Puts the pages of an area that are not as they were loaded.
fn put_changed(out: &mut Vec<u8>, now: &[u8], loaded: &[u8], start: u32) -> Result<(), Memory>
    requires same { length loaded.now ≡ length now.now }
    requires small { length now.now < 4294967296 }
    ensures { OnOk result (out.new.items ≡ out.old.items ++ flat_map page_text (changed_bytes loaded.now now.now start)) }
{
    for number in 0..now.len() / PAGE_BYTES {
        put_if_changed(out, now, loaded, start, number)?;
    }
    Ok(())
}

/// Puts the page of a number, where it is not as it was loaded.
#[tactic(auto, unfolding(crate::specs::lemmas::SaveTerms::changed_page))]
fn put_if_changed(
    out: &mut Vec<u8>,
    now: &[u8],
    loaded: &[u8],
    start: u32,
    number: usize,
) -> Result<(), Memory>
    requires now { 256 * number + 256 ≤ length now.now }
    requires loaded { 256 * number + 256 ≤ length loaded.now }
    requires small { length now.now < 4294967296 }
    ensures { OnOk result (out.new.items ≡ out.old.items ++ flat_map page_text (changed_page loaded.now now.now start number)) }
{
    if is_changed(now, loaded, number) {
        put_page(out, now, start, number)
    } else {
        Ok(())
    }
}

/// Puts the page of a number in the bytes of an area, its address before it.
#[tactic(auto, unfolding(crate::specs::lemmas::SaveTerms::page_text))]
fn put_page(out: &mut Vec<u8>, bytes: &[u8], start: u32, number: usize) -> Result<(), Memory>
    requires inside { 256 * number + 256 ≤ length bytes.now }
    requires small { length bytes.now < 4294967296 }
    ensures { OnOk result (out.new.items ≡ out.old.items ++ page_text record { address = start + 256 * number; bytes = page_of bytes.now number }) }
{
    put_word_count(out, start as usize + PAGE_BYTES * number)?;
    out.extend_from_slice(page(bytes, number))?;
    Ok(())
}

/// Whether the page of a number is not as it was loaded.
fn is_changed(now: &[u8], loaded: &[u8], number: usize) -> bool
    requires now { 256 * number + 256 ≤ length now.now }
    requires loaded { 256 * number + 256 ≤ length loaded.now }
    ensures { result ≡ not (bytes_eq (page_of now.now number) (page_of loaded.now number)) }
{
    page(now, number) != page(loaded, number)
}

/// The page of a number in the bytes of an area.
#[tactic(auto, unfolding(crate::specs::lemmas::SaveTerms::page_of))]
fn page(bytes: &[u8], number: usize) -> &[u8]
    requires { 256 * number + 256 ≤ length bytes.now }
    ensures { result.now ≡ page_of bytes.now number }
{
    let at = PAGE_BYTES * number;
    &bytes[at..at + PAGE_BYTES]
}
