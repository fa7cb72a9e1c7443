//! The pages of a partition's memory that differ from what was loaded.

ghost use Rattle.std.specs.Prelude.{◌≡◌, ◌+◌, ◌%◌, ◌^◌, ◌<◌, ◌≤◌, ◌==◌, ◌&&◌, IfOk, length, map, nat_le, nat_lt, slice_get, Some};
ghost use Rattle.std.specs.Str.{bytes_eq};
ghost use Rattle.file_headers.specs.lemmas.GivesTerms.{IsReadAt};
ghost use Rattle.codecs.specs.Codec.{each_of};
ghost use Rattle.codecs.specs.Gives.{ReadsOr};
ghost use Rattle.guest_memory.specs.Loading.{area_of};
ghost use Rattle.guest_memory.specs.Memories.{map_at};
ghost use Rattle.guest_bus.specs.Memory.{bytes_at};
ghost use Rattle.saved_machines.specs.SavedFields.{word_where};
ghost use Rattle.saved_machines.specs.SavedFormat.{area_pages_format, loaded_page, page_format};
ghost use Rattle.saved_machines.specs.declared.fault.SavedFault.TheVariants as fault;

use crate::fault::SavedFault;
use crate::fields::{next_bytes, word};
use crate::values::Page;
use codecs::read_items;
use guest_memory::Ram;
use std::alloc::Global;
use xm_base::Cursor;
use xm_conf::Area;

/// The bytes of a page.
const PAGE_BYTES: usize = 256;

/// The address of a page of an area, from a floor on.
fn page_address(cursor: &mut Cursor<'_>, area: Area, floor: u64) -> Result<u32, SavedFault>
    ensures value { IsReadAt (λ address. address) result cursor.new ((word_where (λ address. nat_le floor address && address % 256 == 0 && nat_lt address (area.start + area.size))).read cursor.old) }
    ensures page { IfOk result (λ address. address % 256 ≡ 0) }
{
    let at = cursor.at();
    let address = cursor.u32()?;
    if floor <= u64::from(address)
        && address % 256 == 0
        && u64::from(address) < u64::from(area.start) + u64::from(area.size)
    {
        Ok(address)
    } else {
        Err(SavedFault::Field { at })
    }
}

/// Whether these are the bytes of partition `p` from an address on.
fn are_loaded(loaded: &Ram, p: u8, address: u32, bytes: &[u8]) -> bool
    requires partition { p < length loaded.now.areas }
    requires within { address + length bytes.now ≤ 2 ^ 32 }
    ensures { result ≡ bytes_eq bytes.now (bytes_at (map_at p loaded.now) address (length bytes.now)) }
{
    for place in 0..bytes.len() {
        if bytes[place] != loaded.byte(p, address + place as u32).unwrap_or(0) {
            return false;
        }
    }
    true
}

/// Whether this is the page as it was loaded.
#[tactic(auto, unfolding(crate::specs::SavedFormat::loaded_page))]
fn is_loaded_page(loaded: &Ram, p: u8, address: u32, bytes: &[u8]) -> bool
    requires partition { p < length loaded.now.areas }
    requires page { address % 256 ≡ 0 }
    requires whole { length bytes.now ≡ 256 }
    ensures { result ≡ bytes_eq bytes.now (loaded_page (map_at p loaded.now) address) }
{
    are_loaded(loaded, p, address, bytes)
}

/// A page of an area, from a floor on.
fn page(
    alloc: Global,
    cursor: &mut Cursor<'_>,
    loaded: &Ram,
    p: u8,
    area: Area,
    floor: u64,
) -> Result<Page, SavedFault>
    requires { p < length loaded.now.areas }
    ensures { ReadsOr fault.Memory (λ page. page) result cursor.new ((page_format (area_of area) (map_at p loaded.now) floor).read cursor.old) }
{
    let at = cursor.at();
    let address = page_address(cursor, area, floor)?;
    let bytes = next_bytes(cursor, PAGE_BYTES)?;
    if is_loaded_page(loaded, p, address, bytes) {
        return Err(SavedFault::Field { at });
    }
    match Vec::from_slice(alloc, bytes) {
        Ok(bytes) => Ok(Page { address, bytes }),
        Err(_) => Err(SavedFault::Memory),
    }
}

/// The address after a page.
fn after_page(page: &Page) -> u64
    ensures { result ≡ page.now.address + 256 }
{
    u64::from(page.address) + 256
}

/// The pages of an area.
fn area_pages(
    alloc: Global,
    cursor: &mut Cursor<'_>,
    loaded: &Ram,
    p: u8,
    area: Area,
) -> Result<Vec<Page>, SavedFault>
    requires { p < length loaded.now.areas }
    ensures { ReadsOr fault.Memory (λ pages. pages.items) result cursor.new ((area_pages_format (map_at p loaded.now) (area_of area)).read cursor.old) }
{
    let count = word(cursor)?;
    read_items(
        alloc,
        count,
        cursor,
        u64::from(area.start),
        SavedFault::Memory,
        |cursor, floor| page(alloc, cursor, loaded, p, area, floor),
        |_, page| after_page(page),
    )
}

/// The area at a place.
fn area_at(areas: &[Area], n: usize) -> Area
    requires { n < length areas.now }
    ensures { slice_get areas.now n ≡ Some result }
{
    areas[n]
}

/// The pages of each of these areas.
pub(crate) fn pages(
    alloc: Global,
    cursor: &mut Cursor<'_>,
    loaded: &Ram,
    p: u8,
    areas: &[Area],
) -> Result<Vec<Vec<Page>>, SavedFault>
    requires { p < length loaded.now.areas }
    ensures { ReadsOr fault.Memory (λ pages. map (λ area. area.items) pages.items) result cursor.new ((each_of (λ area. area_pages_format (map_at p loaded.now) area) (map area_of areas.now)).read cursor.old) }
{
    let mut pages = Vec::new(alloc);
    for n in 0..areas.len() {
        let here = area_pages(alloc, cursor, loaded, p, area_at(areas, n))?;
        match pages.push(here) {
            Ok(()) => {}
            Err(_) => return Err(SavedFault::Memory),
        }
    }
    Ok(pages)
}
