//! Which area has an address.

ghost use Rattle.std.specs.Prelude.{◌≡◌, ◌<◌, ◌↔◌, false, IfSome, IsNone, length, take};
ghost use Rattle.std.specs.List.{position_from};
ghost use Rattle.guest_bus.specs.Memory.{is_readable};
ghost use Rattle.guest_memory.specs.Flat.{Follow, listed};
ghost use Rattle.guest_memory.specs.lemmas.FlatTerms.{StandsInArea, entry_holds};
ghost use Rattle.guest_memory.specs.Memories.{areas_size};

use crate::entry::{Entry, Place};

/// Where the byte at an address lies, where it is in one of the areas.
pub(crate) fn place_of(entries: &[Entry], address: u64) -> Option<Place>
    ensures at { IfSome result (λ place. StandsInArea address 1 place entries.now) }
    ensures room { IfSome result (λ place. 0 < place.room) }
    ensures none { IsNone result ↔ (is_readable (listed entries.now) address ≡ false) }
{
    match area_with(entries, address) {
        Some(area) => Some(entries[area].place_of(area, address)),
        None => None,
    }
}

/// The number of the first of these areas that has an address.
fn area_with(entries: &[Entry], address: u64) -> Option<usize>
    ensures first { result ≡ position_from (entry_holds address) 0 entries.now }
    ensures within { IfSome result (λ area. area < length entries.now) }
{
    entries.iter().position(|entry| entry.has(address))
}

/// How many bytes the areas before the one of a number have.
pub(crate) fn place_in(entries: &[Entry], area: usize) -> u32
    requires area { area < length entries.now }
    requires follow { Follow 0 entries.now }
    ensures { result ≡ areas_size (take area (listed entries.now)) }
{
    entries[area].place()
}
