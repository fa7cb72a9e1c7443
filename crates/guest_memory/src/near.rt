//! The areas of one partition that are looked at first.

ghost use Rattle.std.specs.Prelude.{◌≡◌, ◌+◌, ◌<◌, ◌≤◌, ◌^◌, ◌⊎◌, true, false, IfSome, Ok, slice_get};
ghost use Rattle.std.specs.Bool.{OnTrue};
ghost use Rattle.guest_bus.specs.Access.{fetched, loaded};
ghost use Rattle.guest_memory.specs.Flat.{AllBytes, Table as Placed, listed};
ghost use Rattle.guest_memory.specs.lemmas.FlatTerms.{IsPartOf, memory_of_part};
ghost use Rattle.guest_memory.specs.lemmas.NearTerms.{AreRead, AreSpots, AreWithin, AreWritten, HasPart, IsSpot, IsSpotOf, IsNear, IsNearPart, IsStored};
ghost use Rattle.guest_memory.specs.Near.{IsNearOf, near_in, spot_of};

use crate::bytes::{get_words, put_value, put_words, value_at, word};
use crate::entry::Entry;
use guest_bus::Size;

/// An area, and how many bytes of all lie before its own. One that is not there has no address.
#[derive(Clone, Copy, Debug)]
pub(crate) struct Spot {
    pub(crate) start: u32,
    pub(crate) size: u32,
    pub(crate) place: usize,
    pub(crate) read_only: bool,
}

/// Where a byte lies among all, and whether its area may only be read.
#[derive(Clone, Copy, Debug)]
pub(crate) struct Found {
    pub(crate) byte: usize,
    pub(crate) read_only: bool,
}

/// Which areas are looked at. The loop of instructions looks at the first two alone, so that its code stays short.
#[derive(Clone, Copy, Debug)]
pub(crate) enum Look {
    FirstTwo,
    Third,
}

/// The first two areas of a partition, and another to which an access was made. Most accesses are to these, and are made without a
/// search.
#[derive(Clone, Copy, Debug)]
pub(crate) struct Near {
    pub(crate) first: Spot,
    pub(crate) second: Spot,
    pub(crate) third: Spot,
}

impl Spot {
    // The area of a number in a partition whose bytes lie from a place on.
    fn of(entries: &[Entry], number: usize, place: u32) -> Spot
        ensures { result ≡ spot_of place (slice_get entries.now number) }
    {
        match entries.get(number) {
            Some(entry) => Spot {
                start: entry.start,
                size: entry.size,
                place: place as usize + entry.place as usize,
                read_only: entry.read_only,
            },
            None => Spot {
                start: 0,
                size: 0,
                place: 0,
                read_only: false,
            },
        }
    }

    // Whether it has an address.
    #[inline(always)]
    fn has(&self, address: u32) -> bool
        requires { self.now.start + self.now.size ≤ 2 ^ 32 }
        ensures from { OnTrue result (self.now.start ≤ address) }
        ensures under { OnTrue result (address < self.now.start + self.now.size) }
    {
        address.wrapping_sub(self.start) < self.size
    }

    // Where the byte at an address of it lies.
    #[inline(always)]
    fn found(&self, address: u32) -> Found
        requires few { self.now.place ≤ 2 ^ 32 }
        requires from { self.now.start ≤ address }
        requires under { address < self.now.start + self.now.size }
        ensures { IsSpotOf address result self.now }
    {
        Found {
            byte: self.place + address.wrapping_sub(self.start) as usize,
            read_only: self.read_only,
        }
    }

    // Whether it has the 64 bytes from an address on.
    #[inline(always)]
    fn has_part(&self, address: u32) -> bool
        requires { self.now.start + self.now.size ≤ 2 ^ 32 }
        ensures from { OnTrue result (self.now.start ≤ address) }
        ensures within { OnTrue result (address + 64 ≤ self.now.start + self.now.size) }
    {
        self.size >= 64 && address.wrapping_sub(self.start) <= self.size - 64
    }

    // Where those bytes lie, where it has them all.
    #[inline(always)]
    fn part(&self, address: u32) -> Option<Found>
        requires { IsSpot self.now }
        ensures { IfSome result (λ found. HasPart address found self.now) }
    {
        if self.has_part(address) {
            Some(self.found(address))
        } else {
            None
        }
    }
}

impl Near {
    /// Those of a partition whose bytes lie from a place on, with the area of a number as the third.
    pub(crate) fn of(entries: &[Entry], place: u32, number: usize) -> Near
        ensures { result ≡ near_in entries.now place number }
    {
        Near {
            first: Spot::of(entries, 0, place),
            second: Spot::of(entries, 1, place),
            third: Spot::of(entries, number, place),
        }
    }

    // Where the byte at an address lies, where one of those looked at has it.
    #[inline(always)]
    fn find(&self, look: Look, address: u32) -> Option<Found>
        requires { AreSpots self.now }
        ensures { IfSome result (λ found. IsNear address found self.now) }
    {
        match look {
            Look::FirstTwo => self.find_in_two(address),
            Look::Third => self.find_in_third(address),
        }
    }

    // The same of the first two.
    #[inline(always)]
    fn find_in_two(&self, address: u32) -> Option<Found>
        requires { AreSpots self.now }
        ensures { IfSome result (λ found. IsNear address found self.now) }
    {
        if self.first.has(address) {
            Some(self.first.found(address))
        } else if self.second.has(address) {
            Some(self.second.found(address))
        } else {
            None
        }
    }

    // The same of the third.
    #[inline(always)]
    fn find_in_third(&self, address: u32) -> Option<Found>
        requires { AreSpots self.now }
        ensures { IfSome result (λ found. IsNear address found self.now) }
    {
        if self.third.has(address) {
            Some(self.third.found(address))
        } else {
            None
        }
    }

    /// The word that a fetch answers, where it is found in one of those looked at.
    #[inline(always)]
    pub(crate) fn fetched(&self, look: Look, whole: &[u8], address: u32) -> Option<u32>
        requires { AreWithin self.now whole.now }
        ensures { (table : Placed) → IsNearOf self.now table → IsPartOf table whole.now → IfSome result (λ word. Ok word ≡ fetched (listed table.entries) (memory_of_part table whole.now) address) }
    {
        if address % 4 != 0 {
            return None;
        }
        match self.find(look, address) {
            Some(found) => Some(word(whole, found.byte)),
            None => None,
        }
    }

    /// The value that a load answers, where it is found in one of those looked at.
    #[inline(always)]
    pub(crate) fn loaded(&self, look: Look, whole: &[u8], address: u32, size: Size) -> Option<u64>
        requires { AreWithin self.now whole.now }
        ensures { (table : Placed) → IsNearOf self.now table → IsPartOf table whole.now → IfSome result (λ value. Ok value ≡ loaded (listed table.entries) (memory_of_part table whole.now) address size) }
    {
        if address % size.bytes() != 0 {
            return None;
        }
        match self.find(look, address) {
            Some(found) => Some(value_at(whole, found.byte, size)),
            None => None,
        }
    }

    /// Stores a value, where its place is found in one of those looked at and may be written. The answer is whether it did.
    #[inline(always)]
    pub(crate) fn stored(
        &self,
        look: Look,
        whole: &mut [u8],
        address: u32,
        size: Size,
        value: u64,
    ) -> bool
        requires { AreWithin self.now whole.old }
        ensures done { OnTrue result ((table : Placed) → IsNearOf self.now table → IsPartOf table whole.old → IsStored table whole.old whole.new address value size) }
        ensures bytes { OnTrue result (AllBytes whole.new) }
        ensures not_done { result ≡ false → whole.new ≡ whole.old }
    {
        if address % size.bytes() != 0 {
            return false;
        }
        match self.find(look, address) {
            Some(found) => {
                if found.read_only {
                    false
                } else {
                    put_value(whole, found.byte, size, value);
                    true
                }
            }
            None => false,
        }
    }

    // Where the 64 bytes from an address on lie, where one of the three has them all.
    #[inline(always)]
    fn find_part(&self, address: u32) -> Option<Found>
        requires { AreSpots self.now }
        ensures { IfSome result (λ found. IsNearPart address found self.now) }
    {
        match self.first.part(address) {
            Some(found) => Some(found),
            None => self.later_part(address),
        }
    }

    // The same of the two after the first.
    #[inline(always)]
    fn later_part(&self, address: u32) -> Option<Found>
        requires { AreSpots self.now }
        ensures { IfSome result (λ found. HasPart address found self.now.second ⊎ HasPart address found self.now.third) }
    {
        match self.second.part(address) {
            Some(found) => Some(found),
            None => self.third.part(address),
        }
    }

    /// Writes sixteen words, where all of them are in one of the three and may be written. The answer is whether it did.
    #[inline(always)]
    pub(crate) fn put_words(&self, whole: &mut [u8], address: u32, words: &[u32; 16]) -> bool
        requires { AreWithin self.now whole.old }
        ensures done { OnTrue result ((table : Placed) → IsNearOf self.now table → IsPartOf table whole.old → AreWritten table whole.old whole.new address words.now) }
        ensures bytes { AllBytes whole.old → AllBytes whole.new }
        ensures not_done { result ≡ false → whole.new ≡ whole.old }
    {
        if address % 8 != 0 {
            return false;
        }
        match self.find_part(address) {
            Some(found) => {
                if found.read_only {
                    false
                } else {
                    put_words(whole, found.byte, words);
                    true
                }
            }
            None => false,
        }
    }

    /// The sixteen words from an address on, where all of them are in one of the three.
    #[inline(always)]
    pub(crate) fn get_words(&self, whole: &[u8], address: u32) -> Option<[u32; 16]>
        requires { AreWithin self.now whole.now }
        ensures { (table : Placed) → IsNearOf self.now table → IsPartOf table whole.now → IfSome result (λ words. AreRead table whole.now address words) }
    {
        if address % 8 != 0 {
            return None;
        }
        match self.find_part(address) {
            Some(found) => Some(get_words(whole, found.byte)),
            None => None,
        }
    }
}
