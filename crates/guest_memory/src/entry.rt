//! Where an area's bytes lie.

ghost use Rattle.std.specs.Prelude.{◌≡◌, true};
ghost use Rattle.guest_memory.specs.lemmas.FlatTerms.{StandsInEntry, entry_holds};
ghost use Rattle.guest_memory.specs.Flat.{area_in};
ghost use Rattle.guest_memory.specs.Loading.{area_of};

use xm_conf::Area;

/// An area, and how many of its partition's bytes lie before its own.
#[derive(Clone, Copy, Debug)]
pub(crate) struct Entry {
    pub(crate) start: u32,
    pub(crate) size: u32,
    pub(crate) place: u32,
    pub(crate) read_only: bool,
}

/// Where a byte lies: the number of its area, how many of the partition's bytes lie before it, how many of the area's
/// lie from it on, and whether the area may only be read.
#[derive(Clone, Copy, Debug)]
pub(crate) struct Place {
    pub(crate) area: usize,
    pub(crate) byte: usize,
    pub(crate) room: usize,
    pub(crate) read_only: bool,
}

impl Entry {
    /// A configured area at a place.
    pub(crate) fn new(area: &Area, place: u32) -> Entry
        ensures area { area_in result ≡ area_of area.now }
        ensures place { result.place ≡ place }
    {
        Entry {
            start: area.start,
            size: area.size,
            place,
            read_only: area.read_only,
        }
    }

    /// How many of its partition's bytes lie before its own.
    pub(crate) fn place(&self) -> u32
        ensures { result ≡ self.now.place }
    {
        self.place
    }

    /// Whether it has an address.
    pub(crate) fn has(&self, address: u64) -> bool
        ensures { result ≡ entry_holds address self.now }
    {
        address.wrapping_sub(u64::from(self.start)) < u64::from(self.size)
    }

    /// Where the byte at an address of it lies, as the area of a number.
    pub(crate) fn place_of(&self, area: usize, address: u64) -> Place
        requires { entry_holds address self.now ≡ true }
        ensures area { result.area ≡ area }
        ensures stands { StandsInEntry address 1 result self.now }
    {
        let at = address.wrapping_sub(u64::from(self.start)) as usize;
        Place {
            area,
            byte: self.place as usize + at,
            room: self.size as usize - at,
            read_only: self.read_only,
        }
    }
}
