//! Where the bytes of a partition's areas lie.

ghost use Rattle.std.specs.Prelude.{◌≡◌, ◌+◌, ◌<◌, IfOk, map};
ghost use Rattle.guest_memory.specs.Flat.{IsMemoryTable, listed};
ghost use Rattle.guest_memory.specs.Loading.{area_of};
ghost use Rattle.guest_memory.specs.Memories.{areas_size};
ghost use Rattle.guest_memory.specs.Near.{IsNearOf};

use crate::entry::Entry;
use crate::find::place_of;
use crate::near::Near;
use std::alloc::{AllocError, Global};
use std::marker::Model;
use xm_conf::Area;

/// The areas of one partition. Their bytes lie one after the other, from a place of all bytes on.
#[derive(Debug, Drop)]
pub(crate) struct Table {
    place: u32,
    size: u32,
    entries: Vec<Entry>,
    // Those of its areas that are looked at first, made once: they are copied where the partition is selected.
    near: Near,
}

impl Model for Table {
    ghost use Rattle.std.specs.Prelude.{◌≡◌};
    ghost use Rattle.guest_memory.specs.Flat as plain;
    ghost use Rattle.guest_memory.specs.Near as nearby;

    ghost Value = { plain.Table };

    ghost view = { λ table. record { place = table.place; size = table.size; entries = table.entries.items } };

    ghost invariant = { λ table. table.near ≡ nearby.near_in table.entries.items table.place 2 };
}

impl Table {
    /// The areas of a partition, whose bytes lie from a place on.
    pub(crate) fn new(alloc: Global, areas: &[Area], place: u32) -> Result<Table, AllocError>
        requires { place + areas_size (map area_of areas.now) < 4294967296 }
        ensures areas { IfOk result (λ table. listed table.entries ≡ map area_of areas.now) }
        ensures table { IfOk result (λ table. IsMemoryTable place table) }
    {
        let mut entries = Vec::with_capacity(alloc, areas.len())?;
        let mut size = 0;
        for area in areas {
            entries.push_reserved(Entry::new(area, size));
            size += area.size;
        }
        let near = Near::of(&entries, place, 2);
        Ok(Table {
            place,
            size,
            entries,
            near,
        })
    }

    /// How many bytes of all lie before those of the partition.
    pub(crate) fn place(&self) -> u32
        ensures { result ≡ self.now.place }
    {
        self.place
    }

    /// How many bytes the partition has.
    pub(crate) fn size(&self) -> u32
        ensures { result ≡ self.now.size }
    {
        self.size
    }

    /// Its areas.
    pub(crate) fn entries(&self) -> &[Entry]
        ensures { result.now ≡ self.now.entries }
    {
        &self.entries
    }

    /// Those of its areas that are looked at first.
    pub(crate) fn near(&self) -> Near
        ensures { IsNearOf result self.now }
    {
        self.near
    }

    /// The same with the area that has an address among them, where there is one.
    pub(crate) fn near_at(&self, address: u32) -> Near
        ensures { IsNearOf result self.now }
    {
        match place_of(&self.entries, u64::from(address)) {
            Some(place) => Near::of(&self.entries, self.place, place.area),
            None => self.near,
        }
    }
}
