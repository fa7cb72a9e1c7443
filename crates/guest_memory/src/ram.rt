//! The memories of all partitions.

ghost use Rattle.std.specs.Prelude.{◌≡◌, ◌+◌, ◌<◌, ◌↔◌, false, true, All, IfOk, IfSome, IsNone, None, OnErr, OnOk, length, map, replicate};
ghost use Rattle.std.specs.Bool.{OnTrue};
ghost use Rattle.std.specs.FinMap.{get};
ghost use Rattle.guest_bus.specs.Access.{Stores, after_store, fetched, loaded as loaded_at, store_fault};
ghost use Rattle.guest_bus.specs.Memory.{all_from, bytes_at, is_readable, is_writable, with_bytes};
ghost use Rattle.guest_memory.specs.Loading.{LiesInAreas, memory_areas, areas_with_image, zeros_in};
ghost use Rattle.guest_memory.specs.Flips.{with_flipped};
ghost use Rattle.guest_memory.specs.Flat.{AreTables, Follow, IsMemoryTable, areas_of_tables, listed, memory_in};
ghost use Rattle.guest_memory.specs.Memories.{AreMemories, ArePlaced, HasAreas, HasBytes, SameElsewhere, answer_by, areas_at, first_refused, map_at, others_of, place_at, areas_size, whole_size, with_map, with_selected};
ghost use Rattle.xm_conf.specs.Fits.{HasSome};
ghost use Rattle.xm_conf.specs.Limits.{most_parts};

use crate::access::Access;
use crate::bytes::part;
use crate::entry::Entry;
use crate::find::place_in;
use crate::near::{Look, Near};
use crate::outside::Outside;
use crate::range::are_allowed;
use crate::table::Table;
use crate::{flip, parts, space};
use guest_bus::{Bus, BusFault, HasWords, Size};
use std::alloc::Global;
use std::marker::Model;
use xef_images::Xef;
use xm_base::{Memory, PartId, proof};
use xm_conf::{Conf, Part};

/// The memories of all partitions, by the partitions' numbers. A processor sees the memory of the partition that is
/// selected.
#[derive(Debug, Drop)]
pub struct Ram {
    bytes: Vec<u8>,
    tables: Vec<Table>,
    selected: u8,
    // The first areas of the selected partition, and another.
    near: Near,
}

impl Model for Ram {
    ghost use Rattle.std.specs.Coded.{codes};
    ghost use Rattle.guest_bus.specs.Memory.{memory_code};
    ghost use Rattle.guest_memory.specs.Flat as flat;
    ghost use Rattle.guest_memory.specs.Memories as plain;
    ghost use Rattle.guest_memory.specs.Near as nearby;

    ghost Value = { plain.Memories };

    ghost coded = { Prim.hlevel (codes, memory_code) };

    ghost view = { λ ram. flat.memories_in ram.tables.items ram.bytes.items ram.selected };

    ghost invariant = { λ ram. nearby.AreReady ram.tables.items ram.bytes.items ram.selected ram.near };
}

impl Ram {
    /// The memories of a configuration's partitions, all of zeros, with partition 0 selected. All memory is taken
    /// here: no other call needs any.
    pub fn new(alloc: Global, conf: &Conf) -> Result<Ram, Memory>
        // The memories of a configuration's partitions, all zeros, partition 0 selected.
        ensures value { IfOk result (λ ram. ram ≡ record { areas = map memory_areas conf.now.parts; maps = map zeros_in (map memory_areas conf.now.parts); selected = 0 }) }
    {
        let made = tables_of(alloc, parts_of(conf))?;
        let bytes = zeros(alloc, made.1)?;
        let first = &made.0[0];
        let near = first.near();
        Ok(Ram {
            bytes,
            tables: made.0,
            selected: 0,
            near,
        })
    }

    /// Selects the partition whose memory a processor sees.
    pub fn select(&mut self, p: PartId)
        // Called for a partition that exists.
        requires { p < length self.old.areas }
        // Another partition is selected, and nothing else changes.
        ensures value { self.new ≡ with_selected p self.old }
    {
        self.selected = p;
        let table = &self.tables[usize::from(p)];
        self.near = table.near();
    }

    /// The partition whose memory a processor sees.
    pub fn selected(&self) -> PartId
        // Which partition is selected.
        ensures value { result ≡ self.now.selected }
        // Each memory has a byte at exactly the addresses of its areas.
        ensures memories { AreMemories self.now }
    {
        self.selected
    }

    /// Copies bytes of a partition's memory from an address on, where all of them may be read.
    pub fn copy_in(&self, p: PartId, address: u32, into: &mut [u8]) -> Result<(), Outside>
        // Called for a partition that exists.
        requires { p < length self.now.areas }
        // A range is read, or refused with its first address that is not allowed (0 where that is past the last
        // address), and then nothing changed.
        ensures answer { result ≡ answer_by (first_refused (is_readable (areas_at p self.now)) address (length into.old)) }
        ensures read { OnOk result (into.new ≡ bytes_at (map_at p self.now) address (length into.old)) }
        ensures unchanged { OnErr result (into.new ≡ into.old) }
    {
        space::copy_in(self.entries(p), self.part(p), address, into)
    }

    /// This many bytes of a partition's memory from an address on, where one area has all of them.
    pub fn bytes(&self, p: PartId, address: u32, size: u32) -> Option<&[u8]>
        // Called for a partition that exists.
        requires { p < length self.now.areas }
        // The bytes of the range, or none: where no area has all of them.
        ensures value { IfSome result (λ bytes. bytes.now ≡ bytes_at (map_at p self.now) address size) }
    {
        space::bytes(self.entries(p), self.part(p), address, size as usize)
    }

    /// Writes bytes to a partition's memory from an address on, where all of them may be written.
    pub fn copy_out(&mut self, p: PartId, address: u32, from: &[u8]) -> Result<(), Outside>
        // Called for a partition that exists.
        requires { p < length self.old.areas }
        // A range is written, or refused with its first address that is not allowed (0 where that is past the last
        // address), and then nothing changed.
        ensures answer { result ≡ answer_by (first_refused (is_writable (areas_at p self.old)) address (length from.now)) }
        ensures written { OnOk result (self.new ≡ with_map p (with_bytes (map_at p self.old) address from.now) self.old) }
        ensures unchanged { OnErr result (self.new ≡ self.old) }
        // No other partition's memory changes.
        ensures others { SameElsewhere p self.old self.new }
    {
        parts::copy_out(&self.tables[usize::from(p)], &mut self.bytes, address, from)
    }

    /// Whether this many bytes of a partition's memory from an address on may be read.
    pub fn may_read(&self, p: PartId, address: u32, size: u32) -> bool
        // Called for a partition that exists.
        requires { p < length self.now.areas }
        // Whether all of a range may be read.
        ensures value { result ≡ all_from (is_readable (areas_at p self.now)) address size }
    {
        are_allowed(self.entries(p), Access::Read, address, size as usize)
    }

    /// Whether this many bytes of a partition's memory from an address on may be written.
    pub fn may_write(&self, p: PartId, address: u32, size: u32) -> bool
        // Called for a partition that exists.
        requires { p < length self.now.areas }
        // Whether all of a range may be written.
        ensures value { result ≡ all_from (is_writable (areas_at p self.now)) address size }
    {
        are_allowed(self.entries(p), Access::Write, address, size as usize)
    }

    /// Loads an image into a partition's memory, and makes all other bytes of it zero.
    pub fn reload(&mut self, p: PartId, image: &Xef)
        // Called for a partition that exists and with an image each of whose segments lies inside one of its areas.
        requires partition { p < length self.old.areas }
        requires inside { LiesInAreas (areas_at p self.old) image.now }
        // The image is loaded, with zeros in all other places.
        ensures value { self.new ≡ with_map p (areas_with_image (areas_at p self.old) image.now) self.old }
        // No other partition's memory changes.
        ensures others { SameElsewhere p self.old self.new }
    {
        parts::reload(&self.tables[usize::from(p)], &mut self.bytes, image);
    }

    /// A bit of the byte at an address of a partition's memory flips. The byte may be read-only.
    pub fn flip(&mut self, p: PartId, address: u32, bit: u8)
        // Called for a partition that exists, for an address of one of its areas, and for one of the eight bits of a
        // byte.
        requires partition { p < length self.old.areas }
        requires readable { is_readable (areas_at p self.old) address ≡ true }
        requires bit { bit < 8 }
        // The bit flips, and no other bit of the memory.
        ensures value { self.new ≡ with_map p (with_flipped address bit (map_at p self.old)) self.old }
        // No other partition's memory changes.
        ensures others { SameElsewhere p self.old self.new }
    {
        flip::flip(&self.tables[usize::from(p)], &mut self.bytes, address, bit);
    }

    /// Writes bytes to a partition's memory from an address on, in areas that may only be read, too.
    pub fn put(&mut self, p: PartId, address: u32, bytes: &[u8])
        // Called for a partition that exists, and for a range of addresses each of which is in one of its areas.
        requires partition { p < length self.old.areas }
        requires readable { all_from (is_readable (areas_at p self.old)) address (length bytes.now) ≡ true }
        // The bytes are written, and no other byte changes.
        ensures value { self.new ≡ with_map p (with_bytes (map_at p self.old) address bytes.now) self.old }
        // No other partition's memory changes.
        ensures others { SameElsewhere p self.old self.new }
    {
        parts::put(
            &self.tables[usize::from(p)],
            &mut self.bytes,
            address,
            bytes,
        );
    }

    /// The byte at an address of a partition's memory, or `None` where none of its areas has the address.
    pub fn byte(&self, p: PartId, address: u32) -> Option<u8>
        // Called for a partition that exists.
        requires { p < length self.now.areas }
        // The byte at an address, none exactly in no area.
        ensures value { result ≡ get (map_at p self.now) address }
        ensures none { IsNone result ↔ (is_readable (areas_at p self.now) address ≡ false) }
        // Each memory has a byte at exactly the addresses of its areas.
        ensures memories { AreMemories self.now }
    {
        space::byte(self.entries(p), self.part(p), address)
    }

    /// The bytes of all areas, one area after the other, in order of partition and area.
    pub fn whole(&self) -> &[u8]
        // The bytes of all areas, one area after the other in order of partition and area: as many as all areas have,
        // those of an area from its place on, and the byte at each of its addresses.
        ensures size { length result.now ≡ whole_size self.now.areas }
        ensures bytes { HasBytes self.now result.now }
        ensures areas { HasAreas self.now result.now }
    {
        &self.bytes
    }

    /// How many of these bytes stand before those of an area of a partition.
    pub fn place(&self, p: PartId, area: u8) -> u32
        // Called for a partition that exists and for one of its areas.
        requires partition { p < length self.now.areas }
        requires area { area < length (areas_at p self.now) }
        // The place of an area: how many bytes all areas before it have.
        ensures value { result ≡ place_at p area self.now }
    {
        let table = &self.tables[usize::from(p)];
        let number = usize::from(area);
        table.place() + place_in(table.entries(), number)
    }

    /// The word that a fetch in the selected partition's memory answers.
    #[inline(always)]
    fn fetched(&self, address: u32) -> Result<u32, BusFault>
        ensures value { result ≡ fetched (areas_at self.now.selected self.now) (map_at self.now.selected self.now) address }
        ensures memories { AreMemories self.now }
    {
        match self.near.fetched(Look::FirstTwo, &self.bytes, address) {
            Some(word) => Ok(word),
            None => self.fetch_elsewhere(address),
        }
    }

    /// The value that a load from the selected partition's memory answers.
    #[inline(always)]
    fn loaded(&mut self, address: u32, size: Size) -> Result<u64, BusFault>
        ensures value { result ≡ loaded_at (areas_at self.old.selected self.old) (map_at self.old.selected self.old) address size }
        ensures memories { AreMemories self.old }
        ensures unchanged { self.new ≡ self.old }
    {
        match self.near.loaded(Look::FirstTwo, &self.bytes, address, size) {
            Some(value) => Ok(value),
            None => self.load_elsewhere(address, size),
        }
    }

    /// The same where neither of the first two areas has the address.
    #[cold]
    #[inline(never)]
    fn fetch_elsewhere(&self, address: u32) -> Result<u32, BusFault>
        ensures value { result ≡ fetched (areas_at self.now.selected self.now) (map_at self.now.selected self.now) address }
    {
        match self.near.fetched(Look::Third, &self.bytes, address) {
            Some(word) => Ok(word),
            None => self.search_and_fetch(address),
        }
    }

    /// The same where neither of the first two areas has the address.
    #[cold]
    #[inline(never)]
    fn load_elsewhere(&mut self, address: u32, size: Size) -> Result<u64, BusFault>
        ensures value { result ≡ loaded_at (areas_at self.old.selected self.old) (map_at self.old.selected self.old) address size }
        ensures unchanged { self.new ≡ self.old }
    {
        match self.near.loaded(Look::Third, &self.bytes, address, size) {
            Some(value) => Ok(value),
            None => self.remember_and_load(address, size),
        }
    }

    /// The word that a fetch in the selected partition's memory answers, by a search.
    #[inline(always)]
    fn search_and_fetch(&self, address: u32) -> Result<u32, BusFault>
        ensures value { result ≡ fetched (areas_at self.now.selected self.now) (map_at self.now.selected self.now) address }
    {
        let p = self.selected();
        space::fetch(self.entries(p), self.part(p), address)
    }

    /// The value that a load from the selected partition's memory answers, by a search.
    #[inline(always)]
    fn search_and_load(&self, address: u32, size: Size) -> Result<u64, BusFault>
        ensures value { result ≡ loaded_at (areas_at self.now.selected self.now) (map_at self.now.selected self.now) address size }
    {
        let p = self.selected();
        space::load(self.entries(p), self.part(p), address, size)
    }

    /// The same. The area that has the address is one of those that are looked at first from now on.
    #[cold]
    #[inline(never)]
    fn remember_and_load(&mut self, address: u32, size: Size) -> Result<u64, BusFault>
        ensures value { result ≡ loaded_at (areas_at self.old.selected self.old) (map_at self.old.selected self.old) address size }
        ensures unchanged { self.new ≡ self.old }
    {
        self.remember(address);
        self.search_and_load(address, size)
    }

    /// Stores a value in the selected partition's memory, where one of the first two areas has its place and may be written. The answer is
    /// whether it did.
    #[inline(always)]
    fn stored_near(&mut self, address: u32, size: Size, value: u64) -> bool
        ensures fault { OnTrue result (store_fault (areas_at self.old.selected self.old) address size ≡ None) }
        ensures memory { OnTrue result (self.new ≡ with_map self.old.selected (after_store (areas_at self.old.selected self.old) (map_at self.old.selected self.old) address size value) self.old) }
        ensures not_done { result ≡ false → self.new ≡ self.old }
        ensures memories { AreMemories self.new }
    {
        proof! { let _table = &self.tables[usize::from(self.selected)]; }
        self.near
            .stored(Look::FirstTwo, &mut self.bytes, address, size, value)
    }

    /// Stores a value in the selected partition's memory where nothing refuses it. The area of its place, which is none of the first two, is
    /// one of those that are looked at first from now on.
    #[cold]
    #[inline(never)]
    fn store_elsewhere(&mut self, address: u32, size: Size, value: u64) -> Result<(), BusFault>
        ensures fault { Stores result (store_fault (areas_at self.old.selected self.old) address size) }
        ensures memory { self.new ≡ with_map self.old.selected (after_store (areas_at self.old.selected self.old) (map_at self.old.selected self.old) address size value) self.old }
        ensures memories { AreMemories self.new }
    {
        let table = &self.tables[usize::from(self.selected)];
        parts::store(&mut self.near, table, &mut self.bytes, address, size, value)
    }

    // The area that has an address is one of those that are looked at first from now on.
    fn remember(&mut self, address: u32)
        ensures { self.new ≡ self.old }
    {
        let table = &self.tables[usize::from(self.selected)];
        self.near = table.near_at(address);
    }

    /// The areas of a partition.
    fn entries(&self, p: PartId) -> &[Entry]
        requires { p < length self.now.areas }
        ensures areas { listed result.now ≡ areas_at p self.now }
        ensures placed { ArePlaced (listed result.now) }
        ensures follow { Follow 0 result.now }
        ensures memories { AreMemories self.now }
    {
        self.tables[usize::from(p)].entries()
    }

    /// The bytes of a partition.
    fn part(&self, p: PartId) -> &[u8]
        requires { p < length self.now.areas }
        ensures size { length result.now ≡ areas_size (areas_at p self.now) }
        ensures map { map_at p self.now ≡ memory_in (areas_at p self.now) result.now }
    {
        let table = &self.tables[usize::from(p)];
        part(&self.bytes, table.place() as usize, table.size() as usize)
    }
}

impl Bus for Ram {
    ghost areas = { λ ram. areas_at ram.selected ram };

    ghost memory = { λ ram. map_at ram.selected ram };

    ghost others = { λ ram. others_of ram };

    #[inline(always)]
    fn fetch(&mut self, address: u32) -> Result<u32, BusFault> {
        self.fetched(address)
    }

    #[inline(always)]
    fn load(&mut self, address: u32, size: Size) -> Result<u64, BusFault> {
        self.loaded(address, size)
    }

    #[inline(always)]
    fn store(&mut self, address: u32, size: Size, value: u64) -> Result<(), BusFault> {
        if self.stored_near(address, size, value) {
            Ok(())
        } else {
            self.store_elsewhere(address, size, value)
        }
    }
}

impl HasWords for Ram {
    #[inline(always)]
    fn put_words(&mut self, address: u32, words: &[u32; 16]) -> bool {
        self.near.put_words(&mut self.bytes, address, words)
    }

    #[inline(always)]
    fn get_words(&self, address: u32) -> Option<[u32; 16]> {
        self.near.get_words(&self.bytes, address)
    }
}

/// The partitions of a configuration.
#[tactic(auto, unfolding(xm_conf::specs::Description::described))]
fn parts_of(conf: &Conf) -> &[Part]
    ensures value { result.now ≡ conf.now.parts }
    ensures counted { HasSome result.now most_parts }
    ensures placed { All ArePlaced (map memory_areas result.now) }
    ensures few { whole_size (map memory_areas result.now) < 4294967296 }
{
    &conf.raw().parts
}

/// The tables of partitions, and how many bytes these have together.
fn tables_of(alloc: Global, parts: &[Part]) -> Result<(Vec<Table>, u32), Memory>
    requires { whole_size (map memory_areas parts.now) < 4294967296 }
    ensures areas { IfOk result (λ made. areas_of_tables made.0.items ≡ map memory_areas parts.now) }
    ensures tables { IfOk result (λ made. AreTables 0 made.0.items) }
    ensures size { IfOk result (λ made. made.1 ≡ whole_size (map memory_areas parts.now)) }
{
    let mut tables = Vec::with_capacity(alloc, parts.len())?;
    let mut place = 0;
    for part in parts {
        let table = table_of(alloc, part, place)?;
        place += table.size();
        tables.push_reserved(table);
    }
    Ok((tables, place))
}

/// The table of a partition whose bytes lie from a place on.
#[tactic(auto, unfolding(crate::specs::Loading::memory_areas))]
fn table_of(alloc: Global, part: &Part, place: u32) -> Result<Table, Memory>
    requires { place + areas_size (memory_areas part.now) < 4294967296 }
    ensures areas { IfOk result (λ table. listed table.entries ≡ memory_areas part.now) }
    ensures table { IfOk result (λ table. IsMemoryTable place table) }
{
    Ok(Table::new(alloc, &part.areas, place)?)
}

/// This many zeros.
fn zeros(alloc: Global, size: u32) -> Result<Vec<u8>, Memory>
    ensures { IfOk result (λ bytes. bytes.items ≡ replicate size 0) }
{
    Ok(vec![in alloc; 0; size as usize]?)
}
