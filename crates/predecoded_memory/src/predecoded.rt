//! The memories of all partitions, with rows of their words.

ghost use Rattle.std.specs.Prelude.{◌≡◌, ◌*◌, ◌+◌, ◌<◌, ◌≤◌, true, All, IfOk, IfSome, Ok, OnErr, OnOk, length, map, slice_set};
ghost use Rattle.std.specs.Bool.{OnTrue};
ghost use Rattle.fast_loop.specs.Runs.{AreSteps, IsCall};
ghost use Rattle.guest_bus.specs.Access.{fetched};
ghost use Rattle.guest_bus.specs.Memory.{all_from, bytes_at, is_readable, is_writable, with_bytes};
ghost use Rattle.guest_memory.specs.Flips.{with_flipped};
ghost use Rattle.guest_memory.specs.Loading.{LiesInAreas, area_of, areas_with_image, memory_areas, zeros_in};
ghost use Rattle.guest_memory.specs.Memories.{AreMemories, ArePlaced, SameElsewhere, answer_by, areas_at, first_refused, map_at, others_of, with_map, with_selected};
ghost use Rattle.predecoded_memory.specs.lemmas.SharesTerms.{AreEmpty};
ghost use Rattle.predecoded_memory.specs.Shares.{AreParts, ArePartRows, first_address, highest, lowest, span_of, widest};

use crate::emptied::{empty_stored, empty_words};
use crate::making::{lengths_of, prepared};
use crate::share::{PartRows, numbered, share_for, word_after};
use fast_loop::{RunEnd, Runs, run_rows};
use guest_bus::{Bus, BusFault, HasWords, Size};
use guest_memory::{Outside, Ram};
use predecode::Row;
use sparc_step::Processor;
use std::alloc::{AllocError, Global};
use std::marker::Model;
use xef_images::Xef;
use xm_base::{Memory, PartId, proof};
use xm_conf::{Area, Conf, Part};

/// The memories of all partitions, with rows of the words from each partition's first address on. A row is empty, or that of
/// its word: each write of a word empties its row. What rows there are is no part of what memories mean.
#[derive(Debug, Drop)]
pub struct PredecodedRam {
    ram: Ram,
    // Those of a partition stand one after the other, and after those of the partitions before it.
    rows: Vec<Row>,
    // For each row the length of the block that begins there, as `fast_loop` has it.
    lengths: Vec<u8>,
    // Where those of each partition are.
    parts: Vec<PartRows>,
    // The number of words of each partition that have rows: no more than the widest has.
    share: usize,
    // The number of first rows of each partition that may have been made: all rows after them are empty.
    top: usize,
    // Where those of the selected partition are.
    own: PartRows,
}

impl Model for PredecodedRam {
    ghost use Rattle.std.specs.Coded.{codes};
    ghost use Rattle.guest_bus.specs.Memory.{memory_code};
    ghost use Rattle.guest_memory.specs.Memories.{Memories};
    ghost use Rattle.predecoded_memory.specs.Shares.{AreKept};

    ghost Value = { Memories };

    ghost coded = { Prim.hlevel (codes, memory_code) };

    ghost view = { λ kept. kept.ram };

    ghost invariant = { λ kept. AreKept kept.ram kept.rows.items kept.lengths.items kept.parts.items kept.share kept.top kept.own };
}

impl PredecodedRam {
    /// The memories of a configuration's partitions, all of zeros, with partition 0 selected. All memory is taken
    /// here: no other call needs any.
    pub fn new(alloc: Global, conf: &Conf) -> Result<PredecodedRam, Memory>
        // As `Ram::new` of `guest_memory`: the memories of the configuration's partitions, all zeros, partition 0
        // selected.
        ensures value { IfOk result (λ kept. kept ≡ record { areas = map memory_areas conf.now.parts; maps = map zeros_in (map memory_areas conf.now.parts); selected = 0 }) }
    {
        let ram = Ram::new(alloc, conf)?;
        proof! { let _zeros = ram.selected(); }
        let described = parts_of(conf);
        let share = share_for(described.len(), widest(described));
        let parts = rows_of(alloc, described, share)?;
        let rows = empty_rows(alloc, described.len() * share)?;
        let lengths = lengths_of(alloc, described.len() * share)?;
        let own = parts[0];
        Ok(PredecodedRam {
            ram,
            rows,
            lengths,
            parts,
            share,
            top: 0,
            own,
        })
    }

    /// The memories without the rows.
    pub fn ram(&self) -> &Ram
        ensures { result.now ≡ self.now }
    {
        &self.ram
    }

    /// Selects the partition whose memory a processor sees.
    pub fn select(&mut self, p: PartId)
        // Called for a partition that exists.
        requires { p < length self.old.areas }
        // As `Ram::select`: another partition is selected, and nothing else changes.
        ensures value { self.new ≡ with_selected p self.old }
    {
        self.ram.select(p);
        proof! { let _now = self.ram.selected(); }
        self.own = self.parts[usize::from(p)];
    }

    /// The partition whose memory a processor sees.
    pub fn selected(&self) -> PartId
        // As `Ram::selected`: which partition is selected.
        ensures value { result ≡ self.now.selected }
        // Each memory has a byte at exactly the addresses of its areas.
        ensures memories { AreMemories self.now }
    {
        self.ram.selected()
    }

    /// Copies bytes of a partition's memory from an address on, where all of them may be read.
    pub fn copy_in(&self, p: PartId, address: u32, into: &mut [u8]) -> Result<(), Outside>
        // Called for a partition that exists.
        requires { p < length self.now.areas }
        // As `Ram::copy_in`: a range is read, or refused with its first address that is not allowed, and then nothing
        // changed.
        ensures answer { result ≡ answer_by (first_refused (is_readable (areas_at p self.now)) address (length into.old)) }
        ensures read { OnOk result (into.new ≡ bytes_at (map_at p self.now) address (length into.old)) }
        ensures unchanged { OnErr result (into.new ≡ into.old) }
    {
        self.ram.copy_in(p, address, into)
    }

    /// This many bytes of a partition's memory from an address on, where one area has all of them.
    pub fn bytes(&self, p: PartId, address: u32, size: u32) -> Option<&[u8]>
        // Called for a partition that exists.
        requires { p < length self.now.areas }
        // As `Ram::bytes`: the bytes of the range, or none: where no area has all of them.
        ensures value { IfSome result (λ bytes. bytes.now ≡ bytes_at (map_at p self.now) address size) }
    {
        self.ram.bytes(p, address, size)
    }

    /// Writes bytes to a partition's memory from an address on, where all of them may be written.
    pub fn copy_out(&mut self, p: PartId, address: u32, from: &[u8]) -> Result<(), Outside>
        // Called for a partition that exists.
        requires { p < length self.old.areas }
        // As `Ram::copy_out`: a range is written, or refused with its first address that is not allowed, and then
        // nothing changed.
        ensures answer { result ≡ answer_by (first_refused (is_writable (areas_at p self.old)) address (length from.now)) }
        ensures written { OnOk result (self.new ≡ with_map p (with_bytes (map_at p self.old) address from.now) self.old) }
        ensures unchanged { OnErr result (self.new ≡ self.old) }
        // No other partition's memory changes.
        ensures others { SameElsewhere p self.old self.new }
    {
        let part = self.parts[usize::from(p)];
        let place = word_after(part.first, address);
        // The bytes begin and end within words.
        let count = from.len() / 4 + 2;
        empty_words(&mut self.rows, part.words.begin, self.top, place, count);
        let copied = self.ram.copy_out(p, address, from);
        proof! { let _now = self.ram.selected(); }
        copied
    }

    /// Whether this many bytes of a partition's memory from an address on may be read.
    pub fn may_read(&self, p: PartId, address: u32, size: u32) -> bool
        // Called for a partition that exists.
        requires { p < length self.now.areas }
        // As `Ram::may_read`: whether all of a range may be read.
        ensures value { result ≡ all_from (is_readable (areas_at p self.now)) address size }
    {
        self.ram.may_read(p, address, size)
    }

    /// Whether this many bytes of a partition's memory from an address on may be written.
    pub fn may_write(&self, p: PartId, address: u32, size: u32) -> bool
        // Called for a partition that exists.
        requires { p < length self.now.areas }
        // As `Ram::may_write`: whether all of a range may be written.
        ensures value { result ≡ all_from (is_writable (areas_at p self.now)) address size }
    {
        self.ram.may_write(p, address, size)
    }

    /// Loads an image into a partition's memory, and makes all other bytes of it zero.
    pub fn reload(&mut self, p: PartId, image: &Xef)
        // Called for a partition that exists and with an image each of whose segments lies inside one of its areas.
        requires partition { p < length self.old.areas }
        requires inside { LiesInAreas (areas_at p self.old) image.now }
        // As `Ram::reload`: the image is loaded, with zeros in all other places.
        ensures value { self.new ≡ with_map p (areas_with_image (areas_at p self.old) image.now) self.old }
        // No other partition's memory changes.
        ensures others { SameElsewhere p self.old self.new }
    {
        let base = self.parts[usize::from(p)].words.begin;
        empty_words(&mut self.rows, base, self.top, 0, self.top);
        self.ram.reload(p, image);
        proof! { let _now = self.ram.selected(); }
    }

    /// A bit of the byte at an address of a partition's memory flips. The byte may be read-only.
    pub fn flip(&mut self, p: PartId, address: u32, bit: u8)
        // Called for a partition that exists, for an address of one of its areas, and for one of the eight bits of a
        // byte.
        requires partition { p < length self.old.areas }
        requires readable { is_readable (areas_at p self.old) address ≡ true }
        requires bit { bit < 8 }
        // As `Ram::flip`: the bit flips, and no other bit of the memory. A word with a flipped bit is executed as the
        // new word.
        ensures value { self.new ≡ with_map p (with_flipped address bit (map_at p self.old)) self.old }
        // No other partition's memory changes.
        ensures others { SameElsewhere p self.old self.new }
    {
        let part = self.parts[usize::from(p)];
        let place = word_after(part.first, address);
        empty_words(&mut self.rows, part.words.begin, self.top, place, 1);
        self.ram.flip(p, address, bit);
        proof! { let _now = self.ram.selected(); }
    }

    // Instructions of the selected partition, by the rows that there are.
    #[inline(always)]
    fn go(&mut self, own: &mut Processor, most: u64) -> RunEnd
        ensures steps { AreSteps result.went (areas_at self.old.selected self.old) own.old (map_at self.old.selected self.old) own.new (map_at self.new.selected self.new) }
        ensures few { result.went ≤ most }
        ensures room { OnTrue result.calls (result.went < most) }
        ensures call { OnTrue result.calls (IsCall (areas_at self.old.selected self.old) own.new (map_at self.new.selected self.new)) }
        ensures areas { areas_at self.new.selected self.new ≡ areas_at self.old.selected self.old }
        ensures others { others_of self.new ≡ others_of self.old }
    {
        let begin = self.own.words.begin;
        let end = (begin + self.top).min(self.own.words.end);
        let ran = run_rows(
            own,
            &self.rows[begin..end],
            &self.lengths[begin..end],
            &mut self.ram,
            self.own.first,
            most,
        );
        proof! { let _now = self.ram.selected(); }
        ran
    }

    // Makes the rows of the block that begins at an address, where its words have rows.
    #[cold]
    #[inline(never)]
    fn prepare(&mut self, address: u32)
        ensures { self.new ≡ self.old }
    {
        if address < self.own.first {
            return;
        }
        let place = word_after(self.own.first, address);
        let begin = self.own.words.begin;
        let end = self.own.words.end;
        if begin + place >= end {
            return;
        }
        let top = prepared(
            &mut self.rows[begin..end],
            &mut self.lengths[begin..end],
            &mut self.ram,
            self.own.first,
            place,
        );
        self.top = self.top.max(top);
    }
}

impl Bus for PredecodedRam {
    ghost areas = { λ kept. areas_at kept.selected kept };

    ghost memory = { λ kept. map_at kept.selected kept };

    ghost others = { λ kept. others_of kept };

    #[inline(always)]
    fn fetch(&mut self, address: u32) -> Result<u32, BusFault> {
        let word = self.ram.fetch(address);
        proof! { let _now = self.ram.selected(); }
        word
    }

    #[inline(always)]
    fn load(&mut self, address: u32, size: Size) -> Result<u64, BusFault> {
        let value = self.ram.load(address, size);
        proof! { let _now = self.ram.selected(); }
        value
    }

    #[inline(always)]
    fn store(&mut self, address: u32, size: Size, value: u64) -> Result<(), BusFault> {
        let place = word_after(self.own.first, address);
        let base = self.own.words.begin;
        empty_stored(&mut self.rows, base, self.top, place, size);
        let stored = self.ram.store(address, size, value);
        proof! { let _now = self.ram.selected(); }
        stored
    }
}

impl HasWords for PredecodedRam {
    #[inline(always)]
    fn put_words(&mut self, address: u32, words: &[u32; 16]) -> bool {
        let place = word_after(self.own.first, address);
        let base = self.own.words.begin;
        empty_words(&mut self.rows, base, self.top, place, 16);
        let done = self.ram.put_words(address, words);
        proof! { let _now = self.ram.selected(); }
        done
    }

    #[inline(always)]
    fn get_words(&self, address: u32) -> Option<[u32; 16]> {
        self.ram.get_words(address)
    }
}

impl Runs for PredecodedRam {
    // The rows that are wanted are there when it is called again.
    #[inline(always)]
    fn run(&mut self, own: &mut Processor, most: u64) -> RunEnd {
        let ran = self.go(own, most);
        if ran.unmade {
            self.prepare(own.pc());
        }
        ran
    }
}

// This many rows, all of them empty.
fn empty_rows(alloc: Global, count: usize) -> Result<Vec<Row>, AllocError>
    ensures counted { IfOk result (λ rows. length rows.items ≡ count) }
    ensures empty { IfOk result (λ rows. AreEmpty rows.items) }
{
    let rows = vec![in alloc; Row::EMPTY; count]?;
    Ok(rows)
}

// The partitions of a configuration.
fn parts_of(conf: &Conf) -> &[Part]
    ensures { result.now ≡ conf.now.parts }
{
    &conf.raw().parts
}

// Where the rows of partitions are, each of which has this many.
fn rows_of(alloc: Global, parts: &[Part], share: usize) -> Result<Vec<PartRows>, AllocError>
    requires placed { All ArePlaced (map memory_areas parts.now) }
    requires share { length parts.now * share ≤ 1048576 }
    ensures { IfOk result (λ found. AreParts share (map memory_areas parts.now) found.items) }
{
    let mut found = Vec::with_capacity(alloc, parts.len())?;
    let mut base = 0;
    for part in parts {
        found.push_reserved(rows_in(part, base, share));
        base += share;
    }
    Ok(found)
}

// How many words the widest of these partitions has.
fn widest(parts: &[Part]) -> usize
    ensures { result ≡ widest 0 (map memory_areas parts.now) }
{
    let mut most = 0;
    for part in parts {
        most = most.max(span_in(part));
    }
    most
}

// How many words lie from the lowest address of a partition to the end of its last area.
#[tactic(auto, unfolding(guest_memory::specs::Loading::memory_areas))]
fn span_in(part: &Part) -> usize
    ensures { result ≡ span_of (memory_areas part.now) }
{
    span_of(&part.areas)
}

// The same by its areas.
#[tactic(auto, unfolding(crate::specs::Shares::span_of))]
fn span_of(areas: &[Area]) -> usize
    ensures { result ≡ span_of (map area_of areas.now) }
{
    let first = u64::from(first_address(areas));
    (highest(areas).saturating_sub(first) / 4) as usize
}

// Where the last of areas ends.
fn highest(areas: &[Area]) -> u64
    ensures { result ≡ highest 0 (map area_of areas.now) }
{
    let mut most = 0;
    for area in areas {
        most = most.max(u64::from(area.start) + u64::from(area.size));
    }
    most
}

// Where those of a partition are, before which this many others stand.
fn rows_in(part: &Part, base: usize, share: usize) -> PartRows
    requires placed { ArePlaced (memory_areas part.now) }
    requires base { base + share ≤ 1048576 }
    ensures { ArePartRows share base (memory_areas part.now) result }
{
    let first = first_in(part);
    PartRows {
        first,
        words: numbered(first, base, share),
    }
}

// The lowest address of a partition.
#[tactic(auto, unfolding(guest_memory::specs::Loading::memory_areas))]
fn first_in(part: &Part) -> u32
    ensures { result ≡ first_address (memory_areas part.now) }
{
    first_address(&part.areas)
}

// The lowest address of areas.
fn first_address(areas: &[Area]) -> u32
    ensures { result ≡ first_address (map area_of areas.now) }
{
    match areas.split_first() {
        Some((first, others)) => lowest(first.start, others),
        None => 0,
    }
}

// The least of an address and those where areas begin.
fn lowest(from: u32, areas: &[Area]) -> u32
    ensures { result ≡ lowest from (map area_of areas.now) }
{
    let mut least = from;
    for area in areas {
        least = least.min(area.start);
    }
    least
}

impl PredecodedRam {
    /// Writes bytes to a partition's memory from an address on, in areas that may only be read, too.
    pub fn put(&mut self, p: PartId, address: u32, bytes: &[u8])
        // Called for a partition that exists, and for a range of addresses each of which is in one of its areas.
        requires partition { p < length self.old.areas }
        requires readable { all_from (is_readable (areas_at p self.old)) address (length bytes.now) ≡ true }
        // As `Ram::put`: the bytes are written, and no other byte changes. A word of them is executed as the new word.
        ensures value { self.new ≡ with_map p (with_bytes (map_at p self.old) address bytes.now) self.old }
        // No other partition's memory changes.
        ensures others { SameElsewhere p self.old self.new }
    {
        let part = self.parts[usize::from(p)];
        let place = word_after(part.first, address);
        // The bytes begin and end within words.
        let count = bytes.len() / 4 + 2;
        empty_words(&mut self.rows, part.words.begin, self.top, place, count);
        self.ram.put(p, address, bytes);
        proof! { let _now = self.ram.selected(); }
    }
}
