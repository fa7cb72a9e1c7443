//! What a machine keeps of its last tick, and what each partition received in it.

ghost use Rattle.std.specs.Prelude.{◌≡◌, ◌+◌, ◌-◌, ◌<◌, ◌≤◌, [], IfOk, false, length, take, true};
ghost use Rattle.guest_bus.specs.Memory.{all_from, bytes_at, is_readable};
ghost use Rattle.machine_model.specs.Machine.{run, turn_here};
ghost use Rattle.system_state.specs.Serving.{CanBeEmitted};
ghost use Rattle.system_state.specs.State.{areas_in, memory_of};
ghost use Rattle.tick_steps.specs.CueValues.{cue_value};
ghost use Rattle.tick_steps.specs.lemmas.KeptTerms.{bytes_noted};
ghost use Rattle.tick_steps.specs.Kept.{AreBareTicks, kept_cue, kept_tick, no_kept, slot_partition};
ghost use Rattle.tick_steps.specs.Machine.{IsMachine};
ghost use Rattle.span_engine.specs.Place.{IsPlace};
ghost use Rattle.span_engine.specs.Spans.{IsSpanDone};

use crate::place::{Place, place_of};
use crate::receiving::{is_slot_of, mine_of, order_for, sight_of, traffic_heard};
use crate::slot::run_span;
use cyclic_plans::Here;
use hypercalls::{Note, Sys};
use machine_model::{
    keeps_facts, keeps_hardware_clock, keeps_numbers, keeps_plans, trades_few_bytes,
};
use std::alloc::Global;
use std::marker::Model;
use system_state::read_memory;
use tick_steps::{Beyond, Cue, Lines, Sight, Span, Traffic, whole_of};
use xm_base::{Memory, PartId, TICKS, proof};
use xm_conf::Conf;

/// How many bytes a message has at most. What a partition is shown has fewer.
const MESSAGE_BYTES: usize = 4096;

/// What a machine keeps of its last tick. All room for it is taken when it is made.
#[derive(Debug, Drop)]
pub struct Engine {
    /// The slot that the tick was in.
    slot: Option<Here>,
    /// The ticks of which it was the last.
    span: Span,
    /// Room for the bytes that the note named.
    bytes: Vec<u8>,
    /// How many they are.
    size: usize,
}

impl Model for Engine {
    ghost use Rattle.std.specs.Prelude.{◌≡◌, ◌≤◌, length, take};
    ghost use Rattle.machine_model.specs.Machine.{turn_here};
    ghost use Rattle.tick_steps.specs.Kept as plain;
    ghost use Rattle.tick_steps.specs.Kept.{kept_with};

    ghost Value = { plain.KeptTick };

    ghost view = { λ k. kept_with (turn_here k.slot) k.span.worked k.span.note k.span.reach (take k.size k.bytes.items) };

    ghost invariant = { λ k. (length k.bytes.items ≡ 4096) × (k.size ≤ 4096) };
}

impl Engine {
    /// Nothing, as before the first tick.
    pub fn new(alloc: Global) -> Result<Engine, Memory>
        // Nothing is kept before the first tick.
        ensures { IfOk result (λ kept. kept ≡ no_kept) }
    {
        Ok(Engine {
            slot: None,
            span: Span::quiet(0, 0, false, Beyond::Nothing),
            bytes: room(alloc, MESSAGE_BYTES)?,
            size: 0,
        })
    }

    /// The place of a system in its plan. The slot of the last tick and the one after it are looked at first.
    #[inline(always)]
    pub fn place_of(&self, sys: &Sys) -> Place
        // Called for the system of a machine.
        requires { IsMachine sys.now }
        // Where a machine stands in its plan: whose slot it is, or that it is a gap, and exactly how many ticks are
        // left of it.
        ensures { IsPlace result sys.now.machine }
    {
        place_of(sys, self.slot_number())
    }

    // The number of the slot that the last tick was in; in a gap and before the first tick, any.
    fn slot_number(&self) -> u8 {
        match self.slot {
            Some(slot) => slot.slot,
            None => 0,
        }
    }

    /// At most this many ticks, up to the first that emits something or reaches beyond its partition. The last of them is kept.
    /// The bytes that its note names still stand in its partition's memory.
    #[inline(always)]
    pub fn run(&mut self, sys: &mut Sys, lines: &mut Lines, most: u64) -> Span
        // Called for the system of a machine, where the hypervisor has not halted, for at least one tick, within the
        // limit of ticks, and with no lines.
        requires machine { IsMachine sys.old }
        requires running { sys.old.machine.halted ≡ false }
        requires some { 0 < most }
        requires ticks { sys.old.machine.ticks + most ≤ TICKS }
        requires empty { lines.old ≡ [] }
        // Ticks, at most this many, over the ends of slots and gaps, up to the first with output, or that reaches beyond
        // its partition: the system is that of as many defined ticks; none but the last has lines, and these are its
        // lines but for one of bytes for a console, which its note names and which still stand in its partition's
        // memory; the span says whether the act of the last ends a stretch.
        ensures done { IsSpanDone result most sys.old sys.new lines.new }
        // In each of these ticks but the last, partitions receive nothing but whose slot it is: all that is kept of such a
        // tick is its slot, and whether the slot's partition worked.
        ensures bare { AreBareTicks result.ticks sys.old.machine }
        // What happened in the last tick is kept, with the bytes of its message or of what was shown.
        ensures kept { self.new ≡ kept_tick (run sys.old.machine (result.ticks - 1)) }
    {
        proof! {
            keeps_facts();
            keeps_hardware_clock();
            keeps_numbers();
            keeps_plans();
            trades_few_bytes();
        }
        let number = self.slot_number();
        self.slot = run_span(sys, lines, &mut self.span, number, most);
        self.size = read_noted(sys, self.span.part, self.span.note, &mut self.bytes);
        self.span
    }

    /// What partition `p` received in the last tick.
    #[tactic(auto, unfolding(tick_steps::specs::Kept::kept_cue))]
    pub fn cue(&self, conf: &Conf, p: PartId) -> Cue<'_>
        // Called for a partition that exists.
        requires { p < length conf.now.parts }
        // What reached a partition in that tick.
        ensures { cue_value result ≡ kept_cue conf.now self.now p }
    {
        let bytes = &self.bytes[..self.size];
        let own = is_slot_of(self.slot, p);
        Cue {
            mine: mine_of(self.slot, p),
            traffic: if own && self.span.worked {
                Traffic::Nothing
            } else {
                traffic_heard(conf, p, source_of(self.slot), self.span.note, bytes)
            },
            order: order_for(self.span.reach, p),
            whole: whole_of(self.span.reach),
            seen: if own {
                sight_of(self.span.note, bytes)
            } else {
                Sight::Nothing
            },
        }
    }
}

// Whose slot it is; in a gap, any.
fn source_of(slot: Option<Here>) -> PartId
    ensures { result ≡ slot_partition (turn_here slot) }
{
    match slot {
        Some(slot) => slot.part,
        None => 0,
    }
}

// Room for this many bytes.
fn room(alloc: Global, count: usize) -> Result<Vec<u8>, Memory>
    ensures { IfOk result (λ bytes. length bytes.items ≡ count) }
{
    Ok(vec![in alloc; 0; count]?)
}

// Reads the bytes of a message that a note names, or of what was shown, and answers how many they are.
fn read_noted(sys: &Sys, p: PartId, note: Note, bytes: &mut [u8]) -> usize
    requires partition { p < length sys.now.machine.parts }
    requires readable { CanBeEmitted note (areas_in p sys.now.machine) }
    requires few { length (bytes_noted note (memory_of p sys.now.machine)) ≤ length bytes.old }
    ensures bytes { take result bytes.new ≡ bytes_noted note (memory_of p sys.now.machine) }
    ensures within { result ≤ length bytes.old }
    ensures room { length bytes.new ≡ length bytes.old }
{
    match note {
        Note::Put { at, size, .. } => read_first(sys, p, at, size, bytes),
        Note::Saw { at, size } => read_first(sys, p, at, size, bytes),
        Note::Nothing
        | Note::Console { .. }
        | Note::Trace(_)
        | Note::Take { .. }
        | Note::NotKept
        | Note::Signal { .. } => 0,
    }
}

// Reads this many bytes of a partition's memory into the first of these.
fn read_first(sys: &Sys, p: PartId, at: u32, size: u32, bytes: &mut [u8]) -> usize
    requires partition { p < length sys.now.machine.parts }
    requires readable { all_from (is_readable (areas_in p sys.now.machine)) at size ≡ true }
    requires few { size ≤ length bytes.old }
    ensures bytes { take result bytes.new ≡ bytes_at (memory_of p sys.now.machine) at size }
    ensures within { result ≤ length bytes.old }
    ensures room { length bytes.new ≡ length bytes.old }
{
    let size = size as usize;
    read_memory(sys, p, at, &mut bytes[..size]);
    size
}
