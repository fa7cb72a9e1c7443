//! The structures that hypercalls write, and the parts of a core file: big endian fields, one after another.

ghost use Rattle.std.specs.Prelude.{◌≡◌, ℕ, ◌+◌, ◌≤◌, List, [], ◌∷◌, ◌++◌, length, Some, IfSome};
ghost use Rattle.std.specs.Int.{to_be_bytes, w16};
ghost use Rattle.guest_bus.specs.Memory.{Memory};
ghost use Rattle.xm_conf.specs.declared.channel.ChanKind.TheVariants as kind;
ghost use Rattle.machine_model.specs.Structures.{counts_bytes, double, flag, health_bytes, is_valid, or_none, partition_status, plan_status, sample_status, slot_number, state_number, system_status, trace_bytes, word};
ghost use Rattle.system_state.specs.State.{with_memory};

use crate::own_state::PartState;
use arrayvec::ArrayVec;
use cyclic_plans::{Here, PlanClock};
use health_monitor::HealthEntry;
use std::marker::Model;
use xm_base::State;
use xm_ports::Sample;
use xm_traces::{Ring, TraceEntry};

/// Bytes of the longest structure: what a core file has of a processor.
const MOST_BYTES: usize = 28;

/// A number that stands for none.
const NONE: u32 = 0xffff_ffff;

/// The bytes of a structure, as far as it is written, in a buffer of their own. It has at most 28.
#[derive(Drop)]
pub struct Structure {
    bytes: ArrayVec<u8, MOST_BYTES>,
}

impl Model for Structure {
    ghost Value = { List ℕ };

    ghost view = { λ structure. structure.bytes.items };
}

impl Structure {
    /// No field is written.
    pub fn new() -> Structure
        ensures { result ≡ [] }
    {
        Structure {
            bytes: ArrayVec::new(),
        }
    }

    /// The bytes.
    pub fn bytes(&self) -> &[u8]
        ensures { result.now ≡ self.now }
    {
        self.bytes.as_slice()
    }

    /// Writes bytes as they are.
    pub fn text(&mut self, bytes: &[u8])
        // Called where the structure has room for the bytes.
        requires { length self.old + length bytes.now ≤ 28 }
        // The bytes stand after what was written before.
        ensures value { self.new ≡ self.old ++ bytes.now }
        // The structure has grown by their number.
        ensures size { length self.new ≡ length self.old + length bytes.now }
    {
        self.bytes.try_extend_from_slice(bytes).unwrap();
    }

    /// Writes a byte.
    pub fn byte(&mut self, byte: u8)
        // Called where the structure has room for a byte.
        requires { length self.old + 1 ≤ 28 }
        // The byte stands after what was written before.
        ensures value { self.new ≡ self.old ++ byte ∷ [] }
        // The structure has grown by 1.
        ensures size { length self.new ≡ length self.old + 1 }
    {
        self.text(&[byte]);
    }

    /// Writes a half word.
    pub fn half(&mut self, half: u16)
        // Called where the structure has room for two bytes.
        requires { length self.old + 2 ≤ 28 }
        // The big endian bytes of the half word stand after what was written before.
        ensures value { self.new ≡ self.old ++ to_be_bytes w16 half }
        // The structure has grown by 2.
        ensures size { length self.new ≡ length self.old + 2 }
    {
        self.text(&half.to_be_bytes());
    }

    /// Writes a word.
    pub fn word(&mut self, number: u32)
        // Called where the structure has room for four bytes.
        requires { length self.old + 4 ≤ 28 }
        // The big endian bytes of the word stand after what was written before.
        ensures value { self.new ≡ self.old ++ word number }
        // The structure has grown by 4.
        ensures size { length self.new ≡ length self.old + 4 }
    {
        self.text(&number.to_be_bytes());
    }

    /// Writes a double word.
    pub fn double(&mut self, number: u64)
        // Called where the structure has room for eight bytes.
        requires { length self.old + 8 ≤ 28 }
        // The big endian bytes of the double word stand after what was written before.
        ensures value { self.new ≡ self.old ++ double number }
        // The structure has grown by 8.
        ensures size { length self.new ≡ length self.old + 8 }
    {
        self.text(&number.to_be_bytes());
    }
}

/// The number of a state.
pub fn state_number(state: State) -> u8
    ensures { result ≡ state_number state }
{
    match state {
        State::Ready => 0,
        State::Idle => 1,
        State::Suspended => 2,
        State::Halted => 3,
    }
}

// A number, or the word for none.
fn or_none(number: Option<u8>) -> u32
    ensures { result ≡ or_none number }
{
    match number {
        Some(number) => u32::from(number),
        None => NONE,
    }
}

/// The status of a partition, 20 bytes.
#[tactic(auto, unfolding(machine_model::specs::Structures::partition_status))]
pub fn partition_status(own: &PartState) -> Structure
    // The bytes of a partition's status, as the structure is defined.
    ensures value { (memory : Memory) (words : List ℕ) → result ≡ partition_status (with_memory own.now memory words) }
    // They are 20.
    ensures size { length result ≡ 20 }
{
    let mut status = Structure::new();
    status.word(u32::from(state_number(own.state)));
    status.word(own.resets);
    status.word(own.reset_status);
    status.double(own.clocks.exec());
    status
}

/// The status of the system, 8 bytes.
#[tactic(auto, unfolding(machine_model::specs::Structures::system_status))]
pub fn system_status(resets: u32, parts: u8) -> Structure
    // The bytes of the system's status, as the structure is defined.
    ensures value { result ≡ system_status resets parts }
    // They are 8.
    ensures size { length result ≡ 8 }
{
    let mut status = Structure::new();
    status.word(resets);
    status.word(u32::from(parts));
    status
}

// The number of a slot that runs.
fn slot_number(here: Option<Here>) -> Option<u8>
    ensures { result ≡ slot_number here }
{
    match here {
        Some(here) => Some(here.slot),
        None => None,
    }
}

/// The status of the plan, 20 bytes.
#[tactic(auto, unfolding(machine_model::specs::Structures::plan_status))]
pub fn plan_status(clock: &PlanClock, here: Option<Here>) -> Structure
    // The bytes of the plan's status, as the structure is defined.
    ensures value { result ≡ plan_status clock.now here }
    // They are 20.
    ensures size { length result ≡ 20 }
{
    let mut status = Structure::new();
    status.double(clock.frame_start());
    status.word(u32::from(clock.plan()));
    status.word(or_none(clock.asked()));
    status.word(or_none(slot_number(here)));
    status
}

/// Whether a message of this age is within the refresh period, as a number; a period of zero takes all.
pub fn validity(refresh: u32, age: u64) -> u32
    ensures { result ≡ flag (is_valid refresh age) }
{
    if refresh == 0 || age <= u64::from(refresh) {
        1
    } else {
        0
    }
}

// The status of a sampling port with a message, 16 bytes.
fn status_of_sample(refresh: u32, now: u64, sample: &Sample<'_>) -> Structure
    requires { length sample.now.bytes ≤ 4096 }
    ensures value { result ≡ sample_status (kind.Sampling refresh) now (Some sample.now) }
    ensures size { length result ≡ 16 }
{
    let mut status = Structure::new();
    status.double(sample.time);
    status.word(sample.bytes.len() as u32);
    status.word(validity(refresh, now.saturating_sub(sample.time)));
    status
}

/// The status of a sampling port, 16 bytes; where there is no message, all are zero.
pub fn sampling_status(refresh: u32, now: u64, sample: Option<Sample<'_>>) -> Structure
    // Called with a message of at most 4096 bytes.
    requires { IfSome sample (λ held. length held.bytes ≤ 4096) }
    // The bytes of a sampling port's status, as the structure is defined.
    ensures value { result ≡ sample_status (kind.Sampling refresh) now sample.entry }
    // They are 16.
    ensures size { length result ≡ 16 }
{
    match sample {
        Some(sample) => status_of_sample(refresh, now, &sample),
        None => {
            let mut status = Structure::new();
            status.double(0);
            status.word(0);
            status.word(0);
            status
        }
    }
}

/// The status of a queuing port, 8 bytes: how many messages wait, and how many may.
pub fn queuing_status(count: u32, most: u8) -> Structure
    // The bytes of a queuing port's status: how many messages wait, and how many may.
    ensures value { result ≡ word count ++ word most }
    // They are 8.
    ensures size { length result ≡ 8 }
{
    let mut status = Structure::new();
    status.word(count);
    status.word(u32::from(most));
    status
}

/// A trace entry, 24 bytes.
#[tactic(auto, unfolding(machine_model::specs::Structures::trace_bytes))]
pub fn trace_bytes(entry: &TraceEntry) -> Structure
    // The bytes of a trace entry, as the structure is defined.
    ensures value { result ≡ trace_bytes entry.now }
    // They are 24.
    ensures size { length result ≡ 24 }
{
    let mut bytes = Structure::new();
    bytes.double(entry.time);
    bytes.word(entry.bits);
    bytes.word(entry.seq);
    bytes.text(&entry.load);
    bytes
}

/// A health entry, 20 bytes.
#[tactic(auto, unfolding(machine_model::specs::Structures::health_bytes))]
pub fn health_bytes(entry: &HealthEntry) -> Structure
    // The bytes of a health entry, as the structure is defined.
    ensures value { result ≡ health_bytes entry.now }
    // They are 20.
    ensures size { length result ≡ 20 }
{
    let mut bytes = Structure::new();
    bytes.double(entry.time);
    bytes.word(entry.seq);
    bytes.byte(entry.event.number());
    bytes.byte(entry.action.number());
    bytes.half(0);
    bytes.word(entry.word);
    bytes
}

/// The counts of entries, 8 bytes: the first number that is kept, and the next number.
#[tactic(auto, unfolding(machine_model::specs::Structures::counts_bytes))]
pub fn counts_bytes<T: Copy>(entries: &Ring<T>) -> Structure
    // The bytes of the counts of a log, as the structure is defined.
    ensures value { result ≡ counts_bytes entries.now }
    // They are 8.
    ensures size { length result ≡ 8 }
{
    let counts = entries.counts();
    let mut bytes = Structure::new();
    bytes.word(counts.first);
    bytes.word(counts.next);
    bytes
}
