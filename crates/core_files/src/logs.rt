//! The traces and the health log of a partition.

ghost use Rattle.std.specs.Prelude.{◌≡◌, ℕ, ◌+◌, ◌*◌, ◌<◌, ◌≤◌, List, ◌++◌, Some, length, slice_get, take};
ghost use Rattle.std.specs.List.{flat_map};
ghost use Rattle.machine_model.specs.CoreFile.{log_bytes};
ghost use Rattle.machine_model.specs.Facts.{HaveEight};
ghost use Rattle.machine_model.specs.Structures.{health_bytes, trace_bytes};
ghost use Rattle.system_state.specs.State.{part_at};

use crate::fields::{put_structure, put_zeros};
use system_state::Sys;
use system_state::structures::{Structure, counts_bytes, health_bytes, trace_bytes};
use xm_base::PartId;
use xm_traces::{Ring, TraceEntry};

/// How many entries a log keeps at most.
const MOST_ENTRIES: usize = 64;

/// Bytes of a trace entry.
const TRACE_BYTES: usize = 24;

/// Bytes of a health entry.
const HEALTH_BYTES: usize = 20;

/// Writes the logs of a partition at a place, and returns the place after their 2832 bytes.
pub(crate) fn put_logs(into: &mut [u8], at: usize, sys: &Sys, p: PartId) -> usize
    requires partition { p < length sys.now.machine.parts }
    requires room { at + 2832 ≤ length into.old }
    ensures text { take result into.new ≡ take at into.old ++ log_bytes 24 trace_bytes (part_at p sys.now.machine).traces ++ log_bytes 20 health_bytes (part_at p sys.now.machine).health }
    ensures place { result ≡ at + 2832 }
    ensures room { length into.new ≡ length into.old }
{
    let own = sys.part(p);
    let at = put_log(into, at, &own.traces, TRACE_BYTES, trace_bytes);
    put_log(into, at, &own.health, HEALTH_BYTES, health_bytes)
}

/// Writes a log at a place, whose entries have this number of bytes each, and returns the place after the 64 that it may keep.
fn put_log<T: Copy, F: Fn(&T) -> Structure>(
    into: &mut [u8],
    at: usize,
    log: &Ring<T>,
    size: usize,
    bytes_of: F,
) -> usize
    requires callable { F.IsAlwaysCallable bytes_of }
    requires sized { (entry : _) (bytes : _) → F.post bytes_of entry bytes → length bytes ≡ size }
    requires small { size ≤ 24 }
    requires room { at + 8 + 64 * size ≤ length into.old }
    ensures text { (text : T → List ℕ) → ((entry : _) (bytes : _) → F.post bytes_of entry bytes → bytes ≡ text entry.now) → take result into.new ≡ take at into.old ++ log_bytes size text log.now }
    ensures place { result ≡ at + 8 + 64 * size }
    ensures room { length into.new ≡ length into.old }
{
    let missing = MOST_ENTRIES - kept(log);
    let at = put_structure(into, at, &counts_bytes(log));
    let at = put_entries(into, at, log, size, bytes_of);
    put_zeros(into, at, missing * size)
}

/// Writes the entries that a log keeps, the oldest first.
fn put_entries<T: Copy, F: Fn(&T) -> Structure>(
    into: &mut [u8],
    at: usize,
    log: &Ring<T>,
    size: usize,
    bytes_of: F,
) -> usize
    requires callable { F.IsAlwaysCallable bytes_of }
    requires sized { (entry : _) (bytes : _) → F.post bytes_of entry bytes → length bytes ≡ size }
    requires room { at + length log.now.entries * size ≤ length into.old }
    ensures text { (text : T → List ℕ) → ((entry : _) (bytes : _) → F.post bytes_of entry bytes → bytes ≡ text entry.now) → take result into.new ≡ take at into.old ++ flat_map text log.now.entries }
    ensures place { result ≡ at + length log.now.entries * size }
    ensures room { length into.new ≡ length into.old }
{
    let mut after = at;
    for place in 0..kept(log) {
        let entry = entry_at(log, place);
        after = put_structure(into, after, &bytes_of(&entry));
    }
    after
}

/// How many entries a log keeps.
fn kept<T: Copy>(log: &Ring<T>) -> usize
    ensures value { result ≡ length log.now.entries }
    ensures few { result ≤ 64 }
{
    let counts = log.counts();
    (counts.next - counts.first) as usize
}

/// The entry at a place among those that a log keeps.
fn entry_at<T: Copy>(log: &Ring<T>, place: usize) -> T
    requires { place < length log.now.entries }
    ensures value { slice_get log.now.entries place ≡ Some result }
{
    match log.read(log.counts().first + place as u32) {
        Some(entry) => entry,
        None => unreachable!(),
    }
}

/// For the proof: how long the logs of a partition are, and that each trace entry has 8 bytes.
pub(crate) fn look_at_logs(sys: &Sys, p: PartId)
    requires { p < length sys.now.machine.parts }
    ensures loads { HaveEight (part_at p sys.now.machine).traces.entries }
    ensures traces { length (part_at p sys.now.machine).traces.entries ≤ 64 }
    ensures health { length (part_at p sys.now.machine).health.entries ≤ 64 }
{
    let own = sys.part(p);
    look_at(&own.traces);
    let _events = kept(&own.health);
}

/// For the proof: a log of traces keeps at most 64 entries, and each has 8 bytes.
fn look_at(traces: &Ring<TraceEntry>)
    ensures loads { HaveEight traces.now.entries }
    ensures few { length traces.now.entries ≤ 64 }
{
    for place in 0..kept(traces) {
        let entry = entry_at(traces, place);
        look_at_entry(&entry);
    }
}

/// For the proof: a trace entry has 8 bytes.
fn look_at_entry(entry: &TraceEntry)
    ensures eight { length entry.now.load ≡ 8 }
{
    let _load = &entry.load;
}
