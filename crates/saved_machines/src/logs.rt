//! The traces and the health log of a partition.

ghost use Rattle.std.specs.Prelude.{◌≡◌, ◌≤◌, ◌-◌, ◌*◌, IfOk, length, min};
ghost use Rattle.file_headers.specs.lemmas.GivesTerms.{IsReadAt};
ghost use Rattle.codecs.specs.Codec.{raw_bytes, times};
ghost use Rattle.codecs.specs.Gives.{ReadsOr};
ghost use Rattle.saved_machines.specs.SavedFields.{health_field, kept_count, log_counts, log_field, saved_short, trace_field, zeros};
ghost use Rattle.saved_machines.specs.declared.fault.SavedFault.TheVariants as fault;
ghost use Rattle.saved_machines.specs.lemmas.ReadTerms.{health_log_value, trace_log_value};

use crate::fault::SavedFault;
use crate::fields::{action, double_word, event, word, zeros};
use codecs::read_items;
use health_monitor::HealthEntry;
use std::alloc::Global;
use xm_base::Cursor;
use xm_traces::TraceEntry;

/// How many entries are kept at most.
const ENTRIES: u32 = 64;

/// The bytes of a trace, and of a health entry.
const TRACE_BYTES: usize = 24;

const HEALTH_BYTES: usize = 20;

/// The traces that are kept, the oldest first, and the number of the next.
#[derive(Debug, Drop)]
pub(crate) struct TraceLog {
    pub(crate) next: u32,
    pub(crate) entries: Vec<TraceEntry>,
}

/// The health entries that are kept, the oldest first, and the number of the next.
#[derive(Debug, Drop)]
pub(crate) struct HealthLog {
    pub(crate) next: u32,
    pub(crate) entries: Vec<HealthEntry>,
}

/// How many entries are kept of so many.
fn kept_count(next: u32) -> u32
    ensures value { result ≡ kept_count next }
    ensures most { result ≤ 64 }
{
    next.min(ENTRIES)
}

/// The number of the next entry of a log, after that of the oldest that is kept.
fn log_counts(cursor: &mut Cursor<'_>, most: u64) -> Result<u32, SavedFault>
    ensures { IsReadAt (λ next. next) result cursor.new ((log_counts most).read cursor.old) }
{
    let oldest = word(cursor)?;
    let at = cursor.at();
    let next = cursor.u32()?;
    if u64::from(next) <= most && oldest == next - kept_count(next) {
        Ok(next)
    } else {
        Err(SavedFault::Field { at })
    }
}

/// The zeros of the places that are left in a log, of entries of this many bytes.
fn places_left(cursor: &mut Cursor<'_>, next: u32, size: usize) -> Result<(), SavedFault>
    requires { size ≤ 24 }
    ensures { IsReadAt (λ _. tt) result cursor.new ((zeros ((64 - kept_count next) * size)).read cursor.old) }
{
    zeros(cursor, (ENTRIES - kept_count(next)) as usize * size)
}

/// Eight bytes.
fn load(cursor: &mut Cursor<'_>) -> Result<[u8; 8], SavedFault>
    ensures { IsReadAt (λ found. found) result cursor.new ((raw_bytes saved_short 8).read cursor.old) }
{
    let bytes = cursor.take(8)?;
    let Ok(load) = <[u8; 8]>::try_from(bytes) else {
        unreachable!();
    };
    Ok(load)
}

/// A trace.
fn trace(cursor: &mut Cursor<'_>) -> Result<TraceEntry, SavedFault>
    ensures { ReadsOr fault.Memory (λ entry. entry) result cursor.new (trace_field.read cursor.old) }
{
    let time = double_word(cursor)?;
    let bits = word(cursor)?;
    let seq = word(cursor)?;
    let load = load(cursor)?;
    Ok(TraceEntry {
        time,
        bits,
        seq,
        load,
    })
}

/// A health entry.
fn health_entry(cursor: &mut Cursor<'_>) -> Result<HealthEntry, SavedFault>
    ensures { ReadsOr fault.Memory (λ entry. entry) result cursor.new (health_field.read cursor.old) }
{
    let time = double_word(cursor)?;
    let seq = word(cursor)?;
    let event = event(cursor)?;
    let action = action(cursor)?;
    zeros(cursor, 2)?;
    let word = word(cursor)?;
    Ok(HealthEntry {
        time,
        seq,
        event,
        action,
        word,
    })
}

/// Traces, this many.
fn trace_entries(
    alloc: Global,
    cursor: &mut Cursor<'_>,
    count: u32,
) -> Result<Vec<TraceEntry>, SavedFault>
    ensures { ReadsOr fault.Memory (λ entries. entries.items) result cursor.new ((times count trace_field).read cursor.old) }
{
    read_items(
        alloc,
        count,
        cursor,
        (),
        SavedFault::Memory,
        |cursor, _| trace(cursor),
        |_, _| (),
    )
}

/// Health entries, this many.
fn health_entries(
    alloc: Global,
    cursor: &mut Cursor<'_>,
    count: u32,
) -> Result<Vec<HealthEntry>, SavedFault>
    ensures { ReadsOr fault.Memory (λ entries. entries.items) result cursor.new ((times count health_field).read cursor.old) }
{
    read_items(
        alloc,
        count,
        cursor,
        (),
        SavedFault::Memory,
        |cursor, _| health_entry(cursor),
        |_, _| (),
    )
}

/// The traces of a partition, of which there were so many at most.
pub(crate) fn traces(
    alloc: Global,
    cursor: &mut Cursor<'_>,
    most: u64,
) -> Result<TraceLog, SavedFault>
    ensures { ReadsOr fault.Memory trace_log_value result cursor.new ((log_field most 24 trace_field).read cursor.old) }
{
    let next = log_counts(cursor, most)?;
    let entries = trace_entries(alloc, cursor, kept_count(next))?;
    places_left(cursor, next, TRACE_BYTES)?;
    Ok(TraceLog { next, entries })
}

/// The health log of a partition, of which there were so many entries at most.
pub(crate) fn health(
    alloc: Global,
    cursor: &mut Cursor<'_>,
    most: u64,
) -> Result<HealthLog, SavedFault>
    ensures { ReadsOr fault.Memory health_log_value result cursor.new ((log_field most 20 health_field).read cursor.old) }
{
    let next = log_counts(cursor, most)?;
    let entries = health_entries(alloc, cursor, kept_count(next))?;
    places_left(cursor, next, HEALTH_BYTES)?;
    Ok(HealthLog { next, entries })
}
