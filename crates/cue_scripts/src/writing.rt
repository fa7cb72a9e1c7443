//! The writing of a script.

ghost use Rattle.std.specs.Prelude.{◌≡◌, ◌++◌, All, IfOk, OnOk};
ghost use Rattle.std.specs.List.{flat_map};
ghost use Rattle.cue_scripts.specs.Entries.{Alike, Other, first_cue};
ghost use Rattle.cue_scripts.specs.Kept.{HasCueRanges, HasEntryRanges, HasSightRange, HasTrafficRange};
ghost use Rattle.cue_scripts.specs.Spelling.{cue_text, entry_text, event_byte, script_head_text, order_text, reset_byte, script_text, sight_text, slot_byte, traffic_text};
ghost use Rattle.cue_scripts.specs.Values.{script_cue_value, entry_value, event_value, script_sight_value, slot_value, script_traffic_value};

use crate::cue::{CueSlot, ScriptCue, ScriptEntry, ScriptSight, ScriptTraffic, WholeEvent};
use crate::script::Script;
use file_headers::{put_double, put_half, put_word};
use std::alloc::Global;
use xm_base::{Memory, Mode, Order, PartId};

/// The name of the format, at the beginning of each file.
pub(crate) const MAGIC: [u8; 4] = *b"XMSC";

/// The version that is written and read.
pub(crate) const VERSION: u16 = 1;

/// The kind of an entry that repeats a cue without a slot of the partition's own.
pub(crate) const ALIKE: u8 = 0;

/// The kind of an entry that repeats a cue with a running slot of the partition's own.
pub(crate) const OWN_ALIKE: u8 = 1;

/// The kind of an entry of another cue.
pub(crate) const OTHER: u8 = 2;

/// The one file of a script for partition `p`.
#[tactic(auto, unfolding(crate::specs::Spelling::script_text))]
pub fn build_script(alloc: Global, p: PartId, script: &Script) -> Result<Vec<u8>, Memory>
    // The file of a script is the one spelling of its cues.
    ensures { IfOk result (λ file. file.items ≡ script_text p script.now) }
{
    let mut file = Vec::new(alloc);
    put_head(&mut file, p, script.count())?;
    put_entries(&mut file, script.entries())?;
    Ok(file)
}

/// Puts the head of a script.
#[tactic(auto, unfolding(crate::specs::Spelling::script_head_text))]
pub(crate) fn put_head(out: &mut Vec<u8>, p: PartId, count: u32) -> Result<(), Memory>
    ensures { OnOk result (out.new.items ≡ out.old.items ++ script_head_text p count) }
{
    out.extend_from_slice(&MAGIC)?;
    put_half(out, VERSION)?;
    out.push(p)?;
    put_double(out, u64::from(count))
}

/// Puts the entry of a cue with nothing but that a slot of the partition's own begins.
#[tactic(auto, unfolding(crate::specs::Spelling::cue_text, crate::specs::Spelling::entry_text, crate::specs::Spelling::order_text, crate::specs::Spelling::sight_text, crate::specs::Spelling::traffic_text))]
fn put_first(out: &mut Vec<u8>) -> Result<(), Memory>
    ensures { OnOk result (out.new.items ≡ out.old.items ++ entry_text (Other first_cue)) }
{
    out.extend_from_slice(&[OTHER, 2, 0, 0, 0, 0])?;
    Ok(())
}

/// Puts entries, one after the other.
fn put_entries(out: &mut Vec<u8>, entries: &[ScriptEntry]) -> Result<(), Memory>
    requires { All (λ entry. HasEntryRanges (entry_value entry)) entries.now }
    ensures { OnOk result (out.new.items ≡ out.old.items ++ flat_map (λ entry. entry_text (entry_value entry)) entries.now) }
{
    for entry in entries {
        put_entry(out, entry)?;
    }
    Ok(())
}

/// Puts an entry.
fn put_entry(out: &mut Vec<u8>, entry: &ScriptEntry) -> Result<(), Memory>
    requires { HasEntryRanges (entry_value entry.now) }
    ensures { OnOk result (out.new.items ≡ out.old.items ++ entry_text (entry_value entry.now)) }
{
    match entry {
        ScriptEntry::Alike { own, count } => put_alike(out, *own, *count),
        ScriptEntry::First => put_first(out),
        ScriptEntry::Other(cue) => put_other(out, cue),
    }
}

/// Puts an entry that repeats a plain cue.
#[tactic(auto, unfolding(crate::specs::Spelling::entry_text))]
pub(crate) fn put_alike(out: &mut Vec<u8>, own: bool, count: u32) -> Result<(), Memory>
    ensures { OnOk result (out.new.items ≡ out.old.items ++ entry_text (Alike own count)) }
{
    out.push(if own { OWN_ALIKE } else { ALIKE })?;
    put_word(out, count)
}

/// Puts an entry of another cue.
#[tactic(auto, unfolding(crate::specs::Spelling::entry_text))]
pub(crate) fn put_other(out: &mut Vec<u8>, cue: &ScriptCue) -> Result<(), Memory>
    requires { HasCueRanges (script_cue_value cue.now) }
    ensures { OnOk result (out.new.items ≡ out.old.items ++ entry_text (Other (script_cue_value cue.now))) }
{
    out.push(OTHER)?;
    put_cue(out, cue)
}

/// Puts the five parts of a cue.
#[tactic(auto, unfolding(crate::specs::Spelling::cue_text))]
fn put_cue(out: &mut Vec<u8>, cue: &ScriptCue) -> Result<(), Memory>
    requires { HasCueRanges (script_cue_value cue.now) }
    ensures { OnOk result (out.new.items ≡ out.old.items ++ cue_text (script_cue_value cue.now)) }
{
    out.push(slot_byte(cue.mine))?;
    put_traffic(out, &cue.traffic)?;
    put_order(out, cue.order)?;
    out.push(event_byte(cue.whole))?;
    put_sight(out, &cue.seen)
}

/// The byte of a slot.
fn slot_byte(slot: CueSlot) -> u8
    ensures { result ≡ slot_byte (slot_value slot) }
{
    match slot {
        CueSlot::Away => 0,
        CueSlot::Mine { first: false } => 1,
        CueSlot::Mine { first: true } => 2,
    }
}

/// Puts traffic.
#[tactic(auto, unfolding(crate::specs::Spelling::traffic_text))]
fn put_traffic(out: &mut Vec<u8>, traffic: &ScriptTraffic) -> Result<(), Memory>
    requires { HasTrafficRange (script_traffic_value traffic.now) }
    ensures { OnOk result (out.new.items ≡ out.old.items ++ traffic_text (script_traffic_value traffic.now)) }
{
    match traffic {
        ScriptTraffic::Nothing => out.push(0)?,
        ScriptTraffic::Put { chan, bytes } => {
            out.extend_from_slice(&[1, *chan])?;
            put_half(out, bytes.len() as u16)?;
            out.extend_from_slice(bytes)?;
        }
        ScriptTraffic::Take { chan } => out.extend_from_slice(&[2, *chan])?,
        ScriptTraffic::Signal { number } => out.extend_from_slice(&[3, *number])?,
    }
    Ok(())
}

/// Puts an order.
#[tactic(auto, unfolding(crate::specs::Spelling::order_text))]
fn put_order(out: &mut Vec<u8>, order: Option<Order>) -> Result<(), Memory>
    ensures { OnOk result (out.new.items ≡ out.old.items ++ order_text order) }
{
    match order {
        None => out.push(0)?,
        Some(Order::Halt) => out.push(1)?,
        Some(Order::Suspend) => out.push(2)?,
        Some(Order::Resume) => out.push(3)?,
        Some(Order::Shutdown) => out.push(4)?,
        Some(Order::Reset { mode, status }) => {
            out.push(reset_byte(mode))?;
            put_word(out, status)?;
        }
    }
    Ok(())
}

/// The byte of a reset.
fn reset_byte(mode: Mode) -> u8
    ensures { result ≡ reset_byte mode }
{
    match mode {
        Mode::Cold => 5,
        Mode::Warm => 6,
    }
}

/// The byte of a hypervisor event.
fn event_byte(event: WholeEvent) -> u8
    ensures { result ≡ event_byte (event_value event) }
{
    match event {
        WholeEvent::Nothing => 0,
        WholeEvent::Cold => 1,
        WholeEvent::Warm => 2,
        WholeEvent::Halt => 3,
    }
}

/// Puts what was seen.
#[tactic(auto, unfolding(crate::specs::Spelling::sight_text))]
fn put_sight(out: &mut Vec<u8>, seen: &ScriptSight) -> Result<(), Memory>
    requires { HasSightRange (script_sight_value seen.now) }
    ensures { OnOk result (out.new.items ≡ out.old.items ++ sight_text (script_sight_value seen.now)) }
{
    match seen {
        ScriptSight::Nothing => out.push(0)?,
        ScriptSight::NotKept => out.push(1)?,
        ScriptSight::Words(bytes) => {
            out.extend_from_slice(&[2, bytes.len() as u8])?;
            out.extend_from_slice(bytes)?;
        }
    }
    Ok(())
}
