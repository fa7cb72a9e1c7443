//! The reading of a script.

ghost use Rattle.std.specs.Prelude.{◌≡◌, ◌<◌, ◌≤◌, IfOk, List, None, Ok, codes, length};
ghost use Rattle.std.specs.Int.{w8};
ghost use Rattle.machine_model.specs.Cue.{Cue};
ghost use Rattle.cue_scripts.specs.Entries.{cue_count};
ghost use Rattle.file_headers.specs.Fields.{listed_at};
ghost use Rattle.file_headers.specs.Gives.{Gives};
ghost use Rattle.file_headers.specs.lemmas.GivesTerms.{GivesAt};
ghost use Rattle.file_headers.specs.Heads.{magic_at, version_at};
ghost use Rattle.cue_scripts.specs.Gives.{Fails};
ghost use Rattle.cue_scripts.specs.Reading as reading;
ghost use Rattle.cue_scripts.specs.Script.{is_length, is_shown};
ghost use Rattle.cue_scripts.specs.Spelling.{IsSpelledScript, alike_byte};
ghost use Rattle.fault_messages.specs.declared.fault.ScriptFault.TheVariants as fault;
ghost use Rattle.cue_scripts.specs.Values.{script_cue_value, entry_value, entry_values, event_value, script_sight_value, slot_value, script_traffic_value};

use crate::channels::{gives_queue, is_system, most_heard, signals};
use crate::cue::{
    CueSlot, ScriptCue, ScriptEntry, ScriptSight, ScriptTraffic, WholeEvent, entry_of, plain_kind,
};
use crate::script::Script;
use crate::writing::{ALIKE, MAGIC, OTHER, OWN_ALIKE, VERSION};
use fault_messages::ScriptFault;
use std::alloc::Global;
use xm_base::{Cursor, Mode, Order, PartId, TICKS};
use xm_conf::Conf;

/// The name of the format.
#[tactic(auto, unfolding(file_headers::specs::Heads::magic_at))]
fn magic(cursor: &mut Cursor<'_>) -> Result<(), ScriptFault>
    ensures { Gives Fails (λ _. cursor.new) result (magic_at reading.script_short fault.Magic (codes "XMSC") cursor.old) }
{
    if cursor.take(4)? != MAGIC.as_slice() {
        return Err(ScriptFault::Magic);
    }
    Ok(())
}

/// The version.
#[tactic(auto, unfolding(file_headers::specs::Heads::version_at))]
fn version(cursor: &mut Cursor<'_>) -> Result<u16, ScriptFault>
    ensures { GivesAt Fails (λ found. found) result cursor.new (version_at reading.script_short reading.script_version 1 cursor.old) }
{
    let found = cursor.u16()?;
    if 1 <= found && found <= VERSION {
        Ok(found)
    } else {
        Err(ScriptFault::Version { found })
    }
}

/// The partition's number.
#[tactic(auto, unfolding(crate::specs::Reading::partition_at))]
fn id(p: PartId, cursor: &mut Cursor<'_>) -> Result<(), ScriptFault>
    ensures { Gives Fails (λ _. cursor.new) result (reading.partition_at p cursor.old) }
{
    let at = cursor.at();
    if cursor.u8()? != p {
        return Err(ScriptFault::Field { at });
    }
    Ok(())
}

/// The number of cues.
#[tactic(auto, unfolding(crate::specs::Reading::cue_count_at))]
fn total(cursor: &mut Cursor<'_>) -> Result<u32, ScriptFault>
    ensures { GivesAt Fails (λ total. total) result cursor.new (reading.cue_count_at cursor.old) }
{
    let at = cursor.at();
    let total = cursor.u64()?;
    if total > TICKS {
        return Err(ScriptFault::Field { at });
    }
    Ok(total as u32)
}

/// Whose slot it is.
#[tactic(auto, unfolding(crate::specs::Reading::cue_slot_at))]
fn slot(cursor: &mut Cursor<'_>) -> Result<CueSlot, ScriptFault>
    ensures { GivesAt Fails (λ slot. slot_value slot) result cursor.new (reading.cue_slot_at cursor.old) }
{
    let at = cursor.at();
    match cursor.u8()? {
        0 => Ok(CueSlot::Away),
        1 => Ok(CueSlot::Mine { first: false }),
        2 => Ok(CueSlot::Mine { first: true }),
        _ => Err(ScriptFault::Field { at }),
    }
}

/// Whether a kind of at most so much may stand, which is none in a slot of the partition's own.
fn is_heard(most: u8, mine: CueSlot, kind: u8) -> bool
    ensures { result ≡ reading.is_heard most (slot_value mine) kind }
{
    if kind == 0 {
        return true;
    }
    match mine {
        CueSlot::Away => kind <= most,
        CueSlot::Mine { .. } => false,
    }
}

/// A kind of at most so much, which is none in a slot of the partition's own.
fn heard_kind(most: u8, mine: CueSlot, cursor: &mut Cursor<'_>) -> Result<u8, ScriptFault>
    ensures { GivesAt Fails (λ kind. kind) result cursor.new (listed_at reading.script_short reading.script_field w8 (reading.is_heard most (slot_value mine)) cursor.old) }
{
    let at = cursor.at();
    let kind = cursor.u8()?;
    if is_heard(most, mine, kind) {
        Ok(kind)
    } else {
        Err(ScriptFault::Field { at })
    }
}

/// Whether a message may have this many bytes, where it may have some at most.
fn is_length(most: Option<u16>, count: u16) -> bool
    ensures { result ≡ is_length most count }
{
    match most {
        Some(most) => 1 <= count && count <= most,
        None => false,
    }
}

/// A message that was put.
#[tactic(auto, unfolding(crate::specs::Reading::message_at))]
fn message(
    alloc: Global,
    most: Option<u16>,
    chan: u8,
    cursor: &mut Cursor<'_>,
) -> Result<ScriptTraffic, ScriptFault>
    ensures { GivesAt Fails (λ traffic. script_traffic_value traffic) result cursor.new (reading.message_at most chan cursor.old) }
{
    let at = cursor.at();
    let count = cursor.u16()?;
    if !is_length(most, count) {
        return Err(ScriptFault::Field { at });
    }
    let bytes = cursor.take(usize::from(count))?;
    Ok(ScriptTraffic::Put {
        chan,
        bytes: Vec::from_slice(alloc, bytes)?,
    })
}

/// A message that was put into a channel of which the partition is a destination.
#[tactic(auto, unfolding(crate::specs::Reading::put_message_at))]
fn read_put(
    alloc: Global,
    conf: &Conf,
    p: PartId,
    cursor: &mut Cursor<'_>,
) -> Result<ScriptTraffic, ScriptFault>
    requires { p < length conf.now.parts }
    ensures { GivesAt Fails (λ traffic. script_traffic_value traffic) result cursor.new (reading.put_message_at conf.now p cursor.old) }
{
    let at = cursor.at();
    let chan = cursor.u8()?;
    let most = most_heard(conf, p, chan);
    if most.is_none() {
        return Err(ScriptFault::Field { at });
    }
    message(alloc, most, chan, cursor)
}

/// A message that was taken from a queue whose source is the partition.
#[tactic(auto, unfolding(crate::specs::Reading::take_at))]
fn take(conf: &Conf, p: PartId, cursor: &mut Cursor<'_>) -> Result<ScriptTraffic, ScriptFault>
    requires { p < length conf.now.parts }
    ensures { GivesAt Fails (λ traffic. script_traffic_value traffic) result cursor.new (reading.take_at conf.now p cursor.old) }
{
    let at = cursor.at();
    let chan = cursor.u8()?;
    if gives_queue(conf, p, chan) {
        Ok(ScriptTraffic::Take { chan })
    } else {
        Err(ScriptFault::Field { at })
    }
}

/// A signal over a link that goes to the partition.
#[tactic(auto, unfolding(crate::specs::Reading::signal_at))]
fn signal(conf: &Conf, p: PartId, cursor: &mut Cursor<'_>) -> Result<ScriptTraffic, ScriptFault>
    ensures { GivesAt Fails (λ traffic. script_traffic_value traffic) result cursor.new (reading.signal_at conf.now p cursor.old) }
{
    let at = cursor.at();
    let number = cursor.u8()?;
    if signals(conf, p, number) {
        Ok(ScriptTraffic::Signal { number })
    } else {
        Err(ScriptFault::Field { at })
    }
}

/// Traffic of a kind.
fn traffic_of_kind(
    alloc: Global,
    conf: &Conf,
    p: PartId,
    kind: u8,
    cursor: &mut Cursor<'_>,
) -> Result<ScriptTraffic, ScriptFault>
    requires { p < length conf.now.parts }
    ensures { GivesAt Fails (λ traffic. script_traffic_value traffic) result cursor.new (reading.traffic_of_kind conf.now p kind cursor.old) }
{
    match kind {
        0 => Ok(ScriptTraffic::Nothing),
        1 => read_put(alloc, conf, p, cursor),
        2 => take(conf, p, cursor),
        _ => signal(conf, p, cursor),
    }
}

/// What others did to a channel of the partition, or over a link to it.
#[tactic(auto, unfolding(crate::specs::Reading::traffic_at))]
fn traffic(
    alloc: Global,
    conf: &Conf,
    p: PartId,
    mine: CueSlot,
    cursor: &mut Cursor<'_>,
) -> Result<ScriptTraffic, ScriptFault>
    requires { p < length conf.now.parts }
    ensures { GivesAt Fails (λ traffic. script_traffic_value traffic) result cursor.new (reading.traffic_at conf.now p (slot_value mine) cursor.old) }
{
    let kind = heard_kind(3, mine, cursor)?;
    traffic_of_kind(alloc, conf, p, kind, cursor)
}

/// A reset with its status.
#[tactic(auto, unfolding(crate::specs::Reading::reset_at))]
fn reset(mode: Mode, cursor: &mut Cursor<'_>) -> Result<Option<Order>, ScriptFault>
    ensures { GivesAt Fails (λ order. order) result cursor.new (reading.reset_at mode cursor.old) }
{
    let status = cursor.u32()?;
    Ok(Some(Order::Reset { mode, status }))
}

/// An order of a kind from 0 to 6.
fn order_of_kind(kind: u8, cursor: &mut Cursor<'_>) -> Result<Option<Order>, ScriptFault>
    ensures { GivesAt Fails (λ order. order) result cursor.new (reading.order_of_kind kind cursor.old) }
{
    match kind {
        0 => Ok(None),
        1 => Ok(Some(Order::Halt)),
        2 => Ok(Some(Order::Suspend)),
        3 => Ok(Some(Order::Resume)),
        4 => Ok(Some(Order::Shutdown)),
        5 => reset(Mode::Cold, cursor),
        _ => reset(Mode::Warm, cursor),
    }
}

/// The order that another partition gave.
#[tactic(auto, unfolding(crate::specs::Reading::order_at))]
fn order(mine: CueSlot, cursor: &mut Cursor<'_>) -> Result<Option<Order>, ScriptFault>
    ensures { GivesAt Fails (λ order. order) result cursor.new (reading.order_at (slot_value mine) cursor.old) }
{
    let kind = heard_kind(6, mine, cursor)?;
    order_of_kind(kind, cursor)
}

/// Whether a byte is a hypervisor event, which is a halt in the last cue alone.
fn is_event(last: bool, byte: u8) -> bool
    ensures { result ≡ reading.is_event last byte }
{
    byte <= 2 || last && byte == 3
}

/// The hypervisor event of a byte from 0 to 3.
fn event_of_byte(byte: u8) -> WholeEvent
    ensures { event_value result ≡ reading.event_of_byte byte }
{
    match byte {
        0 => WholeEvent::Nothing,
        1 => WholeEvent::Cold,
        2 => WholeEvent::Warm,
        _ => WholeEvent::Halt,
    }
}

/// The hypervisor event of the tick.
#[tactic(auto, unfolding(crate::specs::Reading::event_at))]
fn event(last: bool, cursor: &mut Cursor<'_>) -> Result<WholeEvent, ScriptFault>
    ensures { GivesAt Fails (λ event. event_value event) result cursor.new (reading.event_at last cursor.old) }
{
    let at = cursor.at();
    let byte = cursor.u8()?;
    if is_event(last, byte) {
        Ok(event_of_byte(byte))
    } else {
        Err(ScriptFault::Field { at })
    }
}

/// Whether a structure that an observing call writes has this many bytes.
fn is_shown(count: u8) -> bool
    ensures { result ≡ is_shown count }
{
    count == 4 || count == 8 || count == 20 || count == 24
}

/// Bytes that were shown.
#[tactic(auto, unfolding(crate::specs::Reading::shown_words_at))]
fn words(alloc: Global, cursor: &mut Cursor<'_>) -> Result<ScriptSight, ScriptFault>
    ensures { GivesAt Fails (λ seen. script_sight_value seen) result cursor.new (reading.shown_words_at cursor.old) }
{
    let at = cursor.at();
    let count = cursor.u8()?;
    if !is_shown(count) {
        return Err(ScriptFault::Field { at });
    }
    let bytes = cursor.take(usize::from(count))?;
    Ok(ScriptSight::Words(Vec::from_slice(alloc, bytes)?))
}

/// A sight of a kind.
fn sight_of_kind(
    alloc: Global,
    kind: u8,
    cursor: &mut Cursor<'_>,
) -> Result<ScriptSight, ScriptFault>
    ensures { GivesAt Fails (λ seen. script_sight_value seen) result cursor.new (reading.sight_of_kind kind cursor.old) }
{
    match kind {
        0 => Ok(ScriptSight::Nothing),
        1 => Ok(ScriptSight::NotKept),
        _ => words(alloc, cursor),
    }
}

/// Whether a kind of sight may stand: something in a slot of a system partition's own alone.
fn is_sight(system: bool, mine: CueSlot, kind: u8) -> bool
    ensures { result ≡ reading.is_sight system (slot_value mine) kind }
{
    if kind == 0 {
        return true;
    }
    match mine {
        CueSlot::Away => false,
        CueSlot::Mine { .. } => system && kind <= 2,
    }
}

/// What was shown.
#[tactic(auto, unfolding(crate::specs::Reading::cue_sight_at))]
fn sight(
    alloc: Global,
    system: bool,
    mine: CueSlot,
    cursor: &mut Cursor<'_>,
) -> Result<ScriptSight, ScriptFault>
    ensures { GivesAt Fails (λ seen. script_sight_value seen) result cursor.new (reading.cue_sight_at system (slot_value mine) cursor.old) }
{
    let at = cursor.at();
    let kind = cursor.u8()?;
    if !is_sight(system, mine, kind) {
        return Err(ScriptFault::Field { at });
    }
    sight_of_kind(alloc, kind, cursor)
}

/// A cue, the last one or not.
#[tactic(auto, unfolding(crate::specs::Reading::cue_at))]
fn cue(
    alloc: Global,
    conf: &Conf,
    p: PartId,
    last: bool,
    cursor: &mut Cursor<'_>,
) -> Result<ScriptCue, ScriptFault>
    requires { p < length conf.now.parts }
    ensures { GivesAt Fails (λ cue. script_cue_value cue) result cursor.new (reading.cue_at conf.now p last cursor.old) }
{
    let mine = slot(cursor)?;
    let traffic = traffic(alloc, conf, p, mine, cursor)?;
    let order = order(mine, cursor)?;
    let whole = event(last, cursor)?;
    let seen = sight(alloc, is_system(conf, p), mine, cursor)?;
    Ok(ScriptCue {
        mine,
        traffic,
        order,
        whole,
        seen,
    })
}

/// An entry of another cue, whose first byte is at a place.
#[tactic(auto, unfolding(crate::specs::Reading::other_at))]
fn other(
    alloc: Global,
    conf: &Conf,
    p: PartId,
    last: bool,
    at: usize,
    cursor: &mut Cursor<'_>,
) -> Result<ScriptEntry, ScriptFault>
    requires { p < length conf.now.parts }
    ensures value { GivesAt Fails (λ entry. entry_value entry) result cursor.new (reading.other_at conf.now p last at cursor.old) }
    ensures counted { IfOk result (λ entry. cue_count (entry_value entry) ≡ 1) }
{
    let cue = cue(alloc, conf, p, last, cursor)?;
    if plain_kind(&cue).is_some() {
        return Err(ScriptFault::Field { at });
    }
    Ok(entry_of(alloc, cue)?)
}

/// An entry of plain cues, where this many cues are left.
#[tactic(auto, unfolding(crate::specs::Reading::alike_at))]
fn alike(own: bool, cues: u32, cursor: &mut Cursor<'_>) -> Result<ScriptEntry, ScriptFault>
    ensures value { GivesAt Fails (λ entry. entry_value entry) result cursor.new (reading.alike_at own cues cursor.old) }
    ensures counted { IfOk result (λ entry. (1 ≤ cue_count (entry_value entry)) × (cue_count (entry_value entry) ≤ cues)) }
{
    let at = cursor.at();
    let count = cursor.u32()?;
    if count < 1 || cues < count {
        return Err(ScriptFault::Field { at });
    }
    Ok(ScriptEntry::Alike { own, count })
}

/// Whether a byte is the kind of an entry after one that repeats a plain cue, or after another.
fn is_kind(last: Option<bool>, kind: u8) -> bool
    ensures { result ≡ reading.is_entry_kind last kind }
{
    match last {
        Some(own) => kind <= OTHER && kind != alike_byte(own),
        None => kind <= OTHER,
    }
}

/// The byte of an entry that repeats a plain cue.
fn alike_byte(own: bool) -> u8
    ensures { result ≡ alike_byte own }
{
    if own { OWN_ALIKE } else { ALIKE }
}

/// The rest of an entry of a kind, whose first byte is at a place.
fn entry_of_kind(
    alloc: Global,
    conf: &Conf,
    p: PartId,
    cues: u32,
    at: usize,
    kind: u8,
    cursor: &mut Cursor<'_>,
) -> Result<ScriptEntry, ScriptFault>
    requires part { p < length conf.now.parts }
    requires left { 1 ≤ cues }
    ensures value { GivesAt Fails (λ entry. entry_value entry) result cursor.new (reading.entry_of_kind conf.now p cues at kind cursor.old) }
    ensures counted { IfOk result (λ entry. (1 ≤ cue_count (entry_value entry)) × (cue_count (entry_value entry) ≤ cues)) }
{
    if kind == ALIKE {
        alike(false, cues, cursor)
    } else if kind == OWN_ALIKE {
        alike(true, cues, cursor)
    } else {
        other(alloc, conf, p, cues == 1, at, cursor)
    }
}

/// An entry, where this many cues are left.
#[tactic(auto, unfolding(crate::specs::Reading::script_entry_at))]
fn entry(
    alloc: Global,
    conf: &Conf,
    p: PartId,
    cues: u32,
    last: Option<bool>,
    cursor: &mut Cursor<'_>,
) -> Result<ScriptEntry, ScriptFault>
    requires part { p < length conf.now.parts }
    requires left { 1 ≤ cues }
    ensures value { GivesAt Fails (λ entry. entry_value entry) result cursor.new (reading.script_entry_at conf.now p cues last cursor.old) }
    ensures counted { IfOk result (λ entry. (1 ≤ cue_count (entry_value entry)) × (cue_count (entry_value entry) ≤ cues)) }
{
    let at = cursor.at();
    let kind = cursor.u8()?;
    if !is_kind(last, kind) {
        return Err(ScriptFault::Field { at });
    }
    entry_of_kind(alloc, conf, p, cues, at, kind, cursor)
}

/// Entries with this many cues.
fn entries(
    alloc: Global,
    conf: &Conf,
    p: PartId,
    total: u32,
    cursor: &mut Cursor<'_>,
) -> Result<Vec<ScriptEntry>, ScriptFault>
    requires { p < length conf.now.parts }
    ensures { GivesAt Fails (λ entries. entry_values entries.items) result cursor.new (reading.script_entries_at conf.now p total total None cursor.old) }
{
    let mut entries = Vec::new(alloc);
    let mut cues = total;
    let mut last = None;
    while cues > 0 {
        let entry = entry(alloc, conf, p, cues, last, cursor)?;
        cues -= entry.count();
        last = entry.own();
        entries.push(entry)?;
    }
    Ok(entries)
}

/// The head and the entries of a script.
#[tactic(auto, unfolding(crate::specs::Reading::body_at))]
fn body(
    alloc: Global,
    conf: &Conf,
    p: PartId,
    cursor: &mut Cursor<'_>,
) -> Result<Vec<ScriptEntry>, ScriptFault>
    requires { p < length conf.now.parts }
    ensures { GivesAt Fails (λ entries. entry_values entries.items) result cursor.new (reading.body_at conf.now p cursor.old) }
{
    magic(cursor)?;
    version(cursor)?;
    id(p, cursor)?;
    let total = total(cursor)?;
    entries(alloc, conf, p, total, cursor)
}

/// The entries of a script, with nothing after them.
#[tactic(auto, unfolding(crate::specs::Reading::entries_of))]
fn whole(
    alloc: Global,
    conf: &Conf,
    p: PartId,
    bytes: &[u8],
) -> Result<Vec<ScriptEntry>, ScriptFault>
    requires { p < length conf.now.parts }
    ensures { Gives Fails (λ entries. entry_values entries.items) result (reading.entries_of conf.now p bytes.now) }
{
    let mut cursor = Cursor::new(bytes);
    let entries = body(alloc, conf, p, &mut cursor)?;
    if cursor.left() > 0 {
        return Err(ScriptFault::Trailing { at: cursor.at() });
    }
    Ok(entries)
}

/// Reads a script for partition `p`: the cues that it spells, or its first fault.
pub fn read_script(
    alloc: Global,
    conf: &Conf,
    p: PartId,
    bytes: &[u8],
) -> Result<Script, ScriptFault>
    // Called for a partition that exists.
    requires { p < length conf.now.parts }
    // What is read are the cues that the bytes spell.
    ensures found { IfOk result (IsSpelledScript conf.now p bytes.now) }
    // What is spelled is read, unless memory runs out.
    ensures only { (cues : List Cue) → IsSpelledScript conf.now p bytes.now cues → Gives Fails (λ found. found) result (Ok cues) }
    // A fault is the first one.
    ensures exact { Gives Fails (λ found. found) result (reading.script_read conf.now p bytes.now) }
{
    let entries = whole(alloc, conf, p, bytes)?;
    Ok(Script { entries })
}
