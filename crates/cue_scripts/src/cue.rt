//! What a partition receives in a tick, as a script keeps it.

ghost use Rattle.std.specs.Prelude.{◌≡◌, IfOk};
ghost use Rattle.cue_scripts.specs.Entries.{Other, cue_count, is_no_event, is_still, is_unseen, plain_cue_of, plain_kind, running_in};
ghost use Rattle.cue_scripts.specs.Values.{script_cue_value, entry_value, event_value, script_sight_value, slot_value, script_traffic_value};

use std::alloc::Global;
use xm_base::{Memory, Order};

/// Whose slot a tick is in, as the partition sees it.
#[derive(Clone, Copy, Debug, PartialEq, Eq)]
pub enum CueSlot {
    /// Not its own.
    Away,
    /// Its own, which begins with this tick or did before, whether or not the partition takes turns.
    Mine { first: bool },
}

/// What others did to a channel of the partition, which goes by the partition's name for it: its lowest port on the channel; or over a link
/// to it.
#[derive(Debug, Drop)]
pub enum ScriptTraffic {
    /// Nothing.
    Nothing,
    /// A message was put.
    Put { chan: u8, bytes: Vec<u8> },
    /// The first message was taken.
    Take { chan: u8 },
    /// It was signalled over a link of this number that goes to it.
    Signal { number: u8 },
}

/// What was done to the whole system.
#[derive(Clone, Copy, Debug, PartialEq, Eq)]
pub enum WholeEvent {
    /// Nothing.
    Nothing,
    /// A cold reset.
    Cold,
    /// A warm reset.
    Warm,
    /// It halted.
    Halt,
}

/// What an observing call of the partition was shown.
#[derive(Debug, Drop)]
pub enum ScriptSight {
    /// Nothing.
    Nothing,
    /// That an entry is not kept.
    NotKept,
    /// These bytes.
    Words(Vec<u8>),
}

/// All that one partition receives from the others in a tick.
#[derive(Debug, Drop)]
pub struct ScriptCue {
    pub mine: CueSlot,
    pub traffic: ScriptTraffic,
    /// The order that another partition gave it.
    pub order: Option<Order>,
    pub whole: WholeEvent,
    pub seen: ScriptSight,
}

/// An entry of a script.
#[derive(Debug, Drop)]
pub enum ScriptEntry {
    /// This many cues with nothing but whose slot it is: the partition's own, which began before, or not.
    Alike { own: bool, count: u32 },
    /// A cue with nothing but that a slot of the partition's own begins.
    First,
    /// Another cue. Most entries have none, and have no room for one.
    Other(Box<ScriptCue>),
}

impl ScriptEntry {
    /// How many cues it has.
    pub fn count(&self) -> u32
        // How many ticks the entry has.
        ensures { result ≡ cue_count (entry_value self.now) }
    {
        match self {
            ScriptEntry::Alike { count, .. } => *count,
            ScriptEntry::First | ScriptEntry::Other(_) => 1,
        }
    }

    /// Whose running slot it repeats, where its cues have nothing else.
    pub(crate) fn own(&self) -> Option<bool>
        ensures { result ≡ plain_cue_of (entry_value self.now) }
    {
        match self {
            ScriptEntry::Alike { own, .. } => Some(*own),
            ScriptEntry::First | ScriptEntry::Other(_) => None,
        }
    }
}

/// The entry of a cue that is not plain.
pub(crate) fn entry_of(alloc: Global, cue: ScriptCue) -> Result<ScriptEntry, Memory>
    ensures { IfOk result (λ entry. entry_value entry ≡ Other (script_cue_value cue)) }
{
    match cue {
        ScriptCue {
            mine: CueSlot::Mine { first: true },
            traffic: ScriptTraffic::Nothing,
            order: None,
            whole: WholeEvent::Nothing,
            seen: ScriptSight::Nothing,
        } => Ok(ScriptEntry::First),
        other => Ok(ScriptEntry::Other(Box::new(alloc, other)?)),
    }
}

/// Whether a cue has nothing but whose running slot it is.
#[tactic(auto, unfolding(crate::specs::Entries::plain_kind, crate::specs::Entries::is_bare))]
pub(crate) fn plain_kind(cue: &ScriptCue) -> Option<bool>
    ensures { result ≡ plain_kind (script_cue_value cue.now) }
{
    if is_still(&cue.traffic)
        && cue.order.is_none()
        && is_no_event(cue.whole)
        && is_unseen(&cue.seen)
    {
        running_in(cue.mine)
    } else {
        None
    }
}

/// Whether nothing was put or taken, and nothing signalled.
fn is_still(traffic: &ScriptTraffic) -> bool
    ensures { result ≡ is_still (script_traffic_value traffic.now) }
{
    match traffic {
        ScriptTraffic::Nothing => true,
        ScriptTraffic::Put { .. } | ScriptTraffic::Take { .. } | ScriptTraffic::Signal { .. } => {
            false
        }
    }
}

/// Whether nothing was done to the whole system.
fn is_no_event(event: WholeEvent) -> bool
    ensures { result ≡ is_no_event (event_value event) }
{
    match event {
        WholeEvent::Nothing => true,
        WholeEvent::Cold | WholeEvent::Warm | WholeEvent::Halt => false,
    }
}

/// Whether nothing was shown.
fn is_unseen(seen: &ScriptSight) -> bool
    ensures { result ≡ is_unseen (script_sight_value seen.now) }
{
    match seen {
        ScriptSight::Nothing => true,
        ScriptSight::NotKept | ScriptSight::Words(_) => false,
    }
}

/// Whose running slot it is; none where a slot of the partition's own begins.
fn running_in(slot: CueSlot) -> Option<bool>
    ensures { result ≡ running_in (slot_value slot) }
{
    match slot {
        CueSlot::Away => Some(false),
        CueSlot::Mine { first: false } => Some(true),
        CueSlot::Mine { first: true } => None,
    }
}
