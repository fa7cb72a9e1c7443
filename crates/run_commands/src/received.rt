//! What a partition receives, kept for a script.

ghost use Rattle.std.specs.Prelude.{◌≡◌, IfOk, IfSome, not};
ghost use Rattle.cue_scripts.specs.Entries.{bare_cue, is_away};
ghost use Rattle.cue_scripts.specs.Values as kept;
ghost use Rattle.cue_scripts.specs.Values.{slot_value};
ghost use Rattle.tick_steps.specs.CueValues.{cue_value, sight_value, traffic_value};

use cue_scripts::{ScriptCue, ScriptSight, ScriptTraffic};
use std::alloc::Global;
use xm_base::Memory;
use xm_machine::{Cue, CueSlot, Sight, Traffic, WholeEvent};

/// Whether a slot of the partition's own runs, where a cue has nothing else, and no slot of its own begins.
#[tactic(auto, unfolding(cue_scripts::specs::Entries::bare_cue))]
pub(crate) fn bare_slot(cue: Cue<'_>) -> Option<bool>
    ensures { IfSome result (λ own. cue_value cue.entry ≡ bare_cue own) }
{
    match cue {
        Cue {
            mine: CueSlot::Away,
            traffic: Traffic::Nothing,
            order: None,
            whole: WholeEvent::Nothing,
            seen: Sight::Nothing,
        } => Some(false),
        Cue {
            mine: CueSlot::Mine { first: false },
            traffic: Traffic::Nothing,
            order: None,
            whole: WholeEvent::Nothing,
            seen: Sight::Nothing,
        } => Some(true),
        _ => None,
    }
}

/// Whether a slot is the partition's own.
pub(crate) fn is_own(slot: CueSlot) -> bool
    ensures { result ≡ not (is_away (slot_value slot)) }
{
    match slot {
        CueSlot::Away => false,
        CueSlot::Mine { .. } => true,
    }
}

/// A cue with bytes of its own.
pub(crate) fn kept_cue(alloc: Global, cue: Cue<'_>) -> Result<ScriptCue, Memory>
    ensures { IfOk result (λ own. kept.script_cue_value own ≡ cue_value cue.entry) }
{
    Ok(ScriptCue {
        mine: cue.mine,
        traffic: kept_traffic(alloc, cue.traffic)?,
        order: cue.order,
        whole: cue.whole,
        seen: kept_sight(alloc, cue.seen)?,
    })
}

/// The traffic of others.
fn kept_traffic(alloc: Global, traffic: Traffic<'_>) -> Result<ScriptTraffic, Memory>
    ensures { IfOk result (λ own. kept.script_traffic_value own ≡ traffic_value traffic.entry) }
{
    match traffic {
        Traffic::Nothing => Ok(ScriptTraffic::Nothing),
        Traffic::Put { chan, bytes } => Ok(ScriptTraffic::Put {
            chan,
            bytes: Vec::from_slice(alloc, bytes)?,
        }),
        Traffic::Take { chan } => Ok(ScriptTraffic::Take { chan }),
        Traffic::Signal { number } => Ok(ScriptTraffic::Signal { number }),
    }
}

/// What was shown.
fn kept_sight(alloc: Global, seen: Sight<'_>) -> Result<ScriptSight, Memory>
    ensures { IfOk result (λ own. kept.script_sight_value own ≡ sight_value seen.entry) }
{
    match seen {
        Sight::Nothing => Ok(ScriptSight::Nothing),
        Sight::NotKept => Ok(ScriptSight::NotKept),
        Sight::Words(bytes) => Ok(ScriptSight::Words(Vec::from_slice(alloc, bytes)?)),
    }
}
