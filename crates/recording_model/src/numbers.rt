//! The numbers of a cue that is kept.

ghost use Rattle.xm_base.specs.Bytes.{AreBytes};
ghost use Rattle.cue_scripts.specs.Script.{IsOrder};
ghost use Rattle.cue_scripts.specs.Values.{script_cue_value, script_sight_value, script_traffic_value};
ghost use Rattle.range_model.specs.Cues.{HasMessageBytes, HasNumbers, HasShownBytes};

use cue_scripts::{ScriptCue, ScriptSight, ScriptTraffic};
use xm_base::Order;

/// For the proof: what a kept cue has of bytes are bytes, and the status of a reset is a word.
pub fn has_numbers(cue: &ScriptCue)
    // Of a cue that a program keeps, a message and what is shown are bytes, and the status of a reset is a word.
    ensures numbers { HasNumbers (script_cue_value cue.now) }
{
    has_message_bytes(&cue.traffic);
    has_status(cue.order);
    has_shown_bytes(&cue.seen);
}

/// For the proof: a message is bytes.
fn has_message_bytes(traffic: &ScriptTraffic)
    ensures bytes { HasMessageBytes (script_traffic_value traffic.now) }
{
    match traffic {
        ScriptTraffic::Nothing | ScriptTraffic::Take { .. } | ScriptTraffic::Signal { .. } => {}
        ScriptTraffic::Put { bytes, .. } => are_bytes(bytes),
    }
}

/// For the proof: the status of a reset is a word.
fn has_status(order: Option<Order>)
    ensures word { IsOrder order }
{
    match order {
        None
        | Some(Order::Halt)
        | Some(Order::Suspend)
        | Some(Order::Resume)
        | Some(Order::Shutdown) => {}
        Some(Order::Reset { status, .. }) => {
            let _ = status;
        }
    }
}

/// For the proof: what is shown is bytes.
fn has_shown_bytes(seen: &ScriptSight)
    ensures bytes { HasShownBytes (script_sight_value seen.now) }
{
    match seen {
        ScriptSight::Nothing | ScriptSight::NotKept => {}
        ScriptSight::Words(bytes) => are_bytes(bytes),
    }
}

/// For the proof: the elements of a slice are bytes.
fn are_bytes(bytes: &[u8])
    ensures each { AreBytes bytes.now }
{
    let _ = bytes;
}
