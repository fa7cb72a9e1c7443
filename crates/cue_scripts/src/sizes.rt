//! How long entries are.

ghost use Rattle.std.specs.Prelude.{◌≡◌, ◌≤◌, length};
ghost use Rattle.cue_scripts.specs.Entries.{Other};
ghost use Rattle.cue_scripts.specs.Kept.{HasCueRanges, HasSightRange, HasTrafficRange};
ghost use Rattle.cue_scripts.specs.Spelling.{entry_text, order_text, sight_text, traffic_text};
ghost use Rattle.cue_scripts.specs.Values.{script_cue_value, script_sight_value, script_traffic_value};

use crate::cue::{ScriptCue, ScriptSight, ScriptTraffic};
use xm_base::Order;

/// How long an entry of another cue is.
#[tactic(auto, unfolding(crate::specs::Spelling::entry_text, crate::specs::Spelling::cue_text))]
pub(crate) fn other_length(cue: &ScriptCue) -> u64
    requires { HasCueRanges (script_cue_value cue.now) }
    ensures value { result ≡ length (entry_text (Other (script_cue_value cue.now))) }
    ensures few { result ≤ 70000 }
{
    3 + traffic_length(&cue.traffic) + order_length(cue.order) + sight_length(&cue.seen)
}

/// How long traffic is.
#[tactic(auto, unfolding(crate::specs::Spelling::traffic_text))]
fn traffic_length(traffic: &ScriptTraffic) -> u64
    requires { HasTrafficRange (script_traffic_value traffic.now) }
    ensures value { result ≡ length (traffic_text (script_traffic_value traffic.now)) }
    ensures few { result ≤ 65539 }
{
    match traffic {
        ScriptTraffic::Nothing => 1,
        ScriptTraffic::Put { bytes, .. } => 4 + bytes.len() as u64,
        ScriptTraffic::Take { .. } | ScriptTraffic::Signal { .. } => 2,
    }
}

/// How long an order is.
#[tactic(auto, unfolding(crate::specs::Spelling::order_text))]
fn order_length(order: Option<Order>) -> u64
    ensures value { result ≡ length (order_text order) }
    ensures few { result ≤ 5 }
{
    match order {
        Some(Order::Reset { .. }) => 5,
        None | Some(Order::Halt | Order::Suspend | Order::Resume | Order::Shutdown) => 1,
    }
}

/// How long a sight is.
#[tactic(auto, unfolding(crate::specs::Spelling::sight_text))]
fn sight_length(seen: &ScriptSight) -> u64
    requires { HasSightRange (script_sight_value seen.now) }
    ensures value { result ≡ length (sight_text (script_sight_value seen.now)) }
    ensures few { result ≤ 257 }
{
    if let ScriptSight::Words(bytes) = seen {
        2 + bytes.len() as u64
    } else {
        1
    }
}
