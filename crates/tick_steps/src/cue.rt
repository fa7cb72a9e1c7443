//! What one partition receives in a tick.

ghost use Rattle.std.specs.Prelude.{◌≡◌};
ghost use Rattle.cue_scripts.specs.Values.{event_value};
ghost use Rattle.machine_model.specs.Whole.{event_of};
ghost use Rattle.tick_steps.specs.Work.{act_beyond};

use crate::beyond::Beyond;
use cue_scripts::{CueSlot, WholeEvent};
use health_monitor::Whole;
use xm_base::{Mode, Order};

/// What others did to a channel of the partition, which goes by the partition's name for it: its lowest port on the channel; or over a link
/// to it.
#[derive(Clone, Copy, Debug, PartialEq, Eq)]
pub enum Traffic<'a> {
    /// Nothing.
    Nothing,
    /// A message was put.
    Put { chan: u8, bytes: &'a [u8] },
    /// The first message was taken.
    Take { chan: u8 },
    /// It was signalled over a link of this number that goes to it.
    Signal { number: u8 },
}

/// What an observing call of the partition was shown.
#[derive(Clone, Copy, Debug, PartialEq, Eq)]
pub enum Sight<'a> {
    /// Nothing.
    Nothing,
    /// That an entry is not kept.
    NotKept,
    /// These bytes.
    Words(&'a [u8]),
}

/// All that one partition receives from the others in a tick.
#[derive(Clone, Copy, Debug, PartialEq, Eq)]
pub struct Cue<'a> {
    pub mine: CueSlot,
    pub traffic: Traffic<'a>,
    /// The order that another partition gave it.
    pub order: Option<Order>,
    pub whole: WholeEvent,
    pub seen: Sight<'a>,
}

/// What was done to the whole system. Nobody receives the maintenance plan.
pub fn whole_of(reach: Beyond) -> WholeEvent
    // The hypervisor event of an act, where it has one.
    ensures { event_value result ≡ event_of (act_beyond reach) }
{
    match reach {
        Beyond::Whole(Whole::Reset(Mode::Cold)) => WholeEvent::Cold,
        Beyond::Whole(Whole::Reset(Mode::Warm)) => WholeEvent::Warm,
        Beyond::Whole(Whole::Halt) => WholeEvent::Halt,
        Beyond::Whole(Whole::Nothing | Whole::Maintenance) => WholeEvent::Nothing,
        Beyond::Nothing | Beyond::Order { .. } | Beyond::Plan { .. } => WholeEvent::Nothing,
    }
}
