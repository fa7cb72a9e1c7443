//! What a partition's table says of an event.

ghost use Rattle.std.specs.Prelude.{◌≡◌};
ghost use Rattle.health_monitor.specs.Monitor.{action_in, is_logged};

use xm_conf::{Action, Event, HmTable};

/// The action that answers an event.
#[tactic(auto, unfolding(crate::specs::Monitor::action_in))]
pub fn action_of(table: &HmTable, event: Event) -> Action
    // The action that a table has for an event.
    ensures value { result ≡ action_in table.now event }
{
    table.actions[usize::from(event.number())]
}

/// Whether an event is logged.
#[tactic(auto, unfolding(crate::specs::Monitor::is_logged))]
pub fn is_logged(table: &HmTable, event: Event) -> bool
    // Whether a table has the event logged.
    ensures value { result ≡ is_logged table.now event }
{
    table.logged >> event.number() & 1 == 1
}
