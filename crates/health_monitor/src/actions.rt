//! The outcome of each action.

ghost use Rattle.std.specs.Prelude.{◌≡◌, ◌↔◌, true, false};
ghost use Rattle.xm_conf.specs.declared.health.Action.TheVariants.{Halt, Propagate};
ghost use Rattle.health_monitor.specs.Monitor.{PassesOver, does, effect_of};

use crate::effects::{Effect, Own, Whole};
use xm_base::Mode;
use xm_conf::Action;

/// The outcome of an action, where the partition's traps are enabled or not.
#[tactic(auto, unfolding(crate::specs::Monitor::effect_of))]
pub fn effect(action: Action, enabled: bool) -> Effect
    // The outcome of an action; which pass over; PROPAGATE with traps disabled is HALT.
    ensures value { result ≡ effect_of action enabled }
    ensures passes { (result.pass ≡ true) ↔ PassesOver action }
    ensures halts { action ≡ Propagate → enabled ≡ false → result ≡ effect_of Halt enabled }
{
    match action {
        Action::Ignore => answer(action, true, Own::Nothing, Whole::Nothing),
        Action::Shutdown => answer(action, true, Own::Shutdown, Whole::Nothing),
        Action::PartitionColdReset => answer(action, false, Own::Reset(Mode::Cold), Whole::Nothing),
        Action::PartitionWarmReset => answer(action, false, Own::Reset(Mode::Warm), Whole::Nothing),
        Action::Suspend => answer(action, true, Own::Suspend, Whole::Nothing),
        Action::Halt => answer(action, false, Own::Halt, Whole::Nothing),
        Action::Propagate if enabled => answer(action, false, Own::Propagate, Whole::Nothing),
        Action::Propagate => answer(Action::Halt, false, Own::Halt, Whole::Nothing),
        Action::HypervisorColdReset => answer(
            action,
            false,
            Own::Nothing,
            Whole::Reset(Mode::Cold),
        ),
        Action::HypervisorWarmReset => answer(
            action,
            false,
            Own::Nothing,
            Whole::Reset(Mode::Warm),
        ),
        Action::HypervisorHalt => answer(action, false, Own::Nothing, Whole::Halt),
        Action::SwitchToMaintenance => answer(action, true, Own::Nothing, Whole::Maintenance),
    }
}

// An action that does so, and whether the partition goes on after the instruction.
fn answer(action: Action, pass: bool, own: Own, whole: Whole) -> Effect
    ensures { result ≡ does action pass own whole }
{
    Effect {
        action,
        pass,
        own,
        whole,
    }
}
