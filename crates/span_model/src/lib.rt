//! Runs of the machine slot by slot, as mathematics: what ticks of one slot leave of any machine.
//! Mathematics over `machine_model`, of any machine.
#![tactic(auto)]

mod law;

pub use law::{
    calm_ticks, going_ticks, idle_ticks, late_looks, late_machine, late_rest, next_tick,
    resting_ticks, silent_consoles, slot_goes_on, tick_in_passes, undisturbed_ticks,
};
