//! The whole machine as mathematics, and its laws.
//! The running machine meets these definitions. The type of a cue is the policy of information flow: whether the slot
//! is the partition's own, what others put into its channels or took from them, the number of a link over which one
//! signalled it, an order on it, the hypervisor event, and what an observing call of a system partition is shown. It
//! has nothing of another partition's memory, registers, lines or image. Of another's state and logs, and of the plan,
//! it has what an observing call shows a system partition, and nothing else.
#![tactic(auto)]

mod calls;
mod law;
mod numbers;
mod rows;

pub use calls::{
    core_files, health_events, link_calls, log_calls, observing_calls, partition_calls, port_calls,
    processor_calls, reaching_others, time_calls,
};
pub use law::{
    acts_within_bounds, all_ticks, boots_alone, calls_have_numbers, earlier_ticks,
    effects_act_within_own, has_own_tag, keeps_facts, keeps_facts_alone, keeps_hardware_clock,
    keeps_numbers, keeps_plans, keeps_shapes, never_upon_itself, observes_as_tested, one_tick,
    own_lines, received_as_allowed, same_core_file, scripts_end, sees_nothing, trades_few_bytes,
    two_runs,
};
pub use numbers::{Call, call_of, number_of_call};
pub use rows::{
    asks_for_plans, halts_at_faults, holds_words, keeps_time, meets_illegal, observes_another,
    orders_another, reaches_all, receives_messages, resets_itself, rules_system, runs_in_slots,
    says_hi, sends_messages, serves_itself, starts, switches_to_maintenance, takes_traps,
    timer_goes_on, traces_in_mask, waits_for_slot, writes_samples,
};
