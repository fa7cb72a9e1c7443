//! The hypercalls on partitions, the whole system, clocks, plans, logs and the virtual processor.
//! Each call has one clause, `IsServed` over the call's definition in `machine_model`, from which `serve` of
//! `hypercalls` has its own. Calls that differ by the order alone share a function that takes the order.
#![tactic(auto)]

mod acting;
mod log_calls;
mod partition_calls;
mod processor_calls;
mod time_calls;

pub use log_calls::{hm_read, hm_status, raise_event, trace_event, trace_read, trace_status};
pub use partition_calls::{
    get_partition_status, get_self, get_system_status, halt_system, idle_self, order_partition,
    reset_partition, reset_system,
};
pub use processor_calls::{
    clear_irqmask, flush_regwin, iret, read_input, set_irqmask, set_psr, set_tbr, write_console,
};
pub use time_calls::{get_plan_status, get_time, set_timer, switch_sched_plan};
