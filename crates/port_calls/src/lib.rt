//! The hypercalls on ports and links.
//! Each call has one clause, `IsServed` over the call's definition in `machine_model`, from which `serve` of
//! `hypercalls` has its own. Calls that differ by the kind of their port share a function that takes the kind. What
//! such calls do to channels and over links stands by itself, too, for what others do to a partition's.
#![tactic(auto)]

mod link_calls;
mod made_ports;
mod message_calls;
mod on_ports;
mod port_making;
mod port_status;
mod traffic;

pub use link_calls::raise_ipvi;
pub use on_ports::{PortWork, call_port};
pub use port_making::create_port;
pub use traffic::{drop_first, put_sampling, send, signal};
