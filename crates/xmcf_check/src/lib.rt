//! Checks a draft by the rules of a configuration: the configuration that it describes, or the first broken rule.
#![tactic(auto)]

mod answers;
mod broken;
mod checking;
mod elements;
mod family;
mod gathered;
mod gathering;
mod ids;
mod judging;
mod numbers;
mod places;
mod sorts;

pub use checking::check;
pub use fault_messages::CheckFault;
