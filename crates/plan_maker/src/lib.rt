//! A cyclic plan made from the requirements of the partitions, and a plan checked against them.
#![tactic(auto)]

mod answer;
mod course;
mod jobs;
mod making;
mod meeting;
mod moment;
mod period;
mod rows;

pub use answer::Met;
pub use fault_messages::PlanFault;
pub use making::make;
pub use meeting::met;
pub use rows::worked_rows;
