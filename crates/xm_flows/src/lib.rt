//! Groups of partitions for which no premise on messages is needed.
//! Nothing is promised of a set with a system partition. What `flows` prints is stated over `group_of`, which finds the
//! least set by `rounds_find_groups`.
#![tactic(auto)]

mod answer;
mod closure;
mod law;
mod mask;

pub use answer::Group;
pub use closure::group;
pub use law::{acts_by_right, closed_runs, go_together, rounds_find_groups};
