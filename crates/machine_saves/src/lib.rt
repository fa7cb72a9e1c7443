//! A machine as the bytes of a file: what is saved of it, and the one spelling of that.
#![tactic(auto)]

mod channels;
mod fields;
mod head;
mod inputs;
mod loading;
mod not_saved;
mod pages;
mod parts;
mod ranges;
mod whole;

pub use loading::load;
pub use not_saved::NotSaved;
pub use whole::save;
