//! The memories of all partitions, each with the areas of its configuration, in one vector.
#![tactic(auto)]

mod access;
mod bytes;
mod entry;
mod find;
mod flip;
mod near;
mod outside;
mod parts;
mod ram;
mod range;
mod space;
mod table;

pub use outside::Outside;
pub use ram::Ram;

#[cfg(test)]
mod tests;
