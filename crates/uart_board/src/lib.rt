//! The UARTs that the consoles of partitions write to, boxed, at eight places.
#![tactic(auto)]

mod board;
mod views;

pub use board::Board;
pub use views::{ViewBoard, ViewUart};

#[cfg(test)]
mod tests;
