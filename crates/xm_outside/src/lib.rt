//! The outside as traits: a store of files, a sink of bytes and a UART, in memory and over the real thing.
#![tactic(auto)]

mod file_store;
mod file_uart;
mod mem_sink;
mod mem_store;
mod mem_uart;
mod out_sink;
mod part_name;
mod sink;
mod store;
mod sure_sink;
mod sure_uart;
mod uart;
mod whole_file;

pub use file_store::FileStore;
pub use file_uart::FileUart;
pub use mem_sink::MemSink;
pub use mem_store::MemStore;
pub use mem_uart::MemUart;
pub use out_sink::OutSink;
pub use sink::{Sink, write_all};
pub use store::{Failed, Store, StoreFault};
pub use sure_sink::SureSink;
pub use sure_uart::SureUart;
pub use uart::Uart;

#[cfg(test)]
mod tests;
