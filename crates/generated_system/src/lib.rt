//! The system that is generated out of a number: sixteen partitions, of which each two neighbours share a queue.
//! Both calls fail only where there is no memory: that the system meets all rules of a configuration, that each image
//! lies in its partition's area and that the container is not too long is proved for every number.
#![tactic(auto)]

mod channels;
mod configuration;
mod container;
mod images;
mod parts;
mod plan;

pub use container::{container_of, system_in};
