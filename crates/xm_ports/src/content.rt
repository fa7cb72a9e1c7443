//! What a channel holds, as plain values.

use std::marker::Model;

/// The message of a sampling channel.
#[derive(Debug, Drop)]
pub struct SampleValue {
    /// When it was written, in microseconds.
    pub time: u64,
    pub bytes: Vec<u8>,
}

impl Model for SampleValue {
    ghost use Rattle.xm_ports.specs.Channels.{HeldSample};

    ghost Value = { HeldSample };

    ghost view = { λ sample. record { time = sample.time; bytes = sample.bytes.items } };
}

/// What a channel holds.
#[derive(Debug, Drop)]
pub enum ContentValue {
    /// The last message of a sampling channel, where one was written.
    Sampling(Option<SampleValue>),
    /// The messages that wait in a queue, the oldest first.
    Queuing(Vec<Vec<u8>>),
}
