//! Sampling channels: the last message.

ghost use Rattle.std.specs.Prelude.{◌≡◌, ◌≤◌, IfOk, None, Some, length};

use crate::room::Room;
use std::alloc::Global;
use std::marker::Model;
use xm_base::Memory;

/// The message that a sampling channel holds.
#[derive(Debug, Drop)]
pub struct Sample<'a> {
    /// When it was written, in microseconds.
    pub time: u64,
    pub bytes: &'a [u8],
}

impl<'a> Model for Sample<'a> {
    ghost use Rattle.xm_ports.specs.Channels.{HeldSample};

    ghost Value = { HeldSample };

    ghost view = { λ sample. record { time = sample.time; bytes = sample.bytes.now } };
}

/// A sampling channel.
#[derive(Debug, Drop)]
pub(crate) struct SamplingChannel {
    refresh: u32,
    length: u16,
    /// When the message was written, where one was.
    time: Option<u64>,
    room: Room,
}

impl Model for SamplingChannel {
    ghost use Rattle.std.specs.Prelude.{◌≡◌};
    ghost use Rattle.xm_ports.specs.Kept.{SamplingState, sample_in};

    ghost Value = { SamplingState };

    ghost view = { λ state. record { refresh = state.refresh; length = state.length; sample = sample_in state.time state.room } };

    ghost invariant = { λ state. state.room.most ≡ state.length };
}

impl SamplingChannel {
    /// A channel for messages of at most this many bytes, before the first.
    pub(crate) fn new(alloc: Global, refresh: u32, length: u16) -> Result<SamplingChannel, Memory>
        ensures value { IfOk result (λ state. state ≡ record { refresh = refresh; length = length; sample = None }) }
    {
        let room = Room::new(alloc, length)?;
        Ok(SamplingChannel {
            refresh,
            length,
            time: None,
            room,
        })
    }

    /// Holds a message instead of the one before.
    pub(crate) fn put(&mut self, bytes: &[u8], now: u64)
        requires { length bytes.now ≤ self.old.length }
        ensures value { self.new ≡ record { refresh = self.old.refresh; length = self.old.length; sample = Some record { time = now; bytes = bytes.now } } }
    {
        self.room.put(bytes);
        self.time = Some(now);
    }

    /// The message, where one was written.
    pub(crate) fn last(&self) -> Option<Sample<'_>>
        ensures value { result ≡ self.now.sample }
    {
        match self.time {
            Some(time) => Some(Sample {
                time,
                bytes: self.room.bytes(),
            }),
            None => None,
        }
    }

    /// Drops the message.
    pub(crate) fn clear(&mut self)
        ensures value { self.new ≡ record { refresh = self.old.refresh; length = self.old.length; sample = None } }
    {
        self.time = None;
    }
}
