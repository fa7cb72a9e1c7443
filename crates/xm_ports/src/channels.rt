//! All channels of a system.

ghost use Rattle.std.specs.Prelude.{◌≡◌, ◌↔◌, ℕ, ◌≤◌, All, ◌++◌, IfOk, IfSome, IfNone, IsErr, IsNone, OnErr, OnOk, OnSome, None, drop, length, map, option_map, slice_get};
ghost use Rattle.xm_conf.specs.Fits.{IsChan};
ghost use Rattle.xm_ports.specs.Contents.{EachSuits, content_of};
ghost use Rattle.xm_ports.specs.Stored.{table_of};
ghost use Rattle.xm_ports.specs.Channels.{FitsChannel, HasQueue, HasSampling, IsFull, IsTable, all_cleared, content_at, empty, first_message, messages_of, put, sample_of, shape_of, shapes_of, first_taken, with_content};

use crate::channel::Channel;
use crate::content::ContentValue;
use crate::queuing::Full;
use crate::sampling::Sample;
use std::alloc::Global;
use std::marker::Model;
use xm_base::Memory;
use xm_conf::{Chan, Conf};

/// The channels of a system, each by its number, with the messages that they hold.
#[derive(Debug, Drop)]
pub struct Channels {
    channels: Vec<Channel>,
}

impl Model for Channels {
    ghost use Rattle.xm_ports.specs.Channels.{ChannelTable, IsTable};
    ghost use Rattle.xm_ports.specs.Stored.{table_of};

    ghost Value = { ChannelTable };

    ghost view = { λ all. table_of all.channels.items };

    ghost invariant = { λ all. IsTable (table_of all.channels.items) };
}

impl Channels {
    /// The channels of a configuration, without a message. All room for messages is taken here: no other call
    /// needs memory.
    pub fn new(alloc: Global, conf: &Conf) -> Result<Channels, Memory>
        // All channels of a configuration, empty, with room for all that they will hold.
        ensures value { IfOk result (λ table. table ≡ record { shapes = shapes_of conf.now; contents = map empty (shapes_of conf.now) }) }
    {
        let channels = made(alloc, chans_of(conf))?;
        Ok(Channels { channels })
    }

    /// The channels of a configuration, each with what it holds. All room for messages is taken here: no other call
    /// needs memory.
    pub fn resumed(
        alloc: Global,
        conf: &Conf,
        contents: &[ContentValue],
    ) -> Result<Channels, Memory>
        // Called with something for each channel that suits it: a message has 1 to as many bytes as the channel says, and
        // no more wait than the channel says.
        requires counted { length contents.now ≡ length (shapes_of conf.now) }
        requires suits { EachSuits (shapes_of conf.now) (map content_of contents.now) }
        // All channels of a configuration, each holding what is given, with room for all that they will hold.
        ensures value { IfOk result (λ table. table ≡ record { shapes = shapes_of conf.now; contents = map content_of contents.now }) }
    {
        let channels = filled(alloc, chans_of(conf), contents)?;
        Ok(Channels { channels })
    }

    /// Writes a message to a sampling channel at a time, in microseconds. It replaces the one before.
    pub fn put_sampling(&mut self, chan: u8, bytes: &[u8], now: u64)
        // Called for a sampling channel and with a message of 1 to as many bytes as the channel says.
        requires channel { HasSampling chan self.old }
        requires bytes { FitsChannel bytes.now chan self.old }
        // The message is what the sampling channel holds.
        ensures put { self.new ≡ with_content (put now bytes.now) chan self.old }
    {
        self.channels[usize::from(chan)].put_sampling(bytes, now);
    }

    /// The message that a sampling channel holds, or `None` before the first. It stays.
    pub fn get_sampling(&self, chan: u8) -> Option<Sample<'_>>
        // Called for a sampling channel.
        requires channel { HasSampling chan self.now }
        // The message that the sampling channel holds, or none before the first.
        ensures value { result ≡ sample_of (content_at chan self.now) }
        ensures none { IsNone result ↔ (sample_of (content_at chan self.now) ≡ None) }
        // What holds of the channels at all times.
        ensures kept { IsTable self.now }
    {
        self.channels[usize::from(chan)].last()
    }

    /// Puts a message at the end of a queue, or answers `Full` where the queue holds as many as it may.
    pub fn send(&mut self, chan: u8, bytes: &[u8]) -> Result<(), Full>
        // Called for a queue and with a message of 1 to as many bytes as the channel says.
        requires channel { HasQueue chan self.old }
        requires bytes { FitsChannel bytes.now chan self.old }
        // Refused exactly where the queue is full, and then nothing changed; else the message is its last, at whatever
        // time.
        ensures full { IsErr result ↔ IsFull chan self.old }
        ensures sent { OnOk result ((now : ℕ) → self.new ≡ with_content (put now bytes.now) chan self.old) }
        ensures unchanged { OnErr result (self.new ≡ self.old) }
    {
        self.channels[usize::from(chan)].send(bytes)
    }

    /// The message that waits longest in a queue, or `None` where none waits. It stays.
    pub fn first(&self, chan: u8) -> Option<&[u8]>
        // Called for a queue.
        requires channel { HasQueue chan self.now }
        // The first message of the queue, or none exactly where none waits. It stays.
        ensures value { option_map (λ bytes. bytes.now) result ≡ first_message (content_at chan self.now) }
        ensures none { IsNone result ↔ (first_message (content_at chan self.now) ≡ None) }
        // What holds of the channels at all times.
        ensures kept { IsTable self.now }
    {
        self.channels[usize::from(chan)].first()
    }

    /// The message at a place of a queue, of which the one that waits longest has 0, or `None` after the last. It stays.
    pub fn message(&self, chan: u8, place: usize) -> Option<&[u8]>
        // Called for a queue.
        requires channel { HasQueue chan self.now }
        // The message of the queue at that place, or none after the last. It stays.
        ensures value { option_map (λ bytes. bytes.now) result ≡ slice_get (messages_of (content_at chan self.now)) place }
    {
        self.channels[usize::from(chan)].message(place)
    }

    /// Takes the message that waits longest in a queue, copies it to the beginning of `into`, and answers how many bytes
    /// it has; or `None` where none waits.
    pub fn receive(&mut self, chan: u8, into: &mut [u8]) -> Option<usize>
        // Called for a queue and with room for the first message.
        requires channel { HasQueue chan self.old }
        requires room { IfSome (first_message (content_at chan self.old)) (λ first. length first ≤ length into.old) }
        // None exactly where no message waits, and then nothing changed.
        ensures none { IsNone result ↔ (first_message (content_at chan self.old) ≡ None) }
        ensures unchanged { IfNone result ((self.new ≡ self.old) × (into.new ≡ into.old)) }
        // The first message, at the beginning of the bytes that were lent, and its length.
        ensures length { result ≡ option_map length (first_message (content_at chan self.old)) }
        ensures bytes { IfSome (first_message (content_at chan self.old)) (λ first. into.new ≡ first ++ drop (length first) into.old) }
        // It is taken out of the queue.
        ensures taken { OnSome result (self.new ≡ with_content first_taken chan self.old) }
    {
        self.channels[usize::from(chan)].receive(into)
    }

    /// Drops the message that waits longest in a queue, where one waits.
    pub fn drop_first(&mut self, chan: u8)
        // Called for a queue.
        requires channel { HasQueue chan self.old }
        // The queue is as before without its first message; an empty one stays as it is.
        ensures dropped { self.new ≡ with_content first_taken chan self.old }
    {
        self.channels[usize::from(chan)].drop_first();
    }

    /// How many messages wait in a queue.
    pub fn count(&self, chan: u8) -> usize
        // Called for a queue.
        requires channel { HasQueue chan self.now }
        // How many messages wait.
        ensures value { result ≡ length (messages_of (content_at chan self.now)) }
    {
        self.channels[usize::from(chan)].count()
    }

    /// Drops all messages of all channels.
    pub fn clear(&mut self)
        // All messages are dropped.
        ensures contents { self.new ≡ all_cleared self.old }
    {
        clear_all(&mut self.channels);
    }
}

/// The channels of a configuration.
#[tactic(auto, unfolding(xm_conf::specs::Description::described))]
fn chans_of(conf: &Conf) -> &[Chan]
    ensures value { result.now ≡ conf.now.chans }
    ensures few { length result.now ≤ 64 }
    ensures chans { All IsChan result.now }
{
    &conf.raw().chans
}

/// Configured channels, before the first message.
fn made(alloc: Global, chans: &[Chan]) -> Result<Vec<Channel>, Memory>
    ensures table { IfOk result (λ channels. table_of channels.items ≡ record { shapes = map shape_of chans.now; contents = map empty (map shape_of chans.now) }) }
{
    let mut channels = Vec::with_capacity(alloc, chans.len())?;
    for chan in chans {
        channels.push_reserved(Channel::new(alloc, chan)?);
    }
    Ok(channels)
}

/// Configured channels, each with what it holds.
fn filled(alloc: Global, chans: &[Chan], contents: &[ContentValue]) -> Result<Vec<Channel>, Memory>
    requires counted { length contents.now ≡ length chans.now }
    requires suits { EachSuits (map shape_of chans.now) (map content_of contents.now) }
    ensures table { IfOk result (λ channels. table_of channels.items ≡ record { shapes = map shape_of chans.now; contents = map content_of contents.now }) }
{
    let mut channels = Vec::with_capacity(alloc, chans.len())?;
    for c in 0..chans.len() {
        channels.push_reserved(Channel::resumed(alloc, &chans[c], &contents[c])?);
    }
    Ok(channels)
}

/// Drops all messages of these channels.
fn clear_all(channels: &mut [Channel])
    ensures table { table_of channels.new ≡ all_cleared (table_of channels.old) }
{
    for channel in channels {
        channel.clear();
    }
}
