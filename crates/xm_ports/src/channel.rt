//! A channel of either kind.

ghost use Rattle.std.specs.Prelude.{◌≡◌, ◌↔◌, ℕ, ◌≤◌, ◌++◌, IfOk, IfSome, IsErr, IfNone, OnErr, OnOk, drop, length, map, option_map, slice_get};
ghost use Rattle.xm_ports.specs.Channels.{IsQueuing, IsSampling, Queuing as Queued, Sampling as Sampled, Suits, cleared, empty, first_message, messages_of, most_of, put, sample_of, shape_of, first_taken};
ghost use Rattle.xm_ports.specs.Contents.{content_of};
ghost use Rattle.xm_ports.specs.Stored.{channel_content, channel_shape};

use crate::content::{ContentValue, SampleValue};
use crate::queuing::{Full, QueuingChannel};
use crate::sampling::{Sample, SamplingChannel};
use std::alloc::Global;
use xm_base::Memory;
use xm_conf::{Chan, ChanKind};

/// A channel with the messages that it holds.
#[derive(Debug, Drop)]
pub(crate) enum Channel {
    Sampling(SamplingChannel),
    Queuing(QueuingChannel),
}

impl Channel {
    /// A configured channel, before the first message.
    pub(crate) fn new(alloc: Global, chan: &Chan) -> Result<Channel, Memory>
        ensures shape { IfOk result (λ channel. channel_shape channel ≡ shape_of chan.now) }
        ensures content { IfOk result (λ channel. channel_content channel ≡ empty (shape_of chan.now)) }
    {
        match chan.kind {
            ChanKind::Sampling { refresh } => {
                let state = SamplingChannel::new(alloc, refresh, chan.length)?;
                Ok(Channel::Sampling(state))
            }
            ChanKind::Queuing { most } => {
                let state = QueuingChannel::new(alloc, most, chan.length)?;
                Ok(Channel::Queuing(state))
            }
        }
    }

    /// A configured channel that holds this.
    pub(crate) fn resumed(
        alloc: Global,
        chan: &Chan,
        content: &ContentValue,
    ) -> Result<Channel, Memory>
        requires { Suits (shape_of chan.now) (content_of content.now) }
        ensures shape { IfOk result (λ channel. channel_shape channel ≡ shape_of chan.now) }
        ensures content { IfOk result (λ channel. channel_content channel ≡ content_of content.now) }
    {
        let mut channel = Channel::new(alloc, chan)?;
        channel.fill(content);
        Ok(channel)
    }

    // An empty channel holds this.
    fn fill(&mut self, content: &ContentValue)
        requires suits { Suits (channel_shape self.old) (content_of content.now) }
        requires empty { channel_content self.old ≡ empty (channel_shape self.old) }
        ensures shape { channel_shape self.new ≡ channel_shape self.old }
        ensures content { channel_content self.new ≡ content_of content.now }
    {
        match content {
            ContentValue::Sampling(sample) => self.fill_sample(sample),
            ContentValue::Queuing(messages) => self.fill_queue(messages),
        }
    }

    // An empty sampling channel holds this message, where it is one.
    fn fill_sample(&mut self, sample: &Option<SampleValue>)
        requires suits { Suits (channel_shape self.old) (Sampled sample.now) }
        requires empty { channel_content self.old ≡ empty (channel_shape self.old) }
        ensures shape { channel_shape self.new ≡ channel_shape self.old }
        ensures content { channel_content self.new ≡ Sampled sample.now }
    {
        match sample {
            Some(sample) => self.put_sampling(&sample.bytes, sample.time),
            None => {}
        }
    }

    // In an empty queue these messages wait.
    fn fill_queue(&mut self, messages: &[Vec<u8>])
        requires suits { Suits (channel_shape self.old) (Queued (map (λ message. message.items) messages.now)) }
        requires empty { channel_content self.old ≡ empty (channel_shape self.old) }
        ensures shape { channel_shape self.new ≡ channel_shape self.old }
        ensures content { channel_content self.new ≡ Queued (map (λ message. message.items) messages.now) }
    {
        for message in messages {
            match self.send(message) {
                Ok(()) => {}
                Err(_) => unreachable!(),
            }
        }
    }

    /// Writes a message to a sampling channel.
    #[tactic(auto, unfolding(crate::specs::Channels::put))]
    pub(crate) fn put_sampling(&mut self, bytes: &[u8], now: u64)
        requires channel { IsSampling (channel_shape self.old).kind }
        requires bytes { length bytes.now ≤ (channel_shape self.old).length }
        ensures shape { channel_shape self.new ≡ channel_shape self.old }
        ensures content { channel_content self.new ≡ put now bytes.now (channel_content self.old) }
    {
        match self {
            Channel::Sampling(state) => state.put(bytes, now),
            Channel::Queuing(_) => unreachable!(),
        }
    }

    /// The message that a sampling channel holds.
    pub(crate) fn last(&self) -> Option<Sample<'_>>
        ensures value { result ≡ sample_of (channel_content self.now) }
    {
        match self {
            Channel::Sampling(state) => state.last(),
            Channel::Queuing(_) => None,
        }
    }

    /// Puts a message at the end of a queue, where it is not full.
    #[tactic(auto, unfolding(crate::specs::Channels::put))]
    pub(crate) fn send(&mut self, bytes: &[u8]) -> Result<(), Full>
        requires channel { IsQueuing (channel_shape self.old).kind }
        requires bytes { length bytes.now ≤ (channel_shape self.old).length }
        ensures full { IsErr result ↔ (length (messages_of (channel_content self.old)) ≡ most_of (channel_shape self.old).kind) }
        ensures shape { channel_shape self.new ≡ channel_shape self.old }
        ensures sent { OnOk result ((now : ℕ) → channel_content self.new ≡ put now bytes.now (channel_content self.old)) }
        ensures unchanged { OnErr result (self.new ≡ self.old) }
    {
        match self {
            Channel::Sampling(_) => unreachable!(),
            Channel::Queuing(state) => state.send(bytes),
        }
    }

    /// The message that waits longest in a queue.
    pub(crate) fn first(&self) -> Option<&[u8]>
        ensures value { option_map (λ bytes. bytes.now) result ≡ first_message (channel_content self.now) }
    {
        match self {
            Channel::Sampling(_) => None,
            Channel::Queuing(state) => state.first(),
        }
    }

    /// The message at a place of a queue, of which the one that waits longest has 0.
    pub(crate) fn message(&self, place: usize) -> Option<&[u8]>
        ensures value { option_map (λ bytes. bytes.now) result ≡ slice_get (messages_of (channel_content self.now)) place }
    {
        match self {
            Channel::Sampling(_) => None,
            Channel::Queuing(state) => state.message(place),
        }
    }

    /// Takes the message that waits longest in a queue, and answers how many bytes it has.
    #[tactic(auto, unfolding(crate::specs::Channels::first_taken))]
    pub(crate) fn receive(&mut self, into: &mut [u8]) -> Option<usize>
        requires { IfSome (first_message (channel_content self.old)) (λ first. length first ≤ length into.old) }
        ensures length { result ≡ option_map length (first_message (channel_content self.old)) }
        ensures bytes { IfSome (first_message (channel_content self.old)) (λ first. into.new ≡ first ++ drop (length first) into.old) }
        ensures shape { channel_shape self.new ≡ channel_shape self.old }
        ensures taken { channel_content self.new ≡ first_taken (channel_content self.old) }
        ensures unchanged { IfNone result (into.new ≡ into.old) }
    {
        match self {
            Channel::Sampling(_) => None,
            Channel::Queuing(state) => state.receive(into),
        }
    }

    /// Drops the message that waits longest in a queue, where one waits.
    #[tactic(auto, unfolding(crate::specs::Channels::first_taken))]
    pub(crate) fn drop_first(&mut self)
        ensures shape { channel_shape self.new ≡ channel_shape self.old }
        ensures content { channel_content self.new ≡ first_taken (channel_content self.old) }
    {
        match self {
            Channel::Sampling(_) => {}
            Channel::Queuing(state) => state.drop_first(),
        }
    }

    /// How many messages wait in a queue.
    pub(crate) fn count(&self) -> usize
        ensures value { result ≡ length (messages_of (channel_content self.now)) }
    {
        match self {
            Channel::Sampling(_) => 0,
            Channel::Queuing(state) => state.count(),
        }
    }

    /// Drops all messages.
    #[tactic(auto, unfolding(crate::specs::Channels::cleared))]
    pub(crate) fn clear(&mut self)
        ensures shape { channel_shape self.new ≡ channel_shape self.old }
        ensures content { channel_content self.new ≡ cleared (channel_content self.old) }
    {
        match self {
            Channel::Sampling(state) => state.clear(),
            Channel::Queuing(state) => state.clear(),
        }
    }
}
