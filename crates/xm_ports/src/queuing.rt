//! Queues: all messages, in order, until each is taken.

ghost use Rattle.std.specs.Prelude.{◌≡◌, ◌↔◌, ◌≤◌, ◌++◌, ◌∷◌, [], IfOk, IfSome, IsErr, OnErr, OnOk, IfNone, drop, length, slice_get, option_map, vec_capacity};
ghost use Rattle.xm_ports.specs.lemmas.KeptTerms.{HaveRoom};

use crate::room::{Room, copy_to};
use std::alloc::Global;
use std::marker::Model;
use xm_base::Memory;

/// The queue holds as many messages as it may.
#[derive(Clone, Copy, Debug, PartialEq, Eq)]
pub struct Full;

/// A queue. Its rooms are taken from memory at the start, and go round between those that wait and those that are free.
#[derive(Debug, Drop)]
pub(crate) struct QueuingChannel {
    most: u8,
    length: u16,
    /// The rooms of the messages that wait, the oldest first.
    waiting: Vec<Room>,
    free: Vec<Room>,
}

impl Model for QueuingChannel {
    ghost use Rattle.std.specs.Prelude.{vec_capacity};
    ghost use Rattle.xm_ports.specs.lemmas.KeptTerms.{AreKept};
    ghost use Rattle.xm_ports.specs.Kept.{QueuingState, messages_in};

    ghost Value = { QueuingState };

    ghost view = { λ state. record { most = state.most; length = state.length; messages = messages_in state.waiting.items } };

    ghost invariant = { λ state. AreKept state.most state.length state.waiting.items (vec_capacity state.waiting) state.free.items (vec_capacity state.free) };
}

impl QueuingChannel {
    /// An empty queue for this many messages of at most this many bytes.
    pub(crate) fn new(alloc: Global, most: u8, length: u16) -> Result<QueuingChannel, Memory>
        ensures value { IfOk result (λ state. state ≡ record { most = most; length = length; messages = [] }) }
    {
        let waiting = Vec::with_capacity(alloc, usize::from(most))?;
        let free = rooms(alloc, most, length)?;
        Ok(QueuingChannel {
            most,
            length,
            waiting,
            free,
        })
    }

    /// Puts a message at the end, where the queue is not full.
    pub(crate) fn send(&mut self, bytes: &[u8]) -> Result<(), Full>
        requires { length bytes.now ≤ self.old.length }
        ensures full { IsErr result ↔ (length self.old.messages ≡ self.old.most) }
        ensures sent { OnOk result (self.new ≡ record { most = self.old.most; length = self.old.length; messages = self.old.messages ++ bytes.now ∷ [] }) }
        ensures unchanged { OnErr result (self.new ≡ self.old) }
    {
        match self.free.pop() {
            Some(mut room) => {
                room.put(bytes);
                self.waiting.push_reserved(room);
                Ok(())
            }
            None => Err(Full),
        }
    }

    /// The message that waits longest.
    pub(crate) fn first(&self) -> Option<&[u8]>
        ensures value { option_map (λ bytes. bytes.now) result ≡ slice_get self.now.messages 0 }
    {
        match self.waiting.first() {
            Some(room) => Some(room.bytes()),
            None => None,
        }
    }

    /// The message at a place, of which the one that waits longest has 0.
    pub(crate) fn message(&self, place: usize) -> Option<&[u8]>
        ensures value { option_map (λ bytes. bytes.now) result ≡ slice_get self.now.messages place }
    {
        match self.waiting.get(place) {
            Some(room) => Some(room.bytes()),
            None => None,
        }
    }

    /// Takes the message that waits longest, and answers how many bytes it has.
    pub(crate) fn receive(&mut self, into: &mut [u8]) -> Option<usize>
        requires { IfSome (slice_get self.old.messages 0) (λ first. length first ≤ length into.old) }
        ensures length { result ≡ option_map length (slice_get self.old.messages 0) }
        ensures bytes { IfSome (slice_get self.old.messages 0) (λ first. into.new ≡ first ++ drop (length first) into.old) }
        ensures taken { self.new ≡ record { most = self.old.most; length = self.old.length; messages = drop 1 self.old.messages } }
        ensures unchanged { IfNone result (into.new ≡ into.old) }
    {
        let count = match self.waiting.first() {
            Some(room) => copy_to(room.bytes(), into),
            None => return None,
        };
        self.drop_first();
        Some(count)
    }

    /// Drops the message that waits longest, where one waits.
    pub(crate) fn drop_first(&mut self)
        ensures value { self.new ≡ record { most = self.old.most; length = self.old.length; messages = drop 1 self.old.messages } }
    {
        if !self.waiting.is_empty() {
            let room = self.waiting.remove(0);
            self.free.push_reserved(room);
        }
    }

    /// How many messages wait.
    pub(crate) fn count(&self) -> usize
        ensures value { result ≡ length self.now.messages }
    {
        self.waiting.len()
    }

    /// Drops all messages.
    pub(crate) fn clear(&mut self)
        ensures value { self.new ≡ record { most = self.old.most; length = self.old.length; messages = [] } }
    {
        self.free.append(&mut self.waiting).unwrap();
    }
}

/// This many rooms for this many bytes each.
fn rooms(alloc: Global, most: u8, room: u16) -> Result<Vec<Room>, Memory>
    ensures rooms { IfOk result (λ rooms. HaveRoom most room (vec_capacity rooms) rooms.items) }
    ensures count { IfOk result (λ rooms. length rooms.items ≡ most) }
{
    let mut rooms = Vec::with_capacity(alloc, usize::from(most))?;
    for _ in 0..most {
        rooms.push_reserved(Room::new(alloc, room)?);
    }
    Ok(rooms)
}
