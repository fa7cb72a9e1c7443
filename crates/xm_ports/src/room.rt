//! Places for messages.

ghost use Rattle.std.specs.Prelude.{◌≡◌, ◌≤◌, ◌++◌, [], IfOk, drop, length};

use std::alloc::Global;
use std::marker::Model;
use xm_base::Memory;

/// A place for a message. What it needs of memory it has from the start.
#[derive(Debug, Drop)]
pub(crate) struct Room {
    bytes: Vec<u8>,
    /// How many bytes it can have.
    most: u16,
}

impl Model for Room {
    ghost use Rattle.std.specs.Prelude.{◌≤◌, vec_capacity};
    ghost use Rattle.xm_ports.specs.Kept as kept;

    ghost Value = { kept.Room };

    ghost view = { λ room. record { bytes = room.bytes.items; most = room.most } };

    ghost invariant = { λ room. room.most ≤ vec_capacity room.bytes };
}

impl Room {
    /// A place for this many bytes, without any.
    pub(crate) fn new(alloc: Global, most: u16) -> Result<Room, Memory>
        ensures value { IfOk result (λ room. room ≡ record { bytes = []; most = most }) }
    {
        let bytes = Vec::with_capacity(alloc, usize::from(most))?;
        Ok(Room { bytes, most })
    }

    /// The bytes of the message.
    pub(crate) fn bytes(&self) -> &[u8]
        ensures value { result.now ≡ self.now.bytes }
    {
        &self.bytes
    }

    /// Has the bytes of a message instead of those before.
    pub(crate) fn put(&mut self, bytes: &[u8])
        requires { length bytes.now ≤ self.old.most }
        ensures value { self.new ≡ record { bytes = bytes.now; most = self.old.most } }
    {
        self.bytes.clear();
        self.bytes.extend_from_slice(bytes).unwrap();
    }
}

/// Copies bytes to the beginning of others, and answers how many.
pub(crate) fn copy_to(bytes: &[u8], into: &mut [u8]) -> usize
    requires { length bytes.now ≤ length into.old }
    ensures count { result ≡ length bytes.now }
    ensures bytes { into.new ≡ bytes.now ++ drop (length bytes.now) into.old }
{
    into[..bytes.len()].copy_from_slice(bytes);
    bytes.len()
}
