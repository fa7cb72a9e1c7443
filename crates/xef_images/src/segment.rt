//! A segment of an image.

ghost use Rattle.std.specs.Prelude.{◌≡◌, length};
ghost use Rattle.xef_images.specs.Image.{end_of};
ghost use Rattle.xef_images.specs.Tests.{is_covered};
ghost use Rattle.xef_images.specs.lemmas.TestsTerms.{is_placed};

use std::marker::Model;

/// A piece of a partition's memory, with the bytes that stand at its beginning. The rest is zeros.
#[derive(Debug, Drop)]
pub struct Segment {
    /// Where the memory begins.
    pub address: u32,
    /// The size of the memory in bytes.
    pub memory: u32,
    /// The first bytes of the memory.
    pub bytes: Vec<u8>,
}

impl Model for Segment {
    ghost use Rattle.xef_images.specs.Image.{Segment as Meaning};

    ghost Value = { Meaning };

    ghost view = { λ segment. record {
      address = segment.address;
      memory = segment.memory;
      bytes = segment.bytes.items;
    } };
}

impl Segment {
    /// The first address after its memory.
    pub(crate) fn end(&self) -> u64
        ensures { result ≡ end_of self.now }
    {
        u64::from(self.address) + u64::from(self.memory)
    }

    /// How many bytes it has.
    pub(crate) fn count(&self) -> usize
        ensures { result ≡ length self.now.bytes }
    {
        self.bytes.len()
    }

    /// Whether an address is in its memory.
    pub(crate) fn covers(&self, address: u32) -> bool
        ensures { result ≡ is_covered address self.now }
    {
        self.address <= address && u64::from(address) < self.end()
    }

    /// Whether it may stand in an image where the one before it ends at the floor.
    pub(crate) fn is_placed(&self, floor: u64) -> bool
        ensures { result ≡ is_placed floor self.now }
    {
        floor <= u64::from(self.address)
            && 1 <= self.memory
            && self.end() <= ADDRESSES
            && self.bytes.len() <= self.memory as usize
    }
}

/// How many addresses there are.
pub(crate) const ADDRESSES: u64 = 1 << 32;
