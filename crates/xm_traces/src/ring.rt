//! A ring of entries, each with its number.

ghost use Rattle.std.specs.Prelude.{◌≡◌, ◌<◌, ◌≤◌, ◌⊎◌, ◌↔◌, IfOk, IsNone, length, min};
ghost use Rattle.xm_traces.specs.Ring.{IsKept, RING_ENTRIES, entry_at, first_kept, kept_of, noted, nothing_kept};

use circular_buffer::HeapCircularBuffer;
use std::alloc::Global;
use std::marker::Model;
use xm_base::Memory;

/// How many entries a ring keeps.
const RING_ENTRIES: usize = 64;

/// The numbers that a ring has entries for: from `first` on, and below `next`.
#[derive(Clone, Copy, Debug, PartialEq, Eq)]
pub struct Counts {
    /// The number of the oldest entry that is kept, or `next` where none is.
    pub first: u32,
    /// The number that the next entry gets, which is how many were noted.
    pub next: u32,
}

/// The last 64 of the entries that were noted. They are numbered from 0 in the order in which they came.
#[derive(Debug, Drop)]
pub struct Ring<T: Copy> {
    next: u32,
    entries: HeapCircularBuffer<T>,
}

impl<T: Copy> Model for Ring<T> {
    ghost use Rattle.std.specs.Prelude.{◌≡◌};
    ghost use Rattle.xm_traces.specs.Ring.{IsKept, Kept, RING_ENTRIES, kept_code, kept_of};

    ghost Value = { Kept T };

    ghost coded = { kept_code T.code };

    ghost view = { λ ring. kept_of ring.next ring.entries.items };

    ghost invariant = { λ ring. IsKept (kept_of ring.next ring.entries.items) × (ring.entries.capacity ≡ RING_ENTRIES) };
}

impl<T: Copy> Ring<T> {
    /// A ring that has no entry, with room for all that it will keep.
    #[tactic(auto, unfolding(crate::specs::Ring::nothing_kept))]
    pub fn new(alloc: Global) -> Result<Ring<T>, Memory>
        // A ring without entries.
        ensures empty { IfOk result (λ ring. ring ≡ nothing_kept) }
    {
        let entries = HeapCircularBuffer::with_capacity(alloc, RING_ENTRIES)?;
        Ok(Ring { next: 0, entries })
    }

    /// A ring of which this many entries were noted, and that keeps these, the oldest first. It has room for all that it
    /// will keep.
    pub fn resumed(alloc: Global, next: u32, entries: &[T]) -> Result<Ring<T>, Memory>
        // Called with as many entries as were noted, or 64 where more were.
        requires { length entries.now ≡ min next RING_ENTRIES }
        // A ring of this many entries, with those that it keeps.
        ensures value { IfOk result (λ ring. ring ≡ kept_of next entries.now) }
    {
        let mut kept = HeapCircularBuffer::with_capacity(alloc, RING_ENTRIES)?;
        kept.fill_from_slice(entries);
        Ok(Ring {
            next,
            entries: kept,
        })
    }

    /// Notes an entry, which takes no memory. Where 64 are kept, the oldest goes.
    #[tactic(auto, unfolding(crate::specs::Ring::noted))]
    pub fn note(&mut self, entry: T)
        // Called below the last number of an entry.
        requires { self.old.next < 4294967295 }
        // One more entry, the last of at most 64.
        ensures noted { self.new ≡ noted entry self.old }
    {
        self.entries.push_back(entry);
        self.next += 1;
    }

    /// The entry of a number, or `None` where it is not kept.
    #[tactic(auto, unfolding(crate::specs::Ring::entry_at))]
    pub fn read(&self, seq: u32) -> Option<T>
        // The entry of a number, none exactly where it is not kept.
        ensures value { result ≡ entry_at seq self.now }
        ensures none { IsNone result ↔ (seq < first_kept self.now) ⊎ (self.now.next ≤ seq) }
    {
        let index = seq.checked_sub(self.first())?;
        self.entries.get(index as usize).copied()
    }

    /// The numbers of the entries that are kept.
    pub fn counts(&self) -> Counts
        // The numbers that it has.
        ensures first { result.first ≡ first_kept self.now }
        ensures next { result.next ≡ self.now.next }
        ensures kept { IsKept self.now }
    {
        Counts {
            first: self.first(),
            next: self.next,
        }
    }

    // The number of the oldest entry that is kept.
    fn first(&self) -> u32
        ensures { result ≡ first_kept self.now }
    {
        self.next - self.entries.len() as u32
    }
}
