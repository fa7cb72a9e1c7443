//! Rings before, at and after the entry that fills them.

use crate::entry::TraceEntry;
use crate::ring::{Counts, Ring};
use std::alloc::Global;
use std::process::Abort;
use xm_base::Memory;

// Entry number n is n with all its bits turned.
fn ring_after(rt: &impl Abort, alloc: Global, notes: u32) -> Result<Ring<u32>, Memory> {
    let mut ring = Ring::new(alloc)?;
    for number in 0..notes {
        assert_eq!(rt; ring.counts().next, number);
        ring.note(!number);
    }
    Ok(ring)
}

// How many entries were noted, the number of the oldest that is kept, and numbers that are read: whether each is kept.
type Row = (u32, u32, &'static [(u32, bool)]);

const ROWS: [Row; 8] = [
    (0, 0, &[(0, false)]),
    (1, 0, &[(0, true), (1, false)]),
    (63, 0, &[]),
    (64, 0, &[(0, true), (63, true), (64, false)]),
    (65, 1, &[(0, false), (1, true)]),
    (
        70,
        6,
        &[
            (0, false),
            (5, false),
            (6, true),
            (37, true),
            (69, true),
            (70, false),
            (u32::MAX, false),
        ],
    ),
    (128, 64, &[]),
    (
        200,
        136,
        &[(135, false), (136, true), (199, true), (200, false)],
    ),
];

#[test]
fn the_last_64_are_kept_and_read_by_their_numbers(rt: HostRuntime) -> Result<(), Memory> {
    for (notes, first, numbers) in ROWS {
        let ring = ring_after(&rt, rt.alloc(), notes)?;
        assert_eq!(rt; ring.counts(), Counts { first, next: notes });
        for (number, kept) in numbers {
            let entry = if *kept { Some(!*number) } else { None };
            assert_eq!(rt; ring.read(*number), entry, "{number} of {notes}");
        }
    }
    Ok(())
}

#[test]
fn trace_entries_come_back_as_they_went(rt: HostRuntime) -> Result<(), Memory> {
    let first = TraceEntry {
        time: u64::MAX,
        bits: 0x8000_0001,
        seq: 0,
        load: *b"takeoff.",
    };
    let second = TraceEntry {
        time: 4_000_000_000,
        bits: 0,
        seq: 1,
        load: [0, 255, 1, 254, 2, 253, 3, 252],
    };
    let mut ring = Ring::new(rt.alloc())?;
    assert_eq!(rt; ring.counts(), Counts { first: 0, next: 0 });
    ring.note(first);
    assert_eq!(rt; ring.counts(), Counts { first: 0, next: 1 });
    ring.note(second);
    assert_eq!(rt; ring.counts(), Counts { first: 0, next: 2 });
    assert_eq!(rt; ring.read(0), Some(first));
    assert_eq!(rt; ring.read(1), Some(second));
    assert_eq!(rt; ring.read(2), None);
    Ok(())
}
