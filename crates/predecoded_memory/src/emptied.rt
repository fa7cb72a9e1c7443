//! Rows that are emptied.

ghost use Rattle.std.specs.Prelude.{◌≡◌, ◌+◌, ◌^◌, ◌≤◌, ◌<◌, ◌↔◌, ℕ, IsTrue, length};
ghost use Rattle.predecode.specs.declared.kinds.Kind.TheVariants.{Branch};
ghost use Rattle.predecode.specs.lemmas.Reached.{IsReached, words_written};
ghost use Rattle.predecoded_memory.specs.lemmas.SharesTerms.{AreEmptied, AreGone, AreReached, IsLone, with_empty};

use guest_bus::Size;
use predecode::{Kind, Row};

// The number of words in the address space.
const WORDS: usize = 0x4000_0000;

// Empties the row of a number.
#[inline(always)]
#[tactic(auto, unfolding(crate::specs::lemmas::SharesTerms::with_empty))]
fn empty_row(rows: &mut [Row], number: usize)
    requires { number < length rows.old }
    ensures { rows.new ≡ with_empty number rows.old }
{
    rows[number].kind = Kind::Empty;
}

// Whether the row is that of a branch that may go on to the next word and annuls nothing.
fn is_branch(row: Row) -> bool
    ensures { IsTrue result ↔ (row.kind ≡ Branch) }
{
    matches!(row.kind, Kind::Branch)
}

// Empties the row before a number, where it may be the first of a pair: no branch is.
fn empty_before(rows: &mut [Row], begin: usize)
    requires { begin ≤ length rows.old }
    ensures { IsLone begin rows.old rows.new }
{
    if begin > 0 {
        let before = begin - 1;
        if !is_branch(rows[before]) {
            empty_row(rows, before);
        }
    }
}

// Empties this many rows from a number on, and no others.
fn empty_from(rows: &mut [Row], begin: usize, count: usize)
    requires { begin + count ≤ length rows.old }
    ensures { AreGone begin (begin + count) rows.old rows.new }
{
    let mut done = 0;
    while done < count {
        empty_row(rows, begin + done);
        done += 1;
    }
}

// Empties this many rows from a number on.
#[inline(always)]
fn empty_rows(rows: &mut [Row], begin: usize, count: usize)
    requires { begin + count ≤ length rows.old }
    ensures { AreEmptied begin (begin + count) rows.old rows.new }
{
    if count > 0 {
        empty_before(rows, begin);
        empty_from(rows, begin, count);
    }
}

/// Empties those rows that this many words from a place on have among the first ones of a share, up to a top.
#[inline(always)]
pub(crate) fn empty_words(rows: &mut [Row], base: usize, top: usize, place: usize, count: usize)
    requires top { base + top ≤ length rows.old }
    requires few { length rows.old ≤ 1048576 }
    requires place { place < 2 ^ 30 }
    requires count { count < 2 ^ 63 }
    ensures { AreReached base top place count rows.old rows.new }
{
    if place < top {
        if place + count <= top {
            empty_rows(rows, base + place, count);
        } else {
            empty_part(rows, base, top, place, count);
        }
    } else if place + count > WORDS {
        empty_part(rows, base, top, place, count);
    }
}

// The same where not all of the words have rows below the top.
#[cold]
#[inline(never)]
fn empty_part(rows: &mut [Row], base: usize, top: usize, place: usize, count: usize)
    requires top { base + top ≤ length rows.old }
    requires few { length rows.old ≤ 1048576 }
    requires place { place < 2 ^ 30 }
    requires count { count < 2 ^ 63 }
    ensures { AreReached base top place count rows.old rows.new }
{
    let (begin, end) = reached(top, place, count);
    empty_rows(rows, base + begin, end - begin);
}

// Where the words of a share begin and end that are below the top and among this many from a place on.
fn reached(top: usize, place: usize, count: usize) -> (usize, usize)
    requires place { place < 2 ^ 30 }
    requires count { count < 2 ^ 63 }
    requires top { top ≤ 1048576 }
    ensures order { result.0 ≤ result.1 }
    ensures inside { result.1 ≤ top }
    ensures each { (k : ℕ) → k < top → IsReached place count k → (result.0 ≤ k) × (k < result.1) }
{
    if place + count <= WORDS {
        (place.min(top), (place + count).min(top))
    } else if place < top {
        (0, top)
    } else {
        (0, (place + count - WORDS).min(top))
    }
}

/// Empties the rows of the words that an access of a size at a place writes.
#[inline(always)]
pub(crate) fn empty_stored(rows: &mut [Row], base: usize, top: usize, place: usize, size: Size)
    requires top { base + top ≤ length rows.old }
    requires few { length rows.old ≤ 1048576 }
    requires place { place < 2 ^ 30 }
    ensures { AreReached base top place (words_written size) rows.old rows.new }
{
    match size {
        Size::One => empty_words(rows, base, top, place, 1),
        Size::Two => empty_words(rows, base, top, place, 1),
        Size::Four => empty_words(rows, base, top, place, 1),
        Size::Eight => empty_words(rows, base, top, place, 2),
    }
}
