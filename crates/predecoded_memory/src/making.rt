//! Rows that are made.

ghost use Rattle.std.specs.Prelude.{◌≡◌, ◌+◌, ◌*◌, ◌^◌, ◌≤◌, ◌<◌, false, true, All, IfOk, None, length, replicate, slice_index_or, slice_set};
ghost use Rattle.std.specs.Bool.{OnTrue};
ghost use Rattle.fast_loop.specs.Keeping.{AreLengths, AreRowsOf};
ghost use Rattle.guest_bus.specs.Access.{fetched};
ghost use Rattle.guest_memory.specs.Memories.{areas_at, map_at};
ghost use Rattle.predecode.specs.Kinds.{does, follows, is_unmade};
ghost use Rattle.predecode.specs.declared.kinds.Kind.TheVariants.{Branch};
ghost use Rattle.predecoded_memory.specs.lemmas.MakingTerms.{AreCleared, AreGrown, AreMade, IsAfterExit, branches, with_kind_at};
ghost use Rattle.predecoded_memory.specs.lemmas.SharesTerms.{row_of_zeros};

use fast_loop::{SINGLE, UNKNOWN};
use guest_bus::{Bus, BusFault};
use guest_memory::Ram;
use predecode::{Kind, Row, is_exit, pair_for, row_for};
use std::alloc::{AllocError, Global};
use xm_base::proof;

// The most words of a block.
const MOST: usize = 120;

/// This many lengths of blocks, none of which is known.
pub(crate) fn lengths_of(alloc: Global, count: usize) -> Result<Vec<u8>, AllocError>
    ensures { IfOk result (λ lengths. lengths.items ≡ replicate count 255) }
{
    let lengths = vec![in alloc; UNKNOWN; count]?;
    Ok(lengths)
}

/// Makes the rows of the block that begins at a place. The answer is where rows end that may have been made.
pub(crate) fn prepared(
    rows: &mut [Row],
    lengths: &mut [u8],
    ram: &mut Ram,
    first: u32,
    place: usize,
) -> usize
    requires place { place < length rows.old }
    requires rows { AreRowsOf rows.old (areas_at ram.old.selected ram.old) (map_at ram.old.selected ram.old) first }
    requires lengths { AreLengths lengths.old rows.old }
    ensures grown { AreGrown (areas_at ram.old.selected ram.old) (map_at ram.old.selected ram.old) first result rows.old lengths.old rows.new lengths.new }
    ensures within { result ≤ length rows.old }
    ensures ram { ram.new ≡ ram.old }
{
    let (at, found) = block_made(rows, lengths, ram, first, place);
    end_block(rows, lengths, ram, first, place, at, found);
    (at + 2).min(rows.len())
}

// Makes the row of the delay slot after an exit, and sets the length of the block.
fn end_block(
    rows: &mut [Row],
    lengths: &mut [u8],
    ram: &mut Ram,
    first: u32,
    place: usize,
    at: usize,
    found: bool,
)
    requires place { place < length rows.old }
    requires from { place ≤ at }
    requires near { at ≤ place + 120 }
    requires exit { OnTrue found (IsAfterExit rows.old place at) }
    requires rows { AreRowsOf rows.old (areas_at ram.old.selected ram.old) (map_at ram.old.selected ram.old) first }
    requires lengths { AreLengths lengths.old rows.old }
    ensures grown { AreGrown (areas_at ram.old.selected ram.old) (map_at ram.old.selected ram.old) first (at + 2) rows.old lengths.old rows.new lengths.new }
    ensures ram { ram.new ≡ ram.old }
{
    if found && at < rows.len() {
        make_row(rows, lengths, ram, first, at);
        lengths[place] = (at - place) as u8;
    } else {
        lengths[place] = SINGLE;
    }
}

// Makes rows from a place on up to an exit. The answer is where they end, and whether an exit is the last.
fn block_made(
    rows: &mut [Row],
    lengths: &mut [u8],
    ram: &mut Ram,
    first: u32,
    place: usize,
) -> (usize, bool)
    requires place { place < length rows.old }
    requires rows { AreRowsOf rows.old (areas_at ram.old.selected ram.old) (map_at ram.old.selected ram.old) first }
    requires lengths { AreLengths lengths.old rows.old }
    ensures grown { AreGrown (areas_at ram.old.selected ram.old) (map_at ram.old.selected ram.old) first (result.0 + 1) rows.old lengths.old rows.new lengths.new }
    ensures from { place ≤ result.0 }
    ensures within { result.0 ≤ length rows.old }
    ensures near { result.0 ≤ place + 120 }
    ensures exit { OnTrue result.1 (IsAfterExit rows.new place result.0) }
    ensures ram { ram.new ≡ ram.old }
{
    let mut at = place;
    let mut found = false;
    while !found && at < rows.len() && at - place < MOST {
        make_row(rows, lengths, ram, first, at);
        found = is_exit(rows[at].kind);
        at += 1;
    }
    (at, found)
}

// Makes the row of a place, where it is empty.
fn make_row(rows: &mut [Row], lengths: &mut [u8], ram: &mut Ram, first: u32, at: usize)
    requires at { at < length rows.old }
    requires rows { AreRowsOf rows.old (areas_at ram.old.selected ram.old) (map_at ram.old.selected ram.old) first }
    requires lengths { AreLengths lengths.old rows.old }
    ensures made { AreMade (areas_at ram.old.selected ram.old) (map_at ram.old.selected ram.old) first at rows.old lengths.old rows.new lengths.new }
    ensures ram { ram.new ≡ ram.old }
{
    if is_unmade(rows[at].kind) {
        if let Ok(word) = fetch_word(ram, address_of(first, at)) {
            put_row(rows, lengths, at, row_for(word));
            pair(rows, lengths, ram, first, at);
        }
    }
}

// Makes a pair of the row of a place and the branch after it, where there is one.
fn pair(rows: &mut [Row], lengths: &mut [u8], ram: &mut Ram, first: u32, at: usize)
    requires at { at < length rows.old }
    requires rows { AreRowsOf rows.old (areas_at ram.old.selected ram.old) (map_at ram.old.selected ram.old) first }
    requires lengths { AreLengths lengths.old rows.old }
    ensures made { AreMade (areas_at ram.old.selected ram.old) (map_at ram.old.selected ram.old) first at rows.old lengths.old rows.new lengths.new }
    ensures ram { ram.new ≡ ram.old }
{
    if at + 1 < rows.len() {
        let kind = rows[at].kind;
        if may_pair(kind) {
            pair_with(rows, lengths, ram, first, at, kind);
        }
    }
}

// The same where the row's kind is one that may be the first of a pair.
fn pair_with(rows: &mut [Row], lengths: &mut [u8], ram: &mut Ram, first: u32, at: usize, kind: Kind)
    requires at { at + 1 < length rows.old }
    requires rows { AreRowsOf rows.old (areas_at ram.old.selected ram.old) (map_at ram.old.selected ram.old) first }
    requires lengths { AreLengths lengths.old rows.old }
    requires kind { kind ≡ (slice_index_or rows.old at row_of_zeros).kind }
    requires alone { follows kind ≡ None }
    requires work { branches (does kind) ≡ false }
    ensures made { AreMade (areas_at ram.old.selected ram.old) (map_at ram.old.selected ram.old) first at rows.old lengths.old rows.new lengths.new }
    ensures ram { ram.new ≡ ram.old }
{
    if let Ok(word) = fetch_word(ram, address_of(first, at + 1)) {
        let row = row_for(word);
        if is_branch(row.kind) {
            put_row(rows, lengths, at + 1, row);
            set_kind(rows, at, pair_for(kind, row.rs1));
        }
    }
}

// The address of the word at a place.
fn address_of(first: u32, at: usize) -> u32
    requires { first + 4 * at < 2 ^ 32 }
    ensures { result ≡ first + 4 * at }
{
    first.wrapping_add(4 * at as u32)
}

// The word at an address.
fn fetch_word(ram: &mut Ram, address: u32) -> Result<u32, BusFault>
    ensures value { result ≡ fetched (areas_at ram.old.selected ram.old) (map_at ram.old.selected ram.old) address }
    ensures ram { ram.new ≡ ram.old }
{
    // All memories are as they were.
    proof! { let _before = ram.selected(); }
    let word = ram.fetch(address);
    proof! { let _after = ram.selected(); }
    word
}

// Whether a row of a kind may be the first of a pair.
fn may_pair(kind: Kind) -> bool
    ensures alone { OnTrue result (follows kind ≡ None) }
    ensures work { OnTrue result (branches (does kind) ≡ false) }
{
    matches!(
        kind,
        Kind::CompareNumber
            | Kind::CompareRegister
            | Kind::AddCc
            | Kind::SubCc
            | Kind::AndCc
            | Kind::OrCc
    )
}

// Whether a row of a kind is that of a branch on a condition, which annuls nothing.
fn is_branch(kind: Kind) -> bool
    ensures { OnTrue result (kind ≡ Branch) }
{
    matches!(kind, Kind::Branch)
}

// Whether no row is made yet.
fn is_unmade(kind: Kind) -> bool
    ensures { result ≡ is_unmade kind }
{
    matches!(kind, Kind::Empty)
}

// The row of a place is of another kind.
#[tactic(auto, unfolding(crate::specs::lemmas::MakingTerms::with_kind_at))]
fn set_kind(rows: &mut [Row], at: usize, kind: Kind)
    requires { at < length rows.old }
    ensures { rows.new ≡ with_kind_at at kind rows.old }
{
    rows[at].kind = kind;
}

// A row more, in the place of another. No block that it may lengthen has a known length.
fn put_row(rows: &mut [Row], lengths: &mut [u8], at: usize, row: Row)
    requires at { at < length rows.old }
    requires measured { length lengths.old ≡ length rows.old }
    ensures rows { rows.new ≡ slice_set rows.old at row }
    ensures lengths { AreCleared at lengths.old lengths.new }
{
    clear(lengths, at);
    rows[at] = row;
}

// No length is known of a block that begins at a place, or at one of the 128 before it.
fn clear(lengths: &mut [u8], at: usize)
    requires { at < length lengths.old }
    ensures { AreCleared at lengths.old lengths.new }
{
    let from = at - at.min(128);
    lengths[from..at + 1].fill(UNKNOWN);
}
