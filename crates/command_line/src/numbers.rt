//! The numbers that words spell.

ghost use Rattle.std.specs.Prelude.{◌≡◌, ◌≤◌, ◌↔◌, IfSome, IsTrue};
ghost use Rattle.command_line.specs.lemmas.WordsTerms.{IsPlain};
ghost use Rattle.command_line.specs.Words.{frames_of, number_spelled, part_number, seed_of, ticks_of};

use xm_base::{PartId, TICKS};

/// The highest number that a word may give a partition.
const LAST_PART: u64 = 31;

/// The highest number that a system may be generated out of.
const LAST_SEED: u64 = 4_294_967_295;

/// The number of ticks that the word spells.
pub(crate) fn ticks(word: &str) -> Option<u64>
    ensures value { result ≡ ticks_of word.now }
{
    number(word, TICKS)
}

/// The number of major frames that the word spells, with the limit of ticks.
pub(crate) fn frames(word: &str) -> Option<u64>
    ensures value { result ≡ frames_of word.now }
{
    ticks(word)
}

/// The partition that the word spells.
pub(crate) fn part(word: &str) -> Option<PartId>
    ensures value { result ≡ part_number word.now }
{
    match number(word, LAST_PART) {
        Some(part) => Some(part as u8),
        None => None,
    }
}

/// The number that a system is generated out of, which the word spells.
pub(crate) fn seed(word: &str) -> Option<u32>
    ensures value { result ≡ seed_of word.now }
{
    match number(word, LAST_SEED) {
        Some(seed) => Some(seed as u32),
        None => None,
    }
}

/// The number that the word spells, where it is not above the limit.
fn number(word: &str, limit: u64) -> Option<u64>
    ensures value { result ≡ number_spelled limit word.now }
    ensures bound { IfSome result (λ number. number ≤ limit) }
{
    if !is_plain(word) {
        return None;
    }
    match word.parse::<u64>() {
        Ok(number) if number <= limit => Some(number),
        _ => None,
    }
}

/// Whether neither a plus sign nor a needless zero stands in front.
fn is_plain(word: &str) -> bool
    ensures value { IsTrue result ↔ IsPlain word.now }
{
    match word.as_bytes() {
        [b'+', ..] | [b'0', _, ..] => false,
        _ => true,
    }
}
