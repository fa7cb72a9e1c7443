//! The numbers that words spell.

ghost use Rattle.std.specs.Prelude.{◌≡◌, ◌≤◌, ◌↔◌, IfSome, IsTrue};
ghost use Rattle.upset_files.specs.lemmas.NumberTerms.{IsPlain};
ghost use Rattle.upset_files.specs.Reading.{number_spelled};

use std::str;

/// The highest number of a tick, a partition or a bit.
pub(crate) const MOST_NUMBER: u64 = 18_446_744_073_709_551_615;

/// The number that the word spells, where it is not above the limit.
pub(crate) fn number(limit: u64, word: &[u8]) -> Option<u64>
    ensures value { result ≡ number_spelled limit word.now }
    ensures bound { IfSome result (λ number. number ≤ limit) }
{
    match str::from_utf8(word) {
        Ok(text) => number_in(limit, text),
        Err(_) => None,
    }
}

/// The number that a text spells, where it is not above the limit.
fn number_in(limit: u64, text: &str) -> Option<u64>
    ensures value { result ≡ number_spelled limit text.now }
    ensures bound { IfSome result (λ number. number ≤ limit) }
{
    if !is_plain(text) {
        return None;
    }
    match text.parse::<u64>() {
        Ok(number) if number <= limit => Some(number),
        _ => None,
    }
}

/// Whether neither a plus sign nor a needless zero stands first.
fn is_plain(text: &str) -> bool
    ensures value { IsTrue result ↔ IsPlain text.now }
{
    match text.as_bytes() {
        [b'+', ..] | [b'0', _, ..] => false,
        _ => true,
    }
}
