//! The words of a line, and the bytes between them.

ghost use Rattle.std.specs.Prelude.{◌≡◌, ◌<◌, ◌≤◌, IfOk, length};
ghost use Rattle.std.specs.List.{prefix_len};
ghost use Rattle.file_headers.specs.Gives.{IsRead};
ghost use Rattle.upset_files.specs.Reading.{after_byte, from_blank, is_of_word, meant, field_number, place_spelled, spaced_read, word_before_blank, word_read};

use crate::fault::UpsetCause;
use crate::numbers::{MOST_NUMBER, number};
use crate::places::place;
use xm_report::Place;

/// A byte of a word: no space and no line feed.
#[tactic(auto, unfolding(crate::specs::Reading::is_of_word))]
fn is_of_word(byte: u8) -> bool
    ensures { result ≡ is_of_word byte }
{
    byte != b' ' && byte != b'\n'
}

/// The length of the word that a text begins with.
fn word_length(text: &[u8]) -> usize
    ensures value { result ≡ prefix_len is_of_word text.now }
    ensures within { result ≤ length text.now }
{
    text.iter().take_while(|byte| is_of_word(**byte)).count()
}

/// The word that a text begins with, and what stands after it.
#[tactic(auto, unfolding(crate::specs::Reading::word_before_blank, crate::specs::Reading::from_blank))]
fn split_word(text: &[u8]) -> (&[u8], &[u8])
    ensures word { (result.0).now ≡ word_before_blank text.now }
    ensures rest { (result.1).now ≡ from_blank text.now }
    ensures within { length (result.1).now ≤ length text.now }
{
    text.split_at(word_length(text))
}

/// What follows a byte that has to stand first.
pub(crate) fn after_byte(byte: u8, cause: UpsetCause, text: &[u8]) -> Result<&[u8], UpsetCause>
    ensures value { IsRead (λ rest. rest.now) result (after_byte byte cause text.now) }
    ensures within { IfOk result (λ rest. length rest.now < length text.now) }
{
    match text.split_first() {
        Some((first, rest)) if *first == byte => Ok(rest),
        _ => Err(cause),
    }
}

/// The number that a text begins with.
pub(crate) fn number_word(cause: UpsetCause, text: &[u8]) -> Result<(u64, &[u8]), UpsetCause>
    ensures value { IsRead (λ found. (found.0, (found.1).now)) result (word_read field_number cause text.now) }
    ensures within { IfOk result (λ found. length (found.1).now ≤ length text.now) }
{
    let (word, rest) = split_word(text);
    match number(MOST_NUMBER, word) {
        Some(number) => Ok((number, rest)),
        None => Err(cause),
    }
}

/// The number after a space.
pub(crate) fn spaced_number(cause: UpsetCause, text: &[u8]) -> Result<(u64, &[u8]), UpsetCause>
    ensures value { IsRead (λ found. (found.0, (found.1).now)) result (spaced_read field_number cause text.now) }
    ensures within { IfOk result (λ found. length (found.1).now ≤ length text.now) }
{
    let rest = after_byte(b' ', cause, text)?;
    number_word(cause, rest)
}

/// The place after a space.
pub(crate) fn spaced_place(cause: UpsetCause, text: &[u8]) -> Result<(Place, &[u8]), UpsetCause>
    ensures value { IsRead (λ found. (found.0, (found.1).now)) result (spaced_read place_spelled cause text.now) }
    ensures within { IfOk result (λ found. length (found.1).now ≤ length text.now) }
{
    let rest = after_byte(b' ', cause, text)?;
    let (word, rest) = split_word(rest);
    match place(word) {
        Some(place) => Ok((place, rest)),
        None => Err(cause),
    }
}
