//! The places that words spell.

ghost use Rattle.std.specs.Prelude.{◌≡◌, ◌<◌, ◌≤◌, IfSome};
ghost use Rattle.std.specs.Str.{bytes_eq};
ghost use Rattle.upset_files.specs.Reading as reading;
ghost use Rattle.xm_report.specs.Places.{place_text};

use crate::numbers::number;
use xm_report::{Place, place_text};

/// The places that have a name.
const NAMED_PLACES: [Place; 9] = [
    Place::Pc,
    Place::Npc,
    Place::YRegister,
    Place::Conditions,
    Place::HardwareDeadline,
    Place::ExecutionDeadline,
    Place::TrapBase,
    Place::Mask,
    Place::Pending,
];

/// Whether a word is the spelling of a place.
fn is_spelled(place: Place, word: &[u8]) -> bool
    ensures { result ≡ bytes_eq (place_text place) word.now }
{
    place_text(place).as_slice() == word
}

/// The place of a name.
#[tactic(auto, unfolding(crate::specs::Reading::named_place))]
fn named_place(word: &[u8]) -> Option<Place>
    ensures { result ≡ reading.named_place word.now }
{
    NAMED_PLACES
        .iter()
        .copied()
        .find(|place| is_spelled(*place, word))
}

/// The number after a letter, within bounds.
fn register_number(letter: u8, least: u8, most: u8, word: &[u8]) -> Option<u8>
    ensures { result ≡ reading.register_number letter least most word.now }
{
    let (first, digits) = word.split_first()?;
    if *first != letter {
        return None;
    }
    match number(u64::from(most), digits) {
        Some(n) if u64::from(least) <= n => Some(n as u8),
        _ => None,
    }
}

/// A register `g1` to `g7`.
#[tactic(auto, unfolding(crate::specs::Reading::global_place))]
fn global_place(word: &[u8]) -> Option<Place>
    ensures { result ≡ reading.global_place word.now }
{
    match register_number(b'g', 1, 7, word) {
        Some(n) => Some(Place::Global(n)),
        None => None,
    }
}

/// A register `w0` to `w127`.
#[tactic(auto, unfolding(crate::specs::Reading::windowed_place))]
fn windowed_place(word: &[u8]) -> Option<Place>
    ensures { result ≡ reading.windowed_place word.now }
{
    match register_number(b'w', 0, 127, word) {
        Some(n) => Some(Place::Windowed(n)),
        None => None,
    }
}

/// The byte of memory whose address has these eight digits.
#[tactic(auto, unfolding(crate::specs::Reading::byte_place))]
fn byte_place(word: &[u8]) -> Option<Place>
    ensures { result ≡ reading.byte_place word.now }
{
    let mut bytes = [0; 4];
    if hex::decode_to_slice(word, &mut bytes).is_err() {
        return None;
    }
    let place = Place::MemoryByte(u32::from_be_bytes(bytes));
    if is_spelled(place, word) {
        Some(place)
    } else {
        None
    }
}

/// The place that a word spells.
#[tactic(auto, unfolding(crate::specs::Reading::place_spelled))]
pub(crate) fn place(word: &[u8]) -> Option<Place>
    ensures { result ≡ reading.place_spelled word.now }
{
    if let Some(place) = named_place(word) {
        return Some(place);
    }
    if let Some(place) = global_place(word) {
        return Some(place);
    }
    if let Some(place) = windowed_place(word) {
        return Some(place);
    }
    byte_place(word)
}
