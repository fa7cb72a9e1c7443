//! The values of attributes: what each form of text means.

ghost use Rattle.std.specs.Prelude.{◌≡◌, ◌+◌, ◌-◌, ◌*◌, ◌<◌, ◌≤◌, ◌^◌, ◌==◌, length, IfSome, Some, true, is_some};
ghost use Rattle.std.specs.List.{position};
ghost use Rattle.std.specs.Option.{option_map};
ghost use Rattle.xmcf_reader.specs.Values as values;
ghost use Rattle.xmcf_reader.specs.lemmas.Seen.{flags_of, text_of_option};
ghost use Rattle.xm_conf.specs.Name.{is_name};

use crate::table::Form;
use xm_conf::{Action, Event, Kind, Name, Way};

/// Millionths of one.
const MILLION: u64 = 1_000_000;

/// A number below 2^32.
#[tactic(auto, unfolding(crate::specs::Values::word32))]
fn word32(n: u128) -> Option<u32>
    ensures { result ≡ values.word32 n }
{
    if n < 4_294_967_296 {
        Some(n as u32)
    } else {
        None
    }
}

/// A digit's value, to base 10 or 16.
#[tactic(auto, unfolding(crate::specs::Values::digit))]
fn digit(base: u64, byte: u8) -> Option<u64>
    ensures value { result ≡ values.digit base byte }
    ensures below { IfSome result (λ digit. digit < 16) }
{
    match byte {
        b'0'..=b'9' => Some(u64::from(byte - b'0')),
        b'A'..=b'F' if base == 16 => Some(u64::from(byte - b'A' + 10)),
        b'a'..=b'f' if base == 16 => Some(u64::from(byte - b'a' + 10)),
        _ => None,
    }
}

/// The number that up to ten digits spell.
fn spelled(base: u64, bytes: &[u8]) -> Option<u64>
    requires base { base ≤ 16 }
    requires short { length bytes.now ≤ 10 }
    ensures value { result ≡ values.spelled base 0 bytes.now }
    ensures below { IfSome result (λ n. n < 2 ^ 40) }
{
    let mut n = 0;
    for byte in bytes {
        n = n * base + digit(base, *byte)?;
    }
    Some(n)
}

/// The number that 1 to this many digits spell.
#[tactic(auto, unfolding(crate::specs::Values::digits))]
fn digits(base: u64, most: usize, bytes: &[u8]) -> Option<u64>
    requires base { base ≤ 16 }
    requires most { most ≤ 10 }
    ensures value { result ≡ values.digits base most bytes.now }
    ensures below { IfSome result (λ n. n < 2 ^ 40) }
{
    if bytes.is_empty() || bytes.len() > most {
        return None;
    }
    spelled(base, bytes)
}

/// A number.
#[tactic(auto, unfolding(crate::specs::Values::number))]
pub(crate) fn number(text: &[u8]) -> Option<u32>
    ensures { result ≡ values.number text.now }
{
    match digits(10, 10, text) {
        Some(n) => word32(u128::from(n)),
        None => None,
    }
}

/// An address.
#[tactic(auto, unfolding(crate::specs::Values::address))]
pub(crate) fn address(text: &[u8]) -> Option<u32>
    ensures { result ≡ values.address text.now }
{
    if !text.starts_with(b"0x") {
        return None;
    }
    match digits(16, 8, &text[2..]) {
        Some(n) => word32(u128::from(n)),
        None => None,
    }
}

/// Whole and part of a decimal number in millionths; the part has this many digits.
#[tactic(auto, unfolding(crate::specs::Values::millionths))]
fn millionths(whole: u64, part: u64, size: usize) -> u64
    requires whole { whole < 2 ^ 40 }
    requires part { part < 2 ^ 40 }
    ensures value { result ≡ values.millionths whole part size }
    ensures below { result < 2 ^ 61 }
{
    let unit = match size {
        0 => 1_000_000,
        1 => 100_000,
        2 => 10_000,
        3 => 1_000,
        4 => 100,
        5 => 10,
        _ => 1,
    };
    whole * MILLION + part * unit
}

/// A decimal number with a part after its point, in millionths.
#[tactic(auto, unfolding(crate::specs::Values::parted))]
fn parted(whole: &[u8], part: &[u8]) -> Option<u64>
    ensures value { result ≡ values.parted whole.now part.now }
    ensures below { IfSome result (λ n. n < 2 ^ 61) }
{
    let w = digits(10, 10, whole)?;
    let p = digits(10, 6, part)?;
    Some(millionths(w, p, part.len()))
}

/// Where the point of a decimal number stands.
fn point(text: &[u8]) -> Option<usize>
    ensures first { result ≡ position values.is_point text.now }
    ensures within { IfSome result (λ at. at < length text.now) }
{
    text.iter().position(|byte| *byte == b'.')
}

/// A decimal number in millionths.
#[tactic(auto, unfolding(crate::specs::Values::decimal_number))]
fn decimal_number(text: &[u8]) -> Option<u64>
    ensures value { result ≡ values.decimal_number text.now }
    ensures below { IfSome result (λ n. n < 2 ^ 61) }
{
    match point(text) {
        Some(at) => parted(&text[..at], &text[at + 1..]),
        None => {
            let whole = digits(10, 10, text)?;
            Some(whole * MILLION)
        }
    }
}

/// This many millionths of a unit, where they come out whole and below 2^32.
#[tactic(auto, unfolding(crate::specs::Values::whole))]
fn whole(unit: u64, n: u64) -> Option<u32>
    ensures { result ≡ values.whole unit n }
{
    let all = u128::from(n) * u128::from(unit);
    if all % 1_000_000 != 0 {
        return None;
    }
    word32(all / 1_000_000)
}

/// What stands before the unit, where the text ends with it.
#[tactic(auto, unfolding(crate::specs::Values::before_unit))]
fn before<'a>(unit: &[u8], text: &'a [u8]) -> Option<&'a [u8]>
    ensures { text_of_option result ≡ values.before_unit unit.now text.now }
{
    if text.len() < unit.len() {
        return None;
    }
    let (front, end) = text.split_at(text.len() - unit.len());
    if end != unit {
        return None;
    }
    Some(front)
}

/// A decimal number of units, where it comes out whole and below 2^32.
#[tactic(auto, unfolding(crate::specs::Values::measured))]
fn measured(name: &[u8], unit: u64, text: &[u8]) -> Option<u32>
    ensures { result ≡ values.measured name.now unit text.now }
{
    let front = before(name, text)?;
    let n = decimal_number(front)?;
    whole(unit, n)
}

/// A size in bytes.
#[tactic(auto, unfolding(crate::specs::Values::size))]
pub(crate) fn size(text: &[u8]) -> Option<u32>
    ensures { result ≡ values.size text.now }
{
    if let Some(size) = measured(b"KB", 1024, text) {
        return Some(size);
    }
    if let Some(size) = measured(b"MB", 1_048_576, text) {
        return Some(size);
    }
    measured(b"B", 1, text)
}

/// A time in microseconds.
#[tactic(auto, unfolding(crate::specs::Values::time))]
pub(crate) fn time(text: &[u8]) -> Option<u32>
    ensures { result ≡ values.time text.now }
{
    if let Some(time) = measured(b"us", 1, text) {
        return Some(time);
    }
    if let Some(time) = measured(b"ms", 1000, text) {
        return Some(time);
    }
    measured(b"s", 1_000_000, text)
}

/// Whether the text is a frequency.
#[tactic(auto, unfolding(crate::specs::Values::is_frequency))]
fn is_frequency(text: &[u8]) -> bool
    ensures { result ≡ values.is_frequency text.now }
{
    match before(b"Mhz", text) {
        Some(front) => decimal_number(front).is_some(),
        None => false,
    }
}

/// Whether the byte may stand in a text.
#[tactic(auto, unfolding(crate::specs::Values::is_printed))]
fn is_printed(byte: u8) -> bool
    ensures { result ≡ values.is_printed byte }
{
    byte >= b' ' && byte <= b'~'
}

/// Whether the bytes are a text.
#[tactic(auto, unfolding(crate::specs::Values::is_text))]
fn is_text(text: &[u8]) -> bool
    ensures { result ≡ values.is_text text.now }
{
    text.iter().all(|byte| is_printed(*byte))
}

/// The flags of a partition, each with whether it stands.
#[derive(Clone, Copy, Debug)]
struct FlagSet {
    none: bool,
    system: bool,
    boot: bool,
    fp: bool,
}

/// What a new flag gives, where it doesn't stand yet.
fn new_flag(stands: bool, flags: FlagSet) -> Option<FlagSet>
    ensures { option_map flags_of result ≡ values.new_flag stands (flags_of flags) }
{
    if stands { None } else { Some(flags) }
}

/// One more flag; no other word is one, and none stands twice.
#[tactic(auto, unfolding(crate::specs::Values::with_flag))]
fn with_flag(word: &[u8], flags: FlagSet) -> Option<FlagSet>
    ensures { option_map flags_of result ≡ values.with_flag word.now (flags_of flags) }
{
    if word == b"none".as_slice() {
        new_flag(
            flags.none,
            FlagSet {
                none: true,
                ..flags
            },
        )
    } else if word == b"system".as_slice() {
        new_flag(
            flags.system,
            FlagSet {
                system: true,
                ..flags
            },
        )
    } else if word == b"boot".as_slice() {
        new_flag(
            flags.boot,
            FlagSet {
                boot: true,
                ..flags
            },
        )
    } else if word == b"fp".as_slice() {
        new_flag(flags.fp, FlagSet { fp: true, ..flags })
    } else {
        None
    }
}

/// Where the first space stands.
fn space(text: &[u8]) -> Option<usize>
    ensures first { result ≡ position (λ byte. byte == 32) text.now }
    ensures within { IfSome result (λ at. at < length text.now) }
{
    text.iter().position(|byte| *byte == b' ')
}

/// The flags that single spaces part, after those that were found.
fn more_flags(text: &[u8], found: FlagSet) -> Option<FlagSet>
    ensures { option_map flags_of result ≡ values.with_flags (values.split text.now) (flags_of found) }
{
    match space(text) {
        None => with_flag(text, found),
        Some(at) => {
            let found = with_flag(&text[..at], found)?;
            more_flags(&text[at + 1..], found)
        }
    }
}

/// Whether a partition's flags have `system`.
#[tactic(auto, unfolding(crate::specs::Values::flags))]
pub(crate) fn flags(text: &[u8]) -> Option<bool>
    ensures { result ≡ values.flags text.now }
{
    let none = FlagSet {
        none: false,
        system: false,
        boot: false,
        fp: false,
    };
    let found = more_flags(text, none)?;
    Some(found.system)
}

/// Whether an area is only read.
#[tactic(auto, unfolding(crate::specs::Values::access))]
pub(crate) fn access(text: &[u8]) -> Option<bool>
    ensures { result ≡ values.access text.now }
{
    if text == b"none".as_slice() {
        Some(false)
    } else if text == b"read-only".as_slice() {
        Some(true)
    } else {
        None
    }
}

/// Whether an event is logged.
#[tactic(auto, unfolding(crate::specs::Values::log))]
pub(crate) fn log(text: &[u8]) -> Option<bool>
    ensures { result ≡ values.log text.now }
{
    if text == b"yes".as_slice() {
        Some(true)
    } else if text == b"no".as_slice() {
        Some(false)
    } else {
        None
    }
}

/// The kind of a port.
#[tactic(auto, unfolding(crate::specs::Values::kind_named))]
pub(crate) fn kind(text: &[u8]) -> Option<Kind>
    ensures { result ≡ values.kind_named text.now }
{
    if text == b"sampling".as_slice() {
        Some(Kind::Sampling)
    } else if text == b"queuing".as_slice() {
        Some(Kind::Queuing)
    } else {
        None
    }
}

/// The direction of a port.
#[tactic(auto, unfolding(crate::specs::Values::way_named))]
pub(crate) fn way(text: &[u8]) -> Option<Way>
    ensures { result ≡ values.way_named text.now }
{
    if text == b"source".as_slice() {
        Some(Way::Source)
    } else if text == b"destination".as_slice() {
        Some(Way::Destination)
    } else {
        None
    }
}

/// Whether the bytes are a name.
fn is_name(text: &[u8]) -> bool
    ensures { result ≡ is_name text.now }
{
    Name::new(text).is_some()
}

/// Whether a text has the form of an attribute's value.
#[tactic(auto, unfolding(crate::specs::Values::has_form))]
pub(crate) fn has_form(form: Form, text: &[u8]) -> bool
    ensures { result ≡ values.has_form form text.now }
{
    match form {
        Form::Text => is_text(text),
        Form::Name => is_name(text),
        Form::Address => address(text).is_some(),
        Form::Size => size(text).is_some(),
        Form::Number => number(text).is_some(),
        Form::Frequency => is_frequency(text),
        Form::Time => time(text).is_some(),
        Form::Flags => flags(text).is_some(),
        Form::Access => access(text).is_some(),
        Form::Event => Event::named(text).is_some(),
        Form::Action => Action::named(text).is_some(),
        Form::Log => log(text).is_some(),
        Form::Kind => kind(text).is_some(),
        Form::Way => way(text).is_some(),
    }
}
