//! A vector: a state, the outcome of a call in it, and the state after it.

use crate::call::{Call, Came, read_call, read_came};
use crate::state::State;

/// A call, its outcome, and the states before and after it.
#[derive(Drop)]
pub(crate) struct Vector<'a> {
    /// The group that the vector belongs to.
    pub(crate) kind: &'a str,
    pub(crate) call: Call,
    pub(crate) before: State,
    pub(crate) came: Came,
    pub(crate) after: State,
}

/// Reads a line `KIND CALL SETTING .. -> OUTCOME SETTING ..`, or answers `None` where it is none.
pub(crate) fn read_vector(line: &str) -> Option<Vector<'_>> {
    let (kind, given) = line.split_once(' ')?;
    let (given, outcome) = given.split_once(" -> ")?;
    let (call, given) = name_and_settings(given);
    let (came, changes) = name_and_settings(outcome);
    let (call, word) = read_call(call)?;
    let came = read_came(came)?;
    let mut before = State::new(word);
    let mut after = State::new(word);
    if !before.set_all(given) || !after.set_all(given) || !after.set_all(changes) {
        return None;
    }
    // A hypercall that is reported as a trap is not yet entered; the processor resumes after it.
    if came == Came::Trap(0xf0) {
        after.advance();
        return Some(Vector {
            kind,
            call,
            before,
            came: Came::Hypercall,
            after,
        });
    }
    Some(Vector {
        kind,
        call,
        before,
        came,
        after,
    })
}

// The first word, and what stands after it.
fn name_and_settings(text: &str) -> (&str, &str) {
    match text.split_once(' ') {
        Some(parts) => parts,
        None => (text, ""),
    }
}

/// The number that hexadecimal digits spell.
pub(crate) fn hexadecimal(digits: &str) -> Option<u32> {
    u32::from_str_radix(digits, 16).ok()
}
