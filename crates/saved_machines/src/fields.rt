//! The fields of a saved machine, of which each is read on its own.

ghost use Rattle.std.specs.Prelude.{◌≡◌, ◌<◌, ◌≤◌, ◌%◌, ◌==◌, ◌&&◌, IfOk, length, nat_le, nat_lt, slice_get};
ghost use Rattle.std.specs.List.{list_all};
ghost use Rattle.file_headers.specs.lemmas.GivesTerms.{IsReadAt};
ghost use Rattle.codecs.specs.Codec.{raw_bytes, times};
ghost use Rattle.xm_conf.specs.Health.{events};
ghost use Rattle.saved_machines.specs.SavedFields.{action_field, any_double_word, any_word, byte_where, double_word_where, event_field, flag_field, known_byte, saved_short, state_field, states, word_where, zeros};

use crate::fault::SavedFault;
use xm_base::{Cursor, State};
use xm_conf::{Action, EVENTS, Event};

/// The states of a partition, in the order of their numbers.
const STATES: [State; 4] = [State::Ready, State::Idle, State::Suspended, State::Halted];

/// A byte below a limit.
pub(crate) fn byte_below(cursor: &mut Cursor<'_>, limit: usize) -> Result<u8, SavedFault>
    ensures below { IfOk result (λ n. n < limit) }
    ensures value { IsReadAt (λ n. n) result cursor.new ((byte_where (λ n. nat_lt n limit)).read cursor.old) }
{
    let at = cursor.at();
    let n = cursor.u8()?;
    if usize::from(n) < limit {
        Ok(n)
    } else {
        Err(SavedFault::Field { at })
    }
}

/// A word.
pub(crate) fn word(cursor: &mut Cursor<'_>) -> Result<u32, SavedFault>
    ensures { IsReadAt (λ n. n) result cursor.new (any_word.read cursor.old) }
{
    Ok(cursor.u32()?)
}

/// A double word up to the most.
pub(crate) fn double_up_to(cursor: &mut Cursor<'_>, most: u64) -> Result<u64, SavedFault>
    ensures value { IsReadAt (λ n. n) result cursor.new ((double_word_where (λ n. nat_le n most)).read cursor.old) }
    ensures most { IfOk result (λ n. n ≤ most) }
{
    let at = cursor.at();
    let n = cursor.u64()?;
    if n <= most {
        Ok(n)
    } else {
        Err(SavedFault::Field { at })
    }
}

/// A flag.
pub(crate) fn flag(cursor: &mut Cursor<'_>) -> Result<bool, SavedFault>
    ensures { IsReadAt (λ b. b) result cursor.new (flag_field.read cursor.old) }
{
    let at = cursor.at();
    let byte = cursor.u8()?;
    if byte == 0 {
        Ok(false)
    } else if byte == 1 {
        Ok(true)
    } else {
        Err(SavedFault::Field { at })
    }
}

/// A zero.
pub(crate) fn zero(cursor: &mut Cursor<'_>) -> Result<(), SavedFault>
    ensures { IsReadAt (λ _. tt) result cursor.new ((zeros 1).read cursor.old) }
{
    let at = cursor.at();
    if cursor.take(1)? != [0].as_slice() {
        return Err(SavedFault::Field { at });
    }
    Ok(())
}

/// A digest.
pub(crate) fn digest(cursor: &mut Cursor<'_>) -> Result<[u8; 16], SavedFault>
    ensures { IsReadAt (λ found. found) result cursor.new ((raw_bytes saved_short 16).read cursor.old) }
{
    let bytes = cursor.take(16)?;
    let Ok(digest) = <[u8; 16]>::try_from(bytes) else {
        unreachable!();
    };
    Ok(digest)
}

/// A double word.
pub(crate) fn double_word(cursor: &mut Cursor<'_>) -> Result<u64, SavedFault>
    ensures { IsReadAt (λ n. n) result cursor.new (any_double_word.read cursor.old) }
{
    Ok(cursor.u64()?)
}

/// A word that is a multiple.
pub(crate) fn multiple(cursor: &mut Cursor<'_>, unit: u32) -> Result<u32, SavedFault>
    requires { 0 < unit }
    ensures value { IsReadAt (λ n. n) result cursor.new ((word_where (λ n. n % unit == 0)).read cursor.old) }
    ensures multiple { IfOk result (λ n. n % unit ≡ 0) }
{
    let at = cursor.at();
    let n = cursor.u32()?;
    if n % unit == 0 {
        Ok(n)
    } else {
        Err(SavedFault::Field { at })
    }
}

/// A number that has to stand here.
pub(crate) fn known_byte(cursor: &mut Cursor<'_>, n: u8) -> Result<(), SavedFault>
    ensures { IsReadAt (λ _. tt) result cursor.new ((known_byte n).read cursor.old) }
{
    let at = cursor.at();
    if cursor.take(1)? != [n].as_slice() {
        return Err(SavedFault::Field { at });
    }
    Ok(())
}

/// Bytes, this many.
pub(crate) fn next_bytes<'a>(cursor: &mut Cursor<'a>, count: usize) -> Result<&'a [u8], SavedFault>
    ensures value { IsReadAt (λ bytes. bytes.now) result cursor.new ((raw_bytes saved_short count).read cursor.old) }
    ensures long { IfOk result (λ bytes. length bytes.now ≡ count) }
{
    Ok(cursor.take(count)?)
}

/// Zeros, this many.
pub(crate) fn zeros(cursor: &mut Cursor<'_>, count: usize) -> Result<(), SavedFault>
    ensures { IsReadAt (λ _. tt) result cursor.new ((zeros count).read cursor.old) }
{
    let at = cursor.at();
    let bytes = cursor.take(count)?;
    if are_zeros(bytes) {
        Ok(())
    } else {
        Err(SavedFault::Field { at })
    }
}

/// Whether these are zeros.
fn are_zeros(bytes: &[u8]) -> bool
    ensures { result ≡ list_all (λ byte. byte == 0) bytes.now }
{
    bytes.iter().all(|byte| is_zero(*byte))
}

/// Whether this is a zero.
fn is_zero(byte: u8) -> bool
    ensures { result ≡ (byte == 0) }
{
    byte == 0
}

/// The state of a partition.
pub(crate) fn state(cursor: &mut Cursor<'_>) -> Result<State, SavedFault>
    ensures { IsReadAt (λ state. state) result cursor.new (state_field.read cursor.old) }
{
    let at = cursor.at();
    match state_numbered(cursor.u8()?) {
        Some(state) => Ok(state),
        None => Err(SavedFault::Field { at }),
    }
}

/// The state of this number.
fn state_numbered(n: u8) -> Option<State>
    ensures { result ≡ slice_get states n }
{
    STATES.get(usize::from(n)).copied()
}

/// A health event.
pub(crate) fn event(cursor: &mut Cursor<'_>) -> Result<Event, SavedFault>
    ensures { IsReadAt (λ event. event) result cursor.new (event_field.read cursor.old) }
{
    let at = cursor.at();
    match event_numbered(cursor.u8()?) {
        Some(event) => Ok(event),
        None => Err(SavedFault::Field { at }),
    }
}

/// The health event of this number.
fn event_numbered(n: u8) -> Option<Event>
    ensures { result ≡ slice_get events n }
{
    EVENTS.get(usize::from(n)).copied()
}

/// What was done about a health event.
pub(crate) fn action(cursor: &mut Cursor<'_>) -> Result<Action, SavedFault>
    ensures { IsReadAt (λ action. action) result cursor.new (action_field.read cursor.old) }
{
    let at = cursor.at();
    match Action::numbered(cursor.u8()?) {
        Some(action) => Ok(action),
        None => Err(SavedFault::Field { at }),
    }
}

/// Words, as many as there is room for.
pub(crate) fn words(cursor: &mut Cursor<'_>, into: &mut [u32]) -> Result<(), SavedFault>
    ensures { IsReadAt (λ _. into.new) result cursor.new ((times (length into.old) any_word).read cursor.old) }
{
    for place in 0..into.len() {
        into[place] = word(cursor)?;
    }
    Ok(())
}
