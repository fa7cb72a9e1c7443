//! What the channels hold.

ghost use Rattle.std.specs.Prelude.{◌≡◌, ◌≤◌, ◌&&◌, length, map, nat_le};
ghost use Rattle.file_headers.specs.lemmas.GivesTerms.{IsReadAt};
ghost use Rattle.codecs.specs.Codec.{each_of, no_bytes, optional, times};
ghost use Rattle.codecs.specs.Gives.{ReadsOr};
ghost use Rattle.saved_machines.specs.SavedFields.{byte_where, content_field, flag_field, half_word_where, message_field, sample_field};
ghost use Rattle.saved_machines.specs.declared.fault.SavedFault.TheVariants as fault;
ghost use Rattle.xm_ports.specs.Contents.{content_of};

use crate::fault::SavedFault;
use crate::fields::{byte_below, double_word, flag};
use std::alloc::Global;
use xm_base::Cursor;
use xm_conf::{Chan, ChanKind, Conf};
use xm_ports::{ContentValue, SampleValue};

/// The length of a message, at most so much.
fn message_length(cursor: &mut Cursor<'_>, most: u16) -> Result<u16, SavedFault>
    ensures { IsReadAt (λ n. n) result cursor.new ((half_word_where (λ n. nat_le 1 n && nat_le n most)).read cursor.old) }
{
    let at = cursor.at();
    let n = cursor.u16()?;
    if 1 <= n && n <= most {
        Ok(n)
    } else {
        Err(SavedFault::Field { at })
    }
}

/// A message of at most so many bytes.
fn message(alloc: Global, cursor: &mut Cursor<'_>, most: u16) -> Result<Vec<u8>, SavedFault>
    ensures { ReadsOr fault.Memory (λ bytes. bytes.items) result cursor.new ((message_field most).read cursor.old) }
{
    let length = message_length(cursor, most)?;
    let bytes = cursor.take(usize::from(length))?;
    match Vec::from_slice(alloc, bytes) {
        Ok(bytes) => Ok(bytes),
        Err(_) => Err(SavedFault::Memory),
    }
}

/// A message of a sampling channel.
fn sample(alloc: Global, cursor: &mut Cursor<'_>, most: u16) -> Result<SampleValue, SavedFault>
    ensures { ReadsOr fault.Memory (λ sample. sample) result cursor.new ((sample_field most).read cursor.old) }
{
    let time = double_word(cursor)?;
    let bytes = message(alloc, cursor, most)?;
    Ok(SampleValue { time, bytes })
}

/// The message of a sampling channel, where there is one.
fn held_sample(
    alloc: Global,
    cursor: &mut Cursor<'_>,
    most: u16,
) -> Result<Option<SampleValue>, SavedFault>
    ensures { ReadsOr fault.Memory (λ sample. sample) result cursor.new ((optional flag_field (sample_field most) no_bytes).read cursor.old) }
{
    if flag(cursor)? {
        let sample = sample(alloc, cursor, most)?;
        return Ok(Some(sample));
    }
    Ok(None)
}

/// Messages, this many.
fn messages(
    alloc: Global,
    cursor: &mut Cursor<'_>,
    count: u8,
    most: u16,
) -> Result<Vec<Vec<u8>>, SavedFault>
    ensures { ReadsOr fault.Memory (λ messages. map (λ message. message.items) messages.items) result cursor.new ((times count (message_field most)).read cursor.old) }
{
    let mut messages = Vec::new(alloc);
    for _ in 0..count {
        let message = message(alloc, cursor, most)?;
        match messages.push(message) {
            Ok(()) => {}
            Err(_) => return Err(SavedFault::Memory),
        }
    }
    Ok(messages)
}

/// How many messages wait, at most so many.
fn message_count(cursor: &mut Cursor<'_>, most: u8) -> Result<u8, SavedFault>
    ensures { IsReadAt (λ n. n) result cursor.new ((byte_where (λ n. nat_le n most)).read cursor.old) }
{
    let at = cursor.at();
    let n = cursor.u8()?;
    if n <= most {
        Ok(n)
    } else {
        Err(SavedFault::Field { at })
    }
}

/// What a channel of a kind holds.
fn content(
    alloc: Global,
    cursor: &mut Cursor<'_>,
    kind: ChanKind,
    most: u16,
) -> Result<ContentValue, SavedFault>
    ensures { ReadsOr fault.Memory content_of result cursor.new ((content_field kind most).read cursor.old) }
{
    match kind {
        ChanKind::Sampling { .. } => {
            let sample = held_sample(alloc, cursor, most)?;
            Ok(ContentValue::Sampling(sample))
        }
        ChanKind::Queuing { most: count } => {
            let count = message_count(cursor, count)?;
            let messages = messages(alloc, cursor, count, most)?;
            Ok(ContentValue::Queuing(messages))
        }
    }
}

/// What each of these channels holds.
pub(crate) fn contents(
    alloc: Global,
    cursor: &mut Cursor<'_>,
    chans: &[Chan],
) -> Result<Vec<ContentValue>, SavedFault>
    ensures { ReadsOr fault.Memory (λ contents. map content_of contents.items) result cursor.new ((each_of (λ chan. content_field chan.kind chan.length) chans.now).read cursor.old) }
{
    let mut contents = Vec::new(alloc);
    for chan in chans {
        let here = content(alloc, cursor, chan.kind, chan.length)?;
        match contents.push(here) {
            Ok(()) => {}
            Err(_) => return Err(SavedFault::Memory),
        }
    }
    Ok(contents)
}
