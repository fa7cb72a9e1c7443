//! What a partition has stored: the ports that are made, the registers with numbers, and the input words that are left.

ghost use Rattle.std.specs.Prelude.{◌≡◌, ◌<◌, IfOk, length, slice_index};
ghost use Rattle.file_headers.specs.lemmas.GivesTerms.{IsReadAt};
ghost use Rattle.codecs.specs.Codec.{times};
ghost use Rattle.codecs.specs.Gives.{ReadsOr};
ghost use Rattle.saved_machines.specs.SavedFields.{any_word, are_channel_ends, flags_of, globals_field, is_channel_end, made_field};
ghost use Rattle.saved_machines.specs.declared.fault.SavedFault.TheVariants as fault;

use crate::fault::SavedFault;
use crate::fields::{word, words};
use codecs::read_items;
use std::alloc::Global;
use xm_base::Cursor;
use xm_conf::Conf;

/// Which ports of partition `p` are made.
pub(crate) fn made(cursor: &mut Cursor<'_>, conf: &Conf, p: u8) -> Result<[bool; 32], SavedFault>
    requires { p < length conf.now.parts }
    ensures { IsReadAt (λ made. made) result cursor.new ((made_field conf.now p).read cursor.old) }
{
    let at = cursor.at();
    let made = flags_of(word(cursor)?);
    if are_channel_ends(conf, p, &made) {
        Ok(made)
    } else {
        Err(SavedFault::Field { at })
    }
}

/// The bits of a word as flags, the lowest first.
fn flags_of(word: u32) -> [bool; 32]
    ensures { result ≡ flags_of 32 word }
{
    let mut flags = [false; 32];
    put_flags(&mut flags, word);
    flags
}

/// As many bits of a word as there are flags, the lowest first.
fn put_flags(flags: &mut [bool], word: u32)
    ensures { flags.new ≡ flags_of (length flags.old) word }
{
    let mut rest = word;
    for place in 0..flags.len() {
        flags[place] = rest % 2 == 1;
        rest /= 2;
    }
}

/// Whether only ends of channels are made.
fn are_channel_ends(conf: &Conf, p: u8, made: &[bool; 32]) -> bool
    requires { p < length conf.now.parts }
    ensures { result ≡ are_channel_ends conf.now p 0 made.now }
{
    for port in 0..32 {
        if made[usize::from(port)] && !is_channel_end(conf, p, port) {
            return false;
        }
    }
    true
}

/// Whether a port of partition `p` is there, and is an end of a channel.
#[tactic(auto, unfolding(machine_model::specs::View::part_of))]
fn is_channel_end(conf: &Conf, p: u8, port: u8) -> bool
    requires { p < length conf.now.parts }
    ensures { result ≡ is_channel_end conf.now p port }
{
    let part = &conf.raw().parts[usize::from(p)];
    usize::from(port) < part.ports.len() && conf.channel_of(p, port).is_some()
}

/// Registers 0 to 7.
pub(crate) fn globals(cursor: &mut Cursor<'_>) -> Result<[u32; 8], SavedFault>
    ensures value { IsReadAt (λ globals. globals) result cursor.new (globals_field.read cursor.old) }
    ensures zero { IfOk result (λ globals. slice_index globals 0 ≡ 0) }
{
    let at = cursor.at();
    let mut globals = [0; 8];
    words(cursor, &mut globals)?;
    if globals[0] == 0 {
        Ok(globals)
    } else {
        Err(SavedFault::Field { at })
    }
}

/// The registers of the windows.
pub(crate) fn windows(cursor: &mut Cursor<'_>) -> Result<[u32; 128], SavedFault>
    ensures { IsReadAt (λ windows. windows) result cursor.new ((times 128 any_word).read cursor.old) }
{
    let mut windows = [0; 128];
    words(cursor, &mut windows)?;
    Ok(windows)
}

/// An input word.
fn input(cursor: &mut Cursor<'_>) -> Result<u32, SavedFault>
    ensures { ReadsOr fault.Memory (λ word. word) result cursor.new (any_word.read cursor.old) }
{
    word(cursor)
}

/// Input words, this many.
pub(crate) fn inputs(
    alloc: Global,
    cursor: &mut Cursor<'_>,
    count: u32,
) -> Result<Vec<u32>, SavedFault>
    ensures { ReadsOr fault.Memory (λ words. words.items) result cursor.new ((times count any_word).read cursor.old) }
{
    read_items(
        alloc,
        count,
        cursor,
        (),
        SavedFault::Memory,
        |cursor, _| input(cursor),
        |_, _| (),
    )
}
