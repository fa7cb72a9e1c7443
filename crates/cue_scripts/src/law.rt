//! Laws on scripts.

ghost use Rattle.cue_scripts.specs.Laws.{NoneIsPrefix, ReadIsWritten, WrittenScriptIsRead};

/// A script that was written is read back.
pub fn written_is_read()
    // Law: what is written is read.
    ensures { WrittenScriptIsRead }
{}

/// What is read of bytes is what they spell.
pub fn read_is_written()
    // What is read is written.
    ensures { ReadIsWritten }
{}

/// No script of a partition is a proper prefix of another.
pub fn none_is_prefix()
    ensures { NoneIsPrefix }
{}
