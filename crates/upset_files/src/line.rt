//! A line of a file of upsets.

ghost use Rattle.std.specs.Prelude.{◌≡◌, ◌<◌, IfOk, length};
ghost use Rattle.file_headers.specs.Gives.{IsRead};
ghost use Rattle.upset_files.specs.Reading.{fitted_line, line_at};
ghost use Rattle.upset_files.specs.lemmas.LineTerms.{fields_of};

use crate::checks::{SpelledLine, fitted};
use crate::fault::UpsetCause;
use crate::words::{after_byte, number_word, spaced_number, spaced_place};
use upset_model::UpsetLine;
use xm_conf::Conf;

/// The fields of the line that a text begins with, and the text after it.
#[tactic(auto, unfolding(crate::specs::Reading::line_at))]
fn line_at(text: &[u8]) -> Result<(SpelledLine, &[u8]), UpsetCause>
    ensures value { IsRead (λ found. (fields_of found.0, (found.1).now)) result (line_at text.now) }
    ensures within { IfOk result (λ found. length (found.1).now < length text.now) }
{
    let (tick, rest) = number_word(UpsetCause::BadTick, text)?;
    let (part, rest) = spaced_number(UpsetCause::BadPartition, rest)?;
    let (place, rest) = spaced_place(UpsetCause::BadPlace, rest)?;
    let (bit, rest) = spaced_number(UpsetCause::BadBit, rest)?;
    let rest = after_byte(b'\n', UpsetCause::BadEnd, rest)?;
    let line = SpelledLine {
        tick,
        part,
        place,
        bit,
    };
    Ok((line, rest))
}

/// The line that a text begins with, of this number, where it fits, and the text after it.
#[tactic(auto, unfolding(crate::specs::Reading::fitted_line))]
pub(crate) fn fitted_line<'a>(
    conf: &Conf,
    ticks: u64,
    number: usize,
    before: u64,
    text: &'a [u8],
) -> Result<(UpsetLine, &'a [u8]), UpsetCause>
    ensures value { IsRead (λ found. (found.0, (found.1).now)) result (fitted_line conf.now ticks number before text.now) }
    ensures within { IfOk result (λ found. length (found.1).now < length text.now) }
{
    let (line, rest) = line_at(text)?;
    let line = fitted(conf, ticks, number, before, line)?;
    Ok((line, rest))
}
