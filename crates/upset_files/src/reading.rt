//! The reading of a file of upsets.

ghost use Rattle.std.specs.Prelude.{◌≡◌, ◌<◌, ◌^◌, IfOk, List, Ok, length};
ghost use Rattle.file_headers.specs.Gives.{Gives, IsRead};
ghost use Rattle.upset_files.specs.Fits.{AreUpsetsOf};
ghost use Rattle.upset_files.specs.Gives.{FailsAs};
ghost use Rattle.upset_files.specs.Reading.{upsets_from};
ghost use Rattle.upset_model.specs.declared.upset_line.UpsetLine.{UpsetLine};
ghost use Rattle.upset_files.specs.declared.reading.TheConstants.{UPSETS};
ghost use Rattle.upset_files.specs.lemmas.LineTerms.{next_line};

use crate::fault::{UpsetCause, UpsetFault};
use crate::line::fitted_line;
use std::alloc::Global;
use upset_model::UpsetLine;
use xm_base::proof;
use xm_conf::Conf;

/// The most upsets that a file may have.
pub const UPSETS: usize = 4096;

/// Reads the upsets of a run from the tick `begun` on, up to this many ticks since the boot, or
/// the first line that is wrong.
pub fn read_upsets(
    alloc: Global,
    text: &[u8],
    conf: &Conf,
    begun: u64,
    ticks: u64,
) -> Result<Vec<UpsetLine>, UpsetFault>
    // What is read are the upsets that the text spells, at most 4096, each of which fits: none is before
    // the first tick of the run, or after its last.
    ensures found { IfOk result (λ lines. AreUpsetsOf conf.now begun ticks text.now lines.items) }
    // What is spelled is read, unless memory runs out.
    ensures only { (lines : List UpsetLine) → AreUpsetsOf conf.now begun ticks text.now lines → Gives FailsAs (λ found. found.items) result (Ok lines) }
    // A fault is the first one: the first line that is wrong, with the first of its causes.
    ensures exact { Gives FailsAs (λ found. found.items) result (upsets_from conf.now begun ticks text.now) }
{
    proof! {
        let _count = conf.part_count();
    }
    lines(alloc, text, conf, begun, ticks)
}

/// The lines of a text.
#[tactic(auto, unfolding(crate::specs::Reading::upsets_from))]
fn lines(
    alloc: Global,
    text: &[u8],
    conf: &Conf,
    begun: u64,
    ticks: u64,
) -> Result<Vec<UpsetLine>, UpsetFault>
    ensures { Gives FailsAs (λ found. found.items) result (upsets_from conf.now begun ticks text.now) }
{
    let mut lines = Vec::new(alloc);
    let mut rest = text;
    let mut before = begun;
    while !rest.is_empty() {
        let (line, after) = next_line(lines.len(), conf, ticks, before, rest)?;
        before = line.tick;
        rest = after;
        lines.push(line)?;
    }
    Ok(lines)
}

/// The next line of a text, after this many lines, and the text after it.
#[tactic(auto, unfolding(crate::specs::lemmas::LineTerms::next_line))]
fn next_line<'a>(
    done: usize,
    conf: &Conf,
    ticks: u64,
    before: u64,
    text: &'a [u8],
) -> Result<(UpsetLine, &'a [u8]), UpsetFault>
    requires { done < 2 ^ 32 }
    ensures value { IsRead (λ found. (found.0, (found.1).now)) result (next_line UPSETS done conf.now ticks before text.now) }
    ensures within { IfOk result (λ found. length (found.1).now < length text.now) }
{
    let line = done + 1;
    if done < UPSETS {
        match fitted_line(conf, ticks, line, before, text) {
            Ok(found) => Ok(found),
            Err(cause) => Err(UpsetFault::Line { line, cause }),
        }
    } else {
        let cause = UpsetCause::TooMany;
        Err(UpsetFault::Line { line, cause })
    }
}
