//! The line on the error output.

ghost use Rattle.std.specs.Prelude.{◌≡◌, ◌≤◌, [], ◌++◌, codes, decimal, length};
ghost use Rattle.xm_outside.specs.Causes.{HasCause};
ghost use Rattle.xm_outside.specs.Growth.{Writes};
ghost use Rattle.file_commands.specs.Ending.{Done, after_file, complaint};
ghost use Rattle.file_commands.specs.EndingValues.{ending_of, refusal_text};

use crate::ending::{Ending, Refusal};
use xm_outside::{Failed, Sink, write_all};
use xm_report::Pen;

/// Writes the line of a call that ends so; a finished call makes no call of the sink.
#[tactic(auto, unfolding(crate::specs::Ending::complaint))]
pub fn complain<E: Sink>(err: &mut E, ending: &Ending<'_>) -> Result<(), Failed>
    // The line of an ending goes out, or a prefix of it, and then the sink's count rose; a finished call leaves the
    // sink as it was.
    ensures line { Writes result (E.got err.old) (complaint (ending_of ending.now)) (E.got err.new) }
    ensures cause { HasCause result (E.faults err.old) (E.faults err.new) }
    ensures silent { ending_of ending.now ≡ Done → err.new ≡ err.old }
{
    match ending {
        Ending::Done => Ok(()),
        Ending::Usage => write_all(err, b"xm_run: usage\n"),
        Ending::ReadFault { file } => name_file(err, file, b": cannot read\n"),
        Ending::Refused { file, why } => deny(err, file, why),
        Ending::WriteFaultReport => write_all(err, b"xm_run: report: cannot write\n"),
        Ending::WriteFaultFile { file } => name_file(err, file, b": cannot write\n"),
        Ending::UartFault { place } => name_uart(err, *place),
        Ending::NoMemory => write_all(err, b"xm_run: no memory\n"),
    }
}

// Writes the line of a file that is refused.
#[tactic(auto, unfolding(crate::specs::Ending::length_text, crate::specs::Ending::ticks_text, crate::specs::Ending::saved_text, crate::specs::Ending::partition_text, crate::specs::Ending::input_text))]
fn deny<E: Sink>(err: &mut E, file: &str, why: &Refusal) -> Result<(), Failed>
    ensures line { Writes result (E.got err.old) (codes "xm_run: " ++ file.now ++ after_file (refusal_text why.now)) (E.got err.new) }
    ensures cause { HasCause result (E.faults err.old) (E.faults err.new) }
{
    match why {
        Refusal::TooLong => name_file(err, file, b": too-long\n"),
        Refusal::Length { found } => { name_number(err, file, b": image length=", *found as u64) }
        Refusal::Ticks { asked } => name_number(err, file, b": ticks asked=", *asked),
        Refusal::Saved { found } => name_number(err, file, b": length found=", *found),
        Refusal::Partition { id } => name_number(err, file, b": partition id=", u64::from(*id)),
        Refusal::Input { found } => { name_number(err, file, b": input length=", *found as u64) }
        Refusal::Fault { text } => name_text(err, file, text),
    }
}

// Writes the line of a file of which a text says why it is refused.
fn name_text<E: Sink>(err: &mut E, file: &str, text: &str) -> Result<(), Failed>
    ensures line { Writes result (E.got err.old) (codes "xm_run: " ++ file.now ++ after_file text.now) (E.got err.new) }
    ensures cause { HasCause result (E.faults err.old) (E.faults err.new) }
{
    name_text_line(err, b"xm_run: ", file.as_bytes(), text.as_bytes())
}

// Writes the program's name, the file's and the text.
#[tactic(auto, using(xm_outside::specs::lemmas::GrowthLemmas::writes_then))]
fn name_text_line<E: Sink>(
    err: &mut E,
    program: &[u8],
    file: &[u8],
    text: &[u8],
) -> Result<(), Failed>
    ensures line { Writes result (E.got err.old) (program.now ++ file.now ++ after_file text.now) (E.got err.new) }
    ensures cause { HasCause result (E.faults err.old) (E.faults err.new) }
{
    write_two(err, program, file)?;
    text_after_file(err, text)
}

// Writes what stands after the file's name.
fn text_after_file<E: Sink>(err: &mut E, text: &[u8]) -> Result<(), Failed>
    ensures line { Writes result (E.got err.old) (after_file text.now) (E.got err.new) }
    ensures cause { HasCause result (E.faults err.old) (E.faults err.new) }
{
    write_three(err, b": ", text, b"\n")
}

// Writes a line that names a file, and that ends with a number after this text.
fn name_number<E: Sink>(err: &mut E, file: &str, text: &[u8], number: u64) -> Result<(), Failed>
    requires { length text.now ≤ 32 }
    ensures line { Writes result (E.got err.old) (codes "xm_run: " ++ file.now ++ (text.now ++ decimal number ++ codes "\n")) (E.got err.new) }
    ensures cause { HasCause result (E.faults err.old) (E.faults err.new) }
{
    let mut pen = Pen::new();
    number_line(&mut pen, text, number);
    name_file(err, file, pen.bytes())
}

// Writes the end of a line that ends with a number.
fn number_line(pen: &mut Pen, text: &[u8], number: u64)
    requires empty { pen.old ≡ [] }
    requires few { length text.now ≤ 32 }
    ensures { pen.new ≡ text.now ++ decimal number ++ codes "\n" }
{
    pen.text(text);
    pen.number(number);
    pen.text(b"\n");
}

// Writes the line of a UART that failed.
fn name_uart<E: Sink>(err: &mut E, place: u8) -> Result<(), Failed>
    ensures line { Writes result (E.got err.old) (codes "xm_run: uart " ++ decimal place ++ codes ": failed\n") (E.got err.new) }
    ensures cause { HasCause result (E.faults err.old) (E.faults err.new) }
{
    let mut pen = Pen::new();
    uart_line(&mut pen, place);
    write_all(err, pen.bytes())
}

// Writes the line of a UART that failed into a pen.
fn uart_line(pen: &mut Pen, place: u8)
    requires empty { pen.old ≡ [] }
    ensures { pen.new ≡ codes "xm_run: uart " ++ decimal place ++ codes ": failed\n" }
{
    pen.text(b"xm_run: uart ");
    pen.number(u64::from(place));
    pen.text(b": failed\n");
}

// Writes a line that names a file.
fn name_file<E: Sink>(err: &mut E, file: &str, rest: &[u8]) -> Result<(), Failed>
    ensures line { Writes result (E.got err.old) (codes "xm_run: " ++ file.now ++ rest.now) (E.got err.new) }
    ensures cause { HasCause result (E.faults err.old) (E.faults err.new) }
{
    write_three(err, b"xm_run: ", file.as_bytes(), rest)
}

// Writes three pieces, one after the other.
#[tactic(auto, using(xm_outside::specs::lemmas::GrowthLemmas::writes_then))]
fn write_three<E: Sink>(
    err: &mut E,
    first: &[u8],
    second: &[u8],
    third: &[u8],
) -> Result<(), Failed>
    ensures text { Writes result (E.got err.old) (first.now ++ second.now ++ third.now) (E.got err.new) }
    ensures cause { HasCause result (E.faults err.old) (E.faults err.new) }
{
    write_two(err, first, second)?;
    write_all(err, third)
}

// Writes two pieces, one after the other.
#[tactic(auto, using(xm_outside::specs::lemmas::GrowthLemmas::writes_then))]
fn write_two<E: Sink>(err: &mut E, first: &[u8], second: &[u8]) -> Result<(), Failed>
    ensures text { Writes result (E.got err.old) (first.now ++ second.now) (E.got err.new) }
    ensures cause { HasCause result (E.faults err.old) (E.faults err.new) }
{
    write_all(err, first)?;
    write_all(err, second)
}
