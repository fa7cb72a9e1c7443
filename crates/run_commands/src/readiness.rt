//! A run is made ready: what it begins with, how many ticks it has, the upsets that strike, and the files that are made of it before it is reported.

ghost use Rattle.std.specs.Prelude.{◌≡◌, ◌+◌, ◌*◌, ◌≤◌, IfOk, None, Ok, drop, length, map, true};
ghost use Rattle.xm_base.specs.declared.limits.TheConstants.{TICKS};
ghost use Rattle.cyclic_plans.specs.Slots.{frame_of};
ghost use Rattle.xm_container.specs.Reading.{unpacked};
ghost use Rattle.run_commands.specs.lemmas.Beginnings.{IsBeginning, IsNamed, first_machine, machine_of};
ghost use Rattle.run_commands.specs.lemmas.Cores.{AreForPartitions};
ghost use Rattle.run_commands.specs.lemmas.ReadyRuns.{IsReady, IsReadyFor};
ghost use Rattle.file_commands.specs.Inputs.{inputs_for};
ghost use Rattle.file_commands.specs.Outcome.{content, first_long, ran_struck, ran_with, ran_within, run_inputs, ticks_asked, upsets_for};
ghost use Rattle.file_commands.specs.EndingValues.{vector_bytes};
ghost use Rattle.command_line.specs.Grammar.{count_of};
ghost use Rattle.command_line.specs.Seen.{seen_options};
ghost use Rattle.command_line.specs.Words.{begins_once, cores_in, scripts_in, span_in};
ghost use Rattle.upset_files.specs.Fits.{AllFit};

use crate::beginning::{Beginning, first_beginning};
use crate::making::{MadeFile, make_files};
use crate::striking::upsets_for;
use command_line::{RunOptions, Span};
use file_commands::{Ending, Refusal, split_contents};
use std::alloc::Global;
use upset_model::UpsetLine;
use xm_base::TICKS;
use xm_conf::Conf;
use xm_container::System;

/// What a run of a system is given.
#[derive(Debug, Drop)]
pub(crate) struct ReadyRun<'a> {
    pub(crate) ticks: u64,
    pub(crate) beginning: Beginning,
    pub(crate) upsets: Vec<UpsetLine>,
    pub(crate) made: Vec<MadeFile<'a>>,
}

/// What the run of a container's system is given, by the contents of its files; or the first refusal.
pub(crate) fn ready_run<'a>(
    alloc: Global,
    container: &'a str,
    options: RunOptions<'a>,
    contents: &[Vec<u8>],
    system: &System,
) -> Result<ReadyRun<'a>, Ending<'a>>
    requires most { count_of (span_in (seen_options options)) ≤ TICKS }
    requires begun { begins_once (seen_options options) ≡ true }
    requires short { first_long (run_inputs (seen_options options)) (drop 1 (map vector_bytes contents.now))
        ≡ None }
    requires same { unpacked (content 0 (map vector_bytes contents.now)) ≡ Ok system.now }
    ensures value { IsReadyFor result (seen_options options.entry) system.now
        (ran_with container.now (seen_options options.entry) (content 0 (map vector_bytes contents.now))
        (drop 1 (map vector_bytes contents.now)) system.now
        (inputs_for (length system.now.conf.parts) (seen_options options.entry)
        (drop 1 (map vector_bytes contents.now)))) }
    ensures ready { IfOk result
        (IsReady (seen_options options.entry) (map vector_bytes contents.now) system.now) }
{
    match first_beginning(alloc, options, contents, system) {
        Ok(beginning) => ready_from(alloc, container, options, contents, system, beginning),
        Err(ending) => Err(ending),
    }
}

// What the run is given that begins so, where it may have as many ticks as options ask for.
#[tactic(auto, unfolding(file_commands::specs::Outcome::ran_within))]
fn ready_from<'a>(
    alloc: Global,
    container: &'a str,
    options: RunOptions<'a>,
    contents: &[Vec<u8>],
    system: &System,
    beginning: Beginning,
) -> Result<ReadyRun<'a>, Ending<'a>>
    requires most { count_of (span_in (seen_options options)) ≤ TICKS }
    requires begun { begins_once (seen_options options) ≡ true }
    requires short { first_long (run_inputs (seen_options options)) (drop 1 (map vector_bytes contents.now))
        ≡ None }
    requires same { unpacked (content 0 (map vector_bytes contents.now)) ≡ Ok system.now }
    requires begins { IsBeginning system.now beginning }
    requires named { IsNamed (seen_options options) (map vector_bytes contents.now) system.now beginning }
    requires first { first_machine (seen_options options) (map vector_bytes contents.now) system.now
        ≡ Ok (machine_of system.now beginning) }
    requires cores { AreForPartitions (length system.now.conf.parts) (cores_in (seen_options options)) }
    requires scripts { AreForPartitions (length system.now.conf.parts) (scripts_in (seen_options options)) }
    ensures value { IsReadyFor result (seen_options options.entry) system.now
        (ran_within container.now (seen_options options.entry) (content 0 (map vector_bytes contents.now))
        (drop 1 (map vector_bytes contents.now)) (machine_of system.now beginning)) }
    ensures same { IfOk result (λ ready. ready.beginning ≡ beginning) }
    ensures ready { IfOk result
        (IsReady (seen_options options.entry) (map vector_bytes contents.now) system.now) }
{
    let begun = beginning.ticks();
    let asked = ticks_asked(options.span(), system.conf());
    let end = begun + asked;
    if end > TICKS {
        return Err(Ending::Refused {
            file: container,
            why: Refusal::Ticks { asked: end },
        });
    }
    let (_, words) = split_contents(contents);
    match upsets_for(alloc, system.conf(), begun, asked, options, words) {
        Ok(upsets) => ready_struck(alloc, asked, options, contents, system, beginning, upsets),
        Err(ending) => Err(ending),
    }
}

// What the run of this many ticks is given that begins so, with these upsets.
fn ready_struck<'a>(
    alloc: Global,
    ticks: u64,
    options: RunOptions<'a>,
    contents: &[Vec<u8>],
    system: &System,
    beginning: Beginning,
    upsets: Vec<UpsetLine>,
) -> Result<ReadyRun<'a>, Ending<'a>>
    requires begun { begins_once (seen_options options) ≡ true }
    requires short { first_long (run_inputs (seen_options options)) (drop 1 (map vector_bytes contents.now)) ≡ None }
    requires same { unpacked (content 0 (map vector_bytes contents.now)) ≡ Ok system.now }
    requires begins { IsBeginning system.now beginning }
    requires named { IsNamed (seen_options options) (map vector_bytes contents.now) system.now beginning }
    requires first { first_machine (seen_options options) (map vector_bytes contents.now) system.now
        ≡ Ok (machine_of system.now beginning) }
    requires cores { AreForPartitions (length system.now.conf.parts) (cores_in (seen_options options)) }
    requires scripts { AreForPartitions (length system.now.conf.parts) (scripts_in (seen_options options)) }
    requires ticks { ticks ≡ ticks_asked (span_in (seen_options options)) system.now.conf }
    requires most { (machine_of system.now beginning).ticks + ticks ≤ TICKS }
    requires struck { upsets_for system.now.conf (machine_of system.now beginning).ticks ticks (seen_options options)
        (drop 1 (map vector_bytes contents.now))
        ≡ Ok upsets.items }
    requires fit { AllFit system.now.conf ((machine_of system.now beginning).ticks + ticks)
        (machine_of system.now beginning).ticks upsets.items }
    ensures value { IsReadyFor result (seen_options options.entry) system.now
        (ran_struck ticks (seen_options options.entry) (content 0 (map vector_bytes contents.now))
        (machine_of system.now beginning) (Ok upsets.items)) }
    ensures same { IfOk result (λ ready. ready.beginning ≡ beginning) }
    ensures ready { IfOk result
        (IsReady (seen_options options.entry) (map vector_bytes contents.now) system.now) }
{
    match make_files(alloc, ticks, &upsets, options, contents, system, &beginning) {
        Ok(made) => Ok(ReadyRun {
            ticks,
            beginning,
            upsets,
            made,
        }),
        Err(ending) => Err(ending),
    }
}

// How many ticks a run asks for.
fn ticks_asked(span: Span, conf: &Conf) -> u64
    requires { count_of span ≤ TICKS }
    ensures value { result ≡ ticks_asked span conf.now }
    ensures few { result ≤ 4294967296 * 4000000000 }
{
    match span {
        Span::Frames(count) => count * u64::from(first_frame(conf)),
        Span::Ticks(count) => count,
    }
}

// The major frame of plan 0.
fn first_frame(conf: &Conf) -> u32
    ensures { result ≡ frame_of conf.now 0 }
{
    conf.raw().plans[0].frame
}
