//! The script of a partition in a run.

ghost use Rattle.std.specs.List.{AllByRecursion};
ghost use Rattle.std.specs.Prelude.{◌≡◌, ℕ, ◌+◌, ◌<◌, ◌≤◌, ◌++◌, [], All, IfOk, List, OnOk, false, length, map};
ghost use Rattle.continuation_laws.specs.Onward.{after_ticks, coming};
ghost use Rattle.cue_scripts.specs.Kept.{HasCueRanges};
ghost use Rattle.cue_scripts.specs.Spelling.{script_text};
ghost use Rattle.cue_scripts.specs.Written.{IsScriptFile, IsWritten};
ghost use Rattle.machine_model.specs.Cue.{Cue as ModelCue, script};
ghost use Rattle.machine_model.specs.Machine.{Machine as ModelMachine, run, start};
ghost use Rattle.upset_files.specs.Fits.{AllFit};
ghost use Rattle.upset_model.specs.Coming.{AreOrdered};
ghost use Rattle.upset_model.specs.Places.{upsets_of};
ghost use Rattle.upset_model.specs.Upsets.{Schedule};
ghost use Rattle.recording_model.specs.Receiving.{HasNumbers};
ghost use Rattle.run_commands.specs.lemmas.Recordings.{IsRecorded, ReceivesMore};
ghost use Rattle.system_state.specs.State.{with_inputs};
ghost use Rattle.tick_steps.specs.CueValues.{cue_value};
ghost use Rattle.xm_machine.specs.Striking.{MayStrike};
ghost use Rattle.xm_machine.specs.Spans.{ReceiveSpan, ReceivesInRanges, span_cues};

use crate::received::{bare_slot, is_own, kept_cue};
use cue_scripts::{ScriptFault, ScriptWriter};
use loaded_system::System;
use machine_model::keeps_numbers;
use recording_model::has_numbers;
use std::alloc::Global;
use std::slice;
use uart_board::Board;
use upset_files::places_are_spelled;
use upset_model::{Coming, UpsetLine};
use xm_base::{Memory, PartId, TICKS, proof};
use xm_machine::{Cue, Inputs, Machine};
use xm_outside::SureSink;

/// The file of all that partition `p` receives in a run of `ticks` ticks. A machine of its own does the run, and its lines and console
/// bytes go nowhere. What is received has its numbers in the ranges of a memory and of a register, so the file is read back.
pub fn script_of(
    alloc: Global,
    system: System,
    inputs: Inputs,
    p: PartId,
    ticks: u64,
) -> Result<Vec<u8>, ScriptFault>
    // Called for a partition that exists, with inputs for each partition, and for at most the limit of ticks.
    requires partition { p < length system.conf.parts }
    requires inputs { length inputs ≡ length system.conf.parts }
    requires most { ticks ≤ TICKS }
    // The file of a partition's script of this many ticks from the boot of its system on, with these input words;
    // refused with its length exactly where that has more bytes than a file may have, or there was no memory.
    ensures file { IsScriptFile (λ file. file.items)
        (script_text p (script (start (with_inputs system inputs)) p ticks)) result }
    // Where the file is made, in all that the partition receives what is a byte is one, and the status of each reset is
    // a word.
    ensures numbers { IfOk result
        (λ _. AllByRecursion HasNumbers (script (start (with_inputs system inputs)) p ticks)) }
{
    let mut machine = Machine::boot(alloc, system, inputs)?;
    let mut recording = Recording::new(alloc, p);
    record(
        alloc,
        &mut machine,
        ticks,
        &[],
        slice::from_mut(&mut recording),
    )?;
    recording.finish(alloc)
}

/// A partition, and what is recorded of what it receives.
#[derive(Debug, Drop)]
pub(crate) struct Recording {
    p: PartId,
    writer: ScriptWriter,
}

impl Recording {
    /// Nothing yet of what partition `p` receives.
    pub(crate) fn new(alloc: Global, p: PartId) -> Recording
        ensures partition { result.p ≡ p }
        ensures written { IsWritten [] result.writer }
    {
        Recording {
            p,
            writer: ScriptWriter::new(alloc),
        }
    }

    /// The file of what is recorded, where it is not too long for a file.
    pub(crate) fn finish(self, alloc: Global) -> Result<Vec<u8>, ScriptFault>
        ensures { (cues : List ModelCue) → IsWritten cues self.writer
            → IsScriptFile (λ file. file.items) (script_text self.p cues) result }
    {
        self.writer.finish(alloc, self.p)
    }

    /// Records a span of this many ticks: a cue for each but the last, with nothing but whether a slot of the partition's own runs, and
    /// the last cue.
    fn add_span(&mut self, alloc: Global, ticks: u32, last: Cue<'_>) -> Result<(), Memory>
        requires some { 0 < ticks }
        requires ranges { HasCueRanges (cue_value last) }
        requires few { self.old.writer.cues + ticks ≤ TICKS }
        ensures partition { self.new.p ≡ self.old.p }
        ensures written { (cues : List ModelCue) → IsWritten cues self.old.writer
            → OnOk result (IsWritten (cues ++ span_cues ticks (cue_value last.entry)) self.new.writer) }
        ensures numbers { OnOk result (HasNumbers (cue_value last.entry)) }
    {
        match bare_slot(last) {
            Some(own) => self.writer.add_alike(own, ticks),
            None => self.add_other(alloc, ticks, last),
        }
    }

    /// Records a span whose last cue may be any.
    fn add_other(&mut self, alloc: Global, ticks: u32, last: Cue<'_>) -> Result<(), Memory>
        requires some { 0 < ticks }
        requires ranges { HasCueRanges (cue_value last) }
        requires few { self.old.writer.cues + ticks ≤ TICKS }
        ensures partition { self.new.p ≡ self.old.p }
        ensures written { (cues : List ModelCue) → IsWritten cues self.old.writer
            → OnOk result (IsWritten (cues ++ span_cues ticks (cue_value last.entry)) self.new.writer) }
        ensures numbers { OnOk result (HasNumbers (cue_value last.entry)) }
    {
        let own = is_own(last.mine);
        self.writer.add_alike(own, ticks - 1)?;
        let cue = kept_cue(alloc, last)?;
        proof! { has_numbers(&cue); }
        self.writer.add(&cue)
    }
}

/// Records what partitions receive in `ticks` ticks of a machine while these upsets strike, whose ticks are those since the boot. Its lines and
/// console bytes go nowhere.
pub(crate) fn record(
    alloc: Global,
    machine: &mut Machine,
    ticks: u64,
    upsets: &[UpsetLine],
    recordings: &mut [Recording],
) -> Result<(), Memory>
    requires most { machine.old.state.ticks + ticks ≤ TICKS }
    requires fit { AllFit machine.old.state.system.conf (machine.old.state.ticks + ticks) machine.old.state.ticks
        upsets.now }
    requires inside { All (λ recording. recording.p < length machine.old.state.system.conf.parts) recordings.old }
    requires empty { All (λ recording. IsWritten [] recording.writer) recordings.old }
    ensures state { OnOk result (machine.new.state ≡ after_ticks upsets.now machine.old.state ticks) }
    ensures partitions { map (λ recording. recording.p) recordings.new ≡ map (λ recording. recording.p) recordings.old }
    ensures recorded { OnOk result
        (All (IsRecorded (upsets_of (coming upsets.now machine.old.state)) machine.old.state ticks) recordings.new) }
{
    proof! {
        places_are_spelled();
        let _sys = machine.sys();
    }
    record_run(alloc, machine, ticks, upsets, recordings)
}

/// Records what partitions receive in `ticks` ticks of a machine while these upsets strike. A span ends before the next upset.
fn record_run(
    alloc: Global,
    machine: &mut Machine,
    ticks: u64,
    upsets: &[UpsetLine],
    recordings: &mut [Recording],
) -> Result<(), Memory>
    requires most { machine.old.state.ticks + ticks ≤ TICKS }
    requires strike { All (MayStrike machine.old.state) upsets.now }
    requires ordered { AreOrdered machine.old.state.ticks upsets.now }
    requires inside { All (λ recording. recording.p < length machine.old.state.parts) recordings.old }
    requires empty { All (λ recording. IsWritten [] recording.writer) recordings.old }
    ensures state { OnOk result (machine.new.state ≡ after_ticks upsets.now machine.old.state ticks) }
    ensures partitions { map (λ recording. recording.p) recordings.new ≡ map (λ recording. recording.p) recordings.old }
    ensures recorded { OnOk result
        (All (IsRecorded (upsets_of (coming upsets.now machine.old.state)) machine.old.state ticks) recordings.new) }
{
    proof! { keeps_numbers(); }
    let begun = machine.done();
    let mut board = Board::new();
    let mut coming = Coming::new(upsets);
    let mut done = 0;
    while done < ticks {
        if machine.halted() {
            return Ok(());
        }
        let struck = coming.due(begun + done);
        machine.strike(struck);
        let end = coming.next(begun + ticks);
        let span = next_span(machine, end - begun - done, &mut board);
        record_span(alloc, machine, span, recordings)?;
        done += u64::from(span);
    }
    Ok(())
}

/// Does a span of at most this many ticks of a machine, and returns how many they were.
fn next_span(machine: &mut Machine, most: u64, board: &mut Board) -> u32
    requires running { machine.old.state.halted ≡ false }
    requires some { 0 < most }
    requires most { machine.old.state.ticks + most ≤ TICKS }
    ensures some { 0 < result }
    ensures within { result ≤ most }
    ensures state { machine.new.state ≡ run machine.old.state result }
    ensures received { ReceiveSpan result machine.old machine.new }
    ensures ranges { ReceivesInRanges machine.new }
{
    // The sink takes all bytes.
    let Ok(ticks) = machine.span(most, &mut SureSink::new(), board) else {
        unreachable!();
    };
    ticks as u32
}

/// Records in each of these what its partition received in the last `ticks` ticks of a machine, which were a span.
fn record_span(
    alloc: Global,
    machine: &Machine,
    ticks: u32,
    recordings: &mut [Recording],
) -> Result<(), Memory>
    requires some { 0 < ticks }
    requires ranges { ReceivesInRanges machine.now }
    requires inside { All (λ recording. recording.p < length machine.now.state.parts) recordings.old }
    requires few { All (λ recording. recording.writer.cues + ticks ≤ TICKS) recordings.old }
    ensures partitions { map (λ recording. recording.p) recordings.new ≡ map (λ recording. recording.p) recordings.old }
    ensures recorded { (s : Schedule) (g : ModelMachine) (done : ℕ) → ReceivesMore s g done ticks machine.now
        → All (IsRecorded s g done) recordings.old
        → OnOk result (All (IsRecorded s g (done + ticks)) recordings.new) }
{
    for recording in recordings.iter_mut() {
        recording.add_span(alloc, ticks, machine.cue(recording.p))?;
    }
    Ok(())
}
