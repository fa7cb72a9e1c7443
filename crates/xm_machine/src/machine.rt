//! The machine: it boots or goes on, and does its ticks one by one.

ghost use Rattle.std.specs.Prelude.{◌≡◌, ◌+◌, ◌-◌, ◌*◌, ◌<◌, ◌≤◌, ◌∷◌, ◌++◌, [], false, All, IfOk, length, map, replicate};
ghost use Rattle.cyclic_plans.specs.PlanClock.{started};
ghost use Rattle.system_state.specs.State.{with_inputs};
ghost use Rattle.continuation_laws.specs.Onward.{coming};
ghost use Rattle.core_files.specs.Length.{core_length_of};
ghost use Rattle.machine_model.specs.CoreFile.{core_file};
ghost use Rattle.machine_model.specs.Lines.{console, end_lines};
ghost use Rattle.machine_model.specs.Machine.{run, start};
ghost use Rattle.machine_model.specs.Partition.{reset};
ghost use Rattle.machine_model.specs.Emission.{AllReset};
ghost use Rattle.machine_model.specs.View.{view_of};
ghost use Rattle.saved_machines.specs.Reading.{saved_value};
ghost use Rattle.saved_machines.specs.Restorable.{IsRestorable};
ghost use Rattle.saved_machines.specs.Saving.{machine_saved};
ghost use Rattle.span_model.specs.Passes.{evented, part_at, with_part};
ghost use Rattle.upset_files.specs.Fits.{AllFit};
ghost use Rattle.upset_model.specs.Coming.{AreOrdered};
ghost use Rattle.upset_model.specs.Places.{Timetable, upset_of};
ghost use Rattle.upset_model.specs.lemmas.Segments.{AreNoneLater};
ghost use Rattle.upset_model.specs.Upsets.{ready};
ghost use Rattle.uart_board.specs.Heard.{IsHeard};
ghost use Rattle.replay_model.specs.Step.{IsOfSystem};
ghost use Rattle.cue_scripts.specs.Entries.{bare_cue};
ghost use Rattle.cue_scripts.specs.Script.{IsCue};
ghost use Rattle.xm_machine.specs.AloneSpan.{SpansAlone};
ghost use Rattle.xm_machine.specs.AloneStep.{HasStepCause, IsSaidAlone, KeepsSaid, StepsAlone};
ghost use Rattle.xm_machine.specs.Alone.{AreAlone, AreBootedAlone, RunsEachAlone};
ghost use Rattle.tick_steps.specs.CueValues.{cue_value};
ghost use Rattle.xm_machine.specs.Cues.{AreCued, RunsCued, last_received};
ghost use Rattle.xm_machine.specs.lemmas.CuesTerms.{KeepsTicks};
ghost use Rattle.xm_machine.specs.Heard.{IsRunHeard};
ghost use Rattle.tick_steps.specs.Kept.{AreBareTicks, no_kept};
ghost use Rattle.tick_steps.specs.Machine.{IsCounted, IsMachine};
ghost use Rattle.xm_machine.specs.Outcome.{HasWriteCause, IsRun, IsTick, first_line};
ghost use Rattle.xm_machine.specs.lemmas.OutcomeTerms.{last_line};
ghost use Rattle.xm_machine.specs.lemmas.StepsTerms.{RunsTicks, Prints};
ghost use Rattle.xm_machine.specs.lemmas.StretchTerms.{AreAllOfStretch, KeepsStepped, Steps};
ghost use Rattle.xm_machine.specs.Spans.{ReceiveSpan, ReceivesInRanges, Spans};
ghost use Rattle.xm_machine.specs.lemmas.SpansTerms.{span_left};
ghost use Rattle.xm_machine.specs.lemmas.StruckTerms.{HasCounted, RunsStruck};
ghost use Rattle.xm_machine.specs.Striking.{MayStrike};
ghost use Rattle.xm_machine.specs.Struck.{IsStruckRun};
ghost use Rattle.xm_machine.specs.Stretch.{Stretches, StretchesAlone, StretchesCued, left_of};
ghost use Rattle.xm_ports.specs.Channels.{shapes_of};
ghost use Rattle.xm_report.specs.Report.{line_value};

use crate::alone_span::{AloneFault, AloneSpan};
use crate::report::{end_parts, print_alone, print_tick};
use crate::run::Ran;
use crate::said::Said;
use crate::stretch::{Stepped, ends_stretch, stepped_by};
use crate::upset::{put_struck, strike_all};
use core_files::{core_into, core_length};
use cyclic_plans::{Here, PlanClock};
use hypercalls::{Inputs, Sys};
use loaded_system::System;
use machine_model::{
    all_ticks, boots_alone, keeps_facts, keeps_hardware_clock, keeps_numbers, keeps_plans,
    own_lines, trades_few_bytes,
};
use machine_restore::restore;
use replay_tick::{span_alone, tick_alone};
use saved_machines::{Saved, restorable_machines_keep_facts};
use span_engine::{Engine, Place, reset_all};
use std::alloc::Global;
use std::marker::Model;
use tick_steps::{Cue, Lines, reset};
use uart_board::{Board, ViewBoard};
use upset_files::places_are_spelled;
use upset_model::{Coming, UpsetLine};
use xm_base::{Memory, Mode, PartId, TICKS, proof};
use xm_outside::Sink;
use xm_ports::Channels;
use xm_report::{Line, WriteFault, put_line};

/// A machine that was booted, or goes on from a saved one.
#[derive(Debug, Drop)]
pub struct Machine {
    sys: Sys,
    lines: Lines,
    kept: Engine,
    said: Said,
}

impl Model for Machine {
    ghost use Rattle.std.specs.Coded.{codes};
    ghost use Rattle.guest_bus.specs.Memory.{memory_code};
    ghost use Rattle.tick_steps.specs.Machine.{IsMachine};
    ghost use Rattle.xm_machine.specs.Machine.{Meaning};

    ghost Value = { Meaning };

    ghost coded = { Prim.hlevel (codes, memory_code) };

    ghost view = { λ a. record { state = a.sys.machine; kept = a.kept; said = a.said } };

    ghost invariant = { λ a. IsMachine a.sys };
}

impl Machine {
    /// The machine with this system and the input words of its partitions, before its first tick. All memory of a run is taken here.
    pub fn boot(alloc: Global, system: System, inputs: Inputs) -> Result<Machine, Memory>
        // Called with inputs for each partition.
        requires { length inputs ≡ length system.conf.parts }
        // The machine before its first tick is that of the definitions, with the input words of its partitions, and
        // keeps nothing of a tick: each partition is away and received nothing.
        ensures state { IfOk result (λ machine. machine.state ≡ start (with_inputs system inputs)) }
        ensures kept { IfOk result (λ machine. machine.kept ≡ no_kept) }
    {
        proof! {
            keeps_facts();
            keeps_hardware_clock();
            keeps_numbers();
            keeps_plans();
        }
        Ok(Machine {
            sys: Sys::new(alloc, system, inputs)?,
            lines: Lines::new(alloc)?,
            kept: Engine::new(alloc)?,
            said: Said::nothing(),
        })
    }

    /// The machine that was saved so, which goes on from there. All memory of a run is taken here.
    pub fn resume(alloc: Global, system: System, saved: &Saved) -> Result<Machine, Memory>
        // Called with a saved machine that was read for this configuration.
        requires { IsRestorable system.conf (saved_value saved.now) }
        // The machine is the one that was saved, with the words that its partitions have left as those that they were
        // given, and keeps nothing of a tick: each partition is away and received nothing.
        ensures state { IfOk result (λ machine. machine.state ≡ machine_saved (with_inputs system []) (saved_value saved.now)) }
        ensures kept { IfOk result (λ machine. machine.kept ≡ no_kept) }
    {
        proof! {
            restorable_machines_keep_facts();
            let _ = system.conf();
        }
        Ok(Machine {
            sys: restore(alloc, system, saved)?,
            lines: Lines::new(alloc)?,
            kept: Engine::new(alloc)?,
            said: Said::nothing(),
        })
    }

    /// The whole system as it stands, and what holds of it at all times.
    pub fn sys(&self) -> &Sys
        // The system as it stands, with what holds of every machine at all times: its configuration meets the rules, it
        // has each partition and channel of it, the plan clock runs a plan that there is in its frame, and the counters
        // are bounded.
        ensures machine { result.now.machine ≡ self.now.state }
        ensures kept { IsMachine result.now }
    {
        &self.sys
    }

    /// The channels, with what they hold.
    pub fn channels(&self) -> &Channels
        // The channels, whose shapes are those of the configuration.
        ensures contents { result.now.contents ≡ self.now.state.channels }
        ensures shapes { result.now.shapes ≡ shapes_of self.now.state.system.conf }
    {
        self.sys.channels()
    }

    /// How many ticks were done. The one in which the hypervisor halts is not counted.
    pub fn done(&self) -> u64
        // The ticks done; the one in which the hypervisor halts is not counted.
        ensures done { result ≡ self.now.state.ticks }
        // No counter wraps but those of resets. The next number of a trace log is at most the ticks that are done; that
        // of a health log, too, or one more where the partition or the hypervisor has halted; the hardware clock is at
        // most the ticks that are done; an execution clock is at most the ticks that have begun, the one in which the
        // hypervisor halts with them; and no more have begun than 4000000000.
        ensures counters { IsCounted self.now.state }
    {
        self.sys.ticks()
    }

    /// Whether the hypervisor has halted.
    pub fn halted(&self) -> bool
        // Whether the hypervisor has halted.
        ensures { result ≡ self.now.state.halted }
    {
        self.sys.halted()
    }

    /// What partition `p` received in the last tick that was done. Ticks of a machine whose hypervisor has halted are none, and a reset
    /// from without is none.
    pub fn cue(&self, p: PartId) -> Cue<'_>
        // Called for a partition that exists.
        requires { p < length self.now.state.parts }
        // What the partition received in the last tick that was done; its bytes are lent by the machine.
        ensures { cue_value result ≡ last_received self.now p }
    {
        self.kept.cue(self.sys.conf(), p)
    }

    /// One tick, whose lines go out, and whose console bytes go to their UARTs. After `WriteFault` the tick was done whole, and its bytes
    /// were said. A machine whose hypervisor has halted stays as it is.
    pub fn tick<O: Sink>(&mut self, out: &mut O, board: &mut Board) -> Result<(), WriteFault>
        // Called below the limit of ticks.
        requires { self.old.state.ticks < TICKS }
        // A tick is the defined step of the whole machine for every state, and its lines went out; after `WriteFault`
        // it was done whole and a prefix of them went out.
        ensures tick { IsTick result self.old.state self.new.state (O.got out.old) (O.got out.new) }
        // Each partition's part of the machine (its state, its copies of its channels, the ticks done and the hardware
        // clock) is what it is alone under its script of this tick, whatever the others are and do; its own lines and
        // its console bytes are those that it has alone.
        ensures alone { AreAlone 1 self.old.state self.new.state }
        // What each partition received last is the last stimulus of its script of this tick, the tick in which the
        // hypervisor halts included; where there was none, since the hypervisor had halted, it is what it received
        // before.
        ensures cues { AreCued 1 self.old self.new }
        // Each UART of the board has got the console bytes of the tick, of all partitions whose console it is, in their
        // order; one whose write failed is taken out and its place is marked, and that changes nothing at the other
        // places, in a partition or in the report.
        ensures heard { IsHeard (console self.old.state 1) (⟦<Board as ViewBoard>⟧.board_view board.old) (⟦<Board as ViewBoard>⟧.board_view board.new) }
        // `WriteFault` comes only where the sink's count rose, and nothing else moves it.
        ensures cause { HasWriteCause result (O.faults out.old) (O.faults out.new) }
        // No counter wraps but those of resets.
        ensures counters { IsCounted self.new.state }
    {
        proof! {
            all_ticks();
            keeps_numbers();
        }
        if !self.sys.halted() {
            self.step(1, out, board)?;
        }
        Ok(())
    }

    /// At most this many ticks of the slot or gap that it is, up to and with the first whose partition reaches beyond itself by more than a
    /// message that it puts or takes. Answers how many they were, with the one in which the hypervisor halts. Their lines go out, and their
    /// console bytes go to their UARTs. After `WriteFault` the tick in hand was done whole, its bytes were said, and no later one was
    /// begun.
    pub fn stretch<O: Sink>(
        &mut self,
        most: u64,
        out: &mut O,
        board: &mut Board,
    ) -> Result<u64, WriteFault>
        // Called on a machine that has not halted, for at least one tick, and within the limit of ticks.
        requires running { self.old.state.halted ≡ false }
        requires some { 0 < most }
        requires most { self.old.state.ticks + most ≤ TICKS }
        // A stretch: its ticks are those of the slot or gap, at most this many, up to and with the first whose act is
        // neither none nor a message put or taken, and exactly the least of these; the state is that of as many defined
        // steps, and their lines went out; after `WriteFault` the ticks done are the first of these, the last of them
        // whole, and a prefix of their lines went out.
        ensures stretch { Stretches result most self.old.state self.new.state (O.got out.old) (O.got out.new) }
        // After a stretch each partition is what it is alone, each UART got the console bytes of its ticks, what each
        // partition received last is that of its last tick, the sink's count is the only cause of a fault, and no
        // counter wraps.
        ensures alone { StretchesAlone result most self.old.state self.new.state }
        ensures cues { StretchesCued result most self.old self.new }
        ensures heard { IsRunHeard self.old.state self.new.state (⟦<Board as ViewBoard>⟧.board_view board.old) (⟦<Board as ViewBoard>⟧.board_view board.new) }
        ensures cause { HasWriteCause result (O.faults out.old) (O.faults out.new) }
        ensures counters { IsCounted self.new.state }
    {
        proof! {
            all_ticks();
            keeps_numbers();
        }
        match self.run_stretch(most, out, board) {
            Ok(stepped) => Ok(stepped.ticks),
            Err(fault) => Err(fault),
        }
    }

    /// Does at most `most` ticks of the current slot or gap, but only one where a slot begins, and stops after the first that prints
    /// something or reaches beyond its partition. Returns how many it did, the one in which the hypervisor halts included. Before the last
    /// of them, each partition received nothing but whether a slot of its own runs; `cue` returns what it received in the last. Their lines
    /// are printed, and their console bytes are written to their UARTs. On `WriteFault` the current tick was done whole, its bytes were
    /// written, and no later tick has begun.
    pub fn span<O: Sink>(
        &mut self,
        most: u64,
        out: &mut O,
        board: &mut Board,
    ) -> Result<u64, WriteFault>
        // Called on a machine that has not halted, for at least one tick, and within the limit of ticks.
        requires running { self.old.state.halted ≡ false }
        requires some { 0 < most }
        requires most { self.old.state.ticks + most ≤ TICKS }
        // A span has at least one tick and at most this many; the state is that of as many defined steps, and their
        // lines were printed. After `WriteFault` the last tick was done whole, and a prefix of the lines was printed.
        ensures span { Spans result most self.old.state self.new.state (O.got out.old) (O.got out.new) }
        // The script of each partition in these ticks is known from the last stimulus: in each tick before the last
        // the partition received nothing but whether a slot of its own runs, which is as in the last.
        ensures received { IfOk result (λ ticks. ReceiveSpan ticks self.old self.new) }
        // What each partition received last can be written into a script: its lengths are in the ranges of a script's
        // fields.
        ensures ranges { IfOk result (λ ticks. ReceivesInRanges self.new) }
        // Each UART got the console bytes of these ticks, the sink's count is the only cause of a fault, and no counter
        // wraps.
        ensures heard { IsRunHeard self.old.state self.new.state (⟦<Board as ViewBoard>⟧.board_view board.old) (⟦<Board as ViewBoard>⟧.board_view board.new) }
        ensures cause { HasWriteCause result (O.faults out.old) (O.faults out.new) }
        ensures counters { IsCounted self.new.state }
    {
        proof! {
            keeps_facts();
            keeps_numbers();
            trades_few_bytes();
        }
        let left = span_left(self.kept.place_of(&self.sys));
        match self.step(most.min(left), out, board) {
            Ok(stepped) => Ok(stepped.ticks),
            Err(fault) => Err(fault),
        }
    }

    /// The run of this many ticks, with its whole report: the first line, the ticks' lines and the lines of the end. Console bytes go to
    /// their
    /// UARTs. It ends with the tick in which the hypervisor halts. After `WriteFault` the tick in hand was done whole, its bytes were said,
    /// and no later one was begun; where the first line failed, none was.
    pub fn run<O: Sink>(
        &mut self,
        ticks: u64,
        out: &mut O,
        board: &mut Board,
    ) -> Result<Ran, WriteFault>
        // Called at tick 0, on a machine that has not halted, and for at most the limit of ticks.
        requires fresh { self.old.state.ticks ≡ 0 }
        requires running { self.old.state.halted ≡ false }
        requires most { ticks ≤ TICKS }
        // A run: the state is that of as many defined steps, and the whole report of the definitions went out; `Ran`
        // has its ticks, fewer than asked exactly where the hypervisor halted, its lines and whether it halted; after
        // `WriteFault` a prefix of the report, the current tick done and no later one. The state, the report and what
        // each UART of the board got are those of one number of ticks.
        ensures run { IsRun result ticks self.old.state self.new.state (O.got out.old) (O.got out.new) (⟦<Board as ViewBoard>⟧.board_view board.old) (⟦<Board as ViewBoard>⟧.board_view board.new) }
        // After the ticks that the run did, each partition's part of the machine (its state, its copies of its
        // channels, the ticks done and the hardware clock) is what it is alone under its script of these ticks,
        // whatever the others are and do; its own lines of them and its console bytes are those that it has alone.
        ensures alone { RunsEachAlone result ticks self.old.state self.new.state }
        // Of a machine that was only booted, each partition's part is that of the partition alone at its boot, and its
        // own lines of the whole report of a run are its lines alone and the line of its end alone.
        ensures booted { AreBootedAlone self.old.state ticks }
        // What each partition received last is the last stimulus of its script of the ticks that the run did, the tick
        // in which the hypervisor halts included; where there was none, it is what it received before.
        ensures cues { RunsCued result ticks self.old self.new }
        // Each UART of the board has got the console bytes of the ticks that the run did, of all partitions whose
        // console it is, in their order; one whose write failed is taken out and its place is marked, and that changes
        // nothing at the other places, in a partition or in the report. After `WriteFault` these are the ticks done,
        // the current one with them, whatever number of ticks leads to the state.
        ensures heard { IsRunHeard self.old.state self.new.state (⟦<Board as ViewBoard>⟧.board_view board.old) (⟦<Board as ViewBoard>⟧.board_view board.new) }
        // `WriteFault` comes only where the sink's count rose, and nothing else moves it.
        ensures cause { HasWriteCause result (O.faults out.old) (O.faults out.new) }
        // No counter wraps but those of resets.
        ensures counters { IsCounted self.new.state }
    {
        proof! {
            all_ticks();
            boots_alone();
            own_lines();
            keeps_numbers();
        }
        put_line(out, &first_line(&self.sys, ticks))?;
        let printed = self.run_ticks(ticks, out, board)?;
        let ended = self.end(out)?;
        Ok(Ran {
            ticks: self.done(),
            halted: self.halted(),
            lines: 1 + printed + ended,
        })
    }

    /// The run of this many ticks more with the upsets of a file, as `run`, and with a line for each upset that strikes, before the lines
    /// of its tick. Ticks count from the boot, in the upsets and in the report. After `WriteFault` at the line of an upset those of that
    /// tick have not struck.
    pub fn run_struck<O: Sink>(
        &mut self,
        ticks: u64,
        upsets: &[UpsetLine],
        out: &mut O,
        board: &mut Board,
    ) -> Result<Ran, WriteFault>
        // Called for ticks within the limit,
        requires most { self.old.state.ticks + ticks ≤ TICKS }
        // and with upsets that fit the system and these ticks, in the order of their ticks.
        requires fit { AllFit self.old.state.system.conf (self.old.state.ticks + ticks) self.old.state.ticks upsets.now }
        // A run with upsets from the machine that it is: the state is that of as many defined steps, before each of which
        // the upsets of its tick strike, and the whole report of the definitions went out, whose first line has the ticks
        // since the boot; `Ran` has the ticks since the boot, fewer than these exactly where the hypervisor halts in the
        // run, its lines and whether it has halted; after `WriteFault` a prefix of the report, the current tick done and
        // no later one. The state, the report and what each UART of the board got are those of one number of ticks. A
        // machine that has halted stays as it is.
        ensures run { IsStruckRun result upsets.now ticks self.old.state self.new.state (O.got out.old) (O.got out.new) (⟦<Board as ViewBoard>⟧.board_view board.old) (⟦<Board as ViewBoard>⟧.board_view board.new) }
        // `WriteFault` comes only where the sink's count rose, and nothing else moves it.
        ensures cause { HasWriteCause result (O.faults out.old) (O.faults out.new) }
        // No counter wraps but those of resets.
        ensures counters { IsCounted self.new.state }
    {
        proof! {
            keeps_numbers();
            places_are_spelled();
        }
        put_line(out, &first_line(&self.sys, self.sys.ticks() + ticks))?;
        let reported = self.struck_ticks(ticks, upsets, out, board)?;
        let ended = self.end(out)?;
        Ok(Ran {
            ticks: self.done(),
            halted: self.halted(),
            lines: 1 + reported + ended,
        })
    }

    /// One tick of partition `p` in isolation: it does its own work, and receives by the cue what others did. Its lines go out, and
    /// its console bytes go to their UART. `Cue` comes where the partition cannot take the cue, and then another tick or a part of one was
    /// done; after `Write` the tick was done whole. What the other partitions do, and the plan, is left open.
    pub fn step_alone<O: Sink>(
        &mut self,
        p: PartId,
        cue: &Cue<'_>,
        out: &mut O,
        board: &mut Board,
    ) -> Result<(), AloneFault>
        // Called for a partition that exists, on a machine that has not halted, below the limit of ticks, and with a
        // stimulus that a script may have.
        requires partition { p < length self.old.state.parts }
        requires running { self.old.state.halted ≡ false }
        requires more { self.old.state.ticks < TICKS }
        requires cue { IsCue self.old.state.system.conf p (cue_value cue.now) }
        // A tick of one partition in isolation, under any cue that a script may have: its part of the machine is that
        // of the tick alone, and the lines of that tick went out; after `Write` it was done whole, and a prefix of them
        // went out; `Cue` comes exactly where the partition cannot take the cue, and then nothing went out.
        ensures step { StepsAlone result p (cue_value cue.now) self.old.state self.new.state (O.got out.old) (O.got out.new) }
        // Its console bytes were written to their UART; `Write` comes only where the sink's count rose, and nothing
        // else moves it; what runs and how many partitions there are is the same; what is kept of the last tick stays;
        // no counter wraps. This holds after `Cue`, too, when nothing was written.
        ensures cause { HasStepCause result (O.faults out.old) (O.faults out.new) }
        ensures heard { IsSaidAlone result p (cue_value cue.now) self.old.state (⟦<Board as ViewBoard>⟧.board_view board.old) (⟦<Board as ViewBoard>⟧.board_view board.new) }
        ensures system { IsOfSystem self.old.state self.new.state }
        ensures kept { self.new.kept ≡ self.old.kept }
        ensures counters { IsCounted self.new.state }
        // The console bytes of the tick are kept, unless the partition cannot take the cue.
        ensures said { KeepsSaid result p (cue_value cue.now ∷ []) self.old.state self.new.said }
    {
        self.lines.clear();
        let n = self.sys.ticks();
        let done = tick_alone(&mut self.sys, &mut self.lines, p, cue);
        self.said.keep(&self.sys, p, done);
        proof! { let _ = self.lines.as_slice(); }
        print_alone(&self.sys, n, p, done, &self.lines, out, board)
    }

    /// At least one and at most this many ticks of partition `p` in isolation, in each of which it receives nothing but whether a
    /// slot of its own runs. Only the last may print and say something; it ends as that of `step_alone`.
    pub fn span_alone<O: Sink>(
        &mut self,
        p: PartId,
        own: bool,
        most: u64,
        out: &mut O,
        board: &mut Board,
    ) -> AloneSpan
        // Called for a partition that exists, on a machine that has not halted, for at least one tick, and within the
        // limit of ticks.
        requires partition { p < length self.old.state.parts }
        requires running { self.old.state.halted ≡ false }
        requires some { 0 < most }
        requires more { self.old.state.ticks + most ≤ TICKS }
        // Many ticks of one partition in isolation, at least one and at most this many, in each of which it receives
        // nothing but whether a slot of its own runs: all but the last could be taken, printed and wrote nothing, and
        // left what the partition alone makes of as many cues; the last answers as `Machine::step_alone` does.
        ensures some { 0 < result.ticks }
        ensures within { result.ticks ≤ most }
        ensures span { SpansAlone result.ended result.ticks p own self.old.state self.new.state (O.got out.old) (O.got out.new) (⟦<Board as ViewBoard>⟧.board_view board.old) (⟦<Board as ViewBoard>⟧.board_view board.new) }
        ensures cause { HasStepCause result.ended (O.faults out.old) (O.faults out.new) }
        ensures system { IsOfSystem self.old.state self.new.state }
        ensures kept { self.new.kept ≡ self.old.kept }
        ensures counters { IsCounted self.new.state }
        // The console bytes of the ticks are kept, unless the partition cannot take the cue of the last.
        ensures said { KeepsSaid result.ended p (replicate (result.ticks - 1) (bare_cue own) ++ bare_cue own ∷ []) self.old.state self.new.said }
    {
        self.lines.clear();
        let begun = self.sys.ticks();
        let span = span_alone(&mut self.sys, &mut self.lines, p, own, most);
        self.said.keep(&self.sys, p, span.emitted);
        proof! { let _ = self.lines.as_slice(); }
        let last = begun + span.ticks - 1;
        let ended = print_alone(&self.sys, last, p, span.emitted, &self.lines, out, board);
        AloneSpan {
            ticks: span.ticks,
            ended,
        }
    }

    /// The bytes that the partition wrote to its console in the ticks in isolation that were done last.
    pub fn said(&self) -> &[u8]
        // The console bytes that are kept, as `Machine::step_alone` and `Machine::span_alone` left them.
        ensures { result.now ≡ self.now.said }
    {
        self.said.bytes()
    }

    /// How many bytes the core file of a partition has. No tick and no reset changes it.
    pub fn core_length(&self, p: PartId) -> usize
        // Called for a partition that exists.
        requires { p < length self.now.state.parts }
        // The length of the partition's core file, which its configuration alone gives.
        ensures value { result ≡ core_length_of (view_of self.now.state.system p) }
        // It is that of the defined list of bytes.
        ensures length { result ≡ length (core_file (view_of self.now.state.system p) (part_at p self.now.state)) }
    {
        core_length(&self.sys, p)
    }

    /// Writes the core file of a partition into a slice of its length.
    pub fn core_into(&self, p: PartId, into: &mut [u8])
        // Called for a partition that exists and with a slice of the core file's length.
        requires partition { p < length self.now.state.parts }
        requires size { length into.old ≡ core_length_of (view_of self.now.state.system p) }
        // The slice gets exactly the bytes of the core file.
        ensures file { into.new ≡ core_file (view_of self.now.state.system p) (part_at p self.now.state) }
    {
        core_into(&self.sys, p, into);
    }

    /// Resets a partition, with this status for it to ask for.
    pub fn reset_part(&mut self, p: PartId, mode: Mode, status: u32)
        // Called for a partition that exists and where the next number of its health log is at most the ticks done,
        // which is so but for a partition that has just halted over a delivery that failed.
        requires partition { p < length self.old.state.parts }
        requires log { (part_at p self.old.state).health.next ≤ self.old.state.ticks }
        // The partition is reset, cold or warm, with this status; nothing is printed.
        ensures value { self.new.state ≡ with_part p (reset (view_of self.old.state.system p) mode status (part_at p self.old.state)) self.old.state }
        // A reset from outside keeps what the last tick left to be asked for.
        ensures kept { self.new.kept ≡ self.old.kept }
    {
        reset(&mut self.sys, p, mode, status);
    }

    /// Resets all partitions and the hypervisor: the hardware clock and the plans begin again, and the channels are empty.
    pub fn reset_all(&mut self, mode: Mode)
        // Called where the next number of each health log is at most the ticks done, which is so but for a partition
        // that has just halted over a delivery that failed.
        requires log { All (λ part. part.health.next ≤ self.old.state.ticks) self.old.state.parts }
        // All partitions are reset with the hypervisor; nothing is printed.
        ensures value { self.new.state ≡ record (evented (AllReset mode) self.old.state) { clock = started; time = 0 } }
        // A reset from outside keeps what the last tick left to be asked for.
        ensures kept { self.new.kept ≡ self.old.kept }
    {
        reset_all(&mut self.sys, mode);
        *self.sys.plan_clock_mut() = PlanClock::start();
        self.sys.set_now(0);
    }

    /// The upsets of these lines strike one after the other, unless the hypervisor has halted: the bit of the place of the partition flips.
    pub fn strike(&mut self, lines: &[UpsetLine])
        // Called for partitions that exist, and for bits that they have and where they may be struck.
        requires { All (MayStrike self.old.state) lines.now }
        // The machine is as a tick finds it before which these upsets strike: the bits flip, and nothing else changes; one
        // that has halted is not struck.
        ensures state { self.new.state ≡ ready (map upset_of lines.now) self.old.state }
        // An upset keeps what the last tick left to be asked for,
        ensures kept { self.new.kept ≡ self.old.kept }
        // and the console bytes of the last ticks in isolation.
        ensures said { self.new.said ≡ self.old.said }
    {
        strike_all(&mut self.sys, lines);
    }

    // At most this many ticks, up to the first that emits something. Its lines go out, and its console bytes go to their UART.
    fn step<O: Sink>(
        &mut self,
        most: u64,
        out: &mut O,
        board: &mut Board,
    ) -> Result<Stepped, WriteFault>
        requires running { self.old.state.halted ≡ false }
        requires some { 0 < most }
        requires most { self.old.state.ticks + most ≤ TICKS }
        ensures step { Steps result most self.old.state self.new.state (O.got out.old) (O.got out.new) }
        ensures kept { KeepsStepped result most self.old self.new }
        ensures bare { IfOk result (λ stepped. AreBareTicks stepped.ticks self.old.state) }
        ensures few { IfOk result (λ stepped. stepped.lines ≤ 41) }
        ensures cause { HasWriteCause result (O.faults out.old) (O.faults out.new) }
        ensures heard { IsRunHeard self.old.state self.new.state (⟦<Board as ViewBoard>⟧.board_view board.old) (⟦<Board as ViewBoard>⟧.board_view board.new) }
        ensures counters { IsCounted self.new.state }
    {
        proof! {
            keeps_facts();
            keeps_hardware_clock();
            keeps_numbers();
            keeps_plans();
        }
        self.lines.clear();
        let begun = self.sys.ticks();
        let span = self.kept.run(&mut self.sys, &mut self.lines, most);
        let last = begun + span.ticks - 1;
        let ticks = span.ticks;
        let ends = ends_stretch(span.note, span.reach);
        stepped_by(
            print_tick(
                &self.sys,
                last,
                span.part,
                span.note,
                &self.lines,
                out,
                board,
            ),
            ticks,
            ends,
        )
    }

    // All ticks of a stretch, at most this many.
    fn run_stretch<O: Sink>(
        &mut self,
        most: u64,
        out: &mut O,
        board: &mut Board,
    ) -> Result<Stepped, WriteFault>
        requires running { self.old.state.halted ≡ false }
        requires some { 0 < most }
        requires most { self.old.state.ticks + most ≤ TICKS }
        ensures steps { Steps result (left_of most self.old.state) self.old.state self.new.state (O.got out.old) (O.got out.new) }
        ensures whole { AreAllOfStretch result (left_of most self.old.state) }
        ensures kept { KeepsStepped result (left_of most self.old.state) self.old self.new }
        ensures few { IfOk result (λ stepped. stepped.lines ≤ 41 * stepped.ticks) }
        ensures cause { HasWriteCause result (O.faults out.old) (O.faults out.new) }
        ensures heard { IsRunHeard self.old.state self.new.state (⟦<Board as ViewBoard>⟧.board_view board.old) (⟦<Board as ViewBoard>⟧.board_view board.new) }
        ensures counters { IsCounted self.new.state }
    {
        proof! { keeps_numbers(); }
        let place = self.kept.place_of(&self.sys);
        let left = most.min(place.left);
        let mut ticks = 0;
        let mut lines = 0;
        let mut ends = false;
        while !ends && ticks < left {
            let next = self.step(left - ticks, out, board)?;
            ticks += next.ticks;
            lines += next.lines;
            ends = next.ends;
        }
        Ok(Stepped { ticks, lines, ends })
    }

    // This many ticks more, or those up to the one in which the hypervisor halts, and how many lines they printed.
    fn run_ticks<O: Sink>(
        &mut self,
        ticks: u64,
        out: &mut O,
        board: &mut Board,
    ) -> Result<u64, WriteFault>
        requires running { self.old.state.halted ≡ false }
        requires most { self.old.state.ticks + ticks ≤ TICKS }
        ensures run { RunsTicks result ticks self.old.state self.new.state (O.got out.old) (O.got out.new) }
        ensures kept { KeepsTicks result ticks self.old self.new }
        ensures few { IfOk result (λ printed. printed ≤ 41 * ticks) }
        ensures cause { HasWriteCause result (O.faults out.old) (O.faults out.new) }
        ensures heard { IsRunHeard self.old.state self.new.state (⟦<Board as ViewBoard>⟧.board_view board.old) (⟦<Board as ViewBoard>⟧.board_view board.new) }
        ensures counters { IsCounted self.new.state }
    {
        proof! { keeps_numbers(); }
        let end = self.sys.ticks() + ticks;
        let mut printed = 0;
        while !self.sys.halted() && self.sys.ticks() < end {
            let left = end - self.sys.ticks();
            let next = self.step(left, out, board)?;
            printed += next.lines;
        }
        Ok(printed)
    }

    // This many ticks more, or those up to the one in which the hypervisor halts, with these upsets, and how many lines were printed.
    fn struck_ticks<O: Sink>(
        &mut self,
        ticks: u64,
        upsets: &[UpsetLine],
        out: &mut O,
        board: &mut Board,
    ) -> Result<u64, WriteFault>
        requires most { self.old.state.ticks + ticks ≤ TICKS }
        requires strike { All (MayStrike self.old.state) upsets.now }
        requires ordered { AreOrdered self.old.state.ticks upsets.now }
        ensures run { RunsStruck result (coming upsets.now self.old.state) ticks self.old.state self.new.state (O.got out.old) (O.got out.new) (⟦<Board as ViewBoard>⟧.board_view board.old) (⟦<Board as ViewBoard>⟧.board_view board.new) }
        ensures counted { IfOk result (λ printed. HasCounted ticks self.old.state self.new.state) }
        ensures few { IfOk result (λ printed. printed ≤ 41 * ticks + length upsets.now) }
        ensures cause { HasWriteCause result (O.faults out.old) (O.faults out.new) }
        ensures counters { IsCounted self.new.state }
    {
        proof! { keeps_numbers(); }
        let end = self.sys.ticks() + ticks;
        let mut coming = Coming::new(upsets);
        let mut printed = 0;
        while !self.sys.halted() && self.sys.ticks() < end {
            let begun = self.sys.ticks();
            let now = coming.due(begun);
            let count = coming.next(end) - begun;
            printed += self.struck_piece(now, count, out, board)?;
        }
        Ok(printed)
    }

    // These upsets strike, each with its line, and then this many ticks are done, or those up to the one in which the hypervisor halts.
    fn struck_piece<O: Sink>(
        &mut self,
        upsets: &[UpsetLine],
        ticks: u64,
        out: &mut O,
        board: &mut Board,
    ) -> Result<u64, WriteFault>
        requires running { self.old.state.halted ≡ false }
        requires some { 0 < ticks }
        requires most { self.old.state.ticks + ticks ≤ TICKS }
        requires strike { All (MayStrike self.old.state) upsets.now }
        ensures run { (t : Timetable) → t 0 ≡ upsets.now → AreNoneLater ticks t → RunsStruck result t ticks self.old.state self.new.state (O.got out.old) (O.got out.new) (⟦<Board as ViewBoard>⟧.board_view board.old) (⟦<Board as ViewBoard>⟧.board_view board.new) }
        ensures state { IfOk result (λ printed. self.new.state ≡ run (ready (map upset_of upsets.now) self.old.state) ticks) }
        ensures few { IfOk result (λ printed. printed ≤ 41 * ticks + length upsets.now) }
        ensures cause { HasWriteCause result (O.faults out.old) (O.faults out.new) }
        ensures counters { IsCounted self.new.state }
    {
        proof! { let _ = &self.sys; }
        let struck = put_struck(out, upsets)?;
        self.strike(upsets);
        let done = self.run_ticks(ticks, out, board)?;
        Ok(struck + done)
    }

    // The lines of the end, and how many they are.
    fn end<O: Sink>(&self, out: &mut O) -> Result<u64, WriteFault>
        ensures printed { Prints result (end_lines self.now.state) (O.got out.old) (O.got out.new) }
        ensures few { IfOk result (λ ended. ended ≤ 33) }
        ensures cause { HasWriteCause result (O.faults out.old) (O.faults out.new) }
    {
        let ended = end_parts(&self.sys, out)?;
        put_line(out, &self.last_line())?;
        Ok(ended + 1)
    }

    // The last line of the report.
    fn last_line(&self) -> Line<'static>
        ensures { line_value result ≡ last_line self.now.state }
    {
        Line::EndWhole {
            halted: self.halted(),
            plan: self.sys.plan_clock().plan(),
            clock: self.sys.now(),
            ticks: self.done(),
        }
    }
}

// How many ticks of a slot or gap a span has at most: one where the slot begins.
fn span_left(place: Place) -> u64
    ensures { result ≡ span_left place }
{
    match place.slot {
        Some(Here { first: true, .. }) => 1,
        Some(Here { first: false, .. }) | None => place.left,
    }
}

// The first line of the report.
#[tactic(auto, unfolding(xm_conf::specs::Description::described))]
fn first_line(sys: &Sys, ticks: u64) -> Line<'static>
    ensures { line_value result ≡ first_line sys.now.machine ticks }
{
    let conf = sys.conf().raw();
    Line::System {
        parts: sys.conf().part_count(),
        plans: conf.plans.len() as u8,
        ticks,
    }
}
