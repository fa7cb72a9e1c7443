//! One partition of a system, replayed in isolation.

ghost use Rattle.std.specs.Prelude.{◌≡◌, ◌<◌, [], IfOk, IfSome, IsSome, IsTrue, List, length};
ghost use Rattle.core_files.specs.Length.{core_length_of};
ghost use Rattle.cue_scripts.specs.Script.{IsScript};
ghost use Rattle.machine_model.specs.CoreFile.{core_file};
ghost use Rattle.machine_model.specs.Cue.{Cue};
ghost use Rattle.machine_model.specs.Lines.{end_line};
ghost use Rattle.machine_model.specs.View.{part_of, view_of};
ghost use Rattle.span_model.specs.Passes.{part_at};
ghost use Rattle.system_state.specs.State.{with_inputs};
ghost use Rattle.upset_files.specs.Fits.{AllFit};
ghost use Rattle.recording_model.specs.Replayed.{cue_lines, replay_lines};
ghost use Rattle.xm_alone.specs.Replay.{IsReplay, IsReplayed, IsSilentReplay, TakesAll, AnswersFit, lone_in};
ghost use Rattle.xm_alone.specs.Shown.{IsShown, shown_by};
ghost use Rattle.xm_alone.specs.Kept.{kept_ticks};
ghost use Rattle.recording_model.specs.Lone.{Lone, booted_alone, own_view};
ghost use Rattle.xm_machine.specs.Outcome.{HasWriteCause};
ghost use Rattle.xm_report.specs.Report.{line_value};

use crate::cues::Cues;
use crate::fitting::takes_all;
use crate::following::follow;
use crate::keeping::Kept;
use crate::shown::Shown;
use crate::striking::due_at;
use cue_scripts::{Script, ScriptFault};
use loaded_system::System;
use machine_model::{boots_alone, keeps_numbers};
use std::alloc::Global;
use std::marker::Model;
use uart_board::{Board, ViewBoard};
use upset_files::places_are_spelled;
use upset_model::{Coming, UpsetLine};
use xm_base::{Memory, PartId, TICKS, proof};
use xm_machine::{AloneFault, Inputs, Machine};
use xm_outside::Sink;
use xm_report::{Line, WriteFault, put_line};

/// One partition of a system, as it boots or as a replay left it.
#[derive(Debug, Drop)]
pub struct Alone {
    machine: Machine,
    p: PartId,
}

/// A partition as a replay left it, and what the replay shows.
#[derive(Debug, Drop)]
pub struct Replayed {
    pub alone: Alone,
    pub shown: Shown,
}

/// How many bytes of text of a replay are kept at most.
const KEPT_BYTES: usize = 67_108_864;

impl Model for Alone {
    ghost use Rattle.std.specs.Coded.{codes};
    ghost use Rattle.std.specs.Prelude.{◌<◌, length};
    ghost use Rattle.guest_bus.specs.Memory.{memory_code};
    ghost use Rattle.xm_alone.specs.Replay.{lone_in};
    ghost use Rattle.recording_model.specs.Lone.{Lone};

    ghost Value = { Lone };

    ghost coded = { Prim.hlevel (codes, memory_code) };

    ghost view = { λ a. lone_in a.machine.state a.p };

    ghost invariant = { λ a. a.p < length a.machine.state.parts };
}

impl Alone {
    /// Partition `p` of a system with these input words, as it boots. All memory of a replay is taken here.
    pub fn new(alloc: Global, system: System, inputs: Inputs, p: PartId) -> Result<Alone, Memory>
        // Called for a partition that exists and with inputs for each partition.
        requires partition { p < length system.conf.parts }
        requires inputs { length inputs ≡ length system.conf.parts }
        // A partition as it boots with these input words.
        ensures { IfOk result (λ lone. lone ≡ booted_alone (with_inputs system inputs) p) }
    {
        proof! {
            boots_alone();
            keeps_numbers();
        }
        Ok(Alone {
            machine: Machine::boot(alloc, system, inputs)?,
            p,
        })
    }

    /// Whether partition `p` of a system with these input words can take each cue of a script in the state which the cues before it and
    /// its own of these upsets leave; else the number of the first that it cannot, counted from 0. All of them are done, and nothing goes
    /// out. Where none printed or said anything, and no upset struck, the partition is given back as they left it.
    pub fn tried(
        alloc: Global,
        system: System,
        inputs: Inputs,
        p: PartId,
        script: &Script,
        upsets: &[UpsetLine],
    ) -> Result<Option<Alone>, ScriptFault>
        // Called for a partition that exists, with inputs for each partition, with a script that the partition may
        // receive, and with upsets that fit the system.
        requires partition { p < length system.conf.parts }
        requires inputs { length inputs ≡ length system.conf.parts }
        requires script { IsScript system.conf p script.now }
        requires upsets { AllFit system.conf TICKS 0 upsets.now }
        // As `fits`; and where it can take each cue, and the answer has the partition, then the cues printed and wrote
        // nothing, and it stands as they left it. It may answer without the partition where they printed nothing, too,
        // by which a replay is slower and no other: only its measured time shows that it does not.
        ensures fits { AnswersFit upsets.now (view_of (with_inputs system inputs) p) script.now result }
        ensures silent { IfOk result (λ silent. IfSome silent (IsSilentReplay upsets.now script.now (booted_alone (with_inputs system inputs) p))) }
    {
        proof! {
            boots_alone();
            keeps_numbers();
        }
        let mut machine = Machine::boot(alloc, system, inputs)?;
        match takes_all(&mut machine, p, script, upsets, Kept::new(alloc, 0)) {
            Ok(kept) => {
                if is_silent(&kept) {
                    Ok(Some(Alone { machine, p }))
                } else {
                    Ok(None)
                }
            }
            Err(fault) => Err(fault),
        }
    }

    /// Replays partition `p` of a system with these input words under each cue of a script and with its own of these upsets, where it can
    /// take the cues; else the number of the first that it cannot, counted from 0. Nothing goes out: what the cues and the upsets print, and
    /// what the cues write to the console, is kept, to be shown after the replay. There is no answer to be shown where that is too long, or memory for it runs out; `Alone::play` shows it then.
    pub fn replayed(
        alloc: Global,
        system: System,
        inputs: Inputs,
        p: PartId,
        script: &Script,
        upsets: &[UpsetLine],
    ) -> Result<Option<Replayed>, ScriptFault>
        // Called for a partition that exists, with inputs for each partition, with a script that the partition may
        // receive, and with upsets that fit the system.
        requires partition { p < length system.conf.parts }
        requires inputs { length inputs ≡ length system.conf.parts }
        requires script { IsScript system.conf p script.now }
        requires upsets { AllFit system.conf TICKS 0 upsets.now }
        // As `fits`; and where it can take each cue, and the answer has the partition, then it stands as the cues left
        // it, with all that they print and write to the console. It may answer without the partition at any time, by
        // which a replay is slower and no other: only its measured time shows that it does not.
        ensures fits { AnswersFit upsets.now (view_of (with_inputs system inputs) p) script.now result }
        ensures left { IfOk result (λ done. IfSome done (λ replayed. IsReplayed upsets.now script.now (booted_alone (with_inputs system inputs) p) replayed.alone)) }
        ensures shown { IfOk result (λ done. IfSome done (λ replayed. replayed.shown ≡ shown_by upsets.now (view_of (with_inputs system inputs) p) script.now)) }
    {
        proof! {
            boots_alone();
            keeps_numbers();
        }
        let mut machine = Machine::boot(alloc, system, inputs)?;
        let room = Kept::new(alloc, KEPT_BYTES);
        let kept = match takes_all(&mut machine, p, script, upsets, room) {
            Ok(kept) => kept,
            Err(fault) => return Err(fault),
        };
        let Some(kept) = kept else {
            return Ok(None);
        };
        Ok(Some(Replayed {
            alone: Alone { machine, p },
            shown: Shown::of(kept),
        }))
    }

    /// Shows a replay that was done: the partition's lines and the line of its end go out, and its console bytes go to their UART. After
    /// `WriteFault` the console bytes of the tick in hand were written, and nothing of a later one.
    pub fn show<O: Sink>(
        &self,
        shown: &Shown,
        out: &mut O,
        board: &mut Board,
    ) -> Result<(), WriteFault>
        // Where the partition stands as cues left it that show this, its lines and that of its end go out, and its
        // console bytes are written, as `Alone::play` answers it; after `WriteFault`, too, but that all cues were done.
        ensures replay { (upsets : List UpsetLine) (old : Lone) (cues : List Cue) → IsReplayed upsets cues old self.now → shown.now ≡ shown_by upsets (own_view old) cues
            → IsShown result upsets cues (replay_lines upsets (own_view old) cues) old self.now (O.got out.old) (O.got out.new) (⟦<Board as ViewBoard>⟧.board_view board.old) (⟦<Board as ViewBoard>⟧.board_view board.new) }
        ensures cause { HasWriteCause result (O.faults out.old) (O.faults out.new) }
    {
        shown.play(console_of(&self.machine, self.p), out, board)?;
        put_line(out, &end_line(&self.machine, self.p))
    }

    /// Replays a script that fits: before each tick the partition's own of these upsets strike, each with its line; the partition's lines and
    /// the line of its end go out, and its console bytes go to their UART. After `WriteFault` the tick in hand was done whole, its bytes
    /// were said, and no later one was begun.
    pub fn play<O: Sink>(
        &mut self,
        script: &Script,
        upsets: &[UpsetLine],
        out: &mut O,
        board: &mut Board,
    ) -> Result<(), WriteFault>
        // Called for a partition as it boots, with a script that the partition may receive, and with upsets that fit the
        // system and with which it can take the script to its end.
        requires fresh { self.old ≡ booted_alone self.old.system self.old.p }
        requires script { IsScript self.old.system.conf self.old.p script.now }
        requires upsets { AllFit self.old.system.conf TICKS 0 upsets.now }
        requires fits { TakesAll upsets.now (own_view self.old) script.now }
        // A replay of a script that fits leaves of the partition what it is alone under these cues and its own upsets, each
        // of which strikes before its tick, and the hypervisor halted where the last of the cues halts it; its lines, those
        // of its upsets among them, and that of its end went out, and its console bytes were written. Where the sink failed, that many of the cues were done, their console bytes were written, and a prefix
        // of the same lines went out: the last of these cues is the one whose lines were cut, or the last of all.
        ensures replay { IsReplay result upsets.now script.now (replay_lines upsets.now (own_view self.old) script.now) self.old self.new (O.got out.old) (O.got out.new) (⟦<Board as ViewBoard>⟧.board_view board.old) (⟦<Board as ViewBoard>⟧.board_view board.new) }
        // A replay is answered by a fault only where the sink's count of faults rose, and nothing else of it moves that
        // count.
        ensures cause { HasWriteCause result (O.faults out.old) (O.faults out.new) }
    {
        play_cues(&mut self.machine, self.p, script, upsets, out, board)?;
        put_line(out, &end_line(&self.machine, self.p))
    }

    /// How many bytes the core file has. No replay changes it.
    pub fn core_length(&self) -> usize
        // The length of the core file, which depends on the configuration alone.
        ensures value { result ≡ core_length_of (own_view self.now) }
        // It is that of the defined list of bytes.
        ensures length { result ≡ length (core_file (own_view self.now) self.now.part.state) }
    {
        self.machine.core_length(self.p)
    }

    /// Writes the core file into a slice of its length.
    pub fn core_into(&self, into: &mut [u8])
        // Called with a slice of the core file's length.
        requires size { length into.old ≡ core_length_of (own_view self.now) }
        // The slice gets exactly the bytes of the core file of the partition as it stands.
        ensures file { into.new ≡ core_file (own_view self.now) self.now.part.state }
    {
        self.machine.core_into(self.p, into);
    }
}

/// Replays the cues of a script, with the partition's own upsets.
fn play_cues<O: Sink>(
    machine: &mut Machine,
    p: PartId,
    script: &Script,
    upsets: &[UpsetLine],
    out: &mut O,
    board: &mut Board,
) -> Result<(), WriteFault>
    requires partition { p < length machine.old.state.parts }
    requires fresh { lone_in machine.old.state p ≡ booted_alone machine.old.state.system p }
    requires script { IsScript machine.old.state.system.conf p script.now }
    requires upsets { AllFit machine.old.state.system.conf TICKS 0 upsets.now }
    requires fits { TakesAll upsets.now (view_of machine.old.state.system p) script.now }
    ensures parts { length machine.new.state.parts ≡ length machine.old.state.parts }
    ensures replay { IsReplay result upsets.now script.now (cue_lines upsets.now (view_of machine.old.state.system p) script.now) (lone_in machine.old.state p) (lone_in machine.new.state p) (O.got out.old) (O.got out.new) (⟦<Board as ViewBoard>⟧.board_view board.old) (⟦<Board as ViewBoard>⟧.board_view board.new) }
    ensures cause { HasWriteCause result (O.faults out.old) (O.faults out.new) }
{
    proof! {
        let _now = machine.sys();
        places_are_spelled();
    }
    let mut rest = Cues::of(script);
    let mut coming = Coming::new(upsets);
    let mut tick = 0;
    while let Some((next, later)) = rest.next() {
        let now = due_at(&mut coming, tick);
        let done = follow(machine, p, next, now, out, board);
        match done.ended {
            Ok(()) => {}
            Err(fault) => return Err(unwritten(fault)),
        }
        tick += done.ticks;
        rest = later.after(next, done.ticks);
    }
    Ok(())
}

/// The fault of a replay whose script fits: no cue is refused.
fn unwritten(fault: AloneFault) -> WriteFault
    requires { fault ≡ AloneFault.Write }
{
    match fault {
        AloneFault::Write => WriteFault,
        AloneFault::Cue => unreachable!(),
    }
}

/// Whether ticks whose text was kept printed nothing.
fn is_silent(kept: &Option<Kept>) -> bool
    ensures { IsTrue result → IsSome kept.now × IfSome kept.now (λ kept. kept_ticks kept ≡ []) }
{
    match kept {
        Some(kept) => kept.ticks.is_empty(),
        None => false,
    }
}

/// The place of the UART that is the partition's console, where it has one.
#[tactic(auto, unfolding(machine_model::specs::View::part_of))]
fn console_of(machine: &Machine, p: PartId) -> Option<u8>
    requires partition { p < length machine.now.state.parts }
    ensures value { result ≡ (part_of machine.now.state.system.conf p).console }
    ensures below { IfSome result (λ place. place < 8) }
{
    let sys = machine.sys();
    let conf = sys.conf().raw();
    let count = sys.count();
    prove!(p < count);
    conf.parts[usize::from(p)].console
}

/// The line that answers how partition `p` stands at the end.
fn end_line(machine: &Machine, p: PartId) -> Line<'static>
    requires { p < length machine.now.state.parts }
    ensures { line_value result ≡ end_line p (part_at p machine.now.state) }
{
    let part = machine.sys().part(p);
    Line::EndPart {
        p,
        state: part.state,
        resets: part.resets,
        exec: part.clocks.exec(),
        pc: part.core.pc(),
    }
}
