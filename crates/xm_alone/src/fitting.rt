//! Whether a script fits a partition.

ghost use Rattle.std.specs.Prelude.{◌≡◌, ◌<◌, [], IfOk, IfSome, length};
ghost use Rattle.cue_scripts.specs.Script.{IsScript};
ghost use Rattle.machine_model.specs.View.{view_of};
ghost use Rattle.system_state.specs.State.{with_inputs};
ghost use Rattle.xm_alone.specs.Replay.{AnswersFit, IsReplayed, lone_in};
ghost use Rattle.xm_alone.specs.Shown.{shown_by};
ghost use Rattle.xm_alone.specs.Kept.{IsKept, kept_ticks};
ghost use Rattle.xm_alone.specs.lemmas.ReplayTerms.{is_refused};
ghost use Rattle.recording_model.specs.Lone.{booted_alone};
ghost use Rattle.upset_files.specs.Fits.{AllFit};

use crate::alone::Alone;
use crate::cues::Cues;
use crate::keeping::{Kept, follow_kept};
use crate::striking::due_at;
use cue_scripts::{Script, ScriptFault};
use loaded_system::System;
use std::alloc::Global;
use uart_board::Board;
use upset_files::places_are_spelled;
use upset_model::{Coming, UpsetLine};
use xm_base::{PartId, TICKS, proof};
use xm_machine::{AloneFault, Inputs, Machine};

/// Whether partition `p` of a system can take each cue of a script in the state which the cues before it and its own upsets leave; else
/// the number of the first that it cannot, counted from 0. A machine of its own does the ticks, and its lines and console bytes go nowhere.
pub fn fits(
    alloc: Global,
    system: System,
    inputs: Inputs,
    p: PartId,
    script: &Script,
    upsets: &[UpsetLine],
) -> Result<(), ScriptFault>
    // Called for a partition that exists, with inputs for each partition, with a script that the partition may receive,
    // and with upsets that fit the system.
    requires partition { p < length system.conf.parts }
    requires inputs { length inputs ≡ length system.conf.parts }
    requires script { IsScript system.conf p script.now }
    requires upsets { AllFit system.conf TICKS 0 upsets.now }
    // Whether a partition, from boot on and with these input words, can take each cue of a script in the state which
    // the cues before it and its own upsets up to it leave; else the number of the first that it cannot, counted from
    // 0; or there was no memory.
    ensures { AnswersFit upsets.now (view_of (with_inputs system inputs) p) script.now result }
{
    match Alone::tried(alloc, system, inputs, p, script, upsets) {
        Ok(_) => Ok(()),
        Err(fault) => Err(fault),
    }
}

/// Whether partition `p` of a machine that was only booted can take each cue of a script, with its own upsets; else the number of the first
/// that it cannot. Where it can, all of them were done, and what they showed is kept, unless there was no room for it.
pub(crate) fn takes_all(
    machine: &mut Machine,
    p: PartId,
    script: &Script,
    upsets: &[UpsetLine],
    kept: Kept,
) -> Result<Option<Kept>, ScriptFault>
    requires partition { p < length machine.old.state.parts }
    requires fresh { lone_in machine.old.state p ≡ booted_alone machine.old.state.system p }
    requires script { IsScript machine.old.state.system.conf p script.now }
    requires upsets { AllFit machine.old.state.system.conf TICKS 0 upsets.now }
    requires kept { IsKept kept }
    requires empty { kept_ticks kept ≡ [] }
    ensures fits { AnswersFit upsets.now (view_of machine.old.state.system p) script.now result }
    ensures left { IfOk result (λ _. IsReplayed upsets.now script.now (lone_in machine.old.state p) (lone_in machine.new.state p)) }
    ensures shown { IfOk result (λ shown. IfSome shown (λ kept. IsKept kept × (kept_ticks kept ≡ shown_by upsets.now (view_of machine.old.state.system p) script.now))) }
    ensures parts { IfOk result (λ _. length machine.new.state.parts ≡ length machine.old.state.parts) }
{
    proof! {
        let _now = machine.sys();
        places_are_spelled();
    }
    let mut board = Board::new();
    let mut rest = Cues::of(script);
    let mut coming = Coming::new(upsets);
    let mut tick = 0;
    let mut kept = Some(kept);
    while let Some((next, later)) = rest.next() {
        let now = due_at(&mut coming, tick);
        let (done, keeping) = follow_kept(machine, p, next, now, kept, &mut board);
        if is_refused(done.ended) {
            return Err(ScriptFault::Cue {
                tick: tick + done.ticks - 1,
            });
        }
        tick += done.ticks;
        kept = keeping;
        rest = later.after(next, done.ticks);
    }
    Ok(kept)
}

/// Whether the partition could not take the cue of a tick.
fn is_refused(ended: Result<(), AloneFault>) -> bool
    ensures { result ≡ is_refused ended }
{
    match ended {
        Ok(()) | Err(AloneFault::Write) => false,
        Err(AloneFault::Cue) => true,
    }
}
