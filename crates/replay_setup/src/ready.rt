//! A replay is made ready: the container is unpacked, the script and the upsets are read and tried, and the partition boots.

ghost use Rattle.std.specs.Prelude.{◌≡◌, ◌<◌, ◌^◌, IfOk, IfSome, None, Ok, List, ℕ, length};
ghost use Rattle.cue_scripts.specs.Script.{IsScript};
ghost use Rattle.loaded_system.specs.System.{System as Loaded};
ghost use Rattle.machine_model.specs.View.{view_of};
ghost use Rattle.system_state.specs.State.{with_inputs};
ghost use Rattle.xm_base.specs.declared.limits.TheConstants.{TICKS};
ghost use Rattle.xm_alone.specs.Replay.{IsReplayed, TakesAll};
ghost use Rattle.xm_alone.specs.Shown.{shown_by};
ghost use Rattle.recording_model.specs.Lone.{booted_alone};
ghost use Rattle.upset_files.specs.Fits.{AllFit};
ghost use Rattle.xm_container.specs.Reading.{unpacked};
ghost use Rattle.builders.specs.Ready.{fitting, inputs_given, replay_of, with_input, with_script, with_system, with_upsets};
ghost use Rattle.replay_setup.specs.lemmas.ReadiedTerms.{IsScripted};
ghost use Rattle.replay_setup.specs.Readied.{Readies};

use crate::inputs::inputs_given;
use crate::unready::{Unready, bad_container, bad_script, bad_upsets};
use builders::{no_container, no_script, no_upsets};
use cue_scripts::{Script, read_script};
use std::alloc::Global;
use upset_files::read_upsets;
use upset_model::UpsetLine;
use xm_alone::{Alone, Replayed, Shown};
use xm_base::{Memory, PartId, TICKS};
use xm_container::{System, unpack};
use xm_machine::Inputs;

/// A replay that may begin: the partition as it boots, and a script that fits it with its own of these upsets. Or the replay was done
/// already: the partition stands as the script's cues and its upsets left it, and what they show is kept, to be shown with the line of its
/// end.
#[derive(Debug, Drop)]
pub struct Replay {
    pub alone: Alone,
    pub script: Script,
    pub upsets: Vec<UpsetLine>,
    pub shown: Option<Shown>,
}

/// The replay of partition `p` by a container, a script, input words and upsets, which are bytes of files; or the first reason why there
/// is none. No bytes are no upsets.
#[tactic(auto, unfolding(builders::specs::Ready::replay_of))]
pub fn make_ready(
    alloc: Global,
    container: &[u8],
    p: PartId,
    script: &[u8],
    input: &[u8],
    struck: &[u8],
) -> Result<Replay, Unready>
    // Called with fewer than 2^34 bytes of input words.
    requires { length input.now < 2 ^ 34 }
    // The partition, with its input words, upsets that fit its system, and a script that it can take to its end with its own
    // of these upsets: it stands as it boots, or, where the answer has what the script's cues and the upsets show, as they
    // left it; or the first of these: the text of the container's fault, that it does not have the partition, the text of
    // the script's fault, the number of bytes of the input words where it is no multiple of 4, the text of the fault of
    // the upsets, the text of the first cue that cannot be taken.
    ensures { Readies result (replay_of container.now p script.now input.now struck.now) }
{
    match unpack(alloc, container) {
        Ok(system) => of_system(alloc, container, system, p, script, input, struck),
        Err(fault) => Err(bad_container(no_container(alloc, fault))),
    }
}

// The replay in a system that was unpacked.
fn of_system(
    alloc: Global,
    container: &[u8],
    system: System,
    p: PartId,
    script: &[u8],
    input: &[u8],
    struck: &[u8],
) -> Result<Replay, Unready>
    requires few { length input.now < 2 ^ 34 }
    requires same { unpacked container.now ≡ Ok system }
    ensures { Readies result (with_system p script.now input.now struck.now system) }
{
    if p >= system.conf().part_count() {
        return Err(Unready::NoPartition);
    }
    match read_script(alloc, system.conf(), p, script) {
        Ok(script) => by_script(alloc, container, system, p, script, input, struck),
        Err(fault) => Err(bad_script(no_script(alloc, fault))),
    }
}

// The replay by a script that was read.
fn by_script(
    alloc: Global,
    container: &[u8],
    system: System,
    p: PartId,
    script: Script,
    input: &[u8],
    struck: &[u8],
) -> Result<Replay, Unready>
    requires { IsScripted container.now system p script input.now }
    ensures { Readies result (with_script system p input.now struck.now (Ok script)) }
{
    match inputs_given(alloc, system.conf().part_count(), p, input) {
        Ok(inputs) => by_inputs(alloc, container, system, inputs, p, script, input, struck),
        Err(why) => Err(why),
    }
}

// The replay with input words that were read: the upsets are those of a run of any length.
fn by_inputs(
    alloc: Global,
    container: &[u8],
    system: System,
    inputs: Inputs,
    p: PartId,
    script: Script,
    input: &[u8],
    struck: &[u8],
) -> Result<Replay, Unready>
    requires scripted { IsScripted container.now system p script input.now }
    requires given { inputs_given (length system.conf.parts) p input.now ≡ Ok inputs }
    requires count { length inputs ≡ length system.conf.parts }
    ensures { Readies result (with_input system p script struck.now (Ok inputs)) }
{
    match read_upsets(alloc, struck, system.conf(), 0, TICKS) {
        Ok(upsets) => tried(alloc, container, system, inputs, p, script, upsets, input),
        Err(fault) => Err(bad_upsets(no_upsets(alloc, fault))),
    }
}

// The replay by a script that is tried on the partition, with its own upsets.
fn tried(
    alloc: Global,
    container: &[u8],
    system: System,
    inputs: Inputs,
    p: PartId,
    script: Script,
    upsets: Vec<UpsetLine>,
    input: &[u8],
) -> Result<Replay, Unready>
    requires scripted { IsScripted container.now system p script input.now }
    requires given { inputs_given (length system.conf.parts) p input.now ≡ Ok inputs }
    requires count { length inputs ≡ length system.conf.parts }
    requires striking { AllFit system.conf TICKS 0 upsets.items }
    ensures { Readies result (with_upsets system p script inputs (Ok upsets.items)) }
{
    match Alone::replayed(alloc, system, inputs, p, &script, &upsets) {
        Ok(done) => standing(alloc, container, done, p, script, upsets, input),
        Err(fault) => Err(bad_script(no_script(alloc, fault))),
    }
}

// The replay by a script that fits: of the partition as its cues and upsets left it, where what they show is kept, else as it boots.
#[tactic(auto, using(crate::proofs::ShownLemmas::shown_ready))]
fn standing(
    alloc: Global,
    container: &[u8],
    done: Option<Replayed>,
    p: PartId,
    script: Script,
    upsets: Vec<UpsetLine>,
    input: &[u8],
) -> Result<Replay, Unready>
    requires few { length input.now < 2 ^ 34 }
    ensures { (system : Loaded) (inputs : List (List ℕ)) → unpacked container.now ≡ Ok system → inputs_given (length system.conf.parts) p input.now ≡ Ok inputs
        → p < length system.conf.parts → IsScript system.conf p script → AllFit system.conf TICKS 0 upsets.items
        → TakesAll upsets.items (view_of (with_inputs system inputs) p) script
        → IfSome done (λ replayed. IsReplayed upsets.items script (booted_alone (with_inputs system inputs) p) replayed.alone)
        → IfSome done (λ replayed. replayed.shown ≡ shown_by upsets.items (view_of (with_inputs system inputs) p) script)
        → Readies result (fitting (with_inputs system inputs) p script upsets.items None) }
{
    match done {
        Some(Replayed { alone, shown }) => Ok(Replay {
            alone,
            script,
            upsets,
            shown: Some(shown),
        }),
        None => match booted(alloc, container, p, input) {
            Ok(alone) => Ok(Replay {
                alone,
                script,
                upsets,
                shown: None,
            }),
            Err(Memory) => Err(Unready::Memory),
        },
    }
}

// The partition as it boots, of the same files once more.
fn booted(alloc: Global, container: &[u8], p: PartId, input: &[u8]) -> Result<Alone, Memory>
    requires few { length input.now < 2 ^ 34 }
    ensures { (system : Loaded) (inputs : List (List ℕ)) → unpacked container.now ≡ Ok system → inputs_given (length system.conf.parts) p input.now ≡ Ok inputs
        → IfOk result (λ alone. alone ≡ booted_alone (with_inputs system inputs) p) }
{
    let Ok(system) = unpack(alloc, container) else {
        return Err(Memory);
    };
    let parts = system.conf().part_count();
    if p >= parts {
        return Err(Memory);
    }
    match inputs_given(alloc, parts, p, input) {
        Ok(inputs) => Alone::new(alloc, system, inputs, p),
        Err(_) => Err(Memory),
    }
}
