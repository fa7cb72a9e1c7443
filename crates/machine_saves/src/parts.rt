//! What is saved of each partition.

ghost use Rattle.std.specs.Prelude.{◌≡◌, ◌<◌, ◌≤◌, ◌++◌, IfOk, OnOk, drop, length};
ghost use Rattle.core_files.specs.Head.{core_head};
ghost use Rattle.machine_model.specs.View.{view_of};
ghost use Rattle.sparc_step.specs.Registers.{AreRegisters};
ghost use Rattle.system_state.specs.State.{part_at};
ghost use Rattle.xm_traces.specs.Ring.{IsKept};
ghost use Rattle.machine_saves.specs.Loaded.{AreLoaded};
ghost use Rattle.machine_saves.specs.lemmas.SaveTerms.{part_text, parts_text};

use crate::inputs::put_inputs;
use crate::pages::put_areas;
use core_files::head_into;
use guest_memory::Ram;
use std::alloc::Global;
use system_state::Sys;
use xm_base::{Memory, PartId, proof};

/// Bytes of a core file before its areas.
const HEAD_BYTES: usize = 3470;

/// Bytes of its name and its version.
const NAME_BYTES: usize = 6;

/// Puts what is saved of each partition.
pub(crate) fn put_parts(
    alloc: Global,
    out: &mut Vec<u8>,
    sys: &Sys,
    loaded: &Ram,
) -> Result<(), Memory>
    requires { AreLoaded sys.now.machine.system loaded.now }
    ensures { OnOk result (out.new.items ≡ out.old.items ++ parts_text sys.now.machine) }
{
    for p in 0..sys.count() {
        put_part(alloc, out, sys, loaded, p)?;
    }
    Ok(())
}

/// Puts what is saved of a partition.
fn put_part(
    alloc: Global,
    out: &mut Vec<u8>,
    sys: &Sys,
    loaded: &Ram,
    p: PartId,
) -> Result<(), Memory>
    requires partition { p < length sys.now.machine.parts }
    requires loaded { AreLoaded sys.now.machine.system loaded.now }
    ensures { OnOk result (out.new.items ≡ out.old.items ++ part_text sys.now.machine p) }
{
    proof! { look_at(sys, p); }
    put_state(alloc, out, sys, p)?;
    put_inputs(out, sys, p)?;
    put_areas(out, sys, loaded, p)
}

/// Puts what the core file of a partition has between its version and its areas.
fn put_state(alloc: Global, out: &mut Vec<u8>, sys: &Sys, p: PartId) -> Result<(), Memory>
    requires { p < length sys.now.machine.parts }
    ensures { OnOk result (out.new.items ≡ out.old.items ++ drop 6 (core_head (view_of sys.now.machine.system p) (part_at p sys.now.machine))) }
{
    let mut head = zeros(alloc, HEAD_BYTES)?;
    head_into(sys, p, &mut head);
    put_from(out, &head, NAME_BYTES)
}

/// Puts bytes from a place on.
fn put_from(out: &mut Vec<u8>, bytes: &[u8], at: usize) -> Result<(), Memory>
    requires { at ≤ length bytes.now }
    ensures { OnOk result (out.new.items ≡ out.old.items ++ drop at bytes.now) }
{
    out.extend_from_slice(&bytes[at..])?;
    Ok(())
}

/// This many zeros.
fn zeros(alloc: Global, size: usize) -> Result<Vec<u8>, Memory>
    ensures { IfOk result (λ bytes. length bytes.items ≡ size) }
{
    Ok(vec![in alloc; 0; size]?)
}

/// For the proof: what holds of the registers and the logs of a partition.
fn look_at(sys: &Sys, p: PartId)
    requires { p < length sys.now.machine.parts }
    ensures registers { AreRegisters (part_at p sys.now.machine).core }
    ensures traces { IsKept (part_at p sys.now.machine).traces }
    ensures health { IsKept (part_at p sys.now.machine).health }
{
    let own = sys.part(p);
    let core = own.core.core();
    let _register = core.get(0);
    let _traces = own.traces.counts();
    let _events = own.health.counts();
}
