//! The state of each partition is put into a system.

ghost use Rattle.std.specs.Prelude.{◌≡◌, ◌<◌, ◌≤◌, ℕ, All, IfOk, IfSome, OnOk, Some, length, map, slice_get};
ghost use Rattle.system_state.specs.State.{areas_in};
ghost use Rattle.saved_machines.specs.Restorable.{ArePages};
ghost use Rattle.machine_restore.specs.lemmas.Values.{ArePartValues};
ghost use Rattle.machine_restore.specs.lemmas.RestoreTerms.{AreStateValues, all_paged, given_at, own_of, paged, parts_given};

use saved_machines::{Page, PartValues};
use sparc_step::Processor;
use std::alloc::Global;
use system_state::{PartState, Sys, restoring};
use virt_clocks::Clocks;
use virt_traps::Virt;
use xm_base::{Memory, PartId};
use xm_ports::Ports;
use xm_traces::Ring;

/// Each partition has its values.
pub(crate) fn put_parts(alloc: Global, sys: &mut Sys, parts: &[PartValues]) -> Result<(), Memory>
    requires counted { length sys.old.machine.parts ≤ length parts.now }
    requires values { (p : ℕ) → p < length sys.old.machine.parts → IfSome (slice_get parts.now p) (ArePartValues (areas_in p sys.old.machine)) }
    ensures { OnOk result (sys.new ≡ parts_given (length sys.old.machine.parts) parts.now sys.old) }
{
    for p in 0..sys.count() {
        put_part(alloc, sys, p, &parts[usize::from(p)])?;
    }
    Ok(())
}

// One partition has its values.
fn put_part(alloc: Global, sys: &mut Sys, p: PartId, part: &PartValues) -> Result<(), Memory>
    requires there { p < length sys.old.machine.parts }
    requires values { ArePartValues (areas_in p sys.old.machine) part.now }
    ensures { OnOk result (sys.new ≡ given_at p part.now sys.old) }
{
    let own = state_of(alloc, part)?;
    restoring::set_part(sys, p, own);
    put_areas(sys, p, &part.pages);
    Ok(())
}

// The state of a partition, but for its memory and its input words.
fn state_of(alloc: Global, part: &PartValues) -> Result<PartState, Memory>
    requires { AreStateValues part.now }
    ensures { IfOk result (λ own. own ≡ own_of part.now) }
{
    let traces = Ring::resumed(alloc, part.next_trace, &part.traces)?;
    let health = Ring::resumed(alloc, part.next_health, &part.health)?;
    Ok(PartState {
        core: Processor::of(&part.core),
        virt: traps_of(&part.virt),
        clocks: Clocks::resumed(part.execution, part.hardware_timer, part.execution_timer),
        state: part.state,
        resets: part.resets,
        reset_status: part.reset_status,
        ports: Ports::resumed(part.made),
        traces,
        health,
        used: 0,
    })
}

// The same virtual traps.
fn traps_of(virt: &Virt) -> Virt
    ensures { result ≡ virt.now }
{
    Virt {
        enabled: virt.enabled,
        base: virt.base,
        pending: virt.pending,
        mask: virt.mask,
    }
}

// The memory of a partition has these pages of each of its areas.
fn put_areas(sys: &mut Sys, p: PartId, areas: &[Vec<Page>])
    requires there { p < length sys.old.machine.parts }
    requires pages { All (ArePages (areas_in p sys.old.machine)) (map (λ pages. pages.items) areas.now) }
    ensures { sys.new ≡ all_paged p (map (λ pages. pages.items) areas.now) sys.old }
{
    for n in 0..areas.len() {
        put_pages(sys, p, pages_at(areas, n));
    }
}

// The pages of one area.
fn pages_at(areas: &[Vec<Page>], n: usize) -> &[Page]
    requires { n < length areas.now }
    ensures { slice_get (map (λ pages. pages.items) areas.now) n ≡ Some result.now }
{
    &areas[n]
}

// The memory of a partition has these pages.
fn put_pages(sys: &mut Sys, p: PartId, pages: &[Page])
    requires there { p < length sys.old.machine.parts }
    requires pages { ArePages (areas_in p sys.old.machine) pages.now }
    ensures { sys.new ≡ paged p pages.now sys.old }
{
    for page in pages {
        restoring::put(sys, p, page.address, &page.bytes);
    }
}
