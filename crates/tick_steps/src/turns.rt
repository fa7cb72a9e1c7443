//! How a tick of a partition's slot begins: whether the partition goes on, and which interrupt is delivered to it.

ghost use Rattle.std.specs.Prelude.{◌≡◌, ◌<◌, ◌||◌, IfSome, None, if◌then◌else◌, is_some, length, true};
ghost use Rattle.machine_model.specs.LocalTick.{goes_on};
ghost use Rattle.machine_model.specs.Partition.{takes_turns};
ghost use Rattle.span_model.specs.Passes.{part_at};
ghost use Rattle.virt_traps.specs.Virtual.{due};

use system_state::Sys;
use xm_base::{PartId, State};

/// Whether a partition takes its turn in its slots: it is not suspended, and has not halted.
pub fn takes_turns(sys: &Sys, p: PartId) -> bool
    // Called for a partition that exists.
    requires partition { p < length sys.now.machine.parts }
    // Whether the partition takes its turn, as it is defined.
    ensures { result ≡ takes_turns (part_at p sys.now.machine).state }
{
    match sys.part(p).state {
        State::Ready | State::Idle => true,
        State::Suspended | State::Halted => false,
    }
}

/// Whether the partition goes on: an idle one is woken by the start of its slot or an interrupt that is due.
pub fn goes_on(sys: &Sys, p: PartId, first: bool) -> bool
    // Called for a partition that exists and that takes its turn.
    requires partition { p < length sys.now.machine.parts }
    requires turns { takes_turns (part_at p sys.now.machine).state ≡ true }
    // Whether the partition goes on in its tick, as it is defined.
    ensures { result ≡ goes_on (part_at p sys.now.machine).state first (due (part_at p sys.now.machine).traps) }
{
    sys.part(p).state == State::Ready || is_woken(sys, p, first)
}

// Whether an idle partition is woken. It stands by itself, so that one test recognises a ready one.
#[inline(never)]
fn is_woken(sys: &Sys, p: PartId, first: bool) -> bool
    requires partition { p < length sys.now.machine.parts }
    ensures { result ≡ (first || is_some (due (part_at p sys.now.machine).traps)) }
{
    first || sys.part(p).virt.due().is_some()
}

/// The interrupt that is delivered to the partition, where one is due and traps are enabled.
pub fn interrupt(sys: &Sys, p: PartId) -> Option<u8>
    // Called for a partition that exists.
    requires partition { p < length sys.now.machine.parts }
    // The lowest interrupt that is due, where traps are enabled.
    ensures value { result ≡ (if (part_at p sys.now.machine).traps.enabled then due (part_at p sys.now.machine).traps else None) }
    // It is below 32.
    ensures below { IfSome result (λ n. n < 32) }
{
    let virt = &sys.part(p).virt;
    if virt.enabled { virt.due() } else { None }
}
