//! What one partition does in a tick of its slot in isolation.

ghost use Rattle.std.specs.Prelude.{◌≡◌, if◌then◌else◌, None, Some, [], true};
ghost use Rattle.health_monitor.specs.Monitor.{event_of_type};
ghost use Rattle.machine_model.specs.Health.{event_handled, quiet};
ghost use Rattle.machine_model.specs.LocalTick.{clocked, delivered_or_executed, executed_in_tick, worked};
ghost use Rattle.machine_model.specs.Machine.{copies};
ghost use Rattle.machine_model.specs.Observed.{asked_by, asks, unless_delivered};
ghost use Rattle.machine_model.specs.Partition.{takes_turns};
ghost use Rattle.machine_model.specs.View.{view_of};
ghost use Rattle.span_model.specs.Passes.{part_at};
ghost use Rattle.virt_traps.specs.Virtual.{due};
ghost use Rattle.tick_steps.specs.CueValues.{sight_value};
ghost use Rattle.replay_tick.specs.lemmas.LoneWorkTerms.{IsLoneWork};
ghost use Rattle.tick_steps.specs.lemmas.SpanTerms.{CanTake};
ghost use Rattle.replay_model.specs.Taking.{is_no_sight};

use crate::call::call_alone;
use hypercalls::{Note, Sys};
use sparc_step::Turn;
use system_state::{CallSite, engine};
use tick_steps::{
    Beyond, Lines, Sight, goes_on, interrupt, meet_trap, program_counter, take_interrupt,
};
use xm_base::PartId;

/// The work of one partition in a tick of its slot.
#[derive(Debug, Drop)]
pub(crate) struct LoneWork {
    /// What its call noted.
    pub(crate) note: Note,
    /// How it reached beyond the partition.
    pub(crate) reach: Beyond,
}

/// Work whose note is none, with how it reached beyond the partition.
pub(crate) fn silent(reach: Beyond) -> Option<LoneWork>
    ensures { result ≡ Some (record { note = Note.Nothing; reach = reach }) }
{
    Some(LoneWork {
        note: Note::Nothing,
        reach,
    })
}

/// Whether nothing is shown.
pub(crate) fn is_unseen(seen: Sight<'_>) -> bool
    ensures { result ≡ is_no_sight (sight_value seen.entry) }
{
    match seen {
        Sight::Nothing => true,
        Sight::NotKept | Sight::Words(_) => false,
    }
}

/// The work of a partition that takes its turn, in a tick of its slot, if it may be shown this.
pub(crate) fn work_alone(
    sys: &mut Sys,
    lines: &mut Lines,
    p: PartId,
    first: bool,
    seen: Sight<'_>,
) -> Option<LoneWork>
    requires take { CanTake p 1 sys.old }
    requires turns { takes_turns (part_at p sys.old.machine).state ≡ true }
    requires empty { lines.old ≡ [] }
    ensures { IsLoneWork result p (asks (view_of sys.old.machine.system p) (part_at p sys.old.machine) sys.old.machine.time first) (sight_value seen.entry) (worked (view_of sys.old.machine.system p) (copies sys.old.machine p) sys.old.machine.time first (sight_value seen.entry) (part_at p sys.old.machine)) sys.old sys.new lines.new }
{
    engine::meet(sys, p, first);
    if goes_on(sys, p, first) {
        engine::wake(sys, p);
        go_on_alone(sys, lines, p, seen)
    } else {
        stay(seen)
    }
}

// An idle partition that nothing wakes does nothing.
fn stay(seen: Sight<'_>) -> Option<LoneWork>
    ensures { result ≡ (if is_no_sight (sight_value seen.entry) then Some (record { note = Note.Nothing; reach = Beyond.Nothing }) else None) }
{
    if is_unseen(seen) {
        silent(Beyond::Nothing)
    } else {
        None
    }
}

// A partition that goes on takes an interrupt, or executes an instruction.
fn go_on_alone(sys: &mut Sys, lines: &mut Lines, p: PartId, seen: Sight<'_>) -> Option<LoneWork>
    requires take { CanTake p 1 sys.old }
    requires empty { lines.old ≡ [] }
    ensures { IsLoneWork result p (unless_delivered (due (part_at p sys.old.machine).traps) (part_at p sys.old.machine).traps.enabled (view_of sys.old.machine.system p) (part_at p sys.old.machine)) (sight_value seen.entry) (delivered_or_executed (due (part_at p sys.old.machine).traps) (part_at p sys.old.machine).traps.enabled (view_of sys.old.machine.system p) (copies sys.old.machine p) sys.old.machine.time (sight_value seen.entry) (part_at p sys.old.machine)) sys.old sys.new lines.new }
{
    match interrupt(sys, p) {
        Some(n) => {
            if is_unseen(seen) {
                take_interrupt(sys, lines, p, n);
                silent(Beyond::Nothing)
            } else {
                None
            }
        }
        None => execute_alone(sys, lines, p, seen),
    }
}

// A partition executes an instruction.
fn execute_alone(sys: &mut Sys, lines: &mut Lines, p: PartId, seen: Sight<'_>) -> Option<LoneWork>
    requires take { CanTake p 1 sys.old }
    requires empty { lines.old ≡ [] }
    ensures { IsLoneWork result p (asked_by (view_of sys.old.machine.system p) (part_at p sys.old.machine)) (sight_value seen.entry) (executed_in_tick (view_of sys.old.machine.system p) (copies sys.old.machine p) sys.old.machine.time (sight_value seen.entry) (part_at p sys.old.machine)) sys.old sys.new lines.new }
{
    let pc = program_counter(sys, p);
    match sys.step_core(p) {
        Turn::Went => go_alone(sys, p, seen),
        Turn::Trap(tt) => trap_alone(sys, lines, p, tt, pc, seen),
        Turn::Call => {
            let npc = program_counter(sys, p);
            call_alone(sys, lines, CallSite { part: p, pc, npc }, seen)
        }
    }
}

// An instruction went.
fn go_alone(sys: &mut Sys, p: PartId, seen: Sight<'_>) -> Option<LoneWork>
    requires take { CanTake p 1 sys.old }
    ensures { IsLoneWork result p None (sight_value seen.entry) (quiet (clocked (part_at p sys.old.machine))) sys.old sys.new [] }
{
    if is_unseen(seen) {
        engine::count_tick(sys, p);
        silent(Beyond::Nothing)
    } else {
        None
    }
}

/// An instruction at this program counter trapped.
pub(crate) fn trap_alone(
    sys: &mut Sys,
    lines: &mut Lines,
    p: PartId,
    tt: u8,
    pc: u32,
    seen: Sight<'_>,
) -> Option<LoneWork>
    requires take { CanTake p 1 sys.old }
    requires empty { lines.old ≡ [] }
    ensures { IsLoneWork result p None (sight_value seen.entry) (event_handled (view_of sys.old.machine.system p) sys.old.machine.time (event_of_type tt) pc (Some tt) (clocked (part_at p sys.old.machine))) sys.old sys.new lines.new }
{
    if is_unseen(seen) {
        let reach = meet_trap(sys, lines, p, tt, pc);
        silent(reach)
    } else {
        None
    }
}
