//! A tick in which a partition takes an interrupt, or its instruction traps.

ghost use Rattle.std.specs.Prelude.{◌≡◌, ◌^◌, ◌<◌, ◌≤◌, [], Some, length};
ghost use Rattle.health_monitor.specs.Monitor.{event_of_type};
ghost use Rattle.machine_model.specs.Health.{event_handled, interrupt_delivered};
ghost use Rattle.machine_model.specs.LocalTick.{clocked};
ghost use Rattle.machine_model.specs.View.{view_of};
ghost use Rattle.span_model.specs.Passes.{part_at};
ghost use Rattle.tick_steps.specs.Work.{IsTickWorked};

use crate::beyond::Beyond;
use crate::health::{deliver_interrupt, handle_event};
use crate::lines::Lines;
use health_monitor::event_of;
use system_state::{Note, Sys, engine};
use xm_base::PartId;

/// A partition takes an interrupt, which is the tick's work.
pub fn take_interrupt(sys: &mut Sys, lines: &mut Lines, p: PartId, n: u8)
    // Called for a partition that exists, for an interrupt below 32, with an execution clock below 2^63, with room for
    // the numbers of more health entries, and with no lines.
    requires partition { p < length sys.old.machine.parts }
    requires interrupt { n < 32 }
    requires clock { (part_at p sys.old.machine).clocks.execution < 2 ^ 63 }
    requires log { (part_at p sys.old.machine).health.next < 4294967294 }
    requires empty { lines.old ≡ [] }
    // The tick's work is defined: an interrupt that is taken.
    ensures worked { IsTickWorked p (interrupt_delivered (view_of sys.old.machine.system p) sys.old.machine.time n (clocked (part_at p sys.old.machine))) Note.Nothing Beyond.Nothing sys.old sys.new lines.new }
    // It has three lines at most.
    ensures few { length lines.new ≤ 3 }
{
    engine::count_tick(sys, p);
    deliver_interrupt(sys, lines, p, n);
}

/// An instruction of a partition, at this program counter, trapped.
pub fn meet_trap(sys: &mut Sys, lines: &mut Lines, p: PartId, tt: u8, pc: u32) -> Beyond
    // Called for a partition that exists, with an execution clock below 2^63, with room for the numbers of more health
    // entries, and with no lines.
    requires partition { p < length sys.old.machine.parts }
    requires clock { (part_at p sys.old.machine).clocks.execution < 2 ^ 63 }
    requires log { (part_at p sys.old.machine).health.next < 4294967294 }
    requires empty { lines.old ≡ [] }
    // The tick's work is defined: an instruction that trapped, with its program counter.
    ensures worked { IsTickWorked p (event_handled (view_of sys.old.machine.system p) sys.old.machine.time (event_of_type tt) pc (Some tt) (clocked (part_at p sys.old.machine))) Note.Nothing result sys.old sys.new lines.new }
    // It has three lines at most.
    ensures few { length lines.new ≤ 3 }
{
    engine::count_tick(sys, p);
    Beyond::Whole(handle_event(sys, lines, p, event_of(tt), pc, Some(tt)))
}
