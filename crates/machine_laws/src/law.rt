//! The laws of time, integrity and work.

ghost use Rattle.machine_laws.specs.Acts.{ActsAlone};
ghost use Rattle.machine_laws.specs.Few.{EmitsFew, PrintsFew, RunsPrintFew};
ghost use Rattle.machine_laws.specs.FromEqual.{TwoRunsFrom};
ghost use Rattle.machine_laws.specs.Planned.{GoesAsPlanned};
ghost use Rattle.machine_laws.specs.Served.{ServesNeeds};
ghost use Rattle.machine_laws.specs.Spared.{Spares, SparesAlone};

use machine_model::{all_ticks, earlier_ticks, keeps_numbers, one_tick};

/// From any machine on, while no tick asks for a plan, starts the maintenance plan or brings a hypervisor event, each tick's slot is
/// the one of the plan at that moment of its frame.
pub fn goes_as_planned()
    // Law: take any machine whose clock is inside the frame of its plan, and of which no plan is asked. Up to its first
    // tick that asks for a plan, starts the maintenance plan or brings a hypervisor event, that tick too, the machine
    // has not halted, its hardware clock counts each tick, the same plan runs, and each tick is in the slot of that
    // plan at that moment of its frame, whatever any partition executes.
    ensures law { GoesAsPlanned }
{
    keeps_numbers();
}

/// In each window of a requirement that the plan meets, the partition has at least its duration of ticks in its own slots.
pub fn serves_needs()
    // Law: take any machine of a configuration that meets the rules with whose next tick a frame begins, and of which no
    // plan is asked, and a requirement that its plan meets. Cut the ticks from there on into windows of the
    // requirement's period. In each window the partition has at least the requirement's duration of ticks in its own
    // slots, while no tick before the window's last one asks for a plan, starts the maintenance plan or brings a
    // hypervisor event.
    ensures law { ServesNeeds }
{
    goes_as_planned();
}

/// A tick in which a partition does no work, and in which it receives no reset, leaves its registers, memory, made ports, logs,
/// input words that are left and execution clock; of its interrupts none is lost, and only those come that come from outside.
pub fn spares_others()
    // Law: in a machine that has not halted, a tick in which a partition does no work, and in which it receives neither
    // an order to reset nor a reset of all, leaves the partition's registers, memory, made ports, traces, health log,
    // input words, reset counter and status, execution clock, mask of interrupts, and whether traps are enabled and
    // where their table stands. Each interrupt that waited still waits, and only interrupts 0, 2, 3, 4 and those from 8
    // on may have come. So it is of the partition alone, too.
    ensures law { Spares }
    ensures alone { SparesAlone }
{
    one_tick();
}

/// A partition's part of a tick, its act with it, is what it does alone under its cue.
pub fn acts_alone()
    // Law: what a partition does in a tick of the machine, its act with it, is what it does alone under its cue.
    ensures law { ActsAlone }
{}

/// Two runs from any two machines in which a partition is the same, has the same things of its own and receives the same: its state,
/// lines, console bytes and core file are equal after each tick.
pub fn two_runs_from()
    // Law: take any two machines, after whatever runs, in which a partition has the same state, the same in its channels,
    // as many ticks done, the same time and the same things of its own. Where it receives the same in a number of
    // ticks, its state, lines, console bytes and core file are equal after each of them, whatever the others are and do.
    ensures law { TwoRunsFrom }
{
    all_ticks();
    earlier_ticks();
    keeps_numbers();
}

/// A partition's part of a tick prints at most three lines and writes at most 1024 bytes to its console, whatever it executes.
pub fn emits_few()
    // Law: whatever a partition executes, its part of a tick prints at most three lines and writes at most 1024 bytes to
    // its console.
    ensures law { EmitsFew }
    // Law: a tick of the machine prints at most six lines more than it has partitions, and each tick of a run does.
    ensures tick { PrintsFew }
    ensures runs { RunsPrintFew }
{
    keeps_numbers();
}
