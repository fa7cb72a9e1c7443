//! The laws of a partition's work.

ghost use Rattle.work_laws.specs.Changes.{RunsChangeFew, TickChangesFew};
ghost use Rattle.work_laws.specs.Labels.{RestIgnoresLabels, RunsIgnoreLabels, TickIgnoresLabels};
ghost use Rattle.work_laws.specs.Order.{OrderShowsNothing, ReportShowsNothing};

use machine_model::{
    all_ticks, earlier_ticks, keeps_facts, keeps_numbers, keeps_shapes, never_upon_itself,
    one_tick, trades_few_bytes,
};

/// A partition's name, console and requirement do not influence its work.
pub fn ignores_labels()
    // Law: a tick of a partition alone leaves the same state, prints the same lines and writes the same bytes to its
    // console, whatever its name, its console and its requirement are.
    ensures tick { TickIgnoresLabels }
    // Law: so is how it boots, and its core file.
    ensures rest { RestIgnoresLabels }
    // Law: take any two machines in which a partition is the same, and has the same things of its own but for its
    // name, its console and its requirement. Where it receives the same in a number of ticks, its state, lines, console
    // bytes and core file are equal after each of them, whatever the others are and do.
    ensures runs { RunsIgnoreLabels }
{
    all_ticks();
    earlier_ticks();
    keeps_numbers();
}

/// A tick changes at most 4172 bytes of a partition's memory, or loads its image again.
pub fn changes_few()
    // Law: in a tick the memory of a partition alone changes at no more than 4172 addresses, or is its image loaded
    // again, whatever it executes and receives. The messages that its channels hold have at most 4096 bytes, what it
    // is shown has at most 24, and its trace entries have eight.
    ensures tick { TickChangesFew }
    // Law: so it is of each partition in each tick of a run of a system that meets the rules.
    ensures runs { RunsChangeFew }
{
    keeps_facts();
    keeps_numbers();
    keeps_shapes();
    one_tick();
    trades_few_bytes();
}

/// The order of the lines of a report shows nothing but whose slot each tick is in.
pub fn order_shows_nothing()
    // Law: let the next tick of two machines be in the slot of the same partition, or in no slot, let there be as many
    // partitions, let both have halted or neither, and let each partition, the hypervisor and a new plan print the same
    // lines in it. Then all lines of the tick are the same, in the same order.
    ensures tick { OrderShowsNothing }
    // Law: where each of a number of ticks of two runs is so, the lines of these ticks are the same.
    ensures runs { ReportShowsNothing }
{
    never_upon_itself();
    one_tick();
}
