//! The laws of upsets: what strikes one partition reaches another by what that one receives alone.

ghost use Rattle.machine_laws.specs.FromEqual.{TwoRunsFrom};
ghost use Rattle.upset_laws.specs.FlipLaws.{FlipsItsPlace, FlipsKeepFacts, FlipsKeepRanges, FlipsKeepRegisters, FlipsKeepTimers, FlipsKeepTraps, FlipsNothingElse, FlipsStayIn, StrikesByOwnLines, TwoStruckRuns};
ghost use Rattle.upset_laws.specs.GroupLaws.{ClosedUpsetRunsAlike, UnsteeredUpsetRunsAlike};
ghost use Rattle.upset_laws.specs.ReplayLaws.{PlainReplays, ReceivesUpsetScripts, UpsetScriptIsTaken};
ghost use Rattle.upset_laws.specs.ReportLaws.{OwnReports, PlainConsoles, PlainReports, SameUpsetCoreFile, SameUpsetPart, TicksReportAlone, TwoReports};
ghost use Rattle.upset_laws.specs.UpsetLaws.{AllUpsetTicks, HaltedIsNotStruck, OneUpsetTick, RunsPlain, TwoUpsetRuns, UpsetsAreContained};

use machine_model::{boots_alone, keeps_facts, keeps_numbers, keeps_shapes, one_tick};
use range_model::keeps_ranges;
use recording_model::received_is_a_script;
use replay_model::received_can_be_taken;
use upset_files::places_are_spelled;
use xm_flows::go_together;

/// An upset leaves all but the partition that it strikes; and a run with upsets is, for each partition, a run of that partition
/// alone under its script and with its own upsets, a run without any being the case of none.
pub fn contains_upsets()
    // Whatever an upset makes of the partition that it strikes, every other partition's part of the machine is as it was,
    // and so is all else of the machine.
    ensures contained { UpsetsAreContained }
    // One tick with upsets is, for each partition, one tick of that partition alone, as its own upsets left it, under the
    // cue that it receives: its state, its lines and its console bytes.
    ensures tick { OneUpsetTick }
    // A machine that has halted is not struck.
    ensures halted { HaltedIsNotStruck }
    // A run of any number of ticks, from any machine and with any upsets before each of them, is, for each partition, a run
    // of that partition alone under its script and with its own upsets: its state, its lines and its console bytes.
    ensures ticks { AllUpsetTicks }
    // A run without upsets is the machine's run: state, lines, console bytes and what each partition receives.
    ensures plain { RunsPlain }
{
    keeps_numbers();
    one_tick();
}

/// Two runs, from any two machines and with any upsets, in which a partition is the same at first, has the same view, the same
/// upsets of its own and the same script: its state, lines, console bytes and core file are equal after every tick, whatever
/// strikes the others.
pub fn two_upset_runs()
    // Take two runs with any upsets, from any two machines, in which a partition is the same at first, has the same
    // things of its own, is struck by the same upsets and receives the same. Its state, its lines, its console bytes and
    // its core file are equal in both after every tick, whatever strikes the others.
    ensures law { TwoUpsetRuns }
    // So it is where nothing is struck.
    ensures plain { TwoRunsFrom }
{
    contains_upsets();
    keeps_numbers();
}

/// Upsets by lines, each a bit of a place: a partition is struck by the lines for it alone, so runs with equal lines for
/// it are equal for it; and a flip changes its bit and nothing else, and keeps what holds of a partition at all times.
pub fn flips_bits()
    // What strikes a partition is by the lines for it alone.
    ensures own { StrikesByOwnLines }
    // So two runs with equal lines for a partition, in which it is the same at first, has the same things of its own and
    // receives the same, are equal for it after every tick.
    ensures runs { TwoStruckRuns }
    // A flip changes the bit of its place.
    ensures bit { FlipsItsPlace }
    // Nothing else of the partition changes: no other register, flag, timer, counter, log or byte.
    ensures only { FlipsNothingElse }
    // A flip keeps the facts of its partition,
    ensures facts { FlipsKeepFacts }
    // of its registers,
    ensures registers { FlipsKeepRegisters }
    // of its virtual traps,
    ensures traps { FlipsKeepTraps }
    // and of its timers.
    ensures timers { FlipsKeepTimers }
    // Its numbers stay in their ranges.
    ensures ranges { FlipsKeepRanges }
    // What stands at the place stays a number of the place's bits.
    ensures width { FlipsStayIn }
{
    two_upset_runs();
}

/// Two runs with upsets, of systems that are the same for a closed set of partitions, are the same for it where the members are struck
/// alike and each tick steers the set alike, whatever strikes the others; where no partition may steer others, no tick steers.
pub fn closed_upset_runs()
    // Law: two systems that meet the rules are the same for a set of partitions, which is closed in both, and the same
    // upsets strike its members. Where each of these ticks steers the set alike in both runs, they agree on it after these
    // ticks, and each member has printed the same lines and written the same console bytes, whatever strikes the others.
    ensures law { ClosedUpsetRunsAlike }
    // Law: where there is no system partition, and no health table has an action on the hypervisor or on the plan, so it
    // is with no premise but on configurations, images, input words and the members' own upsets.
    ensures unsteered { UnsteeredUpsetRunsAlike }
{
    contains_upsets();
    go_together();
    keeps_numbers();
    two_upset_runs();
}

/// The report of a run with upsets has, for each partition, the lines of that partition alone, with a line for each upset of its
/// own; and with no upsets it is the report of the run without any.
pub fn reports_upsets()
    // Of what a run of any number of ticks reports, from any machine and with any lines of upsets before each of them, each
    // partition's own lines are those of that partition alone under its script, with a line for each upset of its own before
    // the lines of its tick.
    ensures own { TicksReportAlone }
    // So it is with the report of a run of a system with the upsets of a file: each partition's own lines are those of that
    // partition alone, from its boot on, with its own upsets, and the line of its end.
    ensures run { OwnReports }
    // Each partition's part of the machine after the run is that of the partition alone with its own upsets,
    ensures part { SameUpsetPart }
    // and so is its core file.
    ensures core { SameUpsetCoreFile }
    // A run with a file of no upsets has the report of the run without any; the machine after it and what each partition
    // receives are the same.
    ensures plain { PlainReports }
    // Where there are no upsets, each UART gets what it gets in the machine's run.
    ensures console { PlainConsoles }
    // Take two runs with any lines of upsets, from any two machines, in which a partition is the same at first, has the same
    // things of its own, the same lines of its own and receives the same. After every tick it has printed the same lines in
    // both, those of its upsets among them, whatever strikes the others.
    ensures alike { TwoReports }
{
    boots_alone();
    contains_upsets();
    keeps_numbers();
}

/// What a partition receives in a run with upsets is a script of the partition, and it can take that script in isolation, with its own
/// upsets; with no upsets a replay is that of the script alone.
pub fn replays_with_upsets()
    // What a partition receives in at most 4000000000 ticks of a run with the upsets of a file, each of which fits the run, is a
    // script of the partition: under a configuration that meets the rules, and where images begin at words and load bytes.
    ensures script { ReceivesUpsetScripts }
    // The partition can take each cue of it, from its boot on, in the state that the cues before it and its own upsets leave,
    // those before that tick among them; whatever struck the others.
    ensures taken { UpsetScriptIsTaken }
    // Where there are no upsets, a replay leaves and prints what the script alone does, and the first cue that cannot be
    // taken is the same.
    ensures plain { PlainReplays }
{
    boots_alone();
    contains_upsets();
    keeps_facts();
    keeps_numbers();
    keeps_ranges();
    keeps_shapes();
    places_are_spelled();
    received_can_be_taken();
    received_is_a_script();
}
