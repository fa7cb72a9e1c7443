//! The laws of the machine: a partition depends on nothing but its own things and its cues.

ghost use Rattle.machine_model.specs.Allowed.{AnswersCalls, HearsWhatIsAllowed};
ghost use Rattle.machine_model.specs.Facts.{BootsClocked, BootsComplete, BootsTimed, BootsWithFacts, BootsWithShapes, KeepsClocked, KeepsFacts, KeepsFactsAlone, KeepsNumbers, KeepsShapes, KeepsTimed, PortsHaveKinds, RunsClocked, RunsComplete, RunsKeepNumbers, RunsTimed, RunsWithFacts, RunsWithShapes, ShowsItsSizeInRuns};
ghost use Rattle.machine_model.specs.Lengths.{PutsFewBytes, ShowsFewBytes};
ghost use Rattle.machine_model.specs.Laws.{
  ActsWithinBounds,
  AllTicks,
  BootsAlone,
  EarlierScripts,
  HasOwnNumber,
  HasOwnTag,
  LastCue,
  NeverUponItself,
  NoScript,
  ObservesAsTested,
  OneTick,
  OwnLines,
  SameCoreFile,
  SeesNothing,
  IsNumberOfCall,
  ShowsItsSize,
  TwoRuns,
  TwoRunsEarlier,
};
ghost use Rattle.machine_model.specs.OwnActs.{ActsWithinOwn, EffectsActWithinOwn};

/// One tick of a machine that has not halted is, for each partition, one tick of that partition
/// alone under its cue: its state, its lines and its console bytes.
pub fn one_tick()
    ensures law { OneTick }
{}

/// A run of the machine is, for each partition, a run of that partition alone under its script.
pub fn all_ticks()
    ensures law { AllTicks }
{}

/// Each partition boots as it boots alone.
pub fn boots_alone()
    ensures law { BootsAlone }
{}

/// Two runs of two systems in which a partition has the same view and meets the same script: its
/// state, its lines and its console bytes are equal after every tick, whatever the others do.
pub fn two_runs()
    ensures law { TwoRuns }
{}

/// A script ends with the tick in which the hypervisor halts, and is empty from then on.
pub fn scripts_end()
    // A script ends with the tick in which the hypervisor halts, and is empty from then on.
    ensures last { LastCue }
    ensures none { NoScript }
{}

/// A partition's own lines of a report are those of the partition alone and the line of its end.
pub fn own_lines()
    ensures law { OwnLines }
{}

/// A partition without the system flag is shown nothing of the rest of the system.
pub fn sees_nothing()
    ensures law { SeesNothing }
{}

/// An order on another partition never names the partition that gives it.
pub fn never_upon_itself()
    ensures law { NeverUponItself }
{}

/// Each line that a partition's part of a tick gives has that partition's tag.
pub fn has_own_tag()
    ensures law { HasOwnTag }
{}

/// An observing call asks for what it tests: its place and its size are those of its tests, what it
/// is shown is written there, and has that size.
pub fn observes_as_tested()
    // An observing call asks for the place and the size that the call itself tests; what it is shown is written there,
    // and has that size where each trace entry has eight bytes, as after every run.
    ensures tested { ObservesAsTested }
    ensures sized { ShowsItsSize }
    ensures runs { ShowsItsSizeInRuns }
{}

/// What a partition's part of a tick does beyond the partition is the outcome of its work: no act is
/// left out for being on a channel or a partition that it may not reach. And that is within what the
/// partition has: its ports, the links from it, the system flag and its health table.
pub fn acts_within_bounds()
    // No act of a partition's work is left out: only its own channels and other partitions are acted on. Whatever it
    // executes, a message that it puts goes by a source port of its own, fits the channel and has room there, one that
    // it takes waits in a queue at a destination port of its own, a signal goes over a link from it, and it orders
    // others, asks for a plan or reaches all only with the flag `system` or, but for orders and plans that are asked
    // for, by its health table.
    ensures law { ActsWithinBounds }
    ensures own { ActsWithinOwn }
{}

/// Each call has its own number, and a number has at most one call.
pub fn calls_have_numbers()
    // Each of the 38 calls has its own number, of which it is the call.
    ensures own { HasOwnNumber }
    // A number has no other call than the one whose number it is.
    ensures only { IsNumberOfCall }
{}

/// The outcome of each effect is within what its partition has, whatever tests its call makes before.
pub fn effects_act_within_own()
    // The outcome of each effect of a call is within what its partition has, whatever the call tests before, but that an
    // order may be on the partition itself: so would the effect of a further call.
    ensures law { EffectsActWithinOwn }
{}

/// The core file of a partition after a run is that of the partition alone under its script.
pub fn same_core_file()
    ensures law { SameCoreFile }
{}

/// Scripts that are equal for this many ticks are equal for fewer, and two runs in which a partition
/// meets the same script are the same for it after each of their ticks.
pub fn earlier_ticks()
    // Scripts that are equal for a number of ticks are equal for fewer, and so are two runs in which a partition meets the
    // same script.
    ensures scripts { EarlierScripts }
    ensures runs { TwoRunsEarlier }
{}

/// A partition has at most one trace entry and one health entry for each tick that is counted, and
/// one health entry more where it or the hypervisor has halted; its execution clock is at most the
/// ticks that have begun, the one in which the hypervisor halts with them; its trace entries have
/// eight bytes, its input words are among those that it was given, and its made ports are ends of
/// channels: when it boots, after each tick, and so after every run.
pub fn keeps_facts()
    // At boot, after each tick, and so after every run: a partition has made at most one trace entry and one health
    // entry for each tick that is counted, and one more health entry where it or the hypervisor has halted; its
    // execution clock is at most the ticks that have begun, of which the one in which the hypervisor halts is not
    // counted; trace entries have eight bytes, the input words left are the last of those given, and a made port is
    // there and is an end of a channel.
    ensures boots { BootsWithFacts }
    ensures ticks { KeepsFacts }
    ensures runs { RunsWithFacts }
{}

/// A partition alone keeps them in each tick, too, where a hypervisor event in a slot of its own is that of its own act.
pub fn keeps_facts_alone()
    // A tick of a partition alone keeps what `keeps_facts` says, where in a slot of its own it has no order of others
    // and a hypervisor event is that of its own act.
    ensures law { KeepsFactsAlone }
{}

/// The hardware clock is not past the ticks that are done: when the machine boots, after each tick,
/// and so after every run.
pub fn keeps_hardware_clock()
    // At boot, after each tick, and so after every run: the hardware clock is at most the ticks that are done.
    ensures boots { BootsTimed }
    ensures ticks { KeepsTimed }
    ensures runs { RunsTimed }
{}

/// What runs, and the numbers of partitions and of channels, are the same after each tick and so after
/// every run; from its boot on a machine has each partition and each channel of its configuration.
pub fn keeps_numbers()
    // No tick, and so no run, changes what runs or how many partitions and channels there are; a machine has each of
    // its configuration at boot, and so after every run.
    ensures ticks { KeepsNumbers }
    ensures runs { RunsKeepNumbers }
    ensures boots { BootsComplete }
    ensures complete { RunsComplete }
{}

/// Under a configuration that meets the rules the plan clock is inside its frame, and its plan and
/// the one that is asked for are there: when the machine boots, after each tick, and so after every
/// run.
pub fn keeps_plans()
    // At boot, after each tick, and so after every run, under a configuration that meets the rules: the plan clock is
    // inside its frame, and its plan and the one that is asked for are there.
    ensures boots { BootsClocked }
    ensures ticks { KeepsClocked }
    ensures runs { RunsClocked }
{}

/// Under a configuration that meets the rules each channel holds what its shape allows: when the
/// machine boots, after each tick, and so after every run; and a port is of the kind of its channel.
pub fn keeps_shapes()
    // At boot, and under a configuration that meets the rules after each tick, and so after every run: each channel
    // holds a content of its kind, messages of 1 to its length of bytes, and in a queue no more than its most; and a
    // port, made or not, is of the kind of its channel.
    ensures boots { BootsWithShapes }
    ensures ticks { KeepsShapes }
    ensures runs { RunsWithShapes }
    ensures kinds { PortsHaveKinds }
{}

/// Under a configuration that meets the rules a message that a tick puts is no longer than the longest that they allow; and what a
/// partition is shown in a tick is no longer than an entry of a trace log.
pub fn trades_few_bytes()
    // Under a configuration that meets the rules a message that a tick puts has at most 4096 bytes; what a partition is
    // shown in a tick has at most 24.
    ensures messages { PutsFewBytes }
    ensures sights { ShowsFewBytes }
{}

/// Under a configuration that meets the rules a channel that gets a message in a tick takes one more, and in one that gives a message
/// one waits, as each partition hears of it; and each observing call is answered, by as many bytes as it writes or, where it asks for
/// an entry of a log, by that the entry is not kept.
pub fn received_as_allowed()
    // Under a configuration that meets the rules a channel that gets a message in a tick takes one more, and in one
    // that gives a message one waits, as each partition hears of it; an observing call is answered by as many bytes as
    // it writes, or, where it asks for an entry of a log, by that the entry is not kept.
    ensures traffic { HearsWhatIsAllowed }
    ensures answers { AnswersCalls }
{}
