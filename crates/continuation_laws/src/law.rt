//! The laws of continuation.

ghost use Rattle.continuation_laws.specs.Continued.{ReportsAreContinued, RunsAreContinued};
ghost use Rattle.continuation_laws.specs.Given.{ReportIgnoresGiven, RestIgnoresGiven, RunsIgnoreGiven, TickIgnoresGiven};
ghost use Rattle.continuation_laws.specs.Joined.{FilesAreJoined, ReportsAreJoined};
ghost use Rattle.continuation_laws.specs.Kept.{LeftKeepFacts};
ghost use Rattle.continuation_laws.specs.Onward.{BootsAreBeginnings, RunsGoOn};

/// Whatever input words the partitions of a machine were given at the boot, it goes on alike: it reads only those that are left.
pub fn ignores_given()
    // Law: take any machine, and any input words as those that its partitions were given at the boot. A tick leaves the same
    // but for these words, prints the same lines, writes the same bytes to each console and UART, and each partition
    // receives the same in it.
    ensures tick { TickIgnoresGiven }
    // Law: the lines at the end of a run are the same, each partition's core file is, and so are the words that are left.
    ensures rest { RestIgnoresGiven }
    // Law: so it is with any number of ticks, with the same upsets before each of them.
    ensures runs { RunsIgnoreGiven }
    // Law: so it is with what they report, by lines of upsets before each of them.
    ensures reports { ReportIgnoresGiven }
{}

/// A run that is continued from the machine after some of its ticks, with any words as those that its partitions were given, is the run
/// in one piece.
pub fn continues_runs()
    // Law: take any machine, any lines of upsets before each tick and any input words. A run of all ticks is a run of the
    // first of them, and then one of the rest from the machine after them with these words as those that were given: after
    // the last tick the machines are the same but for these words. What the run reports, what each UART gets, what each
    // partition writes to its console and what it receives is that of the first ticks, and then that of the
    // continuation; the lines of the end are the same, so is each core file, and so is the machine from which either
    // would be continued again with the words that are left.
    ensures law { RunsAreContinued }
    // Law: so the report of a run of a system with the upsets of a file is its first line, what its first ticks report, and
    // what its continuation reports, which has the words that are left as those that were given, with the lines of
    // its end.
    ensures reports { ReportsAreContinued }
{}

/// A run with a file of upsets for its ticks, and its continuation with another one for the ticks after them, are the run with the lines of
/// both.
pub fn joins_files()
    // Law: take the lines of two files of upsets, of which the first strike before a tick is reached and the others from it
    // on. The ticks up to there of a run with both are those of a run with the first file alone: what they leave and report,
    // what each UART gets, what each partition writes to its console and what it receives. What is due in the
    // continuation are the lines of the second file.
    ensures law { FilesAreJoined }
    // Law: so the report of a run of a system with both is its first line, what its first ticks report with the first file,
    // and what its continuation reports with the second one, with the lines of its end.
    ensures reports { ReportsAreJoined }
{}

/// What holds of a machine at all times holds of it with the input words that are left as those that its partitions were given.
pub fn left_keep_facts()
    // Law: where the facts of partitions hold of a machine, they hold of it with the words that are left as those that were
    // given; so it is with its numbers of partitions and channels, with the bounds of its clocks, and with what its
    // channels hold.
    ensures law { LeftKeepFacts }
{}

/// A run of a system is a run from the machine with which it boots.
pub fn boots_are_beginnings()
    // Law: take any system, any lines of upsets and any number of ticks. A run from the machine with which the system boots
    // has the report of the system's run; the machine after it is the same, each partition receives the same, and each
    // UART gets the same bytes.
    ensures law { BootsAreBeginnings }
{}

/// A run goes on from the machine after its first ticks: with the upsets of a second file it is the rest of the run with those of both.
pub fn runs_go_on()
    // Law: take the lines of two files of upsets, of which the first strike before a tick is reached and the others from it
    // on. From the machine after the ticks up to there, with the words that are left as those that its partitions were
    // given, a run with the second file is the rest of the run of all ticks with both: the report, the bytes of each UART
    // and what each partition receives are those of the first ticks with the first file, and then those of the run
    // that goes on; each core file is the same, and so is the machine from which either would go on with the words that
    // are left. The lines of the second file name ticks since the boot; so it is, too, where the hypervisor
    // halted in the first ticks, and no tick or upset follows.
    ensures law { RunsGoOn }
{}
