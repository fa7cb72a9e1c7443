//! Rows worked by hand: small systems, and the outcome of runs of them.

ghost use Rattle.machine_model.specs.rows.CallRows.{CountsWarm, HaltsAnother, IsRefusedAnother, KeepsLogsCold, OrdersNone, ResetsAnother, ResumesAnother, ResumesNothing, SeesAnother, ShutsDownAnother, SuspendsAnother};
ghost use Rattle.machine_model.specs.rows.HealthRows.{HaltsAll, HaltsAtIllegal, HaltsInLastTick, IgnoresIllegal, PropagatesToHalt, ResetsAllByCall, ResetsAllWarm, RestsInHaltingTick, SwitchesInMidFrame};
ghost use Rattle.machine_model.specs.rows.OwnRows.{HaltsSystem, Idles, ReachesNotAll, ReadsInput, ReadsOwnLog, RefusesDeadline, ResetsSystemCold, ReturnsFromTrap, SeesSystem, SetsTimer, ShowsClocks, TracesInMask, TracesNotElse, UnknownCall};
ghost use Rattle.machine_model.specs.rows.PortRows.{EmptyQueueRefuses, FullQueueRefuses, NoRoomKeepsMessage, OldestIsReceived, QueueTakesMessage, SampleInterrupts, UnmadePortIsSilent};
ghost use Rattle.machine_model.specs.rows.SlotRows.{AskedInLastTick, ExecutionTimerRows, IsDueInAnothersSlot, LastAskedStarts, RestRows, RunInTheirSlots, WaitsOn, WakesByInterrupt, WakesInItsSlot};
ghost use Rattle.machine_model.specs.rows.StartRows.{BeginsAtEntry, BeginsWithInputs, HaltsAfterHi, ReportsHi, ReportsTwo, StaysHalted};
ghost use Rattle.machine_model.specs.rows.TrapRows.{HaltsAtSpill, HaltsAtStrayLoad, TakesTrap, TimerIsDelivered, TimerWaitsForSlot, WaitsWhileDisabled};
ghost use Rattle.machine_model.specs.rows.WordRows.{WordsCanBeHeld};

/// A system of one partition that writes `hi` to its console and halts, from its start on.
pub fn says_hi()
    // No tick does nothing: the partition is ready at its entry.
    ensures begins { BeginsAtEntry }
    // The console has `hi` in the fifth tick, and the partition halts in the eighth, after its last word.
    ensures halts { HaltsAfterHi }
    // The ticks that follow print nothing, and leave the partition as it is.
    ensures stays { StaysHalted }
    // The whole report.
    ensures report { ReportsHi }
{}

/// Two partitions, each with its input word, as their system starts.
pub fn starts()
    // Each partition begins with the input words that are its own.
    ensures inputs { BeginsWithInputs }
    // The report of no tick: its first line has the two partitions and the one plan.
    ensures report { ReportsTwo }
{}

/// Two partitions that loop, each in its own slot.
pub fn runs_in_slots()
    ensures turns { RunInTheirSlots }
{}

/// An idle partition in its own slot: it sleeps on where nothing wakes it, and the first tick of the slot does, or an
/// interrupt that is due.
pub fn waits_for_slot()
    // A partition that waits, and that nothing wakes in its own slot: nothing of it changes, and its execution clock
    // stays.
    ensures waits { WaitsOn }
    // A partition that waits is woken by the first tick of its slot, and executes an instruction in it.
    ensures wakes { WakesInItsSlot }
    // A partition that waits is woken in the middle of its slot by an interrupt that is due, executes an instruction,
    // and the interrupt still waits; where the interrupt is masked the partition waits on.
    ensures interrupted { WakesByInterrupt }
{}

/// A hardware timer that is due in a tick of another partition's slot, in each of its own partition's states, and an
/// execution timer that is due.
pub fn timer_goes_on()
    // The hardware timer of a partition is due in a tick of another one's slot: its interrupt is pending, and the timer
    // is disarmed or, with an interval, moved on. The other one is suspended, and its execution clock stays.
    ensures due { IsDueInAnothersSlot }
    // So it is in each state but one; the timer of a suspended partition is looked at in its own slot, too, and that of
    // one that has halted never.
    ensures rests { RestRows }
    // It is due at its deadline, where interrupt 1 becomes pending and the timer is moved on by its interval, or
    // disarmed without one; and not a tick earlier.
    ensures execution { ExecutionTimerRows }
{}

/// Plans that are asked for: the last one starts when the frame ends.
pub fn asks_for_plans()
    // The plan that was asked for last starts when the frame ends: plan 1 is asked for in tick 10 and plan 2 in tick
    // 20, neither of which prints a line, and with tick 1999 plan 2 is the next.
    ensures last { LastAskedStarts }
    // A plan that is asked for in the last tick of a frame starts with the next tick.
    ensures at_once { AskedInLastTick }
{}

/// An illegal instruction, answered by the partition's own table.
pub fn meets_illegal()
    // HALT: the partition halts at the instruction, and has the event in its health log.
    ensures halts { HaltsAtIllegal }
    // IGNORE: the partition goes on after the instruction.
    ensures ignored { IgnoresIllegal }
    // PROPAGATE, where traps are disabled: the partition halts, and the line and the entry have HALT.
    ensures propagated { PropagatesToHalt }
{}

/// An event that resets or halts the whole system.
pub fn reaches_all()
    // HYPERVISOR_WARM_RESET: each partition is reset, not only the one that met the event, the queue is empty, the
    // hardware clock begins again, and the tick is counted.
    ensures reset { ResetsAllWarm }
    // A raised event has its code as word; all is reset with it, and the partition begins again in the fourth tick, its
    // memory kept.
    ensures raised { ResetsAllByCall }
    // HYPERVISOR_HALT: the tick is not counted, no further tick does anything, and the queue keeps its message.
    ensures halted { HaltsAll }
    // No frame ends where the hypervisor halts: the plan stays, and what is asked for.
    ensures last { HaltsInLastTick }
    // A partition rests in the tick in which the hypervisor halts, too: its timer is looked at.
    ensures rests { RestsInHaltingTick }
{}

/// An illegal instruction that starts the maintenance plan.
pub fn switches_to_maintenance()
    ensures switched { SwitchesInMidFrame }
{}

/// A trap and timer interrupts that are delivered to their partition, and one that waits where traps are disabled.
pub fn takes_traps()
    // An illegal instruction that goes on to the partition as trap 2: its program is at entry 2 of the table, in the
    // window below, whose first locals have the virtual PSR and the two program counters, and takes no traps.
    ensures trap { TakesTrap }
    // A timer that is due in the partition's own slot is delivered in that tick, instead of an instruction.
    ensures delivered { TimerIsDelivered }
    // One that is due in another one's slot is delivered with the first tick of the partition's next slot, the start of
    // which is pending then, too.
    ensures later { TimerWaitsForSlot }
    // Where traps are disabled an interrupt that is due is not delivered: the instruction is executed, and the
    // interrupt still waits.
    ensures disabled { WaitsWhileDisabled }
{}

/// A spill without a stack, and a load from another partition: each halts the partition that made it.
pub fn halts_at_faults()
    // The stack pointer is 0, so the seventh, which would spill, has nowhere to, and the partition halts at it.
    ensures spill { HaltsAtSpill }
    // A load from the memory of the other partition is refused and halts the one that made it, and the other one is as
    // it was.
    ensures load { HaltsAtStrayLoad }
{}

/// A system partition gives orders to another one, and a partition without the flag may not.
pub fn orders_another()
    // A system partition suspends another one: the order is reported under the other one's number, and the caller is
    // answered 0.
    ensures suspended { SuspendsAnother }
    // HALT on another one: it is halted, its timer is disarmed, and its clock stays.
    ensures halted { HaltsAnother }
    // RESUME on another one that is suspended.
    ensures resumed { ResumesAnother }
    // RESUME on one that is not suspended is answered 0, too, reports nothing and changes nothing.
    ensures unchanged { ResumesNothing }
    // SHUTDOWN on another one reports nothing, and its interrupt 2 waits.
    ensures shut_down { ShutsDownAnother }
    // A warm RESET on another one, with status 9, begins its clocks again and disarms its timer.
    ensures reset { ResetsAnother }
    // A partition without the system flag may order no other: it is answered -4, and the other one is as it was.
    ensures refused { OrdersNone }
{}

/// The status of another partition: a system partition is shown it, and one without the flag is refused.
pub fn observes_another()
    // A system partition is shown the status of another one, in its memory.
    ensures shown { SeesAnother }
    // One without the system flag is answered -4, and nothing is written.
    ensures refused { IsRefusedAnother }
{}

/// A partition resets itself: what it keeps, and which resets are counted.
pub fn resets_itself()
    // A cold reset of a partition by itself keeps its traces, its health log and its input words; the memory is loaded
    // again, and no reset is counted.
    ensures cold { KeepsLogsCold }
    // A warm one keeps the memory, too, and is counted.
    ensures warm { CountsWarm }
{}

/// Messages for a queue: a full one refuses them, and one with room takes them.
pub fn sends_messages()
    // A send to a queue that is full answers -7, and leaves all else as it was.
    ensures full { FullQueueRefuses }
    // A queue with room takes the message after the others, and interrupt 4 of the partition at its other end waits.
    ensures taken { QueueTakesMessage }
{}

/// Messages from a queue, the oldest first.
pub fn receives_messages()
    // A receive answers the length of the oldest message, which is written and is in the queue no more.
    ensures oldest { OldestIsReceived }
    // One that has no room for it answers -3, and the message stays.
    ensures no_room { NoRoomKeepsMessage }
    // One from an empty queue answers -7.
    ensures empty { EmptyQueueRefuses }
{}

/// A message for a sampling channel: a made port at its other end hears of it, another one does not.
pub fn writes_samples()
    // A message for a sampling channel is there with its time, and interrupt 3 of the partition at its other end waits.
    ensures heard { SampleInterrupts }
    // Where its port is not made, the message is there, and nothing of the other partition changes.
    ensures unmade { UnmadePortIsSilent }
{}

/// A trace is emitted and entered where it has a bit in the mask.
pub fn traces_in_mask()
    // A trace with a bit in the mask is emitted, and entered with its time, its number and eight bytes.
    ensures emitted { TracesInMask }
    // One with none answers -1, and is neither emitted nor entered.
    ensures refused { TracesNotElse }
{}

/// A partition sets a timer and reads its two clocks.
pub fn keeps_time()
    // A timer on the hardware clock is set with its deadline and its interval.
    ensures timer { SetsTimer }
    // A deadline below zero is refused with -3.
    ensures below_zero { RefusesDeadline }
    // The hardware clock is 1 in tick 1, and the execution clock has the ticks before this one; the value is written in
    // eight bytes.
    ensures clocks { ShowsClocks }
{}

/// Input words, sleep, its own health log, the way back from a trap, and a number that is no call.
pub fn serves_itself()
    // The first input word is written, and the others are left; where none is left the answer is -7.
    ensures input { ReadsInput }
    // A partition that waits is idle from the next tick on.
    ensures idle { Idles }
    // A partition reads an entry of its own health log: the time, the number, the numbers of the event and of the
    // action, and the word.
    ensures log { ReadsOwnLog }
    // It is where it was, in the window above, and takes traps again.
    ensures back { ReturnsFromTrap }
    // A number that is no call's answers -2.
    ensures unknown { UnknownCall }
{}

/// A system partition halts, resets and sees the whole system, and a partition without the flag may not.
pub fn rules_system()
    // A system partition halts the system: the tick is not counted.
    ensures halted { HaltsSystem }
    // A cold reset of the system counts for nobody.
    ensures reset { ResetsSystemCold }
    // A system partition is shown how often the hypervisor was reset, and how many partitions there are.
    ensures shown { SeesSystem }
    // A partition without the system flag may do neither: it is answered -4.
    ensures refused { ReachesNotAll }
{}

/// The words that the rows ask for can be held: there are memories to which each row applies.
pub fn holds_words()
    ensures held { WordsCanBeHeld }
{}
