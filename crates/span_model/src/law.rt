//! What ticks of one slot or gap leave of the whole machine.

ghost use Rattle.span_model.specs.Calm.{GoneCalm, IdleCalm, RestingCalm};
ghost use Rattle.span_model.specs.GoingOn.{GapGoesOn, LeftAreSpan, SilentConsoles, SlotGoesOn, SpanGoesOn};
ghost use Rattle.span_model.specs.Late.{OthersGoAlike, RestedGoAlike};
ghost use Rattle.span_model.specs.NextLaws.{MetTick, NextTick, EmittingTick};
ghost use Rattle.span_model.specs.PassLaws.{AllRest, OthersRest, OthersRestLater, PassedNext, TickInPasses};
ghost use Rattle.span_model.specs.Rest.{DueTwice, LooksTwice, MeetsAfterRest, RestsBefore, RestsOnce, RestsTwice};
ghost use Rattle.span_model.specs.SpanLaws.{GoingTicks, IdleTicks, RestingTicks};
ghost use Rattle.span_model.specs.Undisturbed.{UndisturbedIdle, UndisturbedNext, UndisturbedTicks, UndisturbedEmitting};

/// A timer need not be looked at in each tick: a later look alone leaves the same timer, and answers whether it was due.
pub fn late_looks()
    // Looking at a timer and later again is looking at it later; it is due later where it was due at the earlier look
    // or is due after it.
    ensures timer { LooksTwice }
    ensures due { DueTwice }
{}

/// A partition need not rest in each tick: resting in the last of many is the same, and what reaches it from others, an order to halt
/// apart, may come before it rests.
pub fn late_rest()
    // Resting and later again is resting later, and resting in many ticks is resting in the last of them; what a tick
    // leaves of a partition without a local tick, and the interrupts that it meets in its slot, are the same whether it
    // rested before or not, unless it is ordered to halt.
    ensures twice { RestsTwice }
    ensures once { RestsOnce }
    ensures before { RestsBefore }
    ensures met { MeetsAfterRest }
{}

/// In a gap, and in the slot of a partition that is suspended or has halted, all partitions rest.
pub fn resting_ticks()
    // In a gap, and in a slot of a partition that is suspended or has halted, all partitions rest in the last of the
    // ticks; they report at most that a plan starts, and nothing goes to a console.
    ensures law { RestingTicks }
{}

/// In its slot a partition that goes on executes instructions, and while they only go there is no output. Its timers may fall due
/// meanwhile, where that cannot be delivered.
pub fn going_ticks()
    // In the slot of a partition that is ready, or idle and woken, ticks whose instructions only go, while no interrupt
    // can be delivered: they report at most that a plan starts; the partition has met the interrupts of all of them,
    // and all others rest in the last of them.
    ensures law { GoingTicks }
{}

/// The tick after those in which a partition only went is one of the machine as they leave it: the delivery of an interrupt, a call, a
/// trap, or one instruction more. What an observing call is shown is taken there, too.
pub fn next_tick()
    // The tick of a partition that goes on, at once or after ticks in which it only went, is one of the machine as they
    // leave it, and its work is the delivery of an interrupt or an instruction; where that does not reach beyond the
    // partition, the whole machine, the lines and the console bytes are known.
    ensures met { MetTick }
    ensures law { NextTick }
    ensures emitted { EmittingTick }
{}

/// In its slot an idle partition that nothing wakes looks at its timers, and does nothing else.
pub fn idle_ticks()
    // In the slot of an idle partition that nothing wakes, after the slot's first tick, the partition looks at its
    // timers, its execution clock stands, and all others rest.
    ensures law { IdleTicks }
{}

/// As long as no timer of the slot's partition falls due, the interrupts of the first tick are all that it meets.
pub fn undisturbed_ticks()
    // As `going_ticks`, `next_tick` and `idle_ticks`, where no timer of the slot's partition falls due up to the last
    // tick: then the interrupts of the first tick are all that it meets.
    ensures law { UndisturbedTicks }
    ensures next { UndisturbedNext }
    ensures emitted { UndisturbedEmitting }
    ensures idle { UndisturbedIdle }
{}

/// The ticks that are left of a slot or gap are of it, too, after a part of them was done.
pub fn slot_goes_on()
    // Each of these ticks of one slot or gap ends a span; after a part of a span the rest is one, too, in the same
    // gap, or in the slot of the same partition, which does not begin.
    ensures left { LeftAreSpan }
    ensures span { SpanGoesOn }
    ensures slot { SlotGoesOn }
    ensures gap { GapGoesOn }
{}

/// Ticks in which no partition writes to its console give no byte to any UART.
pub fn silent_consoles()
    // Where no partition writes to its console, no UART gets a byte.
    ensures law { SilentConsoles }
{}

/// A machine whose partitions rest late does the same in its next tick, and is the same after it, unless a partition is ordered to halt
/// that has not rested.
pub fn late_machine()
    // Whether all partitions, or all but one, have rested before or not, the same happens in the machine's next tick
    // and it emits the same; it leaves the same machine, unless a partition is ordered to halt that has not rested.
    ensures all { RestedGoAlike }
    ensures others { OthersGoAlike }
{}

/// A tick of a machine is its passes, one after the other: the work of the partition whose slot it is, its traffic, its order on another,
/// a hypervisor event, the rest of all others, and the clocks.
pub fn tick_in_passes()
    // Where the machine has not halted and the slot's partition did some work, whose act keeps within its bounds
    // and orders only a partition that there is, the tick's state and lines are its passes, one after the other: the
    // work, its traffic, its order on another, a hypervisor event, the rest of all others, and the clocks; so it is in
    // the tick after a span.
    ensures law { TickInPasses }
    ensures next { PassedNext }
    // The partitions that rest, all or all but one, rest in one pass, and resting in one pass and later in another one
    // is resting in the later one.
    ensures all { AllRest }
    ensures others { OthersRest }
    ensures later { OthersRestLater }
{}

/// The last of many ticks without output is in the same slot or gap as the first, which begins with the first alone. It reaches
/// beyond no partition, and nobody is shown anything.
pub fn calm_ticks()
    // The last of ticks in which all rest, an idle partition is not woken, or instructions only go, is in the same slot
    // or gap; the hypervisor has not halted before it, its act is nothing, and nobody is shown anything.
    ensures resting { RestingCalm }
    ensures idle { IdleCalm }
    ensures gone { GoneCalm }
{}
