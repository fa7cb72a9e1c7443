//! Rows worked by hand on each hypercall: its result, its effect, and each of its tests at its edge; and on each health event.

ghost use Rattle.machine_model.specs.rows.CoreFileRows.{CoreFileRows};
ghost use Rattle.machine_model.specs.rows.EventRows.{ActionRows, DeliveryRows, EventsPassOver, RaisedRows, TrapsHaveEvents, UndoneRows};
ghost use Rattle.machine_model.specs.rows.LinkRows.{LinkCallRows, LinkRows, SignalIsDelivered, SignalRows, SignalsHalted, SignalsNotBack, SignalsOther};
ghost use Rattle.machine_model.specs.rows.LogCallRows.{LogCallRows};
ghost use Rattle.machine_model.specs.rows.ObservedRows.{AnswerRows, AskingRows, PlanStatusRows, RoomRows, SeesPlan, SilentRows};
ghost use Rattle.machine_model.specs.rows.PartitionCallRows.{PartitionCallRows};
ghost use Rattle.machine_model.specs.rows.PortCallRows.{PortCallRows};
ghost use Rattle.machine_model.specs.rows.ProcessorCallRows.{ProcessorCallRows};
ghost use Rattle.machine_model.specs.rows.TimeCallRows.{TimeCallRows};
ghost use Rattle.machine_model.specs.rows.WholeRows.{CounterRows, HearingRows, OrderRows, ResetRows, WritesToItsConsole};

/// Calls 1 to 11, on partitions and on the whole system.
pub fn partition_calls()
    ensures rows { PartitionCallRows }
{}

/// Calls 12 to 15, on clocks, timers and plans.
pub fn time_calls()
    ensures rows { TimeCallRows }
{}

/// Calls 16 to 23, on sampling and queuing ports.
pub fn port_calls()
    ensures rows { PortCallRows }
{}

/// Calls 24 to 29, on traces and on the health log.
pub fn log_calls()
    ensures rows { LogCallRows }
{}

/// Calls 30 to 37, on interrupts, the console, input words and the virtual processor.
pub fn processor_calls()
    ensures rows { ProcessorCallRows }
{}

/// Call 38, on links, and its signals: the call's result, who hears of a signal, and the interrupt that comes with it.
pub fn link_calls()
    // Call 38: over a link that goes from the caller there is a signal, and another number is refused.
    ensures rows { LinkCallRows }
    // Interrupt 8 and those that follow it come with links 0 to 7; a partition that has halted hears of none.
    ensures signals { SignalRows }
    // A partition has the numbers of its own links alone; its signal is heard by the partition at the link's end, under
    // the link's number, and by no other one; and a link to the partition itself brings nothing.
    ensures links { LinkRows }
    // A call over link 5 is answered 0; interrupt 13 is pending at the other end, which receives the signal, and the
    // caller is as it was.
    ensures heard { SignalsOther }
    // One that has halted receives it and stays as it was.
    ensures halted { SignalsHalted }
    // A number of a link that goes to the caller is refused with -3, and nothing is signalled.
    ensures refused { SignalsNotBack }
    // The interrupt of link 0 is delivered as trap e8.
    ensures delivered { SignalIsDelivered }
{}

/// Health events: what each action does, deliveries that fail, and calls that end in an event.
pub fn health_events()
    // The events of trap types, those of section 7 of the SPARC V8 manual and two that have none of their own.
    ensures events { TrapsHaveEvents }
    // Each event but a raised one is passed over where the action does so, and none where it does not.
    ensures passed { EventsPassOver }
    // What each action does; where traps are disabled PROPAGATE is HALT; a warm reset counts modulo 2^32.
    ensures actions { ActionRows }
    // Raised events, by each action.
    ensures raised { RaisedRows }
    // Deliveries that fail.
    ensures deliveries { DeliveryRows }
    // Calls 34 and 37, which an event undoes.
    ensures undone { UndoneRows }
{}

/// Observing calls: what each asks for, and what it is shown.
pub fn observing_calls()
    // What each observing call asks for, and the place and the size of the answer.
    ensures asked { AskingRows }
    // What each question is answered: plan 1 is not there, so that no slot runs.
    ensures answered { AnswerRows }
    // What the status of the plan shows.
    ensures plan { PlanStatusRows }
    // Where there is no room for what is asked.
    ensures room { RoomRows }
    // Call 15 in a tick; it is made, too, where interrupt 5 is due and traps are disabled.
    ensures shown { SeesPlan }
    // Nothing is asked where an interrupt is delivered instead of the call, where an idle partition is not woken, and
    // where a partition takes no turn.
    ensures silent { SilentRows }
{}

/// What reaches beyond a partition: messages, orders in each state, resets of the hypervisor, and
/// console bytes by UART.
pub fn reaching_others()
    // Interrupt 3 of a sampling channel and 4 of a queue come at a destination that is made; a partition that has
    // halted hears of none, and a message that is taken brings none.
    ensures heard { HearingRows }
    // Each order in each state.
    ensures ordered { OrderRows }
    // The counters of resets go on modulo 2^32: a partition's, and the hypervisor's.
    ensures counted { CounterRows }
    // HYPERVISOR_COLD_RESET loads each image again, and no reset is counted; HYPERVISOR_WARM_RESET leaves the memories,
    // and each reset is counted.
    ensures reset { ResetRows }
    // A UART gets the bytes of the partitions whose console it is, and of no others, whichever of them writes; what is
    // traced goes to no UART.
    ensures consoles { WritesToItsConsole }
{}

/// The bytes of a core file.
pub fn core_files()
    ensures bytes { CoreFileRows }
{}
