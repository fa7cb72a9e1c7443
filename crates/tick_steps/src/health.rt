//! Health events of a partition, and the delivery of traps to it.

ghost use Rattle.std.specs.Prelude.{◌≡◌, ◌+◌, ◌%◌, ◌<◌, ◌≤◌, [], ◌∷◌, length};
ghost use Rattle.system_state.specs.State.{with_machine};
ghost use Rattle.health_monitor.specs.Monitor.{action_in, effect_of, is_logged};
ghost use Rattle.machine_model.specs.Health.{done_to_all, done_to_itself, entered, entered_if, entered_emissions, event_handled, interrupt_delivered, is_passed_over, passed_over_if, propagated, trap_delivered, undelivered};
ghost use Rattle.machine_model.specs.Emission.{Health};
ghost use Rattle.machine_model.specs.View.{view_of};
ghost use Rattle.sparc_step.specs.Registers.{advanced};
ghost use Rattle.span_model.specs.Passes.{part_at, with_part};
ghost use Rattle.virt_traps.specs.Virtual.{interrupt_cleared};
ghost use Rattle.tick_steps.specs.Work.{IsPartDone};

use crate::lines::Lines;
use crate::order::obey;
use health_monitor::{Effect, HealthEntry, Own, Whole, action_of, effect, is_logged};
use sparc_step::Processor;
use system_state::Sys;
use system_state::interrupts::SHUTDOWN;
use virt_traps::StackFault;
use xm_base::{Order, PartId};
use xm_conf::{Action, Event};
use xm_report::Line;

/// The trap type of interrupt 0; those of the others follow it.
const INTERRUPT_0: u8 = 0xe0;

/// A health event of a partition, with its word, and the type of the trap where it is a trap's. What is done about it to the whole system
/// is reported, and not done.
#[inline(never)]
pub fn handle_event(
    sys: &mut Sys,
    lines: &mut Lines,
    p: PartId,
    event: Event,
    word: u32,
    trap: Option<u8>,
) -> Whole
    // Called for a partition that exists, with room for the numbers of more health entries, and with at most 20 lines.
    requires partition { p < length sys.old.machine.parts }
    requires log { (part_at p sys.old.machine).health.next < 4294967294 }
    requires room { length lines.old ≤ 20 }
    // A health event as it is answered, with its lines and how it reaches beyond its partition.
    ensures done { IsPartDone p (event_handled (view_of sys.old.machine.system p) sys.old.machine.time event word trap (part_at p sys.old.machine)).after (event_handled (view_of sys.old.machine.system p) sys.old.machine.time event word trap (part_at p sys.old.machine)).emitted sys.old sys.new lines.old lines.new }
    ensures act { (event_handled (view_of sys.old.machine.system p) sys.old.machine.time event word trap (part_at p sys.old.machine)).act ≡ done_to_all result }
    ensures few { length lines.new ≤ length lines.old + 3 }
{
    let effect = effect_on(sys, p, event);
    enter(sys, lines, p, event, word, effect.action);
    pass_over(sys, p, event, effect);
    answer(sys, lines, p, trap, effect.own);
    effect.whole
}

// What the partition's health table makes of an event.
fn effect_on(sys: &Sys, p: PartId, event: Event) -> Effect
    requires { p < length sys.now.machine.parts }
    ensures { result ≡ effect_of (action_in (view_of sys.now.machine.system p).part.hm event) (part_at p sys.now.machine).traps.enabled }
{
    let enabled = sys.part(p).virt.enabled;
    effect(action_of(&sys.configured(p).hm, event), enabled)
}

// Whether the partition's health table has the event logged.
fn is_logged_by(sys: &Sys, p: PartId, event: Event) -> bool
    requires { p < length sys.now.machine.parts }
    ensures { result ≡ is_logged (view_of sys.now.machine.system p).part.hm event }
{
    is_logged(&sys.configured(p).hm, event)
}

// Enters an event in the partition's health log, and emits it, where the partition's health table has it logged.
fn enter(sys: &mut Sys, lines: &mut Lines, p: PartId, event: Event, word: u32, action: Action)
    requires partition { p < length sys.old.machine.parts }
    requires log { (part_at p sys.old.machine).health.next < 4294967294 }
    requires room { length lines.old < 40 }
    ensures done { IsPartDone p (entered_if (is_logged (view_of sys.old.machine.system p).part.hm event) sys.old.machine.time event word action (part_at p sys.old.machine)) (entered_emissions (is_logged (view_of sys.old.machine.system p).part.hm event) event word action) sys.old sys.new lines.old lines.new }
    ensures few { length lines.new ≤ length lines.old + 1 }
    ensures log { (part_at p sys.new.machine).health.next < 4294967295 }
{
    if is_logged_by(sys, p, event) {
        log(sys, lines, p, event, word, action);
    }
}

// Enters an event in the partition's health log, and emits it.
#[tactic(auto, unfolding(machine_model::specs::Health::entered, xm_traces::specs::Ring::noted))]
fn log(sys: &mut Sys, lines: &mut Lines, p: PartId, event: Event, word: u32, action: Action)
    requires partition { p < length sys.old.machine.parts }
    requires log { (part_at p sys.old.machine).health.next < 4294967295 }
    requires room { length lines.old < 40 }
    ensures done { IsPartDone p (entered sys.old.machine.time event word action (part_at p sys.old.machine)) (Health event word action ∷ []) sys.old sys.new lines.old lines.new }
    ensures few { length lines.new ≤ length lines.old + 1 }
    ensures log { (part_at p sys.new.machine).health.next ≡ (part_at p sys.old.machine).health.next + 1 }
{
    let entry = HealthEntry {
        time: sys.now(),
        seq: sys.part(p).health.counts().next,
        event,
        action,
        word,
    };
    lines.push(Line::Health {
        n: sys.ticks(),
        p,
        event,
        word,
        action,
    });
    sys.part_mut(p).health.note(entry);
}

// Whether the partition resumes after the instruction: after an event that it raised itself it has gone on already.
fn is_passed_over(event: Event, effect: Effect) -> bool
    ensures { result ≡ is_passed_over event effect }
{
    match event {
        Event::PartitionError => false,
        _ => effect.pass,
    }
}

// The partition resumes after the instruction that it is at, unless the event or its effect has it stay.
fn pass_over(sys: &mut Sys, p: PartId, event: Event, effect: Effect)
    requires { p < length sys.old.machine.parts }
    ensures value { sys.new ≡ with_machine (with_part p (passed_over_if (is_passed_over event effect) (part_at p sys.old.machine)) sys.old.machine) sys.old }
    ensures log { (part_at p sys.new.machine).health ≡ (part_at p sys.old.machine).health }
{
    if is_passed_over(event, effect) {
        advance(&mut sys.part_mut(p).core);
    }
}

// Goes on to the next instruction.
#[tactic(auto, unfolding(sparc_step::specs::Registers::placed, sparc_step::specs::Registers::advanced))]
fn advance(processor: &mut Processor)
    ensures { processor.new ≡ advanced processor.old }
{
    let next = processor.npc();
    processor.place(next, next.wrapping_add(4));
}

// What an action does to the partition itself.
#[tactic(auto, unfolding(machine_model::specs::Health::self_ordered))]
fn answer(sys: &mut Sys, lines: &mut Lines, p: PartId, trap: Option<u8>, own: Own)
    requires partition { p < length sys.old.machine.parts }
    requires log { (part_at p sys.old.machine).health.next < 4294967295 }
    requires room { length lines.old ≤ 22 }
    ensures done { IsPartDone p (done_to_itself (view_of sys.old.machine.system p) sys.old.machine.time trap own (part_at p sys.old.machine)).after (done_to_itself (view_of sys.old.machine.system p) sys.old.machine.time trap own (part_at p sys.old.machine)).emitted sys.old sys.new lines.old lines.new }
    ensures few { length lines.new ≤ length lines.old + 2 }
{
    match own {
        Own::Nothing => {}
        Own::Shutdown => sys.part_mut(p).virt.raise(SHUTDOWN),
        Own::Reset(mode) => obey(sys, lines, p, Order::Reset { mode, status: 0 }),
        Own::Suspend => obey(sys, lines, p, Order::Suspend),
        Own::Halt => obey(sys, lines, p, Order::Halt),
        Own::Propagate => propagate(sys, lines, p, trap),
    }
}

// Delivers the trap of an event to its partition, where the event was a trap.
fn propagate(sys: &mut Sys, lines: &mut Lines, p: PartId, trap: Option<u8>)
    requires partition { p < length sys.old.machine.parts }
    requires log { (part_at p sys.old.machine).health.next < 4294967295 }
    requires room { length lines.old ≤ 22 }
    ensures done { IsPartDone p (propagated (view_of sys.old.machine.system p) sys.old.machine.time trap (part_at p sys.old.machine)).after (propagated (view_of sys.old.machine.system p) sys.old.machine.time trap (part_at p sys.old.machine)).emitted sys.old sys.new lines.old lines.new }
    ensures few { length lines.new ≤ length lines.old + 2 }
{
    match trap {
        Some(tt) => deliver_trap(sys, lines, p, tt),
        None => {}
    }
}

// Delivers a trap to a partition.
fn deliver_trap(sys: &mut Sys, lines: &mut Lines, p: PartId, tt: u8)
    requires partition { p < length sys.old.machine.parts }
    requires log { (part_at p sys.old.machine).health.next < 4294967295 }
    requires room { length lines.old ≤ 22 }
    ensures done { IsPartDone p (trap_delivered (view_of sys.old.machine.system p) sys.old.machine.time tt (part_at p sys.old.machine)).after (trap_delivered (view_of sys.old.machine.system p) sys.old.machine.time tt (part_at p sys.old.machine)).emitted sys.old sys.new lines.old lines.new }
    ensures few { length lines.new ≤ length lines.old + 2 }
{
    match sys.deliver_to(p, tt) {
        Ok(()) => {}
        Err(StackFault) => give_up(sys, lines, p),
    }
}

/// Delivers an interrupt to a partition, which then is no longer pending.
pub(crate) fn deliver_interrupt(sys: &mut Sys, lines: &mut Lines, p: PartId, n: u8)
    requires partition { p < length sys.old.machine.parts }
    requires interrupt { n < 32 }
    requires log { (part_at p sys.old.machine).health.next < 4294967295 }
    requires room { length lines.old ≤ 22 }
    ensures done { IsPartDone p (interrupt_delivered (view_of sys.old.machine.system p) sys.old.machine.time n (part_at p sys.old.machine)).after (interrupt_delivered (view_of sys.old.machine.system p) sys.old.machine.time n (part_at p sys.old.machine)).emitted sys.old sys.new lines.old lines.new }
    ensures few { length lines.new ≤ length lines.old + 2 }
{
    match sys.deliver_to(p, INTERRUPT_0 + n) {
        Ok(()) => clear(sys, p, n),
        Err(StackFault) => give_up(sys, lines, p),
    }
}

// An interrupt of a partition is no longer pending.
fn clear(sys: &mut Sys, p: PartId, n: u8)
    requires partition { p < length sys.old.machine.parts }
    requires interrupt { n < 32 }
    ensures { sys.new ≡ with_machine (with_part p (record (part_at p sys.old.machine) { traps = interrupt_cleared n (part_at p sys.old.machine).traps }) sys.old.machine) sys.old }
{
    sys.part_mut(p).virt.clear(n);
}

// A trap or an interrupt could not be delivered: the partition halts, whatever its health table says.
fn give_up(sys: &mut Sys, lines: &mut Lines, p: PartId)
    requires partition { p < length sys.old.machine.parts }
    requires log { (part_at p sys.old.machine).health.next < 4294967295 }
    requires room { length lines.old ≤ 22 }
    ensures done { IsPartDone p (undelivered (view_of sys.old.machine.system p) sys.old.machine.time (part_at p sys.old.machine)).after (undelivered (view_of sys.old.machine.system p) sys.old.machine.time (part_at p sys.old.machine)).emitted sys.old sys.new lines.old lines.new }
    ensures few { length lines.new ≤ length lines.old + 2 }
{
    let pc = program_counter(sys, p);
    log(sys, lines, p, Event::MemProtection, pc, Action::Halt);
    obey(sys, lines, p, Order::Halt);
}

/// The program counter of a partition.
pub fn program_counter(sys: &Sys, p: PartId) -> u32
    // Called for a partition that exists.
    requires { p < length sys.now.machine.parts }
    // The partition's program counter.
    ensures value { result ≡ (part_at p sys.now.machine).core.pc }
    // It is a multiple of 4.
    ensures aligned { result % 4 ≡ 0 }
{
    sys.part(p).core.pc()
}
