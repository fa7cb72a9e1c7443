//! Orders on partitions, and their resets.

ghost use Rattle.std.specs.Prelude.{◌≡◌, ◌+◌, ◌<◌, ◌≤◌, ◌++◌, length, map};
ghost use Rattle.system_state.specs.State.{with_machine};
ghost use Rattle.machine_model.specs.Partition.{applies, carried_out, memory_after, order_emissions, ordered, ordered_emissions, reset, reset_move, resets_after};
ghost use Rattle.machine_model.specs.Emission.{line_of};
ghost use Rattle.machine_model.specs.View.{view_of};
ghost use Rattle.span_model.specs.Passes.{part_at, with_part};
ghost use Rattle.tick_steps.specs.Work.{IsPartDone};

use crate::lines::Lines;
use sparc_step::{Core, Processor};
use system_state::Sys;
use system_state::interrupts::SHUTDOWN;
use virt_clocks::Clocks;
use virt_traps::Virt;
use xm_base::{Mode, Order, PartId, State};
use xm_ports::Ports;
use xm_report::{Line, Move};

/// A partition obeys an order. One that does not apply changes nothing and reports nothing.
#[tactic(auto, unfolding(machine_model::specs::Partition::ordered, machine_model::specs::Partition::ordered_emissions))]
pub fn obey(sys: &mut Sys, lines: &mut Lines, p: PartId, order: Order)
    // Called for a partition that exists and with fewer than 40 lines.
    requires partition { p < length sys.old.machine.parts }
    requires room { length lines.old < 40 }
    // The partition obeys the order, with its line.
    ensures done { IsPartDone p (ordered (view_of sys.old.machine.system p) order (part_at p sys.old.machine)) (ordered_emissions order (part_at p sys.old.machine)) sys.old sys.new lines.old lines.new }
    // It is one line at most.
    ensures few { length lines.new ≤ length lines.old + 1 }
{
    if applies(order, sys.part(p).state) {
        put_moved(lines, sys.ticks(), p, order);
        carry_out(sys, p, order);
    }
}

// Whether an order applies to a partition in this state.
fn applies(order: Order, state: State) -> bool
    ensures { result ≡ applies order state }
{
    match order {
        Order::Halt | Order::Shutdown => !matches!(state, State::Halted),
        Order::Suspend => matches!(state, State::Ready | State::Idle),
        Order::Resume => matches!(state, State::Suspended),
        Order::Reset { .. } => true,
    }
}

// Emits an order that applies; one to shut down changes no state.
fn put_moved(lines: &mut Lines, n: u64, p: PartId, order: Order)
    requires { length lines.old < 40 }
    ensures value { lines.new ≡ lines.old ++ map (line_of n p) (order_emissions order) }
    ensures few { length lines.new ≤ length lines.old + 1 }
{
    let to = match order {
        Order::Halt => Move::Halt,
        Order::Suspend => Move::Suspend,
        Order::Resume => Move::Resume,
        Order::Shutdown => return,
        Order::Reset { mode, .. } => reset_move(mode),
    };
    lines.push(Line::Moved { n, p, to });
}

/// The change of state that a reset emits.
pub fn reset_move(mode: Mode) -> Move
    // How a reset is reported: cold or warm.
    ensures { result ≡ reset_move mode }
{
    match mode {
        Mode::Cold => Move::Cold,
        Mode::Warm => Move::Warm,
    }
}

// Does what an order that applies asks for.
fn carry_out(sys: &mut Sys, p: PartId, order: Order)
    requires { p < length sys.old.machine.parts }
    ensures { sys.new ≡ with_machine (with_part p (carried_out (view_of sys.old.machine.system p) order (part_at p sys.old.machine)) sys.old.machine) sys.old }
{
    match order {
        Order::Halt => halt(sys, p),
        Order::Suspend => sys.part_mut(p).state = State::Suspended,
        Order::Resume => sys.part_mut(p).state = State::Ready,
        Order::Shutdown => sys.part_mut(p).virt.raise(SHUTDOWN),
        Order::Reset { mode, status } => reset(sys, p, mode, status),
    }
}

// Halts a partition: its timers are disarmed, too.
#[tactic(auto, unfolding(machine_model::specs::Partition::disarmed))]
fn halt(sys: &mut Sys, p: PartId)
    requires { p < length sys.old.machine.parts }
    ensures { sys.new ≡ with_machine (with_part p (carried_out (view_of sys.old.machine.system p) Order.Halt (part_at p sys.old.machine)) sys.old.machine) sys.old }
{
    let own = sys.part_mut(p);
    own.clocks.disarm();
    own.state = State::Halted;
}

/// Resets a partition: it begins at its image's entry, with no trap, timer or port. A cold reset loads its memory again. Its traces, its
/// health log and the input words that it has used stay.
pub fn reset(sys: &mut Sys, p: PartId, mode: Mode, status: u32)
    // Called for a partition that exists.
    requires { p < length sys.old.machine.parts }
    // A reset of a partition, which adds no line.
    ensures { sys.new ≡ with_machine (with_part p (reset (view_of sys.old.machine.system p) mode status (part_at p sys.old.machine)) sys.old.machine) sys.old }
{
    reload(sys, p, mode);
    restart(sys, p, mode, status);
}

// A partition begins at its image's entry; its memory stays.
#[tactic(auto, unfolding(machine_model::specs::Partition::reset))]
fn restart(sys: &mut Sys, p: PartId, mode: Mode, status: u32)
    requires { p < length sys.old.machine.parts }
    ensures { sys.new ≡ with_machine (with_part p (record (reset (view_of sys.old.machine.system p) mode status (part_at p sys.old.machine)) { memory = (part_at p sys.old.machine).memory }) sys.old.machine) sys.old }
{
    let entry = sys.image(p).entry();
    let own = sys.part_mut(p);
    own.core = Processor::of(&Core::start(entry));
    own.virt = Virt::new();
    own.clocks = Clocks::new();
    own.state = State::Ready;
    own.resets = resets_after(mode, own.resets);
    own.reset_status = status;
    own.ports = Ports::new();
}

// Loads a partition's memory again where the reset is cold.
fn reload(sys: &mut Sys, p: PartId, mode: Mode)
    requires { p < length sys.old.machine.parts }
    ensures { sys.new ≡ with_machine (with_part p (record (part_at p sys.old.machine) { memory = memory_after mode (view_of sys.old.machine.system p) (part_at p sys.old.machine).memory }) sys.old.machine) sys.old }
{
    match mode {
        Mode::Cold => sys.reload(p),
        Mode::Warm => {}
    }
}

// The reset counter after a reset: a cold one sets it to zero.
fn resets_after(mode: Mode, resets: u32) -> u32
    ensures { result ≡ resets_after mode resets }
{
    match mode {
        Mode::Cold => 0,
        Mode::Warm => resets.wrapping_add(1),
    }
}
