//! A hypercall is served.

ghost use Rattle.std.specs.Prelude.{◌≡◌, ◌%◌, ◌<◌, Some, length};
ghost use Rattle.cyclic_plans.specs.PlanClock.{IsInFrame};
ghost use Rattle.machine_model.specs.Calls.{by_call, call_of};
ghost use Rattle.machine_model.specs.Emission.{Unseen};
ghost use Rattle.machine_model.specs.Hypercalls.{served};
ghost use Rattle.port_calls.specs.OnPorts.{call_on};
ghost use Rattle.port_calls.specs.declared.on_ports.PortWork.TheVariants as work;
ghost use Rattle.span_model.specs.Passes.{part_at};
ghost use Rattle.sparc_step.specs.Registers.{register_at};
ghost use Rattle.xm_ports.specs.Channels.{shapes_of};
ghost use Rattle.system_state.specs.Serving.{IsCaller, IsServed, caller_at, caller_of};

use control_calls::{
    clear_irqmask, flush_regwin, get_partition_status, get_plan_status, get_self,
    get_system_status, get_time, halt_system, hm_read, hm_status, idle_self, iret, order_partition,
    raise_event, read_input, reset_partition, reset_system, set_irqmask, set_psr, set_tbr,
    set_timer, switch_sched_plan, trace_event, trace_read, trace_status, write_console,
};
use machine_model::{Call, call_of};
use port_calls::{PortWork, call_port, create_port, raise_ipvi};
use system_state::answering::{UNKNOWN_CALL, answer, argument};
use system_state::{CallSite, Served, Sys};
use xm_base::{Order, PartId};
use xm_conf::Kind;

/// Serves the hypercall of partition `p`, whose trap instruction stood at `pc`, with `npc` after it: its number stands in %o0, its
/// arguments in %o1 to %o5, and its result goes to %o0. It changes its caller, the channels of the caller's ports, and of other partitions
/// only that those that hear of a message or of a signal get its interrupt.
#[inline(always)]
#[tactic(auto, unfolding(system_state::specs::Serving::caller_of, system_state::specs::Serving::caller_at, machine_model::specs::Hypercalls::served))]
pub fn serve(sys: &mut Sys, p: PartId, pc: u32, npc: u32) -> Served
    // Called for a partition that exists, with an aligned program counter, with an aligned next program counter, with
    // room for the number of one more trace entry, with channels of the configuration's shapes, and in the frame of the
    // plan clock.
    requires partition { p < length sys.old.machine.parts }
    requires pc { pc % 4 ≡ 0 }
    requires npc { npc % 4 ≡ 0 }
    requires traces { (part_at p sys.old.machine).traces.next < 4294967295 }
    requires shapes { sys.old.shapes ≡ shapes_of sys.old.machine.system.conf }
    requires frame { IsInFrame sys.old.machine.system.conf sys.old.machine.clock sys.old.machine.time }
    // The outcome of a hypercall is what is defined for its number: the caller, the channels, and interrupts at the
    // partitions that hear of a message or a signal; what is reported, and what an observing call was shown; how it
    // reaches beyond its caller, which is reported and not done, and is never an event that does nothing; the note has
    // the very entry that was made in the traces, and the bytes that it names stand where the call's arguments say; an
    // unknown number has the result -2.
    ensures served { IsServed p (caller_at p pc npc sys.old).sight (served (caller_at p pc npc sys.old)) result sys.old sys.new }
{
    serve_caller(sys, CallSite { part: p, pc, npc })
}

// Serves the hypercall of a caller.
#[inline(always)]
#[tactic(auto, unfolding(system_state::specs::Serving::caller_of, system_state::specs::Serving::caller_at, machine_model::specs::Hypercalls::served))]
fn serve_caller(sys: &mut Sys, site: CallSite) -> Served
    requires caller { IsCaller site sys.old }
    requires pc { site.pc % 4 ≡ 0 }
    requires npc { site.npc % 4 ≡ 0 }
    requires traces { (part_at site.part sys.old.machine).traces.next < 4294967295 }
    requires shapes { sys.old.shapes ≡ shapes_of sys.old.machine.system.conf }
    requires frame { IsInFrame sys.old.machine.system.conf sys.old.machine.clock sys.old.machine.time }
    ensures { IsServed site.part (caller_of site sys.old).sight (served (caller_of site sys.old)) result sys.old sys.new }
{
    match call_of(argument(sys, site, 0)) {
        None => answer(sys, site, UNKNOWN_CALL),
        // A copy of the site, so that a number that no call has puts nothing into memory.
        Some(call) => serve_known(sys, CallSite { ..site }, call),
    }
}

// Serves a call of a caller. Those on messages are looked at first, so that their outcomes are copied once less.
#[inline(always)]
fn serve_known(sys: &mut Sys, site: CallSite, call: Call) -> Served
    requires caller { IsCaller site sys.old }
    requires call { call_of (register_at (caller_of site sys.old).state.core 8) ≡ Some call }
    requires pc { site.pc % 4 ≡ 0 }
    requires npc { site.npc % 4 ≡ 0 }
    requires traces { (part_at site.part sys.old.machine).traces.next < 4294967295 }
    requires shapes { sys.old.shapes ≡ shapes_of sys.old.machine.system.conf }
    requires frame { IsInFrame sys.old.machine.system.conf sys.old.machine.clock sys.old.machine.time }
    ensures { IsServed site.part (caller_of site sys.old).sight (by_call (Some call) (caller_of site sys.old)) result sys.old sys.new }
{
    match call {
        Call::WriteSamplingMessage => send(sys, site, Kind::Sampling),
        Call::ReadSamplingMessage => receive(sys, site, Kind::Sampling),
        Call::SendQueuingMessage => send(sys, site, Kind::Queuing),
        Call::ReceiveQueuingMessage => receive(sys, site, Kind::Queuing),
        _ => serve_call(sys, site, call),
    }
}

// Serves a call that puts a message into the channel of a made port of a kind.
#[inline(always)]
fn send(sys: &mut Sys, site: CallSite, kind: Kind) -> Served
    requires caller { IsCaller site sys.old }
    requires shapes { sys.old.shapes ≡ shapes_of sys.old.machine.system.conf }
    ensures { IsServed site.part Unseen (call_on kind work.Send (caller_of site sys.old)) result sys.old sys.new }
{
    call_port(sys, site, kind, PortWork::Send)
}

// Serves a call that reads a message from the channel of a made port of a kind.
#[inline(always)]
fn receive(sys: &mut Sys, site: CallSite, kind: Kind) -> Served
    requires caller { IsCaller site sys.old }
    requires shapes { sys.old.shapes ≡ shapes_of sys.old.machine.system.conf }
    ensures { IsServed site.part Unseen (call_on kind work.Receive (caller_of site sys.old)) result sys.old sys.new }
{
    call_port(sys, site, kind, PortWork::Receive)
}

// Serves a call of a caller: the table of all calls.
#[inline(never)]
fn serve_call(sys: &mut Sys, site: CallSite, call: Call) -> Served
    requires caller { IsCaller site sys.old }
    requires call { call_of (register_at (caller_of site sys.old).state.core 8) ≡ Some call }
    requires pc { site.pc % 4 ≡ 0 }
    requires npc { site.npc % 4 ≡ 0 }
    requires traces { (part_at site.part sys.old.machine).traces.next < 4294967295 }
    requires shapes { sys.old.shapes ≡ shapes_of sys.old.machine.system.conf }
    requires frame { IsInFrame sys.old.machine.system.conf sys.old.machine.clock sys.old.machine.time }
    ensures { IsServed site.part (caller_of site sys.old).sight (by_call (Some call) (caller_of site sys.old)) result sys.old sys.new }
{
    match call {
        Call::GetSelf => get_self(sys, site),
        Call::HaltPartition => order_partition(sys, site, Order::Halt),
        Call::ResetPartition => reset_partition(sys, site),
        Call::SuspendPartition => order_partition(sys, site, Order::Suspend),
        Call::ResumePartition => order_partition(sys, site, Order::Resume),
        Call::ShutdownPartition => order_partition(sys, site, Order::Shutdown),
        Call::IdleSelf => idle_self(sys, site),
        Call::GetPartitionStatus => get_partition_status(sys, site),
        Call::HaltSystem => halt_system(sys, site),
        Call::ResetSystem => reset_system(sys, site),
        Call::GetSystemStatus => get_system_status(sys, site),
        Call::GetTime => get_time(sys, site),
        Call::SetTimer => set_timer(sys, site),
        Call::SwitchSchedPlan => switch_sched_plan(sys, site),
        Call::GetPlanStatus => get_plan_status(sys, site),
        Call::CreateSamplingPort => create_port(sys, site, Kind::Sampling),
        Call::WriteSamplingMessage => call_port(sys, site, Kind::Sampling, PortWork::Send),
        Call::ReadSamplingMessage => call_port(sys, site, Kind::Sampling, PortWork::Receive),
        Call::GetSamplingPortStatus => call_port(sys, site, Kind::Sampling, PortWork::Status),
        Call::CreateQueuingPort => create_port(sys, site, Kind::Queuing),
        Call::SendQueuingMessage => call_port(sys, site, Kind::Queuing, PortWork::Send),
        Call::ReceiveQueuingMessage => call_port(sys, site, Kind::Queuing, PortWork::Receive),
        Call::GetQueuingPortStatus => call_port(sys, site, Kind::Queuing, PortWork::Status),
        Call::TraceEvent => trace_event(sys, site),
        Call::TraceRead => trace_read(sys, site),
        Call::TraceStatus => trace_status(sys, site),
        Call::RaiseEvent => raise_event(sys, site),
        Call::HmRead => hm_read(sys, site),
        Call::HmStatus => hm_status(sys, site),
        Call::SetIrqmask => set_irqmask(sys, site),
        Call::ClearIrqmask => clear_irqmask(sys, site),
        Call::WriteConsole => write_console(sys, site),
        Call::ReadInput => read_input(sys, site),
        Call::Iret => iret(sys, site),
        Call::SetPsr => set_psr(sys, site),
        Call::SetTbr => set_tbr(sys, site),
        Call::FlushRegwin => flush_regwin(sys, site),
        Call::RaiseIpvi => raise_ipvi(sys, site),
    }
}
