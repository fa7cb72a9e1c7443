//! The calls on partitions and on the whole system: numbers 1 to 11.

ghost use Rattle.std.specs.Prelude.{[], ◌∷◌, ◌≡◌};
ghost use Rattle.sparc_step.specs.Registers.{register_at};
ghost use Rattle.machine_model.specs.Caller.{a_of, invalid_mode, is_neither, mode_numbered, refused_if, target, tested};
ghost use Rattle.machine_model.specs.PartitionCalls.{get_partition_status, get_self, get_system_status, halt_system, idle_self, ordering, reset_partition, reset_system};
ghost use Rattle.machine_model.specs.Emission.{Unseen};
ghost use Rattle.system_state.specs.Serving.{IsCaller, IsServed, caller_of};

use crate::acting::{act, show, show_named};
use health_monitor::Whole;
use system_state::answering::{
    A, B, C, INVALID_MODE, OUT_0, answer, argument, refused_if, room, system_only, target,
};
use system_state::structures::{partition_status, system_status};
use system_state::{Act, CallSite, Note, Served, Sys};
use xm_base::{Mode, Order, State};

/// Call 1, XM_get_self: the caller's number.
#[tactic(auto, unfolding(system_state::specs::Serving::caller_of, machine_model::specs::View::view_of, machine_model::specs::PartitionCalls::get_self))]
pub fn get_self(sys: &mut Sys, site: CallSite) -> Served
    // Called for a caller that exists.
    requires { IsCaller site sys.old }
    // Call 1, `XM_get_self`: the result is the number of the caller.
    ensures { IsServed site.part Unseen (get_self (caller_of site sys.old)) result sys.old sys.new }
{
    answer(sys, site, u32::from(site.part))
}

/// Calls 2, 4, 5 and 6, by the order: XM_halt_partition(a), XM_suspend_partition(a), XM_resume_partition(a) and XM_shutdown_partition(a).
pub fn order_partition(sys: &mut Sys, site: CallSite, order: Order) -> Served
    // Called for a caller that exists.
    requires { IsCaller site sys.old }
    // Call 2, `XM_halt_partition`: an order to halt the partition that is named; where it is the caller, too, the
    // result stands before the order is carried out. Call 4, `XM_suspend_partition`: an order to suspend it. Call 5,
    // `XM_resume_partition`: an order to resume it. Call 6, `XM_shutdown_partition`: an order to shut it down.
    ensures { IsServed site.part Unseen (tested (target (caller_of site sys.old) (a_of (caller_of site sys.old)) ∷ []) (caller_of site sys.old) (ordering order (caller_of site sys.old))) result sys.old sys.new }
{
    let id = argument(sys, site, A);
    match target(sys, site, id) {
        Some(code) => answer(sys, site, code),
        None => act(
            sys,
            site,
            Act::Upon {
                id: id as u8,
                order,
            },
            0,
        ),
    }
}

/// Call 3, XM_reset_partition(a, b, c): cold or warm by b, with the status c.
#[tactic(auto, unfolding(machine_model::specs::PartitionCalls::reset_partition))]
pub fn reset_partition(sys: &mut Sys, site: CallSite) -> Served
    // Called for a caller that exists.
    requires { IsCaller site sys.old }
    // Call 3, `XM_reset_partition`: an order to reset it, cold or warm, with a status.
    ensures { IsServed site.part Unseen (reset_partition (caller_of site sys.old)) result sys.old sys.new }
{
    let id = argument(sys, site, A);
    let way = argument(sys, site, B);
    let status = argument(sys, site, C);
    if let Some(code) = target(sys, site, id) {
        return answer(sys, site, code);
    }
    if let Some(code) = no_mode(way) {
        return answer(sys, site, code);
    }
    let order = Order::Reset {
        mode: mode_numbered(way),
        status,
    };
    act(
        sys,
        site,
        Act::Upon {
            id: id as u8,
            order,
        },
        0,
    )
}

/// Call 7, XM_idle_self: the caller waits for its next slot or an interrupt.
#[tactic(auto, unfolding(system_state::specs::Serving::caller_of, machine_model::specs::Caller::with_answer, machine_model::specs::PartitionCalls::idle_self))]
pub fn idle_self(sys: &mut Sys, site: CallSite) -> Served
    // Called for a caller that exists.
    requires { IsCaller site sys.old }
    ensures { IsServed site.part Unseen (idle_self (caller_of site sys.old)) result sys.old sys.new }
{
    let own = sys.part_mut(site.part);
    own.state = State::Idle;
    own.core.set(OUT_0, 0);
    Served {
        note: Note::Nothing,
        act: Act::Nothing,
    }
}

/// Call 8, XM_get_partition_status(a, b): the status of partition a, at b.
#[tactic(auto, using(crate::proofs::ShownLemmas::partition_status_sight, crate::proofs::ActLemmas::partition_status_wants), unfolding(machine_model::specs::PartitionCalls::get_partition_status))]
pub fn get_partition_status(sys: &mut Sys, site: CallSite) -> Served
    // Called for a caller that exists whose call is 8.
    requires caller { IsCaller site sys.old }
    requires number { register_at (caller_of site sys.old).state.core 8 ≡ 8 }
    // Call 8, `XM_get_partition_status`: the status of the caller, or of another partition as a system partition is
    // shown it, is written.
    ensures { IsServed site.part (caller_of site sys.old).sight (get_partition_status (caller_of site sys.old)) result sys.old sys.new }
{
    let id = argument(sys, site, A);
    let at = argument(sys, site, B);
    if let Some(code) = target(sys, site, id) {
        return answer(sys, site, code);
    }
    let status = partition_status(sys.part(id as u8));
    show_named(sys, site, id, at, status.bytes())
}

/// Call 9, XM_halt_system.
#[tactic(auto, unfolding(machine_model::specs::PartitionCalls::halt_system))]
pub fn halt_system(sys: &mut Sys, site: CallSite) -> Served
    // Called for a caller that exists.
    requires { IsCaller site sys.old }
    // Call 9, `XM_halt_system`: by a system partition alone: the event that all halt.
    ensures { IsServed site.part Unseen (halt_system (caller_of site sys.old)) result sys.old sys.new }
{
    if let Some(code) = system_only(sys, site) {
        return answer(sys, site, code);
    }
    act(sys, site, Act::Whole(Whole::Halt), 0)
}

/// Call 10, XM_reset_system(a): cold or warm by a.
#[tactic(auto, unfolding(machine_model::specs::PartitionCalls::reset_system))]
pub fn reset_system(sys: &mut Sys, site: CallSite) -> Served
    // Called for a caller that exists.
    requires { IsCaller site sys.old }
    // Call 10, `XM_reset_system`: by a system partition alone: the event that all are reset, cold or warm.
    ensures { IsServed site.part Unseen (reset_system (caller_of site sys.old)) result sys.old sys.new }
{
    let way = argument(sys, site, A);
    if let Some(code) = system_only(sys, site) {
        return answer(sys, site, code);
    }
    if let Some(code) = no_mode(way) {
        return answer(sys, site, code);
    }
    act(sys, site, Act::Whole(Whole::Reset(mode_numbered(way))), 0)
}

/// Call 11, XM_get_system_status(a): the status of the system, at a.
#[tactic(auto, using(crate::proofs::ShownLemmas::system_status_sight, crate::proofs::ActLemmas::system_status_wants), unfolding(machine_model::specs::PartitionCalls::get_system_status))]
pub fn get_system_status(sys: &mut Sys, site: CallSite) -> Served
    // Called for a caller that exists whose call is 11.
    requires caller { IsCaller site sys.old }
    requires number { register_at (caller_of site sys.old).state.core 8 ≡ 11 }
    // Call 11, `XM_get_system_status`: by a system partition alone: the status of the system is written.
    ensures { IsServed site.part (caller_of site sys.old).sight (get_system_status (caller_of site sys.old)) result sys.old sys.new }
{
    let address = argument(sys, site, A);
    if let Some(code) = system_only(sys, site) {
        return answer(sys, site, code);
    }
    if let Some(code) = room(sys, site, address, 8) {
        return answer(sys, site, code);
    }
    let status = system_status(sys.resets(), sys.count());
    show(sys, site, address, status.bytes(), Act::Nothing, 0)
}

// A number is that of no way of resetting.
fn no_mode(number: u32) -> Option<u32>
    ensures { result ≡ refused_if (is_neither number) invalid_mode }
{
    refused_if(number != 0 && number != 1, INVALID_MODE)
}

// The way of resetting with a number.
fn mode_numbered(number: u32) -> Mode
    ensures { result ≡ mode_numbered number }
{
    if number == 0 { Mode::Cold } else { Mode::Warm }
}
