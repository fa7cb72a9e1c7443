//! A hypercall of one partition in isolation: what an observing call is shown comes from its cue.

ghost use Rattle.std.specs.Prelude.{◌≡◌, ◌+◌, ◌%◌, ◌^◌, ◌<◌, ◌==◌, ◌&&◌, ◌||◌, not, nat_lt, if◌then◌else◌, None, Some, [], true};
ghost use Rattle.machine_model.specs.Caller.{a_of, b_of, c_of, is_room};
ghost use Rattle.machine_model.specs.LocalTick.{called};
ghost use Rattle.machine_model.specs.Observed.{observed_by, observing};
ghost use Rattle.machine_model.specs.View.{view_of};
ghost use Rattle.span_model.specs.Passes.{part_at, with_part};
ghost use Rattle.sparc_step.specs.Registers.{register_at};
ghost use Rattle.system_state.specs.Serving.{IsCaller, caller_at, caller_of};
ghost use Rattle.system_state.specs.State.{with_machine};
ghost use Rattle.tick_steps.specs.CueValues.{sight_value};
ghost use Rattle.replay_tick.specs.lemmas.LoneWorkTerms.{IsLoneWork, asked_of, shown_state, shows_this};
ghost use Rattle.tick_steps.specs.lemmas.SpanTerms.{CanTake};

use crate::work::{LoneWork, is_unseen, silent};
use hypercalls::{Sys, call_reported};
use machine_model::observes_as_tested;
use system_state::answering::{
    A, B, C, INVALID_PARAMETER, NOT_AVAILABLE, answer, answer_written, argument, is_system,
};
use system_state::{CallSite, engine};
use tick_steps::{Beyond, Lines, Sight};
use xm_base::proof;

/// An observing call: where its answer goes, how many bytes that has, and whether it asks for an entry of a log.
#[derive(Clone, Copy, Debug, PartialEq, Eq)]
pub(crate) struct Asked {
    address: u32,
    size: u32,
    entry: bool,
}

/// A hypercall of a partition, if it may be shown this.
pub(crate) fn call_alone(
    sys: &mut Sys,
    lines: &mut Lines,
    site: CallSite,
    seen: Sight<'_>,
) -> Option<LoneWork>
    requires take { CanTake site.part 1 sys.old }
    requires pc { site.pc % 4 ≡ 0 }
    requires at { site.npc ≡ (part_at site.part sys.old.machine).core.pc }
    requires next { (part_at site.part sys.old.machine).core.npc ≡ ((part_at site.part sys.old.machine).core.pc + 4) % 2 ^ 32 }
    requires empty { lines.old ≡ [] }
    ensures { IsLoneWork result site.part (observed_by (view_of sys.old.machine.system site.part) (part_at site.part sys.old.machine).core) (sight_value seen.entry) (called (record (caller_at site.part site.pc (part_at site.part sys.old.machine).core.pc sys.old) { sight = sight_value seen.entry })) sys.old sys.new lines.new }
{
    match asked_by(sys, site) {
        Some(asked) => observe(sys, site, asked, seen),
        None => call_plain(sys, lines, site, seen),
    }
}

// A call that observes nothing.
fn call_plain(sys: &mut Sys, lines: &mut Lines, site: CallSite, seen: Sight<'_>) -> Option<LoneWork>
    requires take { CanTake site.part 1 sys.old }
    requires pc { site.pc % 4 ≡ 0 }
    requires next { (part_at site.part sys.old.machine).core.npc ≡ ((part_at site.part sys.old.machine).core.pc + 4) % 2 ^ 32 }
    requires unasked { observed_by (view_of sys.old.machine.system site.part) (part_at site.part sys.old.machine).core ≡ None }
    requires empty { lines.old ≡ [] }
    ensures { IsLoneWork result site.part None (sight_value seen.entry) (called (record (caller_at site.part site.pc (part_at site.part sys.old.machine).core.pc sys.old) { sight = sight_value seen.entry })) sys.old sys.new lines.new }
{
    if is_unseen(seen) {
        match call_reported(sys, lines, site.part, site.pc) {
            Some(emitted) => Some(LoneWork {
                note: emitted.0,
                reach: emitted.1,
            }),
            None => silent(Beyond::Nothing),
        }
    } else {
        None
    }
}

// An observing call that is shown this.
fn observe(sys: &mut Sys, site: CallSite, asked: Asked, seen: Sight<'_>) -> Option<LoneWork>
    requires take { CanTake site.part 1 sys.old }
    requires asked { asked_of (observed_by (view_of sys.old.machine.system site.part) (part_at site.part sys.old.machine).core) ≡ Some asked }
    ensures { IsLoneWork result site.part (observed_by (view_of sys.old.machine.system site.part) (part_at site.part sys.old.machine).core) (sight_value seen.entry) (called (record (caller_of site sys.old) { sight = sight_value seen.entry })) sys.old sys.new [] }
{
    proof! { observes_as_tested(); }
    if shows_this(sys, site, asked, seen) {
        show(sys, site, asked, seen);
        engine::count_tick(sys, site.part);
        silent(Beyond::Nothing)
    } else {
        None
    }
}

// The observing call of a caller, where it makes one.
fn asked_by(sys: &Sys, site: CallSite) -> Option<Asked>
    requires { IsCaller site sys.now }
    ensures { result ≡ asked_of (observed_by (caller_of site sys.now).view (caller_of site sys.now).state.core) }
{
    if is_system(sys, site) {
        observing(sys, site, argument(sys, site, 0))
    } else {
        None
    }
}

// The observing call of a system partition with this number.
fn observing(sys: &Sys, site: CallSite, number: u32) -> Option<Asked>
    requires { IsCaller site sys.now }
    ensures { result ≡ asked_of (observing (caller_of site sys.now).view number (a_of (caller_of site sys.now)) (b_of (caller_of site sys.now)) (c_of (caller_of site sys.now))) }
{
    match number {
        8 => about_other(sys, site, asked_at(sys, site, B, 20, false)),
        11 => Some(asked_at(sys, site, A, 8, false)),
        14 => about_plan(sys, site, asked_at(sys, site, B, 4, false)),
        15 => Some(asked_at(sys, site, A, 20, false)),
        25 => about_other(sys, site, asked_at(sys, site, C, 24, true)),
        26 => about_other(sys, site, asked_at(sys, site, B, 8, false)),
        28 => about_other(sys, site, asked_at(sys, site, C, 20, true)),
        29 => about_other(sys, site, asked_at(sys, site, B, 8, false)),
        _ => None,
    }
}

// A call whose answer of this many bytes goes to the address in an argument.
fn asked_at(sys: &Sys, site: CallSite, place: u8, size: u32, entry: bool) -> Asked
    requires caller { IsCaller site sys.now }
    requires place { place < 6 }
    ensures { result ≡ record { address = register_at (caller_of site sys.now).state.core (8 + place); size = size; entry = entry } }
{
    Asked {
        address: argument(sys, site, place),
        size,
        entry,
    }
}

// A call about the partition that its first argument names, where that is another one that the caller sees.
#[tactic(auto, unfolding(system_state::specs::Serving::caller_of, machine_model::specs::View::view_of))]
fn about_other(sys: &Sys, site: CallSite, asked: Asked) -> Option<Asked>
    requires { IsCaller site sys.now }
    ensures { result ≡ (if not (a_of (caller_of site sys.now) == (caller_of site sys.now).view.id) && nat_lt (a_of (caller_of site sys.now)) (caller_of site sys.now).view.sees.parts then Some asked else None) }
{
    let id = argument(sys, site, A);
    let parts = u32::from(sys.conf().sees(site.part).parts);
    if id != u32::from(site.part) && id < parts {
        Some(asked)
    } else {
        None
    }
}

// A call about the plan that its first argument names, where that is one that may be asked for.
#[tactic(auto, unfolding(system_state::specs::Serving::caller_of, machine_model::specs::View::view_of))]
fn about_plan(sys: &Sys, site: CallSite, asked: Asked) -> Option<Asked>
    requires { IsCaller site sys.now }
    ensures { result ≡ (if a_of (caller_of site sys.now) == 0 || not (nat_lt (a_of (caller_of site sys.now)) (caller_of site sys.now).view.sees.plans) then None else Some asked) }
{
    let plan = argument(sys, site, A);
    let plans = u32::from(sys.conf().sees(site.part).plans);
    if plan == 0 || plan >= plans {
        None
    } else {
        Some(asked)
    }
}

// Whether this is what a call is shown.
fn shows_this(sys: &Sys, site: CallSite, asked: Asked, seen: Sight<'_>) -> bool
    requires { IsCaller site sys.now }
    ensures { result ≡ shows_this (caller_of site sys.now) asked (sight_value seen.entry) }
{
    let room = has_room(sys, site, asked);
    match seen {
        Sight::Nothing => !room,
        Sight::NotKept => asked.entry,
        Sight::Words(bytes) => room && bytes.len() == asked.size as usize,
    }
}

// Whether the answer to a call may all be written at its place.
#[tactic(auto, unfolding(system_state::specs::Serving::caller_of, machine_model::specs::View::view_of, machine_model::specs::Partition::areas_of))]
fn has_room(sys: &Sys, site: CallSite, asked: Asked) -> bool
    requires { IsCaller site sys.now }
    ensures { result ≡ is_room (caller_of site sys.now) asked.address asked.size }
{
    sys.may_write(site.part, asked.address, asked.size)
}

// What a call is shown is written to its place, and it is answered.
fn show(sys: &mut Sys, site: CallSite, asked: Asked, seen: Sight<'_>)
    requires caller { IsCaller site sys.old }
    requires shown { shows_this (caller_of site sys.old) asked (sight_value seen) ≡ true }
    ensures { sys.new ≡ with_machine (with_part site.part (shown_state asked (sight_value seen.entry) (caller_of site sys.old).state) sys.old.machine) sys.old }
{
    match seen {
        Sight::Nothing => answer(sys, site, INVALID_PARAMETER),
        Sight::NotKept => answer(sys, site, NOT_AVAILABLE),
        Sight::Words(bytes) => answer_written(sys, site, asked.address, bytes, 0),
    };
}
