//! The calls on traces and on the health log: numbers 24 to 29.

ghost use Rattle.std.specs.Prelude.{◌≡◌, ◌<◌, ◌==◌, if◌then◌else◌, [], ◌∷◌};
ghost use Rattle.sparc_step.specs.Registers.{register_at};
ghost use Rattle.xm_traces.specs.Ring.{noted};
ghost use Rattle.machine_model.specs.Caller.{Acts, answering, caller_bytes, not_available, with_answer};
ghost use Rattle.machine_model.specs.LogCalls.{hm_read, hm_status, raise_event, trace_event, trace_read, trace_status};
ghost use Rattle.machine_model.specs.Emission.{NotKept, Nothing, Trace, Unseen};
ghost use Rattle.system_state.specs.Serving.{IsCaller, IsServed, MayRead, caller_of};
ghost use Rattle.system_state.specs.State.{part_at};

use crate::acting::{act, show_named};
use system_state::answering::{
    A, B, C, NO_ACTION, NOT_AVAILABLE, OUT_0, answer, argument, read, refused_if, target, text,
};
use system_state::structures::{counts_bytes, health_bytes, trace_bytes};
use system_state::{Act, CallSite, Note, Served, Sys, engine};
use xm_base::proof;
use xm_conf::Event;
use xm_traces::TraceEntry;

/// Call 24, XM_trace_event(a, b): entered where a bit of a is in the partition's trace mask.
#[tactic(auto, unfolding(machine_model::specs::LogCalls::trace_event))]
pub fn trace_event(sys: &mut Sys, site: CallSite) -> Served
    // Called for a caller that exists and with room for the number of one more trace entry.
    requires caller { IsCaller site sys.old }
    requires traces { (part_at site.part sys.old.machine).traces.next < 4294967295 }
    // Call 24, `XM_trace_event`: an entry of the caller's traces, where its mask has one of the bits; it is reported.
    ensures { IsServed site.part Unseen (trace_event (caller_of site sys.old)) result sys.old sys.new }
{
    let bits = argument(sys, site, A);
    let at = argument(sys, site, B);
    if let Some(code) = text(sys, site, at, 8) {
        return answer(sys, site, code);
    }
    if let Some(code) = refused_if(bits & trace_mask(sys, site) == 0, NO_ACTION) {
        return answer(sys, site, code);
    }
    let entry = trace_entry(sys, site, bits, at);
    enter(sys, site, entry)
}

// The events that the caller traces, a bit each.
#[tactic(auto, unfolding(system_state::specs::Serving::caller_of, machine_model::specs::View::view_of, machine_model::specs::View::part_of))]
fn trace_mask(sys: &Sys, site: CallSite) -> u32
    requires { IsCaller site sys.now }
    ensures { result ≡ (caller_of site sys.now).view.part.trace_mask }
{
    // As many partitions run as are configured.
    proof! { let _count = sys.count(); }
    sys.conf().raw().parts[usize::from(site.part)].trace_mask
}

// The trace entry of a call, with the 8 bytes at an address.
#[tactic(auto, unfolding(system_state::specs::Serving::caller_of))]
fn trace_entry(sys: &Sys, site: CallSite, bits: u32, at: u32) -> TraceEntry
    requires caller { IsCaller site sys.now }
    requires readable { MayRead (caller_of site sys.now) at 8 }
    ensures { result ≡ record { time = (caller_of site sys.now).time; bits = bits; seq = (caller_of site sys.now).state.traces.next; load = caller_bytes (caller_of site sys.now) at 8 } }
{
    let mut load = [0; 8];
    read(sys, site, at, &mut load);
    TraceEntry {
        time: sys.now(),
        bits,
        seq: sys.part(site.part).traces.counts().next,
        load,
    }
}

// The caller's entry is noted and emitted.
#[tactic(auto, unfolding(system_state::specs::Serving::caller_of, machine_model::specs::Caller::with_answer))]
fn enter(sys: &mut Sys, site: CallSite, entry: TraceEntry) -> Served
    requires caller { IsCaller site sys.old }
    requires traces { (part_at site.part sys.old.machine).traces.next < 4294967295 }
    ensures { IsServed site.part Unseen (record { after = with_answer 0 (record (caller_of site sys.old).state { traces = noted entry (caller_of site sys.old).state.traces }); emitted = Trace entry.bits entry.load ∷ []; upshot = Acts Nothing }) result sys.old sys.new }
{
    let own = sys.part_mut(site.part);
    own.traces.note(entry);
    own.core.set(OUT_0, 0);
    Served {
        note: Note::Trace(entry),
        act: Act::Nothing,
    }
}

/// Call 25, XM_trace_read(a, b, c): entry number b of partition a's traces, at c.
#[tactic(auto, using(crate::proofs::ShownLemmas::trace_read_sight, crate::proofs::ActLemmas::trace_read_wants), unfolding(machine_model::specs::LogCalls::trace_read))]
pub fn trace_read(sys: &mut Sys, site: CallSite) -> Served
    // Called for a caller that exists whose call is 25.
    requires caller { IsCaller site sys.old }
    requires number { register_at (caller_of site sys.old).state.core 8 ≡ 25 }
    // Call 25, `XM_trace_read`: an entry of the traces of the partition that is named is written.
    ensures { IsServed site.part (caller_of site sys.old).sight (trace_read (caller_of site sys.old)) result sys.old sys.new }
{
    let id = argument(sys, site, A);
    let number = argument(sys, site, B);
    let at = argument(sys, site, C);
    if let Some(code) = target(sys, site, id) {
        return answer(sys, site, code);
    }
    match sys.part(id as u8).traces.read(number) {
        Some(entry) => show_named(sys, site, id, at, trace_bytes(&entry).bytes()),
        None => miss(sys, site, id),
    }
}

// An entry of the log of a partition is not kept.
fn miss(sys: &mut Sys, site: CallSite, id: u32) -> Served
    requires { IsCaller site sys.old }
    ensures { IsServed site.part (if id == site.part then Unseen else NotKept) (answering not_available (caller_of site sys.old).state) result sys.old sys.new }
{
    if id == u32::from(site.part) {
        answer(sys, site, NOT_AVAILABLE)
    } else {
        answer_not_kept(sys, site)
    }
}

// The caller is shown that an entry of another partition is not kept.
#[tactic(auto, unfolding(system_state::specs::Serving::caller_of, machine_model::specs::Caller::with_answer))]
fn answer_not_kept(sys: &mut Sys, site: CallSite) -> Served
    requires { IsCaller site sys.old }
    ensures { IsServed site.part NotKept (answering not_available (caller_of site sys.old).state) result sys.old sys.new }
{
    engine::set_result(sys, site.part, NOT_AVAILABLE);
    Served {
        note: Note::NotKept,
        act: Act::Nothing,
    }
}

/// Call 26, XM_trace_status(a, b): the counts of partition a's traces, at b.
#[tactic(auto, using(crate::proofs::ShownLemmas::trace_status_sight, crate::proofs::ActLemmas::trace_status_wants), unfolding(machine_model::specs::LogCalls::trace_status))]
pub fn trace_status(sys: &mut Sys, site: CallSite) -> Served
    // Called for a caller that exists whose call is 26.
    requires caller { IsCaller site sys.old }
    requires number { register_at (caller_of site sys.old).state.core 8 ≡ 26 }
    ensures { IsServed site.part (caller_of site sys.old).sight (trace_status (caller_of site sys.old)) result sys.old sys.new }
{
    let id = argument(sys, site, A);
    let at = argument(sys, site, B);
    if let Some(code) = target(sys, site, id) {
        return answer(sys, site, code);
    }
    let counts = counts_bytes(&sys.part(id as u8).traces);
    show_named(sys, site, id, at, counts.bytes())
}

/// Call 27, XM_hm_raise_event(a): the event PARTITION_ERROR with the word a.
#[tactic(auto, unfolding(machine_model::specs::LogCalls::raise_event))]
pub fn raise_event(sys: &mut Sys, site: CallSite) -> Served
    // Called for a caller that exists.
    requires { IsCaller site sys.old }
    ensures { IsServed site.part Unseen (raise_event (caller_of site sys.old)) result sys.old sys.new }
{
    let word = argument(sys, site, A);
    let event = Act::Event {
        event: Event::PartitionError,
        word,
    };
    act(sys, site, event, 0)
}

/// Call 28, XM_hm_read(a, b, c): entry number b of partition a's health log, at c.
#[tactic(auto, using(crate::proofs::ShownLemmas::health_read_sight, crate::proofs::ActLemmas::health_read_wants), unfolding(machine_model::specs::LogCalls::hm_read))]
pub fn hm_read(sys: &mut Sys, site: CallSite) -> Served
    // Called for a caller that exists whose call is 28.
    requires caller { IsCaller site sys.old }
    requires number { register_at (caller_of site sys.old).state.core 8 ≡ 28 }
    // Call 28, `XM_hm_read`: an entry of the health log of the partition that is named is written.
    ensures { IsServed site.part (caller_of site sys.old).sight (hm_read (caller_of site sys.old)) result sys.old sys.new }
{
    let id = argument(sys, site, A);
    let number = argument(sys, site, B);
    let at = argument(sys, site, C);
    if let Some(code) = target(sys, site, id) {
        return answer(sys, site, code);
    }
    match sys.part(id as u8).health.read(number) {
        Some(entry) => show_named(sys, site, id, at, health_bytes(&entry).bytes()),
        None => miss(sys, site, id),
    }
}

/// Call 29, XM_hm_status(a, b): the counts of partition a's health log, at b.
#[tactic(auto, using(crate::proofs::ShownLemmas::health_status_sight, crate::proofs::ActLemmas::health_status_wants), unfolding(machine_model::specs::LogCalls::hm_status))]
pub fn hm_status(sys: &mut Sys, site: CallSite) -> Served
    // Called for a caller that exists whose call is 29.
    requires caller { IsCaller site sys.old }
    requires number { register_at (caller_of site sys.old).state.core 8 ≡ 29 }
    ensures { IsServed site.part (caller_of site sys.old).sight (hm_status (caller_of site sys.old)) result sys.old sys.new }
{
    let id = argument(sys, site, A);
    let at = argument(sys, site, B);
    if let Some(code) = target(sys, site, id) {
        return answer(sys, site, code);
    }
    let counts = counts_bytes(&sys.part(id as u8).health);
    show_named(sys, site, id, at, counts.bytes())
}
