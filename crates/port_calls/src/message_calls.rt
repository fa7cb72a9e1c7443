//! The calls on messages: numbers 17, 18, 21 and 22.

ghost use Rattle.std.specs.Prelude.{◌≡◌, ◌<◌, ◌≤◌, ◌-◌, true, IfSome, None, Some, length, option_map, slice_get};
ghost use Rattle.guest_bus.specs.Memory.{all_from, bytes_at, is_readable};
ghost use Rattle.xm_ports.specs.Channels.{HasQueue, HasSampling, IsMessage, IsTable, content_at, first_message, sample_of, shapes_of};
ghost use Rattle.span_model.specs.Passes.{with_traffic};
ghost use Rattle.machine_model.specs.Caller.{c_of, with_answer};
ghost use Rattle.machine_model.specs.PortEffects.{is_full, is_source};
ghost use Rattle.machine_model.specs.lemmas.PortCallsTerms.{putting};
ghost use Rattle.machine_model.specs.Structures.{flag, is_valid, refresh_of};
ghost use Rattle.machine_model.specs.Emission.{Unseen};
ghost use Rattle.machine_model.specs.Traffic.{Puts};
ghost use Rattle.machine_model.specs.View.{named};
ghost use Rattle.xm_conf.specs.declared.port.Kind.TheVariants as the_kind;
ghost use Rattle.port_calls.specs.lemmas.MadePortsTerms.{HasKind, IsMade, port_in};
ghost use Rattle.port_calls.specs.MadePorts.{table_in};
ghost use Rattle.port_calls.specs.lemmas.Messages.{HasRoomFor, IsHeadOf, first_refusal, message_tests, put_tests, sample_tests};
ghost use Rattle.port_calls.specs.lemmas.OnPortsTerms.{done_on, held_in, is_filled};
ghost use Rattle.port_calls.specs.declared.on_ports.PortWork.TheVariants as work;
ghost use Rattle.system_state.specs.Serving.{IsCaller, IsServed, caller_of};
ghost use Rattle.system_state.specs.State.{areas_in, memory_of, with_machine, with_part};

use crate::made_ports::{MadePort, most_of, refresh_of};
use crate::traffic::{drop_first, put_sampling_from, send_from};
use system_state::answering::{
    B, C, D, INVALID_PARAMETER, NO_ACTION, NOT_ALLOWED, NOT_AVAILABLE, answer, answer_written,
    argument, room, text,
};
use system_state::structures::validity;
use system_state::{Act, CallSite, Note, Served, Sys, engine, messages};
use xm_base::PartId;
use xm_conf::{ChanKind, Kind, Way};

/// Calls 17, XM_write_sampling_message(a, b, c), and 21, XM_send_queuing_message(a, b, c), on a made port: c bytes at b.
pub(crate) fn send_on(sys: &mut Sys, site: CallSite, kind: Kind, port: MadePort) -> Served
    requires caller { IsCaller site sys.old }
    requires shapes { sys.old.shapes ≡ shapes_of sys.old.machine.system.conf }
    requires made { IsMade kind site.part sys.old port }
    ensures { IsServed site.part Unseen (done_on kind work.Send (caller_of site sys.old) (port_in site.part sys.old port)) result sys.old sys.new }
{
    if let Some(code) = put_refusal(sys, site, port) {
        return answer(sys, site, code);
    }
    if is_filled(sys, site, kind, port) {
        return answer(sys, site, NOT_AVAILABLE);
    }
    put_message(sys, site, port)
}

/// Why the call's message is not put into a port's channel, where it is refused.
fn put_refusal(sys: &Sys, site: CallSite, port: MadePort) -> Option<u32>
    requires { IsCaller site sys.now }
    ensures { result ≡ first_refusal (put_tests (caller_of site sys.now) (port_in site.part sys.now port)) }
{
    let size = argument(sys, site, C);
    if !is_source(port.way) {
        return Some(NOT_ALLOWED);
    }
    if size == 0 || size > u32::from(port.length) {
        return Some(INVALID_PARAMETER);
    }
    text(sys, site, argument(sys, site, B), size)
}

/// Whether a port is a source.
fn is_source(way: Way) -> bool
    ensures { result ≡ is_source way }
{
    match way {
        Way::Source => true,
        Way::Destination => false,
    }
}

/// Whether a port of a kind has no room for a further message. A sampling port always has.
fn is_filled(sys: &Sys, site: CallSite, kind: Kind, port: MadePort) -> bool
    requires { HasKind kind port.chan (table_in sys.now) }
    ensures { result ≡ is_filled kind (port_in site.part sys.now port) }
{
    match kind {
        Kind::Sampling => false,
        Kind::Queuing => is_full(sys, site, port),
    }
}

/// Whether the queue of a port holds as many messages as it may.
fn is_full(sys: &Sys, site: CallSite, port: MadePort) -> bool
    requires { HasQueue port.chan (table_in sys.now) }
    ensures { result ≡ is_full (port_in site.part sys.now port) }
{
    usize::from(most_of(port.kind)) <= sys.channels().count(port.chan)
}

/// The call's message is put into a port's channel.
fn put_message(sys: &mut Sys, site: CallSite, port: MadePort) -> Served
    requires caller { IsCaller site sys.old }
    requires shapes { sys.old.shapes ≡ shapes_of sys.old.machine.system.conf }
    requires named { named sys.old.machine.system.conf site.part (port_in site.part sys.old port).name ≡ Some port.chan }
    requires shaped { slice_get sys.old.shapes port.chan ≡ Some (record { kind = port.kind; length = port.length }) }
    requires tests { first_refusal (put_tests (caller_of site sys.old) (port_in site.part sys.old port)) ≡ None }
    requires few { c_of (caller_of site sys.old) ≤ 4096 }
    requires room { HasRoomFor port.kind port.chan sys.old }
    ensures { IsServed site.part Unseen (putting (caller_of site sys.old) (port_in site.part sys.old port)) result sys.old sys.new }
{
    let at = argument(sys, site, B);
    let size = argument(sys, site, C);
    set_result(sys, site, 0);
    put_bytes(sys, site.part, port, at, size);
    Served {
        note: Note::Put {
            chan: port.chan,
            at,
            size,
        },
        act: Act::Nothing,
    }
}

/// Puts bytes of a partition's memory into a port's channel.
fn put_bytes(sys: &mut Sys, p: PartId, port: MadePort, at: u32, size: u32)
    requires partition { p < length sys.old.machine.parts }
    requires few { size ≤ 4096 }
    requires readable { all_from (is_readable (areas_in p sys.old.machine)) at size ≡ true }
    requires shapes { sys.old.shapes ≡ shapes_of sys.old.machine.system.conf }
    requires shaped { slice_get sys.old.shapes port.chan ≡ Some (record { kind = port.kind; length = port.length }) }
    requires bytes { IsMessage port.length (bytes_at (memory_of p sys.old.machine) at size) }
    requires room { HasRoomFor port.kind port.chan sys.old }
    ensures { sys.new ≡ with_machine (with_traffic (Puts port.chan (bytes_at (memory_of p sys.old.machine) at size)) sys.old.machine) sys.old }
{
    match port.kind {
        ChanKind::Sampling { refresh: _ } => put_sampling_from(sys, port.chan, p, at, size),
        ChanKind::Queuing { most: _ } => match send_from(sys, port.chan, p, at, size) {
            Ok(()) => {}
            Err(_) => unreachable!(),
        },
    }
}

/// Sets the result of a call.
#[tactic(auto, unfolding(system_state::specs::Serving::caller_of, machine_model::specs::Caller::with_answer))]
pub(crate) fn set_result(sys: &mut Sys, site: CallSite, value: u32)
    requires { IsCaller site sys.old }
    ensures { sys.new ≡ with_machine (with_part site.part (with_answer value (caller_of site sys.old).state) sys.old.machine) sys.old }
{
    engine::set_result(sys, site.part, value);
}

/// Calls 18, XM_read_sampling_message(a, b, c, d), and 22, XM_receive_queuing_message(a, b, c), on a made port: into c bytes at b, and
/// the validity of a sample at d.
pub(crate) fn receive_on(sys: &mut Sys, site: CallSite, kind: Kind, port: MadePort) -> Served
    requires caller { IsCaller site sys.old }
    requires made { IsMade kind site.part sys.old port }
    ensures { IsServed site.part Unseen (done_on kind work.Receive (caller_of site sys.old) (port_in site.part sys.old port)) result sys.old sys.new }
{
    if is_source(port.way) {
        return answer(sys, site, NOT_ALLOWED);
    }
    read_held(sys, site, kind, port)
}

/// Reads the message that a port holds, where it holds one.
fn read_held(sys: &mut Sys, site: CallSite, kind: Kind, port: MadePort) -> Served
    requires caller { IsCaller site sys.old }
    requires made { IsMade kind site.part sys.old port }
    ensures { IsServed site.part Unseen (held_in kind (caller_of site sys.old) (port_in site.part sys.old port)) result sys.old sys.new }
{
    match kind {
        Kind::Sampling => read_held_sample(sys, site, port),
        Kind::Queuing => read_first(sys, site, port),
    }
}

/// Reads the message of a sampling port, where there is one.
fn read_held_sample(sys: &mut Sys, site: CallSite, port: MadePort) -> Served
    requires caller { IsCaller site sys.old }
    requires made { IsMade the_kind.Sampling site.part sys.old port }
    ensures { IsServed site.part Unseen (held_in the_kind.Sampling (caller_of site sys.old) (port_in site.part sys.old port)) result sys.old sys.new }
{
    let Some((time, size)) = sample_head(sys, port.chan) else {
        return answer(sys, site, NO_ACTION);
    };
    read_sample(sys, site, port, time, size as u32)
}

/// When the message of a sampling channel was written, and how many bytes it has.
fn sample_head(sys: &Sys, chan: u8) -> Option<(u64, usize)>
    requires channel { HasSampling chan (table_in sys.now) }
    requires table { IsTable (table_in sys.now) }
    ensures value { IsHeadOf result (sample_of (content_at chan (table_in sys.now))) }
    ensures few { IfSome result (λ head. head.1 ≤ 4096) }
{
    let sample = sys.channels().get_sampling(chan)?;
    Some((sample.time, sample.bytes.len()))
}

/// Writes the message of a sampling port to the caller's memory, and whether it is valid.
fn read_sample(sys: &mut Sys, site: CallSite, port: MadePort, time: u64, size: u32) -> Served
    requires caller { IsCaller site sys.old }
    requires made { IsMade the_kind.Sampling site.part sys.old port }
    requires head { IsHeadOf (Some (time, size)) (sample_of (content_at port.chan (table_in sys.old))) }
    ensures { IsServed site.part Unseen (held_in the_kind.Sampling (caller_of site sys.old) (port_in site.part sys.old port)) result sys.old sys.new }
{
    if let Some(code) = sample_refusal(sys, site, size) {
        return answer(sys, site, code);
    }
    let valid = validity_at(port.kind, sys.now(), time);
    let at = argument(sys, site, D);
    let to = argument(sys, site, B);
    messages::write_sample(sys, port.chan, site.part, to);
    answer_written(sys, site, at, &valid.to_be_bytes(), size)
}

/// Why a message of this many bytes is not written to the caller's memory, with its validity, where that is refused.
fn sample_refusal(sys: &Sys, site: CallSite, size: u32) -> Option<u32>
    requires { IsCaller site sys.now }
    ensures { result ≡ first_refusal (sample_tests (caller_of site sys.now) size) }
{
    if argument(sys, site, C) < size {
        return Some(INVALID_PARAMETER);
    }
    if let Some(code) = room(sys, site, argument(sys, site, B), size) {
        return Some(code);
    }
    room(sys, site, argument(sys, site, D), 4)
}

/// Whether a message that was written at a time is valid at another, as a number.
fn validity_at(kind: ChanKind, now: u64, written: u64) -> u32
    ensures { result ≡ flag (is_valid (refresh_of kind) (now - written)) }
{
    validity(refresh_of(kind), now.saturating_sub(written))
}

/// Reads and takes the first message of a queuing port, where there is one.
fn read_first(sys: &mut Sys, site: CallSite, port: MadePort) -> Served
    requires caller { IsCaller site sys.old }
    requires made { IsMade the_kind.Queuing site.part sys.old port }
    ensures { IsServed site.part Unseen (held_in the_kind.Queuing (caller_of site sys.old) (port_in site.part sys.old port)) result sys.old sys.new }
{
    let Some(size) = first_size(sys, port.chan) else {
        return answer(sys, site, NOT_AVAILABLE);
    };
    read_message(sys, site, port, size as u32)
}

/// How many bytes the first message of a queue has.
fn first_size(sys: &Sys, chan: u8) -> Option<usize>
    requires channel { HasQueue chan (table_in sys.now) }
    requires table { IsTable (table_in sys.now) }
    ensures value { result ≡ option_map length (first_message (content_at chan (table_in sys.now))) }
    ensures few { IfSome result (λ size. size ≤ 4096) }
{
    let message = sys.channels().first(chan)?;
    Some(message.len())
}

/// Writes the first message of a queuing port to the caller's memory, and takes it from the queue.
fn read_message(sys: &mut Sys, site: CallSite, port: MadePort, size: u32) -> Served
    requires caller { IsCaller site sys.old }
    requires made { IsMade the_kind.Queuing site.part sys.old port }
    requires size { Some size ≡ option_map length (first_message (content_at port.chan (table_in sys.old))) }
    requires few { size ≤ 4096 }
    ensures { IsServed site.part Unseen (held_in the_kind.Queuing (caller_of site sys.old) (port_in site.part sys.old port)) result sys.old sys.new }
{
    if let Some(code) = message_refusal(sys, site, size) {
        return answer(sys, site, code);
    }
    let to = argument(sys, site, B);
    messages::write_first(sys, port.chan, site.part, to);
    set_result(sys, site, size);
    drop_first(sys, port.chan);
    Served {
        note: Note::Take { chan: port.chan },
        act: Act::Nothing,
    }
}

/// Why a message of this many bytes is not written to the caller's memory, where that is refused.
fn message_refusal(sys: &Sys, site: CallSite, size: u32) -> Option<u32>
    requires { IsCaller site sys.now }
    ensures { result ≡ first_refusal (message_tests (caller_of site sys.now) size) }
{
    if argument(sys, site, C) < size {
        return Some(INVALID_PARAMETER);
    }
    room(sys, site, argument(sys, site, B), size)
}
