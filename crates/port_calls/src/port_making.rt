//! The calls that make ports: numbers 16 and 20.

ghost use Rattle.std.specs.Prelude.{◌≡◌, ◌==◌, Some, length, not, option_map};
ghost use Rattle.std.specs.List.{prefix_len};
ghost use Rattle.guest_bus.specs.Memory.{all_from, is_readable};
ghost use Rattle.machine_model.specs.Caller.{a_of};
ghost use Rattle.machine_model.specs.Partition.{areas_of};
ghost use Rattle.machine_model.specs.PortEffects.{create_refusal, creating, name_given};
ghost use Rattle.machine_model.specs.Emission.{Unseen};
ghost use Rattle.port_calls.specs.lemmas.PortNamesTerms.{AreReadable, name_in};
ghost use Rattle.port_calls.specs.PortNames.{creation_on};
ghost use Rattle.system_state.specs.Serving.{IsCaller, IsServed, caller_of};

use system_state::answering::{
    A, B, C, D, INVALID_CONFIGURATION, INVALID_PARAMETER, NO_ACTION, answer, argument, read, text,
};
use system_state::{CallSite, Served, Sys};
use xm_conf::Kind;
use xm_ports::CreateFault;

/// How many bytes a name has at most, with the zero byte that ends it.
const NAME_BYTES: usize = 32;

/// What a call wants of the port that it makes. The number of messages is that of a queue.
#[derive(Clone, Copy, Debug)]
struct Wanted {
    kind: Kind,
    way: u32,
    length: u32,
    most: u32,
}

/// Calls 16, XM_create_sampling_port(a, b, c), and 20, XM_create_queuing_port(a, b, c, d), by the kind of the port: the name at a, messages
/// of b bytes, the way c; or b messages of c bytes, the way d.
#[tactic(auto, unfolding(machine_model::specs::PortCalls::create_sampling_port, machine_model::specs::PortCalls::create_queuing_port))]
pub fn create_port(sys: &mut Sys, site: CallSite, kind: Kind) -> Served
    // Called for a caller that exists.
    requires { IsCaller site sys.old }
    // Call 16, `XM_create_sampling_port`: the port of that name, length and way is made, and its number is the result.
    // Call 20, `XM_create_queuing_port`: so for a queue, which has the number of messages, too.
    ensures { IsServed site.part Unseen (creation_on kind (caller_of site sys.old)) result sys.old sys.new }
{
    let b = argument(sys, site, B);
    let c = argument(sys, site, C);
    let d = argument(sys, site, D);
    match kind {
        Kind::Sampling => {
            let wanted = Wanted {
                kind: Kind::Sampling,
                way: c,
                length: b,
                most: 0,
            };
            create(sys, site, wanted)
        }
        Kind::Queuing => {
            let wanted = Wanted {
                kind: Kind::Queuing,
                way: d,
                length: c,
                most: b,
            };
            create(sys, site, wanted)
        }
    }
}

/// Makes the port whose name the call gives by its first argument.
fn create(sys: &mut Sys, site: CallSite, wanted: Wanted) -> Served
    requires { IsCaller site sys.old }
    ensures { IsServed site.part Unseen (creating wanted.kind wanted.way wanted.length wanted.most (name_given (caller_of site sys.old)) (caller_of site sys.old)) result sys.old sys.new }
{
    let mut buffer = [0; NAME_BYTES];
    let count = readable(sys, site, argument(sys, site, A));
    create_by(sys, site, &mut buffer[..count], wanted)
}

/// Makes the port whose name stands in the bytes that the caller may read.
fn create_by(sys: &mut Sys, site: CallSite, bytes: &mut [u8], wanted: Wanted) -> Served
    requires caller { IsCaller site sys.old }
    requires readable { AreReadable (is_readable (areas_of (caller_of site sys.old).view)) (a_of (caller_of site sys.old)) 32 (length bytes.old) }
    ensures { IsServed site.part Unseen (creating wanted.kind wanted.way wanted.length wanted.most (name_given (caller_of site sys.old)) (caller_of site sys.old)) result sys.old sys.new }
{
    let address = argument(sys, site, A);
    read(sys, site, address, bytes);
    match name_in(bytes) {
        Some(name) => create_named(sys, site, name, wanted),
        None => answer(sys, site, INVALID_PARAMETER),
    }
}

/// Makes the port of a name.
fn create_named(sys: &mut Sys, site: CallSite, name: &[u8], wanted: Wanted) -> Served
    requires { IsCaller site sys.old }
    ensures { IsServed site.part Unseen (creating wanted.kind wanted.way wanted.length wanted.most (Some name.now) (caller_of site sys.old)) result sys.old sys.new }
{
    let Wanted {
        kind,
        way,
        length,
        most,
    } = wanted;
    match sys.create_port(site.part, name, kind, way, length, most) {
        Ok(port) => answer(sys, site, u32::from(port)),
        Err(fault) => answer(sys, site, create_refusal(fault)),
    }
}

/// The result that says why a port was not made.
fn create_refusal(fault: CreateFault) -> u32
    ensures { result ≡ create_refusal fault }
{
    match fault {
        CreateFault::NoPort | CreateFault::Differs | CreateFault::NoChannel => {
            INVALID_CONFIGURATION
        }
        CreateFault::Already => NO_ACTION,
    }
}

/// How many bytes from an address on the caller may read, up to those of a name.
fn readable(sys: &Sys, site: CallSite, address: u32) -> usize
    requires { IsCaller site sys.now }
    ensures { AreReadable (is_readable (areas_of (caller_of site sys.now).view)) address 32 result }
{
    for count in 0..NAME_BYTES {
        if !may_read(sys, site, address, count as u32 + 1) {
            return count;
        }
    }
    NAME_BYTES
}

/// Whether the caller may read this many bytes from an address on.
fn may_read(sys: &Sys, site: CallSite, address: u32, size: u32) -> bool
    requires { IsCaller site sys.now }
    ensures { result ≡ all_from (is_readable (areas_of (caller_of site sys.now).view)) address size }
{
    text(sys, site, address, size).is_none()
}

/// The bytes before the first zero byte, where there is one.
fn name_in(bytes: &[u8]) -> Option<&[u8]>
    ensures { option_map (λ name. name.now) result ≡ name_in bytes.now }
{
    let count = text_length(bytes);
    if count < bytes.len() {
        Some(&bytes[..count])
    } else {
        None
    }
}

/// How many bytes stand before the first zero byte.
fn text_length(bytes: &[u8]) -> usize
    ensures { result ≡ prefix_len (λ byte. not (byte == 0)) bytes.now }
{
    bytes.iter().take_while(|byte| is_text(**byte)).count()
}

/// Whether a byte stands in a name.
fn is_text(byte: u8) -> bool
    ensures { result ≡ not (byte == 0) }
{
    byte != 0
}
