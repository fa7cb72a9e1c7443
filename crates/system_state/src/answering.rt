//! What calls are given, the tests that they make, and how they answer.

ghost use Rattle.std.specs.Prelude.{◌≡◌, ◌+◌, ◌<◌, true, IfNone, length};
ghost use Rattle.sparc_step.specs.Registers.{register_at};
ghost use Rattle.machine_model.specs.Caller.{answering, caller_bytes, is_room, refused_if, room, system_only, target, text, with_written};
ghost use Rattle.machine_model.specs.Emission.{Unseen};
ghost use Rattle.system_state.specs.Serving.{IsCaller, IsServed, MayRead, caller_of};
ghost use Rattle.system_state.specs.State.{with_machine, with_part};
ghost use Rattle.xm_conf.specs.Limits.{most_parts};

use crate::call_site::CallSite;
use crate::served::{Act, Note, Served};
use crate::sys::{Sys, engine};
use xm_base::proof;

/// The register that has a hypercall's number, and gets its result.
pub const OUT_0: u8 = 8;

/// The first argument of a call, by its number; argument 0 is the call's own number.
pub const A: u8 = 1;

/// The second argument.
pub const B: u8 = 2;

/// The third argument.
pub const C: u8 = 3;

/// The fourth argument.
pub const D: u8 = 4;

/// The fifth argument.
pub const E: u8 = 5;

/// A result: there is nothing to do, or nothing there.
pub const NO_ACTION: u32 = 0xffff_ffff;

/// A result: no call has this number.
pub const UNKNOWN_CALL: u32 = 0xffff_fffe;

/// A result: an argument is invalid.
pub const INVALID_PARAMETER: u32 = 0xffff_fffd;

/// A result: the caller may not do it.
pub const NO_PERMISSION: u32 = 0xffff_fffc;

/// A result: the configuration has it otherwise.
pub const INVALID_CONFIGURATION: u32 = 0xffff_fffb;

/// A result: a reset is neither cold nor warm.
pub const INVALID_MODE: u32 = 0xffff_fffa;

/// A result: it is not available.
pub const NOT_AVAILABLE: u32 = 0xffff_fff9;

/// A result: the port does not do it.
pub const NOT_ALLOWED: u32 = 0xffff_fff8;

/// A call's number, which is argument 0, or an argument.
#[tactic(auto, unfolding(crate::specs::Serving::caller_of))]
pub fn argument(sys: &Sys, site: CallSite, k: u8) -> u32
    // Called for a caller that exists and for an argument up to 5.
    requires caller { IsCaller site sys.now }
    requires register { k < 6 }
    // The argument of the call that has this number.
    ensures value { result ≡ register_at (caller_of site sys.now).state.core (8 + k) }
{
    sys.part(site.part).core.get(OUT_0 + k)
}

/// A refusal where it is so.
pub fn refused_if(is: bool, code: u32) -> Option<u32>
    ensures { result ≡ refused_if is code }
{
    if is { Some(code) } else { None }
}

/// Whether the caller has the system flag.
#[tactic(auto, unfolding(crate::specs::Serving::caller_of, machine_model::specs::View::view_of, machine_model::specs::View::part_of))]
pub fn is_system(sys: &Sys, site: CallSite) -> bool
    // Called for a caller that exists.
    requires { IsCaller site sys.now }
    ensures { result ≡ (caller_of site sys.now).view.part.system }
{
    proof! { let _count = sys.count(); }
    sys.conf().raw().parts[usize::from(site.part)].system
}

/// Only a system partition may call.
pub fn system_only(sys: &Sys, site: CallSite) -> Option<u32>
    // Called for a caller that exists.
    requires { IsCaller site sys.now }
    ensures { result ≡ system_only (caller_of site sys.now) }
{
    refused_if(!is_system(sys, site), NO_PERMISSION)
}

/// A partition that may be named is the caller; for a system partition it is any that there is.
#[tactic(auto, unfolding(crate::specs::Serving::caller_of, machine_model::specs::View::view_of))]
pub fn target(sys: &Sys, site: CallSite, id: u32) -> Option<u32>
    // Called for a caller that exists.
    requires { IsCaller site sys.now }
    // The refusal that the definition gives for this partition number, or none.
    ensures value { result ≡ target (caller_of site sys.now) id }
    // Where there is none, the partition exists.
    ensures there { IfNone result (id < length sys.now.machine.parts) }
    // Where there is none, the number is below the limit.
    ensures few { IfNone result (id < most_parts) }
{
    let count = u32::from(sys.count());
    if id == u32::from(site.part) {
        None
    } else if !is_system(sys, site) {
        Some(NO_PERMISSION)
    } else {
        refused_if(id >= count, INVALID_PARAMETER)
    }
}

/// All of this many bytes from an address on may be written.
#[tactic(auto, unfolding(crate::specs::Serving::caller_of))]
pub fn room(sys: &Sys, site: CallSite, address: u32, size: u32) -> Option<u32>
    // Called for a caller that exists.
    requires { IsCaller site sys.now }
    ensures { result ≡ room (caller_of site sys.now) address size }
{
    refused_if(!sys.may_write(site.part, address, size), INVALID_PARAMETER)
}

/// All of this many bytes from an address on may be read.
#[tactic(auto, unfolding(crate::specs::Serving::caller_of))]
pub fn text(sys: &Sys, site: CallSite, address: u32, size: u32) -> Option<u32>
    // Called for a caller that exists.
    requires { IsCaller site sys.now }
    ensures { result ≡ text (caller_of site sys.now) address size }
{
    refused_if(!sys.may_read(site.part, address, size), INVALID_PARAMETER)
}

/// Reads bytes of the caller's memory, all of which it may read.
#[tactic(auto, unfolding(crate::specs::Serving::caller_of))]
pub fn read(sys: &Sys, site: CallSite, address: u32, into: &mut [u8])
    // Called for a caller that exists and with a range that the caller may read.
    requires caller { IsCaller site sys.now }
    requires readable { MayRead (caller_of site sys.now) address (length into.old) }
    ensures { into.new ≡ caller_bytes (caller_of site sys.now) address (length into.old) }
{
    // Its contract says that there is a memory for each partition.
    proof! { let _count = sys.count(); }
    match sys.ram().copy_in(site.part, address, into) {
        Ok(()) => {}
        Err(_) => unreachable!(),
    }
}

/// Writes bytes to the caller's memory, all of which it may write.
#[tactic(auto, unfolding(crate::specs::Serving::caller_of))]
pub fn write(sys: &mut Sys, site: CallSite, address: u32, bytes: &[u8])
    // Called for a caller that exists and with a range that the caller may write.
    requires caller { IsCaller site sys.old }
    requires room { is_room (caller_of site sys.old) address (length bytes.now) ≡ true }
    ensures { sys.new ≡ with_machine (with_part site.part (with_written address bytes.now (caller_of site sys.old).state) sys.old.machine) sys.old }
{
    match sys.copy_to(site.part, address, bytes) {
        Ok(()) => {}
        Err(_) => unreachable!(),
    }
}

/// A call that answers with a result and does nothing else.
#[tactic(auto, unfolding(crate::specs::Serving::caller_of, machine_model::specs::Caller::with_answer))]
pub fn answer(sys: &mut Sys, site: CallSite, value: u32) -> Served
    // Called for a caller that exists.
    requires { IsCaller site sys.old }
    ensures { IsServed site.part Unseen (answering value (caller_of site sys.old).state) result sys.old sys.new }
{
    engine::set_result(sys, site.part, value);
    Served {
        note: Note::Nothing,
        act: Act::Nothing,
    }
}

/// A call that writes bytes of its caller's own, and answers with a result.
#[tactic(auto, unfolding(crate::specs::Serving::caller_of, machine_model::specs::Caller::with_answer))]
pub fn answer_written(
    sys: &mut Sys,
    site: CallSite,
    address: u32,
    bytes: &[u8],
    value: u32,
) -> Served
    // Called for a caller that exists and with a range that the caller may write.
    requires caller { IsCaller site sys.old }
    requires room { is_room (caller_of site sys.old) address (length bytes.now) ≡ true }
    ensures { IsServed site.part Unseen (answering value (with_written address bytes.now (caller_of site sys.old).state)) result sys.old sys.new }
{
    write(sys, site, address, bytes);
    engine::set_result(sys, site.part, value);
    Served {
        note: Note::Nothing,
        act: Act::Nothing,
    }
}
