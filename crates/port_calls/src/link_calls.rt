//! The call on links: number 38.

ghost use Rattle.std.specs.Prelude.{◌≡◌, IfSome, Some};
ghost use Rattle.machine_model.specs.Caller.{a_of};
ghost use Rattle.machine_model.specs.LinkCalls.{raise_ipvi};
ghost use Rattle.machine_model.specs.Emission.{Unseen};
ghost use Rattle.xm_conf.specs.View.{link_of};
ghost use Rattle.port_calls.specs.lemmas.Links.{GoesTo};
ghost use Rattle.system_state.specs.Serving.{IsCaller, IsServed, caller_of};

use crate::message_calls::set_result;
use crate::traffic::signal;
use system_state::answering::{A, INVALID_PARAMETER, answer, argument};
use system_state::{Act, CallSite, Note, Served, Sys};
use xm_base::{PartId, proof};
use xm_conf::{Conf, LINK_NUMBERS};

/// Call 38, XM_raise_ipvi(a): a signal over the caller's link of number a.
pub fn raise_ipvi(sys: &mut Sys, site: CallSite) -> Served
    // Called for a caller that exists.
    requires { IsCaller site sys.old }
    // Call 38, `XM_raise_ipvi`: interrupt 8 and the link's number is pending at the partition to which the caller's
    // link of the number goes, unless that has halted.
    ensures { IsServed site.part Unseen (raise_ipvi (caller_of site sys.old)) result sys.old sys.new }
{
    let number = argument(sys, site, A);
    match found_link(sys.conf(), site.part, number) {
        Some(dest) => signal_over(sys, site, number as u8, dest),
        None => answer(sys, site, INVALID_PARAMETER),
    }
}

/// Where a partition's link of a number goes, where the partition has one.
fn found_link(conf: &Conf, p: PartId, number: u32) -> Option<PartId>
    ensures value { result ≡ link_of conf.now p number }
    ensures goes { IfSome result (λ dest. GoesTo conf.now p number dest) }
{
    // Its contract says that the links meet the rules.
    proof! { let _links = &conf.raw().links; }
    if number < u32::from(LINK_NUMBERS) {
        conf.link_of(p, number as u8)
    } else {
        None
    }
}

/// The call over a link of the caller that goes to a partition.
fn signal_over(sys: &mut Sys, site: CallSite, number: u8, dest: PartId) -> Served
    requires caller { IsCaller site sys.old }
    requires number { a_of (caller_of site sys.old) ≡ number }
    requires found { link_of sys.old.machine.system.conf site.part number ≡ Some dest }
    requires goes { GoesTo sys.old.machine.system.conf site.part number dest }
    ensures { IsServed site.part Unseen (raise_ipvi (caller_of site sys.old)) result sys.old sys.new }
{
    set_result(sys, site, 0);
    // As many partitions run as are configured.
    proof! { let _count = sys.count(); }
    signal(sys, dest, number);
    Served {
        note: Note::Signal { number },
        act: Act::Nothing,
    }
}
