//! Calls that reach beyond their caller, and those that show it something of the rest of the system.

ghost use Rattle.std.specs.Prelude.{◌≡◌, ◌<◌, ◌==◌, if◌then◌else◌, true, [], ◌∷◌, length};
ghost use Rattle.machine_model.specs.Caller.{answering, is_room, room, tested, with_answer, with_written};
ghost use Rattle.machine_model.specs.Emission.{Unseen, Words};
ghost use Rattle.system_state.specs.Serving.{HasEvent, IsCaller, IsServed, IsUponOne, WantsAt, caller_of, upshot_of};
ghost use Rattle.system_state.specs.lemmas.Shown.{seen_when};

use system_state::answering::{answer, answer_written, room, write};
use system_state::{Act, CallSite, Note, Served, Sys, engine};

/// A call that answers with a result and reaches beyond its caller.
#[tactic(auto, unfolding(system_state::specs::Serving::caller_of, machine_model::specs::Caller::with_answer))]
pub(crate) fn act(sys: &mut Sys, site: CallSite, act: Act, value: u32) -> Served
    requires caller { IsCaller site sys.old }
    requires one { IsUponOne act sys.old }
    requires event { HasEvent act }
    ensures { IsServed site.part Unseen (record { after = with_answer value (caller_of site sys.old).state; emitted = []; upshot = upshot_of act }) result sys.old sys.new }
{
    engine::set_result(sys, site.part, value);
    Served {
        note: Note::Nothing,
        act,
    }
}

/// An observing call: it writes bytes that its caller is shown of the rest of the system, and answers with a result.
#[tactic(auto, unfolding(system_state::specs::Serving::caller_of, machine_model::specs::Caller::with_answer))]
pub(crate) fn show(
    sys: &mut Sys,
    site: CallSite,
    address: u32,
    bytes: &[u8],
    act: Act,
    value: u32,
) -> Served
    requires caller { IsCaller site sys.old }
    requires one { IsUponOne act sys.old }
    requires event { HasEvent act }
    requires wanted { WantsAt (caller_of site sys.old).view (caller_of site sys.old).state.core address }
    requires few { length bytes.now < 65536 }
    requires room { is_room (caller_of site sys.old) address (length bytes.now) ≡ true }
    ensures { IsServed site.part (Words bytes.now) (record { after = with_answer value (with_written address bytes.now (caller_of site sys.old).state); emitted = []; upshot = upshot_of act }) result sys.old sys.new }
{
    write(sys, site, address, bytes);
    engine::set_result(sys, site.part, value);
    Served {
        note: Note::Saw {
            at: address,
            size: bytes.len() as u32,
        },
        act,
    }
}

/// Bytes of the state of the partition that a call names are written to an address, where there is room for them.
pub(crate) fn show_named(sys: &mut Sys, site: CallSite, id: u32, at: u32, bytes: &[u8]) -> Served
    requires caller { IsCaller site sys.old }
    requires wanted { WantsAt (caller_of site sys.old).view (caller_of site sys.old).state.core at }
    requires few { length bytes.now < 65536 }
    ensures { IsServed site.part (seen_when (room (caller_of site sys.old) at (length bytes.now) ∷ []) (if id == site.part then Unseen else Words bytes.now)) (tested (room (caller_of site sys.old) at (length bytes.now) ∷ []) (caller_of site sys.old) (answering 0 (with_written at bytes.now (caller_of site sys.old).state))) result sys.old sys.new }
{
    if let Some(code) = room(sys, site, at, bytes.len() as u32) {
        return answer(sys, site, code);
    }
    if id == u32::from(site.part) {
        answer_written(sys, site, at, bytes, 0)
    } else {
        show(sys, site, at, bytes, Act::Nothing, 0)
    }
}
