//! What is saved of the whole machine.

ghost use Rattle.std.specs.Prelude.{◌≡◌, ◌++◌, OnOk};
ghost use Rattle.machine_saves.specs.lemmas.SaveTerms.{asked_text, clock_text, machine_head_text};

use crate::fields::{put_byte, put_flag};
use cyclic_plans::PlanClock;
use file_headers::{put_double, put_word};
use system_state::Sys;
use xm_base::Memory;

/// Puts the digest of the container, the ticks, the hardware clock, the resets, whether the hypervisor has halted, and
/// the plan clock.
#[tactic(auto, unfolding(crate::specs::lemmas::SaveTerms::machine_head_text))]
pub(crate) fn put_machine_head(out: &mut Vec<u8>, sys: &Sys, container: &[u8]) -> Result<(), Memory>
    ensures { OnOk result (out.new.items ≡ out.old.items ++ machine_head_text container.now sys.now.machine) }
{
    out.extend_from_slice(container)?;
    put_double(out, sys.ticks())?;
    put_double(out, sys.now())?;
    put_word(out, sys.resets())?;
    put_flag(out, sys.halted())?;
    put_clock(out, sys.plan_clock())
}

/// Puts the plan that runs, when its frame began, and the plan that is asked for.
#[tactic(auto, unfolding(crate::specs::lemmas::SaveTerms::clock_text))]
fn put_clock(out: &mut Vec<u8>, clock: &PlanClock) -> Result<(), Memory>
    ensures { OnOk result (out.new.items ≡ out.old.items ++ clock_text clock.now) }
{
    put_byte(out, clock.plan())?;
    put_double(out, clock.frame_start())?;
    put_asked(out, clock.asked())
}

/// Puts whether a plan is asked for, and that plan, or 0.
#[tactic(auto, unfolding(crate::specs::lemmas::SaveTerms::asked_text))]
fn put_asked(out: &mut Vec<u8>, asked: Option<u8>) -> Result<(), Memory>
    ensures { OnOk result (out.new.items ≡ out.old.items ++ asked_text asked) }
{
    put_flag(out, asked.is_some())?;
    put_byte(out, asked.unwrap_or(0))
}
