//! The plan: a slot for each partition, whose duration is drawn.

ghost use Rattle.std.specs.Prelude.{◌≡◌, ◌<◌, IfOk};
ghost use Rattle.generated_system.specs.Generated.{next_drawn, generated_plan, slot_drawn, generated_slots};

use crate::parts::PARTS;
use std::alloc::Global;
use xm_base::Memory;
use xm_conf::{Plan, Slot};

/// The microseconds of the frame, and of each partition's share of it.
const FRAME: u32 = 16_000;

const SHARE: u32 = 1000;

/// What numbers are drawn by.
const MODULUS: u32 = 65537;

/// The plan of the system that is generated out of a number.
#[tactic(auto, unfolding(crate::specs::Generated::generated_plan))]
pub(crate) fn plan(alloc: Global, number: u32) -> Result<Plan, Memory>
    ensures { IfOk result (λ plan. plan ≡ generated_plan (generated_slots number)) }
{
    Ok(Plan {
        frame: FRAME,
        slots: slots(alloc, number)?,
    })
}

// Its slots.
#[tactic(auto, using(crate::proofs::NumberedLemmas::drawn_more, crate::proofs::NumberedLemmas::slots_more), unfolding(crate::specs::Generated::generated_slots))]
fn slots(alloc: Global, number: u32) -> Result<Vec<Slot>, Memory>
    ensures { IfOk result (λ slots. slots.items ≡ generated_slots number) }
{
    let mut slots = Vec::new(alloc);
    let mut drawn = number % MODULUS;
    for part in 0..PARTS {
        drawn = next_drawn(drawn);
        slots.push(slot(part, drawn))?;
    }
    Ok(slots)
}

// The number that is drawn after this one.
#[tactic(auto, unfolding(crate::specs::Generated::next_drawn))]
fn next_drawn(drawn: u32) -> u32
    requires { drawn < 65537 }
    ensures value { result ≡ next_drawn drawn }
    ensures below { result < 65537 }
{
    (75 * drawn + 74) % MODULUS
}

// The slot of a partition that lasts as long as a drawn number says.
#[tactic(auto, unfolding(crate::specs::Generated::slot_drawn))]
fn slot(part: u8, drawn: u32) -> Slot
    requires { part < 16 }
    ensures { result ≡ slot_drawn part drawn }
{
    Slot {
        start: SHARE * u32::from(part),
        duration: 100 + drawn % 901,
        part,
    }
}
