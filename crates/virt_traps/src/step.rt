//! One instruction, with the spill or the fill that it needs.

ghost use Rattle.std.specs.Prelude.{◌≡◌, ◌+◌, ◌%◌};
ghost use Rattle.virt_traps.specs.lemmas.MovesTerms.{CanMove, moved_by};
ghost use Rattle.virt_traps.specs.Settled.{FailsAlone, GoesOn, IsUndoneButSpill, after_trap, made_again, settled};

use crate::windows::{WindowMove, move_window};
use guest_bus::Bus;
use sparc_step::{Core, Processor, Turn};

// The trap of a SAVE whose window is the invalid one.
const OVERFLOW: u8 = 5;

// The trap of a RESTORE whose window is the invalid one.
const UNDERFLOW: u8 = 6;

/// Executes the instruction at `pc`. A window that it needs is spilled or filled before.
pub fn settle<B: Bus>(core: &mut Core, bus: &mut B) -> Turn
    // A step: one instruction with the spill or the fill that it needs.
    ensures turned { settled (B.areas bus.old) core.old (B.memory bus.old) ≡ record { turn = result; core = core.new; memory = B.memory bus.new } }
    // Window overflow and underflow come only where the spill or the fill was refused, and nothing changed then.
    ensures failed { FailsAlone result (B.areas bus.old) core.old core.new (B.memory bus.old) (B.memory bus.new) }
    // After another trap nothing changed, but for a spill that overwrote the word at pc.
    ensures trapped { IsUndoneButSpill result (B.areas bus.old) core.old core.new (B.memory bus.old) (B.memory bus.new) }
    // After a call the program resumes after it.
    ensures called { result ≡ Turn.Call → GoesOn core.old core.new }
    // Areas and the memories of others are as before.
    ensures areas { B.areas bus.new ≡ B.areas bus.old }
    ensures others { B.others bus.new ≡ B.others bus.old }
{
    let mut processor = Processor::of(core);
    let turn = settle_cached(&mut processor, bus);
    *core = processor.core();
    turn
}

/// The same on cached registers.
#[inline(always)]
#[tactic(auto, unfolding(crate::specs::Settled::settled))]
pub fn settle_cached<B: Bus>(processor: &mut Processor, bus: &mut B) -> Turn
    // A step: one instruction with the spill or the fill that it needs.
    ensures turn { result ≡ (settled (B.areas bus.old) processor.old (B.memory bus.old)).turn }
    ensures core { processor.new ≡ (settled (B.areas bus.old) processor.old (B.memory bus.old)).core }
    ensures memory { B.memory bus.new ≡ (settled (B.areas bus.old) processor.old (B.memory bus.old)).memory }
    // Window overflow and underflow come only where the spill or the fill was refused, and nothing changed then.
    ensures failed { FailsAlone result (B.areas bus.old) processor.old processor.new (B.memory bus.old) (B.memory bus.new) }
    // After another trap nothing changed, but for a spill that overwrote the word at pc.
    ensures trapped { IsUndoneButSpill result (B.areas bus.old) processor.old processor.new (B.memory bus.old) (B.memory bus.new) }
    // After a call the program resumes after it.
    ensures called { result ≡ Turn.Call → GoesOn processor.old processor.new }
    // Areas and the memories of others are as before.
    ensures areas { B.areas bus.new ≡ B.areas bus.old }
    ensures others { B.others bus.new ≡ B.others bus.old }
{
    match processor.turn(bus) {
        Turn::Went => Turn::Went,
        Turn::Trap(trap_type) => after_trap(processor, bus, trap_type),
        Turn::Call => Turn::Call,
    }
}

// The step after an instruction that trapped.
#[cold]
#[inline(never)]
#[tactic(auto, unfolding(crate::specs::Settled::after_trap))]
fn after_trap<B: Bus>(processor: &mut Processor, bus: &mut B, trap_type: u8) -> Turn
    requires overflow { trap_type ≡ 5 → (processor.old.cwp + 7) % 8 ≡ processor.old.inv }
    requires underflow { trap_type ≡ 6 → (processor.old.cwp + 1) % 8 ≡ processor.old.inv }
    ensures turn { result ≡ (after_trap trap_type (B.areas bus.old) processor.old (B.memory bus.old)).turn }
    ensures core { processor.new ≡ (after_trap trap_type (B.areas bus.old) processor.old (B.memory bus.old)).core }
    ensures memory { B.memory bus.new ≡ (after_trap trap_type (B.areas bus.old) processor.old (B.memory bus.old)).memory }
    ensures areas { B.areas bus.new ≡ B.areas bus.old }
    ensures others { B.others bus.new ≡ B.others bus.old }
{
    if trap_type == OVERFLOW {
        make_again(processor, bus, WindowMove::Spill, OVERFLOW)
    } else if trap_type == UNDERFLOW {
        make_again(processor, bus, WindowMove::Fill, UNDERFLOW)
    } else {
        Turn::Trap(trap_type)
    }
}

// The instruction again after the spill or the fill where that was made, else the window trap.
#[inline(never)]
#[tactic(auto, unfolding(crate::specs::Settled::made_again))]
fn make_again<B: Bus>(
    processor: &mut Processor,
    bus: &mut B,
    which: WindowMove,
    trap_type: u8,
) -> Turn
    requires { CanMove which processor.old }
    ensures turned { made_again trap_type (B.areas bus.old) (moved_by which (B.areas bus.old) processor.old (B.memory bus.old)) ≡ record { turn = result; core = processor.new; memory = B.memory bus.new } }
    ensures areas { B.areas bus.new ≡ B.areas bus.old }
    ensures others { B.others bus.new ≡ B.others bus.old }
{
    match move_window(processor, bus, which) {
        Ok(()) => processor.turn(bus),
        Err(_) => Turn::Trap(trap_type),
    }
}
