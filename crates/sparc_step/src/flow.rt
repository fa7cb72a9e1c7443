//! Branches, calls, jumps, traps, and moves between windows.

ghost use Rattle.std.specs.Prelude.{◌≡◌, ◌≢◌, ◌+◌, ◌%◌, ◌^◌, ◌<◌, ◌==◌};
ghost use Rattle.sparc_code.specs.Decoded.{operand};
ghost use Rattle.sparc_code.specs.Fields.{annul, cond, disp22, disp30, imm7, imm22, rd, rs1, simm13};
ghost use Rattle.sparc_step.specs.Flow.{
  branch_row,
  call_row,
  window_entered,
  jump_row,
  jumped,
  left_by,
  moved,
  passed,
  sethi_row,
  taken,
  trap_row,
  trap_type,
  write_y_row,
};
ghost use Rattle.sparc_step.specs.Operands.{sum_of};
ghost use Rattle.sparc_step.specs.Outcome.{with_result};

use crate::conditions::holds;
use crate::operands::{branch_bytes, call_bytes, first, second, set_result, sum_of, trap_number};
use crate::outcome::Turn;
use crate::processor::Processor;
use sparc_code::fields::{annul, cond, imm22, rd};

// CALL.
#[tactic(auto, unfolding(crate::specs::Flow::call_row, crate::specs::Flow::branch_target))]
#[inline(always)]
pub(crate) fn call(core: &mut Processor, word: u32)
    ensures { core.new ≡ call_row (disp30 word) core.old }
{
    let pc = core.pc();
    core.set(15, pc);
    core.branch(target(pc, call_bytes(word)));
}

// Where a call or a branch goes, this many bytes on.
fn target(pc: u32, bytes: u32) -> u32
    requires pc { pc % 4 ≡ 0 }
    requires bytes { bytes % 4 ≡ 0 }
    ensures value { result ≡ (pc + bytes) % 2 ^ 32 }
    ensures aligned { result % 4 ≡ 0 }
{
    pc.wrapping_add(bytes)
}

// Bicc.
#[tactic(auto, unfolding(crate::specs::Flow::branch_row, crate::specs::Flow::branch_target))]
#[inline(always)]
pub(crate) fn branch(core: &mut Processor, word: u32)
    ensures { core.new ≡ branch_row (cond word) (annul word == 1) (disp22 word) core.old }
{
    if holds(cond(word), core.icc()) {
        let target = target(core.pc(), branch_bytes(word));
        take(core, cond(word), annul(word) == 1, target);
    } else {
        pass(core, annul(word) == 1);
    }
}

// A branch that is taken.
#[tactic(auto, unfolding(crate::specs::Flow::taken))]
#[inline(always)]
fn take(core: &mut Processor, condition: u8, annul: bool, target: u32)
    requires { target % 4 ≡ 0 }
    ensures { core.new ≡ taken condition annul target core.old }
{
    if annul && condition == 8 {
        core.send(target);
    } else {
        core.branch(target);
    }
}

// A branch that is not taken.
#[tactic(auto, unfolding(crate::specs::Flow::passed))]
#[inline(always)]
fn pass(core: &mut Processor, annul: bool)
    ensures { core.new ≡ passed annul core.old }
{
    if annul {
        core.skip();
    } else {
        core.advance();
    }
}

// SETHI.
#[tactic(auto, unfolding(crate::specs::Flow::sethi_row))]
#[inline(always)]
pub(crate) fn sethi(core: &mut Processor, word: u32)
    ensures { core.new ≡ sethi_row (rd word) (imm22 word) core.old }
{
    set_result(core, word, imm22(word) << 10);
}

// RDY.
pub(crate) fn read_y(core: &mut Processor, word: u32)
    ensures { core.new ≡ with_result (rd word) core.old.y core.old }
{
    let y = core.y();
    set_result(core, word, y);
}

// WRY.
#[tactic(auto, unfolding(crate::specs::Flow::write_y_row))]
pub(crate) fn write_y(core: &mut Processor, word: u32)
    ensures { core.new ≡ write_y_row (rs1 word) (operand simm13 word) core.old }
{
    let y = first(core, word) ^ second(core, word);
    core.set_y(y);
    core.advance();
}

// JMPL.
#[tactic(auto, unfolding(crate::specs::Flow::jumped))]
#[inline(always)]
pub(crate) fn jump(core: &mut Processor, word: u32) -> Turn
    ensures turn { result ≡ (jump_row (rd word) (rs1 word) (operand simm13 word) core.old).turn }
    ensures core { core.new ≡ (jump_row (rd word) (rs1 word) (operand simm13 word) core.old).core }
{
    let target = sum_of(core, word);
    if target % 4 != 0 {
        return Turn::Trap(0x07);
    }
    let pc = core.pc();
    core.set(rd(word), pc);
    core.branch(target);
    Turn::Went
}

// Ticc.
#[tactic(auto, unfolding(crate::specs::Flow::trap_turn))]
#[inline(always)]
pub(crate) fn trap(core: &mut Processor, word: u32) -> Turn
    ensures turn { result ≡ (trap_row (cond word) (rs1 word) (operand imm7 word) core.old).turn }
    ensures core { core.new ≡ left_by result core.old }
{
    if !holds(cond(word), core.icc()) {
        core.advance();
        return Turn::Went;
    }
    let trap_type = trap_type(trap_number(core, word));
    if trap_type == 0xf0 {
        core.advance();
        Turn::Call
    } else {
        Turn::Trap(trap_type)
    }
}

// The type of a software trap.
#[tactic(auto, unfolding(crate::specs::Flow::trap_type))]
fn trap_type(number: u32) -> u8
    ensures { result ≡ trap_type number }
{
    0x80 + (number % 128) as u8
}

// SAVE and RESTORE: moves to a window with the sum of the operands as its result, or traps where that is the invalid one.
#[tactic(auto, unfolding(crate::specs::Flow::moved))]
#[inline(always)]
pub(crate) fn shift_window(core: &mut Processor, window: u8, trap_type: u8, word: u32) -> Turn
    requires { window < 8 }
    ensures turn { result ≡ (moved window trap_type (rd word) (sum_of (rs1 word) (operand simm13 word) core.old) core.old).turn }
    ensures core { core.new ≡ (moved window trap_type (rd word) (sum_of (rs1 word) (operand simm13 word) core.old) core.old).core }
{
    if window == core.inv() {
        return Turn::Trap(trap_type);
    }
    let value = sum_of(core, word);
    enter(core, window, word, value);
    Turn::Went
}

// Enters a window that is valid, puts a result there, and goes on.
#[tactic(auto, unfolding(crate::specs::Flow::window_entered))]
fn enter(core: &mut Processor, window: u8, word: u32, value: u32)
    requires window { window < 8 }
    requires valid { window ≢ core.old.inv }
    ensures { core.new ≡ window_entered window (rd word) value core.old }
{
    core.enter(window);
    set_result(core, word, value);
}
