//! The operands of an instruction word.

ghost use Rattle.std.specs.Prelude.{◌≡◌, ◌*◌, ◌%◌, ◌^◌, ◌<◌};
ghost use Rattle.sparc_code.specs.Decoded.{operand};
ghost use Rattle.sparc_code.specs.Fields.{disp22, disp30, imm7, rd, rs1, shcnt, simm13};
ghost use Rattle.sparc_step.specs.Operands.{sum_of, value_of};
ghost use Rattle.sparc_step.specs.Outcome.{with_result, with_result_and_codes};
ghost use Rattle.sparc_step.specs.Registers.{register_at};
ghost use Rattle.sparc_step.specs.Words.{residue};

use crate::processor::Processor;
use sparc_code::fields::{i, rd, rs1, rs2};

// The value of operand 1.
#[inline(always)]
pub(crate) fn first(core: &Processor, word: u32) -> u32
    ensures { result ≡ register_at core.now (rs1 word) }
{
    core.get(rs1(word))
}

// The value of operand 2.
#[tactic(auto, unfolding(sparc_code::specs::Decoded::operand))]
#[inline(always)]
pub(crate) fn second(core: &Processor, word: u32) -> u32
    ensures { result ≡ value_of (operand simm13 word) core.now }
{
    let register = core.get(rs2(word));
    if i(word) == 0 {
        register
    } else {
        immediate(word)
    }
}

// The value of operand 2 of a shift.
#[tactic(auto, unfolding(sparc_code::specs::Decoded::operand, sparc_code::specs::Fields::shcnt))]
#[inline(always)]
pub(crate) fn places(core: &Processor, word: u32) -> u32
    ensures { result ≡ value_of (operand shcnt word) core.now }
{
    let register = core.get(rs2(word));
    if i(word) == 0 { register } else { word & 31 }
}

// The value of operand 2 of a trap.
#[tactic(auto, unfolding(sparc_code::specs::Decoded::operand, sparc_code::specs::Fields::imm7))]
fn number(core: &Processor, word: u32) -> u32
    ensures { result ≡ value_of (operand imm7 word) core.now }
{
    let register = core.get(rs2(word));
    if i(word) == 0 { register } else { word & 127 }
}

// The sum of the operands.
#[tactic(auto, unfolding(crate::specs::Operands::sum_of))]
#[inline(always)]
pub(crate) fn sum_of(core: &Processor, word: u32) -> u32
    ensures { result ≡ sum_of (rs1 word) (operand simm13 word) core.now }
{
    first(core, word).wrapping_add(second(core, word))
}

// The sum of the operands of a trap.
#[tactic(auto, unfolding(crate::specs::Operands::sum_of))]
pub(crate) fn trap_number(core: &Processor, word: u32) -> u32
    ensures { result ≡ sum_of (rs1 word) (operand imm7 word) core.now }
{
    first(core, word).wrapping_add(number(core, word))
}

// The number in the word as a word.
#[tactic(auto, unfolding(sparc_code::specs::Fields::signed, sparc_code::specs::Fields::simm13))]
fn immediate(word: u32) -> u32
    ensures { result ≡ residue 32 (simm13 word) }
{
    ((word << 19).cast_signed() >> 19).cast_unsigned()
}

// The bytes from a branch to its target, as a word.
#[tactic(auto, unfolding(sparc_code::specs::Fields::signed, sparc_code::specs::Fields::disp22))]
pub(crate) fn branch_bytes(word: u32) -> u32
    ensures value { result ≡ 4 * residue 32 (disp22 word) % 2 ^ 32 }
    ensures whole { result % 4 ≡ 0 }
{
    ((word << 10).cast_signed() >> 8).cast_unsigned()
}

// The bytes from a call to its target, as a word.
#[tactic(auto, unfolding(sparc_code::specs::Fields::signed, sparc_code::specs::Fields::disp30))]
pub(crate) fn call_bytes(word: u32) -> u32
    ensures value { result ≡ 4 * residue 32 (disp30 word) % 2 ^ 32 }
    ensures whole { result % 4 ≡ 0 }
{
    word << 2
}

// Puts a result, and goes on.
#[tactic(auto, unfolding(crate::specs::Outcome::with_result))]
#[inline(always)]
pub(crate) fn set_result(core: &mut Processor, word: u32, value: u32)
    ensures { core.new ≡ with_result (rd word) value core.old }
{
    core.set(rd(word), value);
    core.advance();
}

// Puts a result and condition codes, and goes on.
#[tactic(auto, unfolding(crate::specs::Outcome::with_result_and_codes))]
#[inline(always)]
pub(crate) fn put_with_codes(core: &mut Processor, word: u32, value: u32, icc: u8)
    requires { icc < 16 }
    ensures { core.new ≡ with_result_and_codes (rd word) value icc core.old }
{
    core.set(rd(word), value);
    core.set_icc(icc);
    core.advance();
}
