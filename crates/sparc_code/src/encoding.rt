//! From instructions to the least words that spell them.

ghost use Rattle.std.specs.Prelude.{◌≡◌, ◌<◌, ◌≤◌, ◌+◌, ◌^◌, ℕ, if◌then◌else◌};
ghost use Rattle.sparc_code.specs.lemmas.Encoded.{bits_of, encoded, format2_word, format3_word, operand_bits};
ghost use Rattle.sparc_code.specs.Opcodes.{memory_opcode_of, opcode_of};
ghost use Rattle.sparc_code.specs.Ranges.{InRange, IsOperand, IsSigned};
ghost use Rattle.sparc_code.specs.Spells.{Spells};

use crate::instruction::{Arith, Instr, MemOp, Src};

/// The word of an instruction, with 0 in the bits that its format leaves unused.
pub fn encode(instr: &Instr) -> u32
    // Called with fields in their ranges.
    requires { InRange instr.now }
    // The word spells the instruction, and is the least that does.
    ensures spelled { Spells result instr.now }
    ensures least { (word : ℕ) → Spells word instr.now → result ≤ word }
{
    encoded(*instr)
}

#[tactic(auto, unfolding(crate::specs::lemmas::Encoded::encoded, crate::specs::lemmas::Encoded::format2_word))]
fn encoded(instr: Instr) -> u32
    requires { InRange instr }
    ensures { result ≡ encoded instr }
{
    match instr {
        Instr::Call { disp } => (1 << 30) + call_bits(disp),
        Instr::Branch { cond, annul, disp } => branch(cond, annul, disp),
        Instr::Sethi { rd, imm } => format2(rd, 4, imm),
        Instr::Arith { op, rd, rs1, src } => format3(2, rd, opcode(op), rs1, operand(src)),
        Instr::ReadY { rd } => format3(2, rd, 0x28, 0, 0),
        Instr::Barrier => format3(2, 0, 0x28, 15, 0),
        Instr::WriteY { rs1, src } => format3(2, 0, 0x30, rs1, operand(src)),
        Instr::Jump { rd, rs1, src } => format3(2, rd, 0x38, rs1, operand(src)),
        Instr::Trap { cond, rs1, src } => format3(2, cond, 0x3a, rs1, operand(src)),
        Instr::Flush => format3(2, 0, 0x3b, 0, 0),
        Instr::Save { rd, rs1, src } => format3(2, rd, 0x3c, rs1, operand(src)),
        Instr::Restore { rd, rs1, src } => format3(2, rd, 0x3d, rs1, operand(src)),
        Instr::Mem { op, rd, rs1, src } => format3(3, rd, memory_opcode(op), rs1, operand(src)),
        Instr::Privileged => format3(2, 0, 0x29, 0, 0),
        Instr::Float => format2(0, 6, 0),
        Instr::Coproc => format2(0, 7, 0),
        Instr::Illegal => 0,
    }
}

// A branch, its annul bit above its condition.
fn branch(cond: u8, annul: bool, disp: i32) -> u32
    requires cond { cond < 16 }
    requires disp { IsSigned 22 disp }
    ensures { result ≡ format2_word ((if annul then 16 else 0) + cond) 2 (bits_of 22 disp) }
{
    if annul {
        format2(16 + cond, 2, branch_bits(disp))
    } else {
        format2(cond, 2, branch_bits(disp))
    }
}

// The displacement of a call.
fn call_bits(disp: i32) -> u32
    requires { IsSigned 30 disp }
    ensures value { result ≡ bits_of 30 disp }
    ensures below { result < 2 ^ 30 }
{
    disp.cast_unsigned() & 0x3fff_ffff
}

// The displacement of a branch.
fn branch_bits(disp: i32) -> u32
    requires { IsSigned 22 disp }
    ensures value { result ≡ bits_of 22 disp }
    ensures below { result < 2 ^ 22 }
{
    disp.cast_unsigned() & 0x3f_ffff
}

// The bits of operand 2, from i downward.
fn operand(src: Src) -> u32
    requires { IsOperand (IsSigned 13) src }
    ensures value { result ≡ operand_bits src }
    ensures below { result < 2 ^ 14 }
{
    match src {
        Src::Reg(register) => u32::from(register),
        Src::Imm(number) => 0x2000 + (u32::from(number.cast_unsigned()) & 0x1fff),
    }
}

// A word of format 3.
#[tactic(auto, unfolding(crate::specs::lemmas::Encoded::format3_word))]
fn format3(format: u32, rd: u8, selector: u32, rs1: u8, low: u32) -> u32
    requires format { format < 4 }
    requires rd { rd < 32 }
    requires selector { selector < 64 }
    requires rs1 { rs1 < 32 }
    requires low { low < 2 ^ 14 }
    ensures { result ≡ format3_word format rd selector rs1 low }
{
    (format << 30) + (u32::from(rd) << 25) + (selector << 19) + (u32::from(rs1) << 14) + low
}

// A word of format 2.
#[tactic(auto, unfolding(crate::specs::lemmas::Encoded::format2_word))]
fn format2(rd: u8, selector: u32, low: u32) -> u32
    requires rd { rd < 32 }
    requires selector { selector < 8 }
    requires low { low < 2 ^ 22 }
    ensures { result ≡ format2_word rd selector low }
{
    (u32::from(rd) << 25) + (selector << 22) + low
}

// The selector of work on registers.
fn opcode(op: Arith) -> u32
    ensures value { result ≡ opcode_of op }
    ensures below { result < 64 }
{
    op as u32
}

// The selector of work on memory.
fn memory_opcode(op: MemOp) -> u32
    ensures value { result ≡ memory_opcode_of op }
    ensures below { result < 64 }
{
    op as u32
}
