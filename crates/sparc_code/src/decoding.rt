//! From instruction words to instructions.

ghost use Rattle.std.specs.Prelude.{◌≡◌, ◌==◌, ◌<◌, ◌≤◌, ℕ};
ghost use Rattle.sparc_code.specs.Fields.{annul, cond, disp22, imm22, imm7, rd, rs1, shcnt, simm13};
ghost use Rattle.sparc_code.specs.Spells.{Spells};
ghost use Rattle.sparc_code.specs.Ranges.{InRange};
ghost use Rattle.sparc_code.specs.Decoded.{
  decoded,
  double_work,
  format2_row,
  memory_row,
  memory_work,
  operand,
  read_state,
  registers_row,
  work,
  write_state,
};

use crate::fields::{
    annul, cond, disp22, disp30, i, imm7, imm22, op, op2, op3, rd, rs1, rs2, shcnt, simm13,
};
use crate::instruction::{Arith, Instr, MemOp, Src};

/// The instruction of a word. Bits that its format leaves unused are ignored.
pub fn decode(word: u32) -> Instr
    // The word spells the instruction, whose fields are in their ranges.
    ensures spelled { Spells word result }
    ensures in_range { InRange result }
{
    decoded(word)
}

#[tactic(auto, unfolding(crate::specs::Decoded::decoded))]
fn decoded(word: u32) -> Instr
    ensures { result ≡ decoded word }
{
    if op(word) >= 2 {
        if op(word) == 2 {
            registers(op3(word), word)
        } else {
            memory(op3(word), word)
        }
    } else if op(word) == 0 {
        format2(op2(word), word)
    } else {
        Instr::Call { disp: disp30(word) }
    }
}

// Operand 2, where it is signed.
#[tactic(auto, unfolding(crate::specs::Decoded::operand))]
fn operand(word: u32) -> Src
    ensures { result ≡ operand simm13 word }
{
    if i(word) == 0 {
        Src::Reg(rs2(word))
    } else {
        Src::Imm(simm13(word))
    }
}

// Operand 2 of a shift.
#[tactic(auto, unfolding(crate::specs::Decoded::operand))]
fn shift_operand(word: u32) -> Src
    ensures { result ≡ operand shcnt word }
{
    if i(word) == 0 {
        Src::Reg(rs2(word))
    } else {
        Src::Imm(shcnt(word))
    }
}

// Operand 2 of a trap.
#[tactic(auto, unfolding(crate::specs::Decoded::operand))]
fn trap_operand(word: u32) -> Src
    ensures { result ≡ operand imm7 word }
{
    if i(word) == 0 {
        Src::Reg(rs2(word))
    } else {
        Src::Imm(imm7(word))
    }
}

// Work on registers, with a signed operand 2.
fn work(op: Arith, word: u32) -> Instr
    ensures { result ≡ Instr.Arith op (rd word) (rs1 word) (operand simm13 word) }
{
    Instr::Arith {
        op,
        rd: rd(word),
        rs1: rs1(word),
        src: operand(word),
    }
}

// The selectors 00 to 0f.
#[tactic(auto, unfolding(crate::specs::Decoded::registers_row))]
fn plain_work(selector: u32, word: u32) -> Instr
    requires { selector < 16 }
    ensures { result ≡ registers_row selector word }
{
    if selector < 8 {
        if selector < 4 {
            if selector == 0x00 {
                work(Arith::Add, word)
            } else if selector == 0x01 {
                work(Arith::And, word)
            } else if selector == 0x02 {
                work(Arith::Or, word)
            } else {
                work(Arith::Xor, word)
            }
        } else if selector == 0x04 {
            work(Arith::Sub, word)
        } else if selector == 0x05 {
            work(Arith::AndN, word)
        } else if selector == 0x06 {
            work(Arith::OrN, word)
        } else {
            work(Arith::XNor, word)
        }
    } else if selector < 0x0c {
        if selector == 0x08 {
            work(Arith::AddX, word)
        } else if selector == 0x0a {
            work(Arith::UMul, word)
        } else if selector == 0x0b {
            work(Arith::SMul, word)
        } else {
            Instr::Illegal
        }
    } else if selector == 0x0c {
        work(Arith::SubX, word)
    } else if selector == 0x0e {
        work(Arith::UDiv, word)
    } else if selector == 0x0f {
        work(Arith::SDiv, word)
    } else {
        Instr::Illegal
    }
}

// The selectors 10 to 1f.
#[tactic(auto, unfolding(crate::specs::Decoded::registers_row))]
fn work_with_codes(selector: u32, word: u32) -> Instr
    requires from { 0x10 ≤ selector }
    requires below { selector < 0x20 }
    ensures { result ≡ registers_row selector word }
{
    if selector < 0x18 {
        if selector < 0x14 {
            if selector == 0x10 {
                work(Arith::AddCc, word)
            } else if selector == 0x11 {
                work(Arith::AndCc, word)
            } else if selector == 0x12 {
                work(Arith::OrCc, word)
            } else {
                work(Arith::XorCc, word)
            }
        } else if selector == 0x14 {
            work(Arith::SubCc, word)
        } else if selector == 0x15 {
            work(Arith::AndNCc, word)
        } else if selector == 0x16 {
            work(Arith::OrNCc, word)
        } else {
            work(Arith::XNorCc, word)
        }
    } else if selector < 0x1c {
        if selector == 0x18 {
            work(Arith::AddXCc, word)
        } else if selector == 0x1a {
            work(Arith::UMulCc, word)
        } else if selector == 0x1b {
            work(Arith::SMulCc, word)
        } else {
            Instr::Illegal
        }
    } else if selector == 0x1c {
        work(Arith::SubXCc, word)
    } else if selector == 0x1e {
        work(Arith::UDivCc, word)
    } else if selector == 0x1f {
        work(Arith::SDivCc, word)
    } else {
        Instr::Illegal
    }
}

// Work on registers, with the number of places as operand 2.
fn shift(op: Arith, word: u32) -> Instr
    ensures { result ≡ Instr.Arith op (rd word) (rs1 word) (operand shcnt word) }
{
    Instr::Arith {
        op,
        rd: rd(word),
        rs1: rs1(word),
        src: shift_operand(word),
    }
}

// The selectors 20 to 27.
#[tactic(auto, unfolding(crate::specs::Decoded::registers_row))]
fn tagged_work(selector: u32, word: u32) -> Instr
    requires from { 0x20 ≤ selector }
    requires below { selector < 0x28 }
    ensures { result ≡ registers_row selector word }
{
    if selector >= 0x24 {
        if selector == 0x25 {
            shift(Arith::Sll, word)
        } else if selector == 0x26 {
            shift(Arith::Srl, word)
        } else if selector == 0x27 {
            shift(Arith::Sra, word)
        } else {
            work(Arith::MulSCc, word)
        }
    } else if selector == 0x20 {
        work(Arith::TAddCc, word)
    } else if selector == 0x21 {
        work(Arith::TSubCc, word)
    } else if selector == 0x22 {
        work(Arith::TAddCcTv, word)
    } else {
        work(Arith::TSubCcTv, word)
    }
}

// RDY and STBAR.
#[tactic(auto, unfolding(crate::specs::Decoded::read_state))]
fn read_state(word: u32) -> Instr
    ensures { result ≡ read_state word }
{
    if rs1(word) == 0 {
        Instr::ReadY { rd: rd(word) }
    } else if rs1(word) == 15 && rd(word) == 0 {
        Instr::Barrier
    } else {
        Instr::Illegal
    }
}

// WRY.
#[tactic(auto, unfolding(crate::specs::Decoded::write_state))]
fn write_state(word: u32) -> Instr
    ensures { result ≡ write_state word }
{
    if rd(word) == 0 {
        Instr::WriteY {
            rs1: rs1(word),
            src: operand(word),
        }
    } else {
        Instr::Illegal
    }
}

// The selectors 28 to 2f.
#[tactic(auto, unfolding(crate::specs::Decoded::registers_row))]
fn reading(selector: u32, word: u32) -> Instr
    requires from { 0x28 ≤ selector }
    requires below { selector < 0x30 }
    ensures { result ≡ registers_row selector word }
{
    if selector == 0x28 {
        read_state(word)
    } else if selector < 0x2c {
        Instr::Privileged
    } else {
        Instr::Illegal
    }
}

// The selectors 30 to 37.
#[tactic(auto, unfolding(crate::specs::Decoded::registers_row))]
fn writing(selector: u32, word: u32) -> Instr
    requires from { 0x30 ≤ selector }
    requires below { selector < 0x38 }
    ensures { result ≡ registers_row selector word }
{
    if selector == 0x30 {
        write_state(word)
    } else if selector < 0x34 {
        Instr::Privileged
    } else if selector < 0x36 {
        Instr::Float
    } else {
        Instr::Coproc
    }
}

// The selectors 38 to 3f.
#[tactic(auto, unfolding(crate::specs::Decoded::registers_row))]
fn transfer(selector: u32, word: u32) -> Instr
    requires from { 0x38 ≤ selector }
    requires below { selector < 0x40 }
    ensures { result ≡ registers_row selector word }
{
    if selector < 0x3b {
        if selector == 0x38 {
            jump(word)
        } else if selector == 0x3a {
            trap(word)
        } else {
            Instr::Privileged
        }
    } else if selector == 0x3b {
        Instr::Flush
    } else if selector == 0x3c {
        save(word)
    } else if selector == 0x3d {
        restore(word)
    } else {
        Instr::Illegal
    }
}

fn jump(word: u32) -> Instr
    ensures { result ≡ Instr.Jump (rd word) (rs1 word) (operand simm13 word) }
{
    Instr::Jump {
        rd: rd(word),
        rs1: rs1(word),
        src: operand(word),
    }
}

fn trap(word: u32) -> Instr
    ensures { result ≡ Instr.Trap (cond word) (rs1 word) (operand imm7 word) }
{
    Instr::Trap {
        cond: cond(word),
        rs1: rs1(word),
        src: trap_operand(word),
    }
}

fn save(word: u32) -> Instr
    ensures { result ≡ Instr.Save (rd word) (rs1 word) (operand simm13 word) }
{
    Instr::Save {
        rd: rd(word),
        rs1: rs1(word),
        src: operand(word),
    }
}

fn restore(word: u32) -> Instr
    ensures { result ≡ Instr.Restore (rd word) (rs1 word) (operand simm13 word) }
{
    Instr::Restore {
        rd: rd(word),
        rs1: rs1(word),
        src: operand(word),
    }
}

// Work on registers, traps, and what reads and writes the state.
fn registers(selector: u32, word: u32) -> Instr
    requires { selector < 64 }
    ensures { result ≡ registers_row selector word }
{
    if selector < 0x20 {
        if selector < 0x10 {
            plain_work(selector, word)
        } else {
            work_with_codes(selector, word)
        }
    } else if selector < 0x30 {
        if selector < 0x28 {
            tagged_work(selector, word)
        } else {
            reading(selector, word)
        }
    } else if selector < 0x38 {
        writing(selector, word)
    } else {
        transfer(selector, word)
    }
}

// Work on memory.
fn memory_work(op: MemOp, word: u32) -> Instr
    ensures { result ≡ memory_work op word }
{
    Instr::Mem {
        op,
        rd: rd(word),
        rs1: rs1(word),
        src: operand(word),
    }
}

// Work on a double word, whose register is even.
#[tactic(auto, unfolding(crate::specs::Decoded::double_work))]
fn double_work(op: MemOp, word: u32) -> Instr
    ensures { result ≡ double_work op word }
{
    if rd(word) % 2 == 0 {
        memory_work(op, word)
    } else {
        Instr::Illegal
    }
}

// The selectors 00 to 07.
#[tactic(auto, unfolding(crate::specs::Decoded::memory_row))]
fn plain_memory(selector: u32, word: u32) -> Instr
    requires { selector < 8 }
    ensures { result ≡ memory_row selector word }
{
    if selector < 4 {
        if selector == 0x00 {
            memory_work(MemOp::Ld, word)
        } else if selector == 0x01 {
            memory_work(MemOp::LdUb, word)
        } else if selector == 0x02 {
            memory_work(MemOp::LdUh, word)
        } else {
            double_work(MemOp::LdD, word)
        }
    } else if selector == 0x04 {
        memory_work(MemOp::St, word)
    } else if selector == 0x05 {
        memory_work(MemOp::StB, word)
    } else if selector == 0x06 {
        memory_work(MemOp::StH, word)
    } else {
        double_work(MemOp::StD, word)
    }
}

// The selectors 08 to 0f.
#[tactic(auto, unfolding(crate::specs::Decoded::memory_row))]
fn signed_memory(selector: u32, word: u32) -> Instr
    requires from { 8 ≤ selector }
    requires below { selector < 0x10 }
    ensures { result ≡ memory_row selector word }
{
    if selector < 0x0c {
        if selector == 0x09 {
            memory_work(MemOp::LdSb, word)
        } else if selector == 0x0a {
            memory_work(MemOp::LdSh, word)
        } else {
            Instr::Illegal
        }
    } else if selector == 0x0d {
        memory_work(MemOp::LdStUb, word)
    } else if selector == 0x0f {
        memory_work(MemOp::Swap, word)
    } else {
        Instr::Illegal
    }
}

// The selectors 10 to 1f: other spaces of addresses.
#[tactic(auto, unfolding(crate::specs::Decoded::memory_row))]
fn other_space(selector: u32) -> Instr
    requires from { 0x10 ≤ selector }
    requires below { selector < 0x20 }
    ensures { (word : ℕ) → result ≡ memory_row selector word }
{
    if matches!(selector, 0x10..=0x17 | 0x19 | 0x1a | 0x1d | 0x1f) {
        Instr::Privileged
    } else {
        Instr::Illegal
    }
}

// The selectors 20 to 2f.
#[tactic(auto, unfolding(crate::specs::Decoded::memory_row))]
fn float_memory(selector: u32) -> Instr
    requires from { 0x20 ≤ selector }
    requires below { selector < 0x30 }
    ensures { (word : ℕ) → result ≡ memory_row selector word }
{
    if selector >= 0x28 || selector == 0x22 {
        Instr::Illegal
    } else if selector == 0x26 {
        Instr::Privileged
    } else {
        Instr::Float
    }
}

// The selectors 30 to 3f.
#[tactic(auto, unfolding(crate::specs::Decoded::memory_row))]
fn coproc_memory(selector: u32) -> Instr
    requires from { 0x30 ≤ selector }
    requires below { selector < 0x40 }
    ensures { (word : ℕ) → result ≡ memory_row selector word }
{
    if selector >= 0x38 || selector == 0x32 {
        Instr::Illegal
    } else if selector == 0x36 {
        Instr::Privileged
    } else {
        Instr::Coproc
    }
}

// Work on memory, and what a user's program doesn't have.
fn memory(selector: u32, word: u32) -> Instr
    requires { selector < 64 }
    ensures { result ≡ memory_row selector word }
{
    if selector < 8 {
        plain_memory(selector, word)
    } else if selector < 0x10 {
        signed_memory(selector, word)
    } else if selector < 0x20 {
        other_space(selector)
    } else if selector < 0x30 {
        float_memory(selector)
    } else {
        coproc_memory(selector)
    }
}

// Branches and SETHI.
#[tactic(auto, unfolding(crate::specs::Decoded::format2_row))]
fn format2(selector: u32, word: u32) -> Instr
    requires { selector < 8 }
    ensures { result ≡ format2_row selector word }
{
    if selector < 6 {
        if selector == 2 {
            branch(word)
        } else if selector == 4 {
            sethi(word)
        } else {
            Instr::Illegal
        }
    } else if selector == 6 {
        Instr::Float
    } else {
        Instr::Coproc
    }
}

fn branch(word: u32) -> Instr
    ensures { result ≡ Instr.Branch (cond word) (annul word == 1) (disp22 word) }
{
    Instr::Branch {
        cond: cond(word),
        annul: annul(word) == 1,
        disp: disp22(word),
    }
}

fn sethi(word: u32) -> Instr
    ensures { result ≡ Instr.Sethi (rd word) (imm22 word) }
{
    Instr::Sethi {
        rd: rd(word),
        imm: imm22(word),
    }
}
