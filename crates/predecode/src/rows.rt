//! Instruction words that are taken apart once.

ghost use Rattle.std.specs.Prelude.{◌≡◌, ◌≢◌, ◌^◌, ◌<◌, true, false, None};
ghost use Rattle.std.specs.Bool.{OnTrue};
ghost use Rattle.sparc_code.specs.Ranges.{InRange};
ghost use Rattle.sparc_code.specs.declared.instruction.Arith.TheVariants.{Or, SubCc};
ghost use Rattle.sparc_code.specs.declared.instruction.Instr.TheVariants as instr;
ghost use Rattle.sparc_step.specs.Cached.{register_of};
ghost use Rattle.sparc_step.specs.Words.{residue};
ghost use Rattle.predecode.specs.Kinds.{does, follows};
ghost use Rattle.predecode.specs.Rows.{AreRegisterNumbers, IsMoved, IsRowOf, is_plain, moved_register};
ghost use Rattle.predecode.specs.declared.kinds.Kind.TheVariants as kind;
ghost use Rattle.predecode.specs.lemmas.RowTerms.{HasParts, IsJumpRow, IsMemoryRow, IsRestoreRow, IsSaveRow, IsTrapRow, IsWorkRow, IsWriteRow, is_number, moved_as, worked_as};
ghost use Rattle.predecode.specs.lemmas.Sources.{IsRegisterIn};

use crate::kinds::Kind;
use sparc_code::{Arith, Instr, MemOp, Src};

/// An instruction word, taken apart: what it does, the registers of its result and of its operands, and what is added to
/// the second. Operand 2 is the sum of a register and a number, of which one is 0. Where the result is dropped, its register
/// is 32.
#[derive(Clone, Copy, Debug)]
pub struct Row {
    pub number: u32,
    pub kind: Kind,
    pub rd: u8,
    pub rs1: u8,
    pub rs2: u8,
}

// The number of the register that drops what it is set to.
const SINK: u8 = 32;

impl Row {
    /// A row of a word that was not looked at.
    pub const EMPTY: Row = Row {
        number: 0,
        kind: Kind::Empty,
        rd: 0,
        rs1: 0,
        rs2: 0,
    };

    // A row of an instruction that no row does.
    const OTHER: Row = Row {
        number: 0,
        kind: Kind::Other,
        rd: 0,
        rs1: 0,
        rs2: 0,
    };

    // A row of an instruction that only goes on to the next word.
    const NOTHING: Row = Row {
        number: 0,
        kind: Kind::Nothing,
        rd: 0,
        rs1: 0,
        rs2: 0,
    };
}

/// The row of an instruction.
pub(crate) fn row_of(instr: Instr) -> Row
    requires { InRange instr }
    ensures row { IsRowOf result instr }
    ensures registers { AreRegisterNumbers result }
    ensures alone { follows result.kind ≡ None }
{
    match instr {
        Instr::Call { disp } => call(disp),
        Instr::Branch { cond, annul, disp } => branch(cond, annul, disp),
        Instr::Sethi { rd, imm } => sethi(rd, imm),
        Instr::Arith { op, rd, rs1, src } => work(op, rd, rs1, src),
        Instr::ReadY { rd } => read_y(rd),
        Instr::Barrier => Row::OTHER,
        Instr::WriteY { rs1, src } => write_y(rs1, src),
        Instr::Jump { rd, rs1, src } => jump(rd, rs1, src),
        Instr::Trap { cond, rs1, src } => trap(cond, rs1, src),
        Instr::Flush => Row::OTHER,
        Instr::Save { rd, rs1, src } => save(rd, rs1, src),
        Instr::Restore { rd, rs1, src } => restore(rd, rs1, src),
        Instr::Mem { op, rd, rs1, src } => memory(op, rd, rs1, src),
        Instr::Privileged => Row::OTHER,
        Instr::Float => Row::OTHER,
        Instr::Coproc => Row::OTHER,
        Instr::Illegal => Row::OTHER,
    }
}

// The row of a CALL.
fn call(disp: i32) -> Row
    ensures row { IsRowOf result (instr.Call disp) }
    ensures registers { AreRegisterNumbers result }
    ensures alone { follows result.kind ≡ None }
{
    Row {
        number: displacement(disp),
        kind: Kind::Call,
        rd: 0,
        rs1: 0,
        rs2: 0,
    }
}

// The row of a branch.
fn branch(condition: u8, annul: bool, disp: i32) -> Row
    requires { condition < 16 }
    ensures row { IsRowOf result (instr.Branch condition annul disp) }
    ensures registers { AreRegisterNumbers result }
    ensures alone { follows result.kind ≡ None }
{
    if condition == 8 {
        branch_always(annul, disp)
    } else if annul {
        annulling(condition, disp)
    } else if condition == 0 {
        Row::NOTHING
    } else {
        branch_on(condition, disp)
    }
}

// The row of a branch that is always taken.
fn branch_always(annul: bool, disp: i32) -> Row
    ensures row { IsRowOf result (instr.Branch 8 annul disp) }
    ensures registers { AreRegisterNumbers result }
    ensures alone { follows result.kind ≡ None }
{
    if annul {
        Row {
            number: displacement(disp),
            kind: Kind::AnnullingAlways,
            rd: 0,
            rs1: 0,
            rs2: 0,
        }
    } else {
        Row {
            number: displacement(disp),
            kind: Kind::Always,
            rd: 0,
            rs1: 0,
            rs2: 0,
        }
    }
}

// The row of a branch that annuls its delay slot where it is not taken.
fn annulling(condition: u8, disp: i32) -> Row
    requires condition { condition < 16 }
    requires some { condition ≢ 8 }
    ensures row { IsRowOf result (instr.Branch condition true disp) }
    ensures registers { AreRegisterNumbers result }
    ensures alone { follows result.kind ≡ None }
{
    Row {
        number: displacement(disp),
        kind: Kind::Annulling,
        rd: 0,
        rs1: condition,
        rs2: 0,
    }
}

// The row of a branch on a condition that annuls nothing.
fn branch_on(condition: u8, disp: i32) -> Row
    requires { condition < 16 }
    ensures row { IsRowOf result (instr.Branch condition false disp) }
    ensures registers { AreRegisterNumbers result }
    ensures alone { follows result.kind ≡ None }
{
    Row {
        number: displacement(disp),
        kind: Kind::Branch,
        rd: 0,
        rs1: condition,
        rs2: 0,
    }
}

// The row of SETHI.
fn sethi(rd: u8, imm: u32) -> Row
    requires register { rd < 32 }
    requires number { imm < 2 ^ 22 }
    ensures row { IsRowOf result (instr.Sethi rd imm) }
    ensures registers { AreRegisterNumbers result }
    ensures alone { follows result.kind ≡ None }
{
    if rd == 0 {
        Row::NOTHING
    } else {
        number_above(rd, imm)
    }
}

// The row of a SETHI whose register holds its number.
fn number_above(rd: u8, imm: u32) -> Row
    requires register { rd < 32 }
    requires held { 0 < rd }
    requires number { imm < 2 ^ 22 }
    ensures row { IsRowOf result (instr.Sethi rd imm) }
    ensures registers { AreRegisterNumbers result }
    ensures alone { follows result.kind ≡ None }
{
    Row {
        number: imm << 10,
        kind: Kind::SetNumber,
        rd,
        rs1: 0,
        rs2: 0,
    }
}

// The number of a register that is set: register 0 drops what it is set to.
#[tactic(auto, unfolding(sparc_step::specs::Cached::register_of))]
fn sunk(rd: u8) -> u8
    requires { rd < 32 }
    ensures register { register_of result ≡ rd }
    ensures some { 0 < result }
    ensures below { result < 33 }
{
    if rd == 0 { SINK } else { rd }
}

// The row of RDY.
fn read_y(rd: u8) -> Row
    requires { rd < 32 }
    ensures row { IsRowOf result (instr.ReadY rd) }
    ensures registers { AreRegisterNumbers result }
    ensures alone { follows result.kind ≡ None }
{
    Row {
        number: 0,
        kind: Kind::RdY,
        rd: sunk(rd),
        rs1: 0,
        rs2: 0,
    }
}

// The row of WRY.
fn write_y(rs1: u8, src: Src) -> Row
    requires rs1 { rs1 < 32 }
    requires source { IsRegisterIn src }
    ensures row { IsWriteRow result rs1 src }
    ensures registers { AreRegisterNumbers result }
    ensures alone { follows result.kind ≡ None }
{
    with_source(Kind::WrY, 0, rs1, src)
}

// The row of JMPL.
fn jump(rd: u8, rs1: u8, src: Src) -> Row
    requires rd { rd < 32 }
    requires rs1 { rs1 < 32 }
    requires source { IsRegisterIn src }
    ensures row { IsJumpRow result rd rs1 src }
    ensures registers { AreRegisterNumbers result }
    ensures alone { follows result.kind ≡ None }
{
    with_source(Kind::Jump, sunk(rd), rs1, src)
}

// The row of a trap. One on a condition has none.
fn trap(condition: u8, rs1: u8, src: Src) -> Row
    requires rs1 { rs1 < 32 }
    requires source { IsRegisterIn src }
    ensures row { IsTrapRow result condition rs1 src }
    ensures registers { AreRegisterNumbers result }
    ensures alone { follows result.kind ≡ None }
{
    if condition != 8 {
        Row::OTHER
    } else {
        trap_always(rs1, src)
    }
}

// The row of a trap that is always taken.
fn trap_always(rs1: u8, src: Src) -> Row
    requires rs1 { rs1 < 32 }
    requires source { IsRegisterIn src }
    ensures row { IsTrapRow result 8 rs1 src }
    ensures registers { AreRegisterNumbers result }
    ensures alone { follows result.kind ≡ None }
{
    with_source(Kind::Trap, 0, rs1, src)
}

// The row of SAVE.
fn save(rd: u8, rs1: u8, src: Src) -> Row
    requires rd { rd < 32 }
    requires rs1 { rs1 < 32 }
    requires source { IsRegisterIn src }
    ensures row { IsSaveRow result rd rs1 src }
    ensures registers { AreRegisterNumbers result }
    ensures alone { follows result.kind ≡ None }
{
    with_source(Kind::Save, rd, rs1, src)
}

// The row of RESTORE.
fn restore(rd: u8, rs1: u8, src: Src) -> Row
    requires rd { rd < 32 }
    requires rs1 { rs1 < 32 }
    requires source { IsRegisterIn src }
    ensures row { IsRestoreRow result rd rs1 src }
    ensures registers { AreRegisterNumbers result }
    ensures alone { follows result.kind ≡ None }
{
    with_source(Kind::Restore, rd, rs1, src)
}

// The row of work on registers.
fn work(op: Arith, rd: u8, rs1: u8, src: Src) -> Row
    requires rd { rd < 32 }
    requires rs1 { rs1 < 32 }
    requires source { IsRegisterIn src }
    ensures row { IsWorkRow result op rd rs1 src }
    ensures registers { AreRegisterNumbers result }
    ensures alone { follows result.kind ≡ None }
{
    if is_dropped(op, rd) {
        Row::NOTHING
    } else if is_set(op, rs1) {
        set(rd, src)
    } else if is_comparison(op, rd) {
        comparison(rs1, src)
    } else {
        other_work(op, rd, rs1, src)
    }
}

// Work that sets a register alone drops what it sets.
fn is_dropped(op: Arith, rd: u8) -> bool
    ensures dropped { OnTrue result ((rd ≡ 0) × (is_plain op ≡ true)) }
    ensures held { result ≡ false → is_plain op ≡ true → 0 < rd }
{
    rd == 0 && is_plain(op)
}

// Work that sets its register, and does nothing else.
fn is_plain(op: Arith) -> bool
    ensures { result ≡ is_plain op }
{
    matches!(
        op,
        Arith::Add
            | Arith::And
            | Arith::Or
            | Arith::Xor
            | Arith::Sub
            | Arith::AndN
            | Arith::OrN
            | Arith::XNor
            | Arith::Sll
            | Arith::Srl
            | Arith::Sra
    )
}

// Work that sets a register to operand 2.
fn is_set(op: Arith, rs1: u8) -> bool
    ensures { OnTrue result ((op ≡ Or) × (rs1 ≡ 0)) }
{
    rs1 == 0 && matches!(op, Arith::Or)
}

// Work of which the condition codes alone are kept.
fn is_comparison(op: Arith, rd: u8) -> bool
    ensures { OnTrue result ((op ≡ SubCc) × (rd ≡ 0)) }
{
    rd == 0 && matches!(op, Arith::SubCc)
}

// The row of an OR of register 0 and operand 2.
fn set(rd: u8, src: Src) -> Row
    requires rd { rd < 32 }
    requires held { 0 < rd }
    requires source { IsRegisterIn src }
    ensures row { IsWorkRow result Or rd 0 src }
    ensures registers { AreRegisterNumbers result }
    ensures alone { follows result.kind ≡ None }
{
    if is_number(src) {
        with_source(Kind::SetNumber, rd, 0, src)
    } else {
        with_source(Kind::SetRegister, rd, 0, src)
    }
}

// The row of a comparison.
fn comparison(rs1: u8, src: Src) -> Row
    requires rs1 { rs1 < 32 }
    requires source { IsRegisterIn src }
    ensures row { IsWorkRow result SubCc 0 rs1 src }
    ensures registers { AreRegisterNumbers result }
    ensures alone { follows result.kind ≡ None }
{
    if is_number(src) {
        with_source(Kind::CompareNumber, SINK, rs1, src)
    } else {
        with_source(Kind::CompareRegister, SINK, rs1, src)
    }
}

// The row of work that is none of these.
fn other_work(op: Arith, rd: u8, rs1: u8, src: Src) -> Row
    requires rd { rd < 32 }
    requires rs1 { rs1 < 32 }
    requires source { IsRegisterIn src }
    ensures row { IsWorkRow result op rd rs1 src }
    ensures registers { AreRegisterNumbers result }
    ensures alone { follows result.kind ≡ None }
{
    let kind = work_kind(op, is_number(src));
    with_source(kind, sunk(rd), rs1, src)
}

// Operand 2 is a number: register 0 is one, too.
fn is_number(src: Src) -> bool
    ensures { result ≡ is_number src }
{
    match src {
        Src::Reg(register) => register == 0,
        Src::Imm(_) => true,
    }
}

// The row of a kind that has operands.
fn with_source(kind: Kind, rd: u8, rs1: u8, src: Src) -> Row
    requires { IsRegisterIn src }
    ensures row { HasParts result kind rd rs1 src }
    ensures register { result.rs2 < 32 }
    ensures alone { follows result.kind ≡ follows kind }
{
    match src {
        Src::Reg(rs2) => Row {
            number: 0,
            kind,
            rd,
            rs1,
            rs2,
        },
        Src::Imm(number) => Row {
            number: extended(number),
            kind,
            rd,
            rs1,
            rs2: 0,
        },
    }
}

// A number as a word.
fn extended(number: i16) -> u32
    ensures { result ≡ residue 32 number }
{
    i32::from(number).cast_unsigned()
}

// A displacement as a word.
fn displacement(disp: i32) -> u32
    ensures { result ≡ residue 32 disp }
{
    disp.cast_unsigned()
}

// The kind of work on registers.
fn work_kind(op: Arith, number: bool) -> Kind
    ensures work { does result ≡ worked_as op number }
    ensures alone { follows result ≡ None }
{
    match op {
        Arith::Add => if number {
            Kind::AddNumber
        } else {
            Kind::AddRegister
        },
        Arith::And => if number {
            Kind::AndNumber
        } else {
            Kind::AndRegister
        },
        Arith::Or => if number {
            Kind::OrNumber
        } else {
            Kind::OrRegister
        },
        Arith::Xor => if number {
            Kind::XorNumber
        } else {
            Kind::XorRegister
        },
        Arith::Sub => if number {
            Kind::SubNumber
        } else {
            Kind::SubRegister
        },
        Arith::Sll => if number {
            Kind::SllNumber
        } else {
            Kind::SllRegister
        },
        Arith::Srl => if number {
            Kind::SrlNumber
        } else {
            Kind::SrlRegister
        },
        Arith::Sra => if number {
            Kind::SraNumber
        } else {
            Kind::SraRegister
        },
        Arith::AndN => Kind::AndN,
        Arith::OrN => Kind::OrN,
        Arith::XNor => Kind::XNor,
        Arith::AddX => Kind::AddX,
        Arith::UMul => Kind::UMul,
        Arith::SMul => Kind::SMul,
        Arith::SubX => Kind::SubX,
        Arith::UDiv => Kind::UDiv,
        Arith::SDiv => Kind::SDiv,
        Arith::AddCc => Kind::AddCc,
        Arith::AndCc => Kind::AndCc,
        Arith::OrCc => Kind::OrCc,
        Arith::XorCc => Kind::XorCc,
        Arith::SubCc => Kind::SubCc,
        Arith::AndNCc => Kind::AndNCc,
        Arith::OrNCc => Kind::OrNCc,
        Arith::XNorCc => Kind::XNorCc,
        Arith::AddXCc => Kind::AddXCc,
        Arith::UMulCc => Kind::UMulCc,
        Arith::SMulCc => Kind::SMulCc,
        Arith::SubXCc => Kind::SubXCc,
        Arith::UDivCc => Kind::Other,
        Arith::SDivCc => Kind::Other,
        Arith::TAddCc => Kind::Other,
        Arith::TSubCc => Kind::Other,
        Arith::TAddCcTv => Kind::Other,
        Arith::TSubCcTv => Kind::Other,
        Arith::MulSCc => Kind::Other,
    }
}

// The row of a load or a store.
fn memory(op: MemOp, rd: u8, rs1: u8, src: Src) -> Row
    requires rd { rd < 32 }
    requires rs1 { rs1 < 32 }
    requires source { IsRegisterIn src }
    ensures row { IsMemoryRow result op rd rs1 src }
    ensures registers { AreRegisterNumbers result }
    ensures alone { follows result.kind ≡ None }
{
    let kind = memory_kind(op, is_number(src));
    with_source(kind, moved(op, rd), rs1, src)
}

// The number of the register of a load or a store: a load of less than a double word may drop what it loads.
fn moved(op: MemOp, rd: u8) -> u8
    requires { rd < 32 }
    ensures register { moved_register op result ≡ rd }
    ensures number { IsMoved op result }
{
    match op {
        MemOp::Ld => sunk(rd),
        MemOp::LdUb => sunk(rd),
        MemOp::LdUh => sunk(rd),
        MemOp::LdSb => sunk(rd),
        MemOp::LdSh => sunk(rd),
        MemOp::LdD => rd,
        MemOp::St => rd,
        MemOp::StB => rd,
        MemOp::StH => rd,
        MemOp::StD => rd,
        MemOp::LdStUb => rd,
        MemOp::Swap => rd,
    }
}

// The kind of a load or a store.
fn memory_kind(op: MemOp, number: bool) -> Kind
    ensures moved { does result ≡ moved_as op number }
    ensures alone { follows result ≡ None }
{
    match op {
        MemOp::Ld => if number {
            Kind::LdNumber
        } else {
            Kind::LdRegister
        },
        MemOp::LdUb => if number {
            Kind::LdUbNumber
        } else {
            Kind::LdUbRegister
        },
        MemOp::LdUh => Kind::LdUh,
        MemOp::LdD => Kind::LdD,
        MemOp::St => if number {
            Kind::StNumber
        } else {
            Kind::StRegister
        },
        MemOp::StB => if number {
            Kind::StBNumber
        } else {
            Kind::StBRegister
        },
        MemOp::StH => Kind::StH,
        MemOp::StD => Kind::StD,
        MemOp::LdSb => Kind::LdSb,
        MemOp::LdSh => Kind::LdSh,
        MemOp::LdStUb => Kind::Other,
        MemOp::Swap => Kind::Other,
    }
}
