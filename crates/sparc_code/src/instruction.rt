//! What an instruction word says.

/// Operand 2 of an instruction.
#[derive(Clone, Copy, Debug, PartialEq, Eq)]
pub enum Src {
    /// The register rs2.
    Reg(u8),
    /// A number that stands in the word: signed, but for shifts and traps.
    Imm(i16),
}

/// An instruction. Displacements are counted in words.
#[derive(Clone, Copy, Debug, PartialEq, Eq)]
pub enum Instr {
    Call {
        disp: i32,
    },
    /// `Bicc`.
    Branch {
        cond: u8,
        annul: bool,
        disp: i32,
    },
    /// `SETHI`: `imm` is the upper 22 bits of a register.
    Sethi {
        rd: u8,
        imm: u32,
    },
    Arith {
        op: Arith,
        rd: u8,
        rs1: u8,
        src: Src,
    },
    /// `RDY`.
    ReadY {
        rd: u8,
    },
    /// `STBAR`.
    Barrier,
    /// `WRY`.
    WriteY {
        rs1: u8,
        src: Src,
    },
    /// `JMPL`.
    Jump {
        rd: u8,
        rs1: u8,
        src: Src,
    },
    /// `Ticc`.
    Trap {
        cond: u8,
        rs1: u8,
        src: Src,
    },
    Flush,
    Save {
        rd: u8,
        rs1: u8,
        src: Src,
    },
    Restore {
        rd: u8,
        rs1: u8,
        src: Src,
    },
    Mem {
        op: MemOp,
        rd: u8,
        rs1: u8,
        src: Src,
    },
    /// An instruction of the supervisor.
    Privileged,
    /// An instruction of the floating-point unit.
    Float,
    /// An instruction of the coprocessor.
    Coproc,
    /// No instruction: `UNIMP`, a selector that has none, or a double word at an odd register.
    Illegal,
}

/// Work on registers. Its number is its selector.
#[derive(Clone, Copy, Debug, PartialEq, Eq)]
pub enum Arith {
    Add = 0x00,
    And = 0x01,
    Or = 0x02,
    Xor = 0x03,
    Sub = 0x04,
    AndN = 0x05,
    OrN = 0x06,
    XNor = 0x07,
    AddX = 0x08,
    UMul = 0x0a,
    SMul = 0x0b,
    SubX = 0x0c,
    UDiv = 0x0e,
    SDiv = 0x0f,
    AddCc = 0x10,
    AndCc = 0x11,
    OrCc = 0x12,
    XorCc = 0x13,
    SubCc = 0x14,
    AndNCc = 0x15,
    OrNCc = 0x16,
    XNorCc = 0x17,
    AddXCc = 0x18,
    UMulCc = 0x1a,
    SMulCc = 0x1b,
    SubXCc = 0x1c,
    UDivCc = 0x1e,
    SDivCc = 0x1f,
    TAddCc = 0x20,
    TSubCc = 0x21,
    TAddCcTv = 0x22,
    TSubCcTv = 0x23,
    MulSCc = 0x24,
    Sll = 0x25,
    Srl = 0x26,
    Sra = 0x27,
}

/// Loads, stores and exchanges. The number of one is its selector.
#[derive(Clone, Copy, Debug, PartialEq, Eq)]
pub enum MemOp {
    Ld = 0x00,
    LdUb = 0x01,
    LdUh = 0x02,
    LdD = 0x03,
    St = 0x04,
    StB = 0x05,
    StH = 0x06,
    StD = 0x07,
    LdSb = 0x09,
    LdSh = 0x0a,
    LdStUb = 0x0d,
    Swap = 0x0f,
}
