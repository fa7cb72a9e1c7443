//! The fields of an instruction word.

ghost use Rattle.std.specs.Prelude.{◌≡◌, ◌<◌, ◌^◌};
ghost use Rattle.sparc_code.specs.Fields.{
  annul,
  cond,
  disp22,
  disp30,
  i,
  imm7,
  imm22,
  op,
  op2,
  op3,
  rd,
  rs1,
  rs2,
  shcnt,
  simm13,
};

/// The format.
#[tactic(auto, unfolding(crate::specs::Fields::op))]
pub fn op(word: u32) -> u32
    // The field of the word that has the format, below its bound.
    ensures value { result ≡ op word }
    ensures below { result < 4 }
{
    word >> 30
}

/// The selector of format 2.
#[tactic(auto, unfolding(crate::specs::Fields::op2))]
pub fn op2(word: u32) -> u32
    // The selector of format 2, below its bound.
    ensures value { result ≡ op2 word }
    ensures below { result < 8 }
{
    (word >> 22) & 7
}

/// The selector of format 3.
#[tactic(auto, unfolding(crate::specs::Fields::op3))]
pub fn op3(word: u32) -> u32
    // The selector of format 3, below its bound.
    ensures value { result ≡ op3 word }
    ensures below { result < 64 }
{
    (word >> 19) & 63
}

/// The register of the result.
#[tactic(auto, unfolding(crate::specs::Fields::rd))]
pub fn rd(word: u32) -> u8
    // The field of the result's register, below its bound.
    ensures value { result ≡ rd word }
    ensures below { result < 32 }
{
    ((word >> 25) & 31) as u8
}

/// The register of the first operand.
#[tactic(auto, unfolding(crate::specs::Fields::rs1))]
pub fn rs1(word: u32) -> u8
    // The field of the first operand's register, below its bound.
    ensures value { result ≡ rs1 word }
    ensures below { result < 32 }
{
    ((word >> 14) & 31) as u8
}

/// The register of operand 2.
#[tactic(auto, unfolding(crate::specs::Fields::rs2))]
pub fn rs2(word: u32) -> u8
    // The field of the second operand's register, below its bound.
    ensures value { result ≡ rs2 word }
    ensures below { result < 32 }
{
    (word & 31) as u8
}

/// 1 where operand 2 stands in the word, else 0.
#[tactic(auto, unfolding(crate::specs::Fields::i))]
pub fn i(word: u32) -> u32
    // The bit that says whether operand 2 stands in the word.
    ensures value { result ≡ i word }
    ensures below { result < 2 }
{
    (word >> 13) & 1
}

/// Operand 2 in the word, with its sign.
#[tactic(auto, unfolding(crate::specs::Fields::signed, crate::specs::Fields::simm13))]
pub fn simm13(word: u32) -> i16
    ensures { result ≡ simm13 word }
{
    ((word << 19).cast_signed() >> 19) as i16
}

/// The number of places of a shift in the word.
#[tactic(auto, unfolding(crate::specs::Fields::shcnt))]
pub fn shcnt(word: u32) -> i16
    ensures { result ≡ shcnt word }
{
    (word & 31) as i16
}

/// The number of a trap in the word.
#[tactic(auto, unfolding(crate::specs::Fields::imm7))]
pub fn imm7(word: u32) -> i16
    ensures { result ≡ imm7 word }
{
    (word & 127) as i16
}

/// The words from a call to its target.
#[tactic(auto, unfolding(crate::specs::Fields::signed, crate::specs::Fields::disp30))]
pub fn disp30(word: u32) -> i32
    ensures { result ≡ disp30 word }
{
    (word << 2).cast_signed() >> 2
}

/// The words from a branch to its target.
#[tactic(auto, unfolding(crate::specs::Fields::signed, crate::specs::Fields::disp22))]
pub fn disp22(word: u32) -> i32
    ensures { result ≡ disp22 word }
{
    (word << 10).cast_signed() >> 10
}

/// The upper bits that SETHI sets.
#[tactic(auto, unfolding(crate::specs::Fields::imm22))]
pub fn imm22(word: u32) -> u32
    // The field of the upper bits that SETHI sets, below its bound.
    ensures value { result ≡ imm22 word }
    ensures below { result < 2 ^ 22 }
{
    word & 0x3f_ffff
}

/// The condition of a branch or a trap.
#[tactic(auto, unfolding(crate::specs::Fields::cond))]
pub fn cond(word: u32) -> u8
    // The field of the condition of a branch or a trap, below its bound.
    ensures value { result ≡ cond word }
    ensures below { result < 16 }
{
    ((word >> 25) & 15) as u8
}

/// The annul bit of a branch.
#[tactic(auto, unfolding(crate::specs::Fields::annul))]
pub fn annul(word: u32) -> u32
    // A field of a word, below its bound.
    ensures { result ≡ annul word }
{
    (word >> 29) & 1
}
