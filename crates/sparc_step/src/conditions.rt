//! The condition codes.

ghost use Rattle.std.specs.Prelude.{◌≡◌, ◌<◌, ◌==◌, false};
ghost use Rattle.sparc_step.specs.Conditions.{
  carry,
  codes_of_difference,
  codes_of_result,
  codes_of_sum,
  codes_of_tagged_difference,
  codes_of_tagged_sum,
  condition_codes,
  holds,
  negative,
  overflow,
};
ghost use Rattle.sparc_step.specs.Words.{sign};

use crate::words::{
    addition_overflows, comparison_overflows, difference, difference_borrows, difference_overflows,
    sign, sum, sum_carries, sum_overflows,
};

// The condition codes of four flags.
#[tactic(auto, unfolding(crate::specs::Conditions::condition_codes))]
pub(crate) fn condition_codes(n: bool, z: bool, v: bool, c: bool) -> u8
    ensures value { result ≡ condition_codes n z v c }
    ensures four { result < 16 }
{
    8 * u8::from(n) + 4 * u8::from(z) + 2 * u8::from(v) + u8::from(c)
}

// The condition codes of a result, its overflow and its carry known.
#[inline(always)]
fn codes_of(value: u32, overflow: bool, carry: bool) -> u8
    ensures value { result ≡ condition_codes (sign value) (value == 0) overflow carry }
    ensures four { result < 16 }
{
    condition_codes(sign(value), value == 0, overflow, carry)
}

/// The condition codes of a result, with an overflow and without a carry.
#[tactic(auto, unfolding(crate::specs::Conditions::codes_of_result))]
pub fn codes_of_result(value: u32, overflow: bool) -> u8
    // The condition codes of a result, with an overflow and without a carry, as defined.
    ensures value { result ≡ codes_of_result value overflow }
    // They are four bits.
    ensures four { result < 16 }
{
    codes_of(value, overflow, false)
}

/// The condition codes of a sum.
#[tactic(auto, unfolding(crate::specs::Conditions::codes_of_sum))]
pub fn codes_of_sum(a: u32, b: u32, carry: bool) -> u8
    // The condition codes of a sum, as defined.
    ensures value { result ≡ codes_of_sum a b carry }
    // They are four bits.
    ensures four { result < 16 }
{
    let overflow = sum_overflows(a, b, carry);
    codes_of(sum(a, b, carry), overflow, sum_carries(a, b, carry))
}

/// The condition codes of an addition, which are those of a sum without a carry.
#[inline(always)]
#[tactic(auto, unfolding(crate::specs::Conditions::codes_of_sum, crate::specs::Conditions::codes_of_tagged_sum))]
pub fn codes_of_addition(a: u32, b: u32) -> u8
    // The condition codes of a sum without a carry, as defined.
    ensures value { result ≡ codes_of_sum a b false }
    // They are four bits.
    ensures four { result < 16 }
{
    codes_of_tagged_sum(a, b, addition_overflows(a, b))
}

// The condition codes of a sum, its overflow known.
#[inline(always)]
#[tactic(auto, unfolding(crate::specs::Conditions::codes_of_tagged_sum))]
pub(crate) fn codes_of_tagged_sum(a: u32, b: u32, overflow: bool) -> u8
    ensures value { result ≡ codes_of_tagged_sum a b overflow }
    ensures four { result < 16 }
{
    codes_of(sum(a, b, false), overflow, sum_carries(a, b, false))
}

/// The condition codes of a difference.
#[tactic(auto, unfolding(crate::specs::Conditions::codes_of_difference))]
pub fn codes_of_difference(a: u32, b: u32, borrow: bool) -> u8
    // The condition codes of a difference, as defined.
    ensures value { result ≡ codes_of_difference a b borrow }
    // They are four bits.
    ensures four { result < 16 }
{
    let overflow = difference_overflows(a, b, borrow);
    let borrows = difference_borrows(a, b, borrow);
    codes_of(difference(a, b, borrow), overflow, borrows)
}

/// The condition codes of a comparison, which are those of a difference without a borrow.
#[inline(always)]
#[tactic(auto, unfolding(crate::specs::Conditions::codes_of_difference, crate::specs::Conditions::codes_of_tagged_difference))]
pub fn codes_of_comparison(a: u32, b: u32) -> u8
    // The condition codes of a difference without a borrow, as defined.
    ensures value { result ≡ codes_of_difference a b false }
    // They are four bits.
    ensures four { result < 16 }
{
    codes_of_tagged_difference(a, b, comparison_overflows(a, b))
}

// The condition codes of a difference, its overflow known.
#[inline(always)]
#[tactic(auto, unfolding(crate::specs::Conditions::codes_of_tagged_difference))]
pub(crate) fn codes_of_tagged_difference(a: u32, b: u32, overflow: bool) -> u8
    ensures value { result ≡ codes_of_tagged_difference a b overflow }
    ensures four { result < 16 }
{
    let borrows = difference_borrows(a, b, false);
    codes_of(difference(a, b, false), overflow, borrows)
}

// For each condition a bit for each of the codes 0 to 15 of which it holds.
const HELD: [u16; 16] = [
    0x0000, 0xf0f0, 0xf3fc, 0x33cc, 0xfafa, 0xaaaa, 0xff00, 0xcccc, 0xffff, 0x0f0f, 0x0c03, 0xcc33,
    0x0505, 0x5555, 0x00ff, 0x3333,
];

/// A condition holds of the codes.
#[inline(always)]
pub fn holds(condition: u8, icc: u8) -> bool
    // Called with a condition below 16 and with condition codes of four bits.
    requires condition { condition < 16 }
    requires icc { icc < 16 }
    ensures { result ≡ holds condition icc }
{
    (HELD[usize::from(condition)] >> icc) & 1 == 1
}

pub(crate) fn negative(icc: u8) -> bool
    ensures { result ≡ negative icc }
{
    (icc >> 3) & 1 == 1
}

pub(crate) fn overflow(icc: u8) -> bool
    ensures { result ≡ overflow icc }
{
    (icc >> 1) & 1 == 1
}

/// A carry or a borrow left the word.
pub fn carry(icc: u8) -> bool
    ensures { result ≡ carry icc }
{
    icc & 1 == 1
}
