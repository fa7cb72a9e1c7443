//! Arithmetic on words.

ghost use Rattle.std.specs.Prelude.{◌≡◌, ◌<◌, ◌-◌, ◌^◌, ◌≤ℤ◌, ◌<ℤ◌, pos, negsuc, FitsSigned, false};
ghost use Rattle.std.specs.Int.{cast_unsigned, saturate_signed, w32, w64};
ghost use Rattle.std.specs.Option.{SomeIff};
ghost use Rattle.sparc_step.specs.Words.{
  difference,
  difference_borrows,
  difference_overflows,
  exact_quotient,
  is_signed_word,
  is_tagged,
  quotient,
  quotient_overflows,
  shifted_arithmetically,
  shifted_left,
  shifted_right,
  sign,
  signed_value,
  signed_difference,
  signed_product,
  signed_quotient,
  signed_quotient_overflows,
  signed_sum,
  sum,
  sum_carries,
  sum_overflows,
};

// Bit 31 of a word.
#[tactic(auto, unfolding(crate::specs::Words::sign))]
pub(crate) fn sign(word: u32) -> bool
    ensures { result ≡ sign word }
{
    word >= 0x8000_0000
}

/// The sum of two words and a carry.
#[tactic(auto, unfolding(crate::specs::Words::sum))]
pub fn sum(a: u32, b: u32, carry: bool) -> u32
    ensures { result ≡ sum a b carry }
{
    a.wrapping_add(b).wrapping_add(u32::from(carry))
}

// A carry leaves the word.
#[tactic(auto, unfolding(crate::specs::Words::sum_carries))]
pub(crate) fn sum_carries(a: u32, b: u32, carry: bool) -> bool
    ensures { result ≡ sum_carries a b carry }
{
    u64::from(a) + u64::from(b) + u64::from(carry) >= 0x1_0000_0000
}

// The sum of signed words does not fit one.
#[tactic(auto, unfolding(crate::specs::Words::sum_overflows))]
pub(crate) fn sum_overflows(a: u32, b: u32, carry: bool) -> bool
    ensures { result ≡ sum_overflows a b carry }
{
    !is_signed_word(signed_sum(a, b, carry))
}

/// The sum of signed words does not fit one: it is below the first where the second is not negative, or it is not where it is.
#[tactic(auto, unfolding(crate::specs::Words::sum_overflows, crate::specs::Words::sum, crate::specs::Words::sign))]
pub(crate) fn addition_overflows(a: u32, b: u32) -> bool
    ensures { result ≡ sum_overflows a b false }
{
    (sum(a, b, false).cast_signed() < a.cast_signed()) != sign(b)
}

// The sum of signed words and a carry.
fn signed_sum(a: u32, b: u32, carry: bool) -> i64
    ensures { result ≡ signed_sum a b carry }
{
    signed(a) + signed(b) + i64::from(carry)
}

// A word as a signed number.
fn signed(word: u32) -> i64
    ensures value { result ≡ signed_value word }
    ensures from { negsuc (2 ^ 31 - 1) ≤ℤ result }
    ensures below { result <ℤ pos (2 ^ 31) }
{
    i64::from(word.cast_signed())
}

// The number is a signed word's.
fn is_signed_word(number: i64) -> bool
    ensures { result ≡ is_signed_word number }
{
    number >= -0x8000_0000 && number < 0x8000_0000
}

/// The difference of two words, less a borrow.
#[tactic(auto, unfolding(crate::specs::Words::difference))]
pub fn difference(a: u32, b: u32, borrow: bool) -> u32
    ensures { result ≡ difference a b borrow }
{
    a.wrapping_sub(b).wrapping_sub(u32::from(borrow))
}

// A borrow is taken from beyond the word.
#[tactic(auto, unfolding(crate::specs::Words::difference_borrows))]
pub(crate) fn difference_borrows(a: u32, b: u32, borrow: bool) -> bool
    ensures { result ≡ difference_borrows a b borrow }
{
    u64::from(a) < u64::from(b) + u64::from(borrow)
}

// The difference of signed words does not fit one.
#[tactic(auto, unfolding(crate::specs::Words::difference_overflows))]
pub(crate) fn difference_overflows(a: u32, b: u32, borrow: bool) -> bool
    ensures { result ≡ difference_overflows a b borrow }
{
    !is_signed_word(signed_difference(a, b, borrow))
}

/// The difference of signed words does not fit one: it is negative where the first is not the smaller, or it is not where it is.
#[tactic(auto, unfolding(crate::specs::Words::difference_overflows, crate::specs::Words::difference, crate::specs::Words::sign))]
pub(crate) fn comparison_overflows(a: u32, b: u32) -> bool
    ensures { result ≡ difference_overflows a b false }
{
    sign(difference(a, b, false)) != (a.cast_signed() < b.cast_signed())
}

// The difference of signed words, less a borrow.
fn signed_difference(a: u32, b: u32, borrow: bool) -> i64
    ensures { result ≡ signed_difference a b borrow }
{
    signed(a) - signed(b) - i64::from(borrow)
}

/// The product of signed words.
#[tactic(auto, unfolding(crate::specs::Words::signed_product))]
pub fn signed_product(a: u32, b: u32) -> u64
    ensures { result ≡ signed_product a b }
{
    (signed(a) * signed(b)).cast_unsigned()
}

/// The quotient of a double word, as far as a word holds it.
#[tactic(auto, unfolding(crate::specs::Words::quotient))]
pub fn quotient(dividend: u64, divisor: u32) -> u32
    // Called with a divisor above zero.
    requires { 0 < divisor }
    ensures { result ≡ quotient dividend divisor }
{
    (dividend / u64::from(divisor)).min(0xffff_ffff) as u32
}

// It does not fit a word.
#[tactic(auto, unfolding(crate::specs::Words::quotient_overflows))]
pub(crate) fn quotient_overflows(dividend: u64, divisor: u32) -> bool
    requires { 0 < divisor }
    ensures { result ≡ quotient_overflows dividend divisor }
{
    dividend / u64::from(divisor) >= 0x1_0000_0000
}

// The quotient of a signed double word, rounded toward zero; one alone is none of a double word's.
fn exact_quotient(dividend: u64, divisor: u32) -> Option<i64>
    requires { 0 < divisor }
    ensures { SomeIff result (FitsSigned w64 (exact_quotient dividend divisor)) (exact_quotient dividend divisor) }
{
    dividend.cast_signed().checked_div(signed(divisor))
}

/// The quotient of a signed double word, as far as a signed word holds it.
#[tactic(auto, unfolding(crate::specs::Words::signed_quotient))]
pub fn signed_quotient(dividend: u64, divisor: u32) -> u32
    // Called with a divisor above zero.
    requires { 0 < divisor }
    ensures { result ≡ signed_quotient dividend divisor }
{
    match exact_quotient(dividend, divisor) {
        Some(quotient) => saturated(quotient),
        None => 0x7fff_ffff,
    }
}

// The signed word that is nearest to a number.
fn saturated(number: i64) -> u32
    ensures { result ≡ cast_unsigned w32 (saturate_signed w32 number) }
{
    (number.clamp(-0x8000_0000, 0x7fff_ffff) as i32).cast_unsigned()
}

// The quotient does not fit a signed word.
#[tactic(auto, unfolding(crate::specs::Words::signed_quotient_overflows))]
pub(crate) fn signed_quotient_overflows(dividend: u64, divisor: u32) -> bool
    requires { 0 < divisor }
    ensures { result ≡ signed_quotient_overflows dividend divisor }
{
    match exact_quotient(dividend, divisor) {
        Some(quotient) => !is_signed_word(quotient),
        None => true,
    }
}

// One of the two low bits of a word is set.
#[tactic(auto, unfolding(crate::specs::Words::is_tagged))]
pub(crate) fn is_tagged(a: u32, b: u32) -> bool
    ensures { result ≡ is_tagged a b }
{
    a % 4 != 0 || b % 4 != 0
}

#[tactic(auto, unfolding(crate::specs::Words::shifted_left))]
pub fn shifted_left(a: u32, count: u32) -> u32
    // The word shifted left by the low five bits of the count.
    ensures { result ≡ shifted_left a count }
{
    a.wrapping_shl(count)
}

#[tactic(auto, unfolding(crate::specs::Words::shifted_right))]
pub fn shifted_right(a: u32, count: u32) -> u32
    // The word shifted right by the low five bits of the count, with zeros from the left.
    ensures { result ≡ shifted_right a count }
{
    a.wrapping_shr(count)
}

#[tactic(auto, unfolding(crate::specs::Words::shifted_arithmetically))]
pub fn shifted_arithmetically(a: u32, count: u32) -> u32
    // The word shifted right by the low five bits of the count, with its sign from the left.
    ensures { result ≡ shifted_arithmetically a count }
{
    a.cast_signed().wrapping_shr(count).cast_unsigned()
}
