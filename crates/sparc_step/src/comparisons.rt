//! Conditions on two words that are compared, without their condition codes.

ghost use Rattle.std.specs.Prelude.{◌≡◌, ◌==◌, false, ◌||◌};
ghost use Rattle.sparc_step.specs.Conditions.{codes_of_difference, differ, holds};
ghost use Rattle.sparc_step.specs.Words.{difference, difference_borrows, difference_overflows, sign};

/// Condition 1 holds of a comparison: both are the same.
#[inline(always)]
#[tactic(auto, using(crate::specs::lemmas::HeldLemmas::equal_held))]
pub fn is_equal(a: u32, b: u32) -> bool
    // Whether condition 1 holds of the condition codes of the difference.
    ensures { result ≡ holds 1 (codes_of_difference a b false) }
{
    is_same(a, b)
}

/// Condition 2 holds of a comparison: the first is the less one of signed words, or both are the same.
#[inline(always)]
#[tactic(auto, using(crate::specs::lemmas::HeldLemmas::compared_not_more))]
pub fn is_not_more(a: u32, b: u32) -> bool
    // Whether condition 2 holds of the condition codes of the difference.
    ensures { result ≡ holds 2 (codes_of_difference a b false) }
{
    is_no_more(a, b)
}

/// Condition 3 holds of a comparison: the first is the less one of signed words.
#[inline(always)]
#[tactic(auto, using(crate::specs::lemmas::HeldLemmas::compared_less))]
pub fn is_less(a: u32, b: u32) -> bool
    // Whether condition 3 holds of the condition codes of the difference.
    ensures { result ≡ holds 3 (codes_of_difference a b false) }
{
    is_less_signed(a, b)
}

/// Condition 4 holds of a comparison: the first is below the second, or both are the same.
#[inline(always)]
#[tactic(auto, using(crate::specs::lemmas::HeldLemmas::compared_at_most))]
pub fn is_at_most(a: u32, b: u32) -> bool
    // Whether condition 4 holds of the condition codes of the difference.
    ensures { result ≡ holds 4 (codes_of_difference a b false) }
{
    is_below_or_same(a, b)
}

/// Condition 5 holds of a comparison: the first is below the second.
#[inline(always)]
#[tactic(auto, using(crate::specs::lemmas::HeldLemmas::compared_below))]
pub fn is_below(a: u32, b: u32) -> bool
    // Whether condition 5 holds of the condition codes of the difference.
    ensures { result ≡ holds 5 (codes_of_difference a b false) }
{
    borrows(a, b)
}

#[inline(always)]
#[tactic(auto, unfolding(crate::specs::Words::difference))]
fn is_same(a: u32, b: u32) -> bool
    ensures { result ≡ (difference a b false == 0) }
{
    a == b
}

// A difference that overflows has the wrong sign.
#[inline(always)]
#[tactic(auto, unfolding(crate::specs::Words::difference_overflows, crate::specs::Words::difference, crate::specs::Words::sign))]
fn is_less_signed(a: u32, b: u32) -> bool
    ensures { result ≡ differ (sign (difference a b false)) (difference_overflows a b false) }
{
    a.cast_signed() < b.cast_signed()
}

#[inline(always)]
#[tactic(auto, unfolding(crate::specs::Words::difference_overflows, crate::specs::Words::difference, crate::specs::Words::sign))]
fn is_no_more(a: u32, b: u32) -> bool
    ensures { result ≡ ((difference a b false == 0) || differ (sign (difference a b false)) (difference_overflows a b false)) }
{
    a.cast_signed() <= b.cast_signed()
}

#[inline(always)]
#[tactic(auto, unfolding(crate::specs::Words::difference_borrows))]
fn borrows(a: u32, b: u32) -> bool
    ensures { result ≡ difference_borrows a b false }
{
    a < b
}

#[inline(always)]
#[tactic(auto, unfolding(crate::specs::Words::difference_borrows, crate::specs::Words::difference))]
fn is_below_or_same(a: u32, b: u32) -> bool
    ensures { result ≡ (difference_borrows a b false || (difference a b false == 0)) }
{
    a <= b
}
