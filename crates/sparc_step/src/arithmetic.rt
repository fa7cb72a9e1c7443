//! Work on registers.

ghost use Rattle.std.specs.Prelude.{◌≡◌, ◌⊎◌, ◌*◌, ◌+◌, ◌/◌, ◌%◌, ◌<◌, ◌≤◌, ◌^◌, false};
ghost use Rattle.sparc_code.specs.Decoded.{registers_row};
ghost use Rattle.sparc_code.specs.Fields.{rd};
ghost use Rattle.sparc_step.specs.Arithmetic.{
  dividend,
  multiply_step,
  step_addend,
  stepped_operand,
  stepped_y,
  tagged_difference_overflows,
  tagged_sum_overflows,
};
ghost use Rattle.sparc_step.specs.Conditions.{
  codes_of_difference,
  codes_of_result,
  codes_of_sum,
  codes_of_tagged_difference,
  codes_of_tagged_sum,
};
ghost use Rattle.sparc_step.specs.lemmas.ExecutionTerms.{TurnsTo};
ghost use Rattle.sparc_step.specs.Outcome.{with_result, with_result_and_codes};
ghost use Rattle.sparc_step.specs.Registers.{with_y};
ghost use Rattle.sparc_step.specs.Words.{difference, sum};

use crate::conditions::{
    carry, codes_of_comparison, codes_of_difference, codes_of_result, codes_of_sum,
    codes_of_tagged_difference, codes_of_tagged_sum, negative, overflow,
};
use crate::operands::{first, places, put_with_codes, second, set_result};
use crate::outcome::Turn;
use crate::processor::Processor;
use crate::words::{
    difference, difference_overflows, is_tagged, quotient, quotient_overflows,
    shifted_arithmetically, shifted_left, shifted_right, signed_product, signed_quotient,
    signed_quotient_overflows, sum, sum_overflows,
};

// Work on registers, from the selectors 08 to 27.
#[inline(always)]
pub(crate) fn work(core: &mut Processor, selector: u32, word: u32) -> Turn
    requires from { 8 ≤ selector }
    requires below { selector < 0x28 }
    ensures { TurnsTo (registers_row selector word) core.old result core.new }
{
    if selector < 0x18 {
        if selector < 0x10 {
            extended(core, selector, word)
        } else {
            coded(core, selector, word)
        }
    } else if selector < 0x20 {
        extended(core, selector, word)
    } else if selector < 0x25 {
        stepped(core, selector, word)
    } else {
        shift(core, selector, word)
    }
}

// The selectors 00 to 07.
#[tactic(auto, unfolding(sparc_code::specs::Decoded::registers_row))]
#[inline(always)]
pub(crate) fn plain(core: &mut Processor, selector: u32, word: u32) -> Turn
    requires { selector < 8 }
    ensures { TurnsTo (registers_row selector word) core.old result core.new }
{
    let a = first(core, word);
    let b = second(core, word);
    if selector < 4 {
        if selector < 2 {
            if selector == 0x00 {
                set_result(core, word, sum(a, b, false));
            } else {
                set_result(core, word, a & b);
            }
        } else if selector == 0x02 {
            set_result(core, word, a | b);
        } else {
            set_result(core, word, a ^ b);
        }
    } else if selector == 0x04 {
        set_result(core, word, difference(a, b, false));
    } else if selector < 6 {
        set_result(core, word, a & !b);
    } else if selector == 0x06 {
        set_result(core, word, a | !b);
    } else {
        set_result(core, word, !(a ^ b));
    }
    Turn::Went
}

// The selectors 10 to 17.
#[tactic(auto, unfolding(sparc_code::specs::Decoded::registers_row))]
#[inline(always)]
fn coded(core: &mut Processor, selector: u32, word: u32) -> Turn
    requires from { 0x10 ≤ selector }
    requires below { selector < 0x18 }
    ensures { TurnsTo (registers_row selector word) core.old result core.new }
{
    let a = first(core, word);
    let b = second(core, word);
    if selector == 0x14 {
        put_with_codes(
            core,
            word,
            difference(a, b, false),
            codes_of_comparison(a, b),
        );
    } else if selector == 0x10 {
        put_with_codes(core, word, sum(a, b, false), codes_of_sum(a, b, false));
    } else if selector < 0x14 {
        if selector == 0x11 {
            put_logic(core, word, a & b);
        } else if selector == 0x12 {
            put_logic(core, word, a | b);
        } else {
            put_logic(core, word, a ^ b);
        }
    } else if selector == 0x15 {
        put_logic(core, word, a & !b);
    } else if selector == 0x16 {
        put_logic(core, word, a | !b);
    } else {
        put_logic(core, word, !(a ^ b));
    }
    Turn::Went
}

// Puts a result that neither overflows nor carries with its condition codes, and goes on.
#[inline(always)]
fn put_logic(core: &mut Processor, word: u32, value: u32)
    ensures { core.new ≡ with_result_and_codes (rd word) value (codes_of_result value false) core.old }
{
    put_result(core, word, value, false);
}

// Puts a result with its condition codes, its overflow known, and goes on.
#[inline(always)]
fn put_result(core: &mut Processor, word: u32, value: u32, overflows: bool)
    ensures { core.new ≡ with_result_and_codes (rd word) value (codes_of_result value overflows) core.old }
{
    put_with_codes(core, word, value, codes_of_result(value, overflows));
}

// The selectors 08 to 0f, and 18 to 1f, which are the same with condition codes.
#[tactic(auto, unfolding(sparc_code::specs::Decoded::registers_row))]
#[inline(never)]
fn extended(core: &mut Processor, selector: u32, word: u32) -> Turn
    requires { ((0x08 ≤ selector) × (selector < 0x10)) ⊎ ((0x18 ≤ selector) × (selector < 0x20)) }
    ensures { TurnsTo (registers_row selector word) core.old result core.new }
{
    let a = first(core, word);
    let b = second(core, word);
    let carry = carry(core.icc());
    match selector {
        0x08 => set_result(core, word, sum(a, b, carry)),
        0x18 => put_sum(core, word, a, b, carry),
        0x0c => set_result(core, word, difference(a, b, carry)),
        0x1c => put_difference(core, word, a, b, carry),
        0x0a => put_product(core, word, u64::from(a) * u64::from(b)),
        0x1a => put_product_with_codes(core, word, u64::from(a) * u64::from(b)),
        0x0b => put_product(core, word, signed_product(a, b)),
        0x1b => put_product_with_codes(core, word, signed_product(a, b)),
        0x0e | 0x0f | 0x1e | 0x1f => return divide(core, selector, word),
        _ => return Turn::Trap(0x02),
    }
    Turn::Went
}

// The selectors 20 to 24.
#[tactic(auto, unfolding(sparc_code::specs::Decoded::registers_row))]
#[inline(never)]
fn stepped(core: &mut Processor, selector: u32, word: u32) -> Turn
    requires from { 0x20 ≤ selector }
    requires below { selector < 0x25 }
    ensures { TurnsTo (registers_row selector word) core.old result core.new }
{
    let a = first(core, word);
    let b = second(core, word);
    if selector == 0x20 {
        put_tagged_sum(core, word, a, b, tagged_sum_overflows(a, b));
    } else if selector == 0x21 {
        put_tagged_difference(core, word, a, b, tagged_difference_overflows(a, b));
    } else if selector == 0x24 {
        multiply_step(core, word, a, b);
    } else if selector == 0x22 {
        if tagged_sum_overflows(a, b) {
            return Turn::Trap(0x0a);
        }
        put_tagged_sum(core, word, a, b, false);
    } else {
        if tagged_difference_overflows(a, b) {
            return Turn::Trap(0x0a);
        }
        put_tagged_difference(core, word, a, b, false);
    }
    Turn::Went
}

// The selectors 25 to 27.
#[tactic(auto, unfolding(sparc_code::specs::Decoded::registers_row))]
#[inline(always)]
fn shift(core: &mut Processor, selector: u32, word: u32) -> Turn
    requires from { 0x25 ≤ selector }
    requires below { selector < 0x28 }
    ensures { TurnsTo (registers_row selector word) core.old result core.new }
{
    let a = first(core, word);
    let count = places(core, word);
    if selector == 0x25 {
        set_result(core, word, shifted_left(a, count));
    } else if selector == 0x26 {
        set_result(core, word, shifted_right(a, count));
    } else {
        set_result(core, word, shifted_arithmetically(a, count));
    }
    Turn::Went
}

// Puts a sum with its condition codes, and goes on.
fn put_sum(core: &mut Processor, word: u32, a: u32, b: u32, carry: bool)
    ensures { core.new ≡ with_result_and_codes (rd word) (sum a b carry) (codes_of_sum a b carry) core.old }
{
    put_with_codes(core, word, sum(a, b, carry), codes_of_sum(a, b, carry));
}

// The same of a difference.
fn put_difference(core: &mut Processor, word: u32, a: u32, b: u32, borrow: bool)
    ensures { core.new ≡ with_result_and_codes (rd word) (difference a b borrow) (codes_of_difference a b borrow) core.old }
{
    let codes = codes_of_difference(a, b, borrow);
    put_with_codes(core, word, difference(a, b, borrow), codes);
}

// Puts the low half of a product as the result and its high half into Y, and goes on.
fn put_product(core: &mut Processor, word: u32, product: u64)
    ensures { core.new ≡ with_result (rd word) (product % 2 ^ 32) (with_y core.old (product / 2 ^ 32)) }
{
    core.set_y((product >> 32) as u32);
    set_result(core, word, (product % 0x1_0000_0000) as u32);
}

// The same with the condition codes of the low half.
fn put_product_with_codes(core: &mut Processor, word: u32, product: u64)
    ensures { core.new ≡ with_result_and_codes (rd word) (product % 2 ^ 32) (codes_of_result (product % 2 ^ 32) false) (with_y core.old (product / 2 ^ 32)) }
{
    core.set_y((product >> 32) as u32);
    put_logic(core, word, (product % 0x1_0000_0000) as u32);
}

// The double word that is divided: Y, and the first operand after it.
#[tactic(auto, unfolding(crate::specs::Arithmetic::dividend))]
fn dividend(core: &Processor, a: u32) -> u64
    ensures { result ≡ dividend core.now a }
{
    (u64::from(core.y()) << 32) + u64::from(a)
}

// The four divisions: without a sign and with one, and each with condition codes.
#[tactic(auto, unfolding(sparc_code::specs::Decoded::registers_row))]
fn divide(core: &mut Processor, selector: u32, word: u32) -> Turn
    requires { (selector ≡ 0x0e) ⊎ (selector ≡ 0x0f) ⊎ (selector ≡ 0x1e) ⊎ (selector ≡ 0x1f) }
    ensures { TurnsTo (registers_row selector word) core.old result core.new }
{
    let dividend = dividend(core, first(core, word));
    let divisor = second(core, word);
    if divisor == 0 {
        return Turn::Trap(0x2a);
    }
    if selector == 0x0e {
        set_result(core, word, quotient(dividend, divisor));
    } else if selector == 0x0f {
        set_result(core, word, signed_quotient(dividend, divisor));
    } else if selector == 0x1e {
        let overflows = quotient_overflows(dividend, divisor);
        put_result(core, word, quotient(dividend, divisor), overflows);
    } else {
        let overflows = signed_quotient_overflows(dividend, divisor);
        put_result(core, word, signed_quotient(dividend, divisor), overflows);
    }
    Turn::Went
}

// A sum overflows, or a word bears a tag.
#[tactic(auto, unfolding(crate::specs::Arithmetic::tagged_sum_overflows))]
fn tagged_sum_overflows(a: u32, b: u32) -> bool
    ensures { result ≡ tagged_sum_overflows a b }
{
    sum_overflows(a, b, false) || is_tagged(a, b)
}

// A difference overflows, or a word bears a tag.
#[tactic(auto, unfolding(crate::specs::Arithmetic::tagged_difference_overflows))]
fn tagged_difference_overflows(a: u32, b: u32) -> bool
    ensures { result ≡ tagged_difference_overflows a b }
{
    difference_overflows(a, b, false) || is_tagged(a, b)
}

// Puts a sum with the condition codes of tagged work, and goes on.
fn put_tagged_sum(core: &mut Processor, word: u32, a: u32, b: u32, overflows: bool)
    ensures { core.new ≡ with_result_and_codes (rd word) (sum a b false) (codes_of_tagged_sum a b overflows) core.old }
{
    let codes = codes_of_tagged_sum(a, b, overflows);
    put_with_codes(core, word, sum(a, b, false), codes);
}

// The same of a difference.
fn put_tagged_difference(core: &mut Processor, word: u32, a: u32, b: u32, overflows: bool)
    ensures { core.new ≡ with_result_and_codes (rd word) (difference a b false) (codes_of_tagged_difference a b overflows) core.old }
{
    let codes = codes_of_tagged_difference(a, b, overflows);
    put_with_codes(core, word, difference(a, b, false), codes);
}

// The first operand of a step of a multiplication.
#[tactic(auto, unfolding(crate::specs::Arithmetic::stepped_operand))]
fn stepped_operand(core: &Processor, a: u32) -> u32
    ensures { result ≡ stepped_operand core.now a }
{
    (a >> 1) + (u32::from(negative(core.icc()) != overflow(core.icc())) << 31)
}

// What the step adds to it.
#[tactic(auto, unfolding(crate::specs::Arithmetic::step_addend))]
fn step_addend(core: &Processor, b: u32) -> u32
    ensures { result ≡ step_addend core.now b }
{
    if core.y() % 2 == 1 { b } else { 0 }
}

// Y after the step.
#[tactic(auto, unfolding(crate::specs::Arithmetic::stepped_y))]
fn stepped_y(core: &Processor, a: u32) -> u32
    ensures { result ≡ stepped_y core.now a }
{
    (core.y() >> 1) + ((a % 2) << 31)
}

// MULScc.
#[tactic(auto, unfolding(crate::specs::Arithmetic::multiply_step))]
fn multiply_step(core: &mut Processor, word: u32, a: u32, b: u32)
    ensures { core.new ≡ multiply_step (rd word) a b core.old }
{
    let augend = stepped_operand(core, a);
    let addend = step_addend(core, b);
    let y = stepped_y(core, a);
    core.set_y(y);
    put_sum(core, word, augend, addend, false);
}
