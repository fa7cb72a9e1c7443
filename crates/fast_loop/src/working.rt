//! Work on registers.

ghost use Rattle.std.specs.Prelude.{◌≡◌, ◌*◌, ◌+◌, ◌/◌, ◌%◌, ◌^◌, ◌<◌, false};
ghost use Rattle.std.specs.Bool.{OnTrue};
ghost use Rattle.sparc_step.specs.Arithmetic.{dividend};
ghost use Rattle.sparc_step.specs.Cached.{register_of};
ghost use Rattle.sparc_step.specs.Registers.{register_at, with_register};
ghost use Rattle.sparc_step.specs.Words.{quotient, signed_quotient};
ghost use Rattle.fast_loop.specs.lemmas.Effects.{address_so, first, operand, set_wide, set_wide_coded};
ghost use Rattle.predecode.specs.Kinds.{Sum};
ghost use Rattle.predecode.specs.Rows.{HasForm};

use predecode::Row;
use sparc_step::Processor;
use sparc_step::words::{quotient, signed_quotient};

/// The value of operand 1.
#[inline(always)]
pub(crate) fn first(own: &Processor, row: &Row) -> u32
    requires { row.now.rs1 < 32 }
    ensures { result ≡ first row.now own.now }
{
    own.get(row.rs1)
}

/// The value of operand 2, where it is a register.
#[inline(always)]
pub(crate) fn register(own: &Processor, row: &Row) -> u32
    requires { row.now.rs2 < 32 }
    ensures { result ≡ register_at own.now row.now.rs2 }
{
    own.get(row.rs2)
}

/// The value of operand 2.
#[inline(always)]
pub(crate) fn second(own: &Processor, row: &Row) -> u32
    requires register { row.now.rs2 < 32 }
    requires form { HasForm Sum row.now }
    ensures { result ≡ operand Sum row.now own.now }
{
    own.get(row.rs2).wrapping_add(row.number)
}

/// The sum of the operands.
#[inline(always)]
pub(crate) fn sum_of(own: &Processor, row: &Row) -> u32
    requires first { row.now.rs1 < 32 }
    requires second { row.now.rs2 < 32 }
    requires form { HasForm Sum row.now }
    ensures { result ≡ address_so Sum row.now own.now }
{
    first(own, row).wrapping_add(second(own, row))
}

/// The low half of a product is a result, its high half goes to Y.
#[inline(always)]
pub(crate) fn put_product(own: &mut Processor, rd: u8, product: u64)
    requires rd { rd < 33 }
    requires held { 0 < rd }
    ensures { own.new ≡ set_wide (register_of rd) product own.old }
{
    own.set_y((product >> 32) as u32);
    own.put(rd, (product % 0x1_0000_0000) as u32);
}

/// The same with condition codes.
#[inline(always)]
pub(crate) fn put_product_coded(own: &mut Processor, rd: u8, product: u64)
    requires rd { rd < 33 }
    requires held { 0 < rd }
    ensures { own.new ≡ set_wide_coded (register_of rd) product own.old }
{
    put_product(own, rd, product);
    own.tested((product % 0x1_0000_0000) as u32);
}

/// The product of two words without signs.
#[inline(always)]
pub(crate) fn product(a: u32, b: u32) -> u64
    ensures { result ≡ a * b }
{
    u64::from(a) * u64::from(b)
}

/// A division without signs. One by 0 is not done.
#[inline(always)]
#[tactic(auto, unfolding(sparc_step::specs::Arithmetic::dividend))]
pub(crate) fn divide(own: &mut Processor, rd: u8, a: u32, b: u32) -> bool
    requires rd { rd < 33 }
    requires held { 0 < rd }
    ensures done { OnTrue result (own.new ≡ with_register own.old (register_of rd) (quotient (dividend own.old a) b)) }
    ensures divisor { OnTrue result (0 < b) }
    ensures not_done { result ≡ false → own.new ≡ own.old }
{
    if b == 0 {
        return false;
    }
    let dividend = (u64::from(own.y()) << 32) + u64::from(a);
    own.put(rd, quotient(dividend, b));
    true
}

/// The same with signs.
#[inline(always)]
#[tactic(auto, unfolding(sparc_step::specs::Arithmetic::dividend))]
pub(crate) fn divide_signed(own: &mut Processor, rd: u8, a: u32, b: u32) -> bool
    requires rd { rd < 33 }
    requires held { 0 < rd }
    ensures done { OnTrue result (own.new ≡ with_register own.old (register_of rd) (signed_quotient (dividend own.old a) b)) }
    ensures divisor { OnTrue result (0 < b) }
    ensures not_done { result ≡ false → own.new ≡ own.old }
{
    if b == 0 {
        return false;
    }
    let dividend = (u64::from(own.y()) << 32) + u64::from(a);
    own.put(rd, signed_quotient(dividend, b));
    true
}
