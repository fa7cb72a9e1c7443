//! What rows do.

ghost use Rattle.std.specs.Prelude.{◌≡◌, ℕ, ◌%◌, ◌<◌, drop, false, length, Some, slice_get, true};
ghost use Rattle.guest_bus.specs.Words.{word_address};
ghost use Rattle.sparc_code.specs.declared.instruction.Arith.TheVariants as arith;
ghost use Rattle.sparc_step.specs.Cached.{register_of};
ghost use Rattle.sparc_step.specs.Conditions.{codes_of_difference, holds};
ghost use Rattle.sparc_step.specs.Registers.{with_register};
ghost use Rattle.predecode.specs.Kinds.{Compares as ByCompares, Number, Register, Sum, WritesY};
ghost use Rattle.predecode.specs.Rows.{AreRegisterNumbers, IsResult};
ghost use Rattle.predecode.specs.declared.rows.Row.{Row as Placed};
ghost use Rattle.fast_loop.specs.declared.simple.Step.TheVariants.{Taken};
ghost use Rattle.fast_loop.specs.lemmas.Effects.{first, left_so, operand, set_logical, worked};
ghost use Rattle.fast_loop.specs.Keeping.{AreRowsOf};
ghost use Rattle.fast_loop.specs.lemmas.Steps.{AreOperands, IsAlone, IsAnnulled, IsBranched, IsChosen, IsDivided, IsJumped, IsStep, IsStill, IsTrapped};

use crate::moving::{load, load_double, store_double, store_register};
use crate::places::{address, displacement};
use crate::rare::{restore, save};
use crate::ways::Way;
use crate::working::{
    divide, divide_signed, first, product, put_product, put_product_coded, register, second, sum_of,
};
use guest_bus::{HasWords, Size};
use predecode::{Kind, Row};
use sparc_step::Processor;
use sparc_step::comparisons::{is_at_most, is_below, is_equal, is_less, is_not_more};
use sparc_step::conditions::{carry, codes_of_difference, codes_of_sum, holds};
use sparc_step::words::{
    difference, shifted_arithmetically, shifted_left, shifted_right, signed_product, sum,
};

/// The outcome of an instruction.
#[derive(Clone, Copy, Debug)]
pub(crate) enum Step {
    /// It was done, and the next word follows.
    Next(Way),
    /// It and the branch after it were done, and the word after that follows.
    Passed,
    /// It was done, but for where it goes: by a displacement from its place, after its delay slot.
    Taken(u32),
    /// It was done, and the branch after it is taken, which was not done.
    Compared,
    /// It was done, and the word at a displacement from its place follows.
    Jumped(u32),
    /// It calls the hypervisor, and was not done.
    Calls,
    /// It is a SAVE or a RESTORE that needs a window spilled or filled, and was not done.
    Shifts,
    /// It was not done.
    Stays,
}

// What came of work that sets condition codes, where the branch after it is done, too.
#[inline(always)]
fn chosen(paired: bool, taken: bool) -> Step
    ensures { IsChosen result paired taken }
{
    if !paired {
        Step::Next(Way::Sums)
    } else if taken {
        Step::Compared
    } else {
        Step::Passed
    }
}

// A result.
#[inline(always)]
fn put(own: &mut Processor, row: &Row, value: u32)
    requires { IsResult row.now.rd }
    ensures { own.new ≡ with_register own.old (register_of row.now.rd) value }
{
    own.put(row.rd, value);
}

// A result of logic with its condition codes. The answer is whether it is zero.
#[inline(always)]
#[tactic(auto, using(sparc_step::specs::lemmas::HeldLemmas::result_zero), unfolding(sparc_step::specs::Registers::with_icc))]
fn put_logical(own: &mut Processor, row: &Row, value: u32) -> bool
    requires { IsResult row.now.rd }
    ensures value { own.new ≡ set_logical (register_of row.now.rd) value own.old }
    ensures zero { result ≡ holds 1 own.new.icc }
{
    own.put(row.rd, value);
    own.tested(value);
    value == 0
}

// A sum with its condition codes. The answer is whether it is zero.
#[inline(always)]
#[tactic(auto, using(sparc_step::specs::lemmas::HeldLemmas::sum_zero), unfolding(sparc_step::specs::Registers::with_icc))]
fn put_added(own: &mut Processor, row: &Row) -> bool
    requires registers { AreOperands row.now }
    requires result { IsResult row.now.rd }
    ensures value { own.new ≡ worked arith.AddCc (register_of row.now.rd) (first row.now own.old) (operand Sum row.now own.old) own.old }
    ensures zero { result ≡ holds 1 own.new.icc }
{
    let a = first(own, row);
    let b = second(own, row);
    let value = sum(a, b, false);
    own.put(row.rd, value);
    own.added(a, b);
    value == 0
}

// A difference with its condition codes. The answer is whether it is zero.
#[inline(always)]
#[tactic(auto, using(sparc_step::specs::lemmas::HeldLemmas::equal_held), unfolding(sparc_step::specs::Registers::with_icc))]
fn put_compared(own: &mut Processor, row: &Row) -> bool
    requires registers { AreOperands row.now }
    requires result { IsResult row.now.rd }
    ensures value { own.new ≡ worked arith.SubCc (register_of row.now.rd) (first row.now own.old) (operand Sum row.now own.old) own.old }
    ensures zero { result ≡ holds 1 own.new.icc }
{
    let a = first(own, row);
    let b = second(own, row);
    let value = difference(a, b, false);
    own.put(row.rd, value);
    own.compared(a, b);
    value == 0
}

// Both with the carry.
#[inline(always)]
fn put_sum(own: &mut Processor, row: &Row)
    requires registers { AreOperands row.now }
    requires result { IsResult row.now.rd }
    ensures { own.new ≡ worked arith.AddXCc (register_of row.now.rd) (first row.now own.old) (operand Sum row.now own.old) own.old }
{
    let a = first(own, row);
    let b = second(own, row);
    let carry = carry(own.icc());
    own.put(row.rd, sum(a, b, carry));
    own.set_icc(codes_of_sum(a, b, carry));
}

#[inline(always)]
fn put_difference(own: &mut Processor, row: &Row)
    requires registers { AreOperands row.now }
    requires result { IsResult row.now.rd }
    ensures { own.new ≡ worked arith.SubXCc (register_of row.now.rd) (first row.now own.old) (operand Sum row.now own.old) own.old }
{
    let a = first(own, row);
    let b = second(own, row);
    let carry = carry(own.icc());
    own.put(row.rd, difference(a, b, carry));
    own.set_icc(codes_of_difference(a, b, carry));
}

// A division. One by 0 is left.
#[inline(always)]
fn divided(own: &mut Processor, row: &Row) -> Step
    requires registers { AreOperands row.now }
    requires result { IsResult row.now.rd }
    ensures { IsDivided result arith.UDiv row.now own.old own.new }
{
    if divide(own, row.rd, first(own, row), second(own, row)) {
        Step::Next(Way::Shifts)
    } else {
        Step::Stays
    }
}

#[inline(always)]
fn divided_signed(own: &mut Processor, row: &Row) -> Step
    requires registers { AreOperands row.now }
    requires result { IsResult row.now.rd }
    ensures { IsDivided result arith.SDiv row.now own.old own.new }
{
    if divide_signed(own, row.rd, first(own, row), second(own, row)) {
        Step::Next(Way::Shifts)
    } else {
        Step::Stays
    }
}

// The operands of a comparison with a number, whose condition codes are set.
#[inline(always)]
#[tactic(auto, unfolding(sparc_step::specs::Registers::with_icc))]
fn compare_number(own: &mut Processor, row: &Row) -> (u32, u32)
    requires { row.now.rs1 < 32 }
    ensures codes { own.new ≡ left_so (ByCompares Number) row.now own.old }
    ensures words { own.new.icc ≡ codes_of_difference result.0 result.1 false }
{
    let a = first(own, row);
    own.compared(a, row.number);
    (a, row.number)
}

// The same with a register.
#[inline(always)]
#[tactic(auto, unfolding(sparc_step::specs::Registers::with_icc))]
fn compare_register(own: &mut Processor, row: &Row) -> (u32, u32)
    requires first { row.now.rs1 < 32 }
    requires second { row.now.rs2 < 32 }
    ensures codes { own.new ≡ left_so (ByCompares Register) row.now own.old }
    ensures words { own.new.icc ≡ codes_of_difference result.0 result.1 false }
{
    let a = first(own, row);
    let b = register(own, row);
    own.compared(a, b);
    (a, b)
}

#[inline(always)]
fn equal(words: (u32, u32)) -> bool
    ensures { result ≡ holds 1 (codes_of_difference words.0 words.1 false) }
{
    is_equal(words.0, words.1)
}

#[inline(always)]
fn not_more(words: (u32, u32)) -> bool
    ensures { result ≡ holds 2 (codes_of_difference words.0 words.1 false) }
{
    is_not_more(words.0, words.1)
}

#[inline(always)]
fn less(words: (u32, u32)) -> bool
    ensures { result ≡ holds 3 (codes_of_difference words.0 words.1 false) }
{
    is_less(words.0, words.1)
}

#[inline(always)]
fn at_most(words: (u32, u32)) -> bool
    ensures { result ≡ holds 4 (codes_of_difference words.0 words.1 false) }
{
    is_at_most(words.0, words.1)
}

#[inline(always)]
fn below(words: (u32, u32)) -> bool
    ensures { result ≡ holds 5 (codes_of_difference words.0 words.1 false) }
{
    is_below(words.0, words.1)
}

#[inline(always)]
#[tactic(auto, unfolding(sparc_step::specs::Conditions::holds))]
fn not_equal(words: (u32, u32)) -> bool
    ensures { result ≡ holds 9 (codes_of_difference words.0 words.1 false) }
{
    !is_equal(words.0, words.1)
}

#[inline(always)]
#[tactic(auto, unfolding(sparc_step::specs::Conditions::holds))]
fn more(words: (u32, u32)) -> bool
    ensures { result ≡ holds 10 (codes_of_difference words.0 words.1 false) }
{
    !is_not_more(words.0, words.1)
}

#[inline(always)]
#[tactic(auto, unfolding(sparc_step::specs::Conditions::holds))]
fn not_less(words: (u32, u32)) -> bool
    ensures { result ≡ holds 11 (codes_of_difference words.0 words.1 false) }
{
    !is_less(words.0, words.1)
}

#[inline(always)]
#[tactic(auto, unfolding(sparc_step::specs::Conditions::holds))]
fn above(words: (u32, u32)) -> bool
    ensures { result ≡ holds 12 (codes_of_difference words.0 words.1 false) }
{
    !is_at_most(words.0, words.1)
}

#[inline(always)]
#[tactic(auto, unfolding(sparc_step::specs::Conditions::holds))]
fn not_below(words: (u32, u32)) -> bool
    ensures { result ≡ holds 13 (codes_of_difference words.0 words.1 false) }
{
    !is_below(words.0, words.1)
}

// Work whose result is not zero, by whether it is.
#[inline(always)]
#[tactic(auto, unfolding(sparc_step::specs::Conditions::holds))]
fn differs(zero: bool) -> bool
    ensures { (icc : ℕ) → zero ≡ holds 1 icc → result ≡ holds 9 icc }
{
    !zero
}

// A branch that annuls nothing.
#[inline(always)]
fn branch(own: &Processor, row: &Row) -> Step
    requires { row.now.rs1 < 16 }
    ensures { IsBranched result row.now own.now }
{
    if holds(row.rs1, own.icc()) {
        Step::Taken(row.number)
    } else {
        Step::Next(Way::Idle)
    }
}

// A branch that annuls its delay slot where it is not taken.
#[inline(always)]
fn annulling(own: &Processor, row: &Row) -> Step
    requires { row.now.rs1 < 16 }
    ensures { IsAnnulled result row.now own.now }
{
    if holds(row.rs1, own.icc()) {
        Step::Taken(row.number)
    } else {
        Step::Jumped(2)
    }
}

// A call.
#[inline(always)]
fn call(own: &mut Processor, row: &Row, here: u32) -> Step
    ensures link { own.new ≡ with_register own.old 15 here }
    ensures step { result ≡ Taken row.now.number }
{
    own.set(15, here);
    Step::Taken(row.number)
}

// A jump. One to where no instruction can stand is left.
#[inline(always)]
fn jump(own: &mut Processor, row: &Row, here: u32) -> Step
    requires registers { AreOperands row.now }
    requires result { IsResult row.now.rd }
    requires here { here % 4 ≡ 0 }
    ensures { (origin at : ℕ) → here ≡ word_address origin at → IsJumped result row.now origin at own.old own.new }
{
    let target = sum_of(own, row);
    if target % 4 != 0 {
        return Step::Stays;
    }
    own.put(row.rd, here);
    Step::Taken(displacement(here, target))
}

// The number of the software trap that calls the hypervisor.
const CALL_NUMBER: u32 = 0x70;

// A trap that is taken always. Any but the call of the hypervisor is left.
#[inline(always)]
fn trap(own: &Processor, row: &Row) -> Step
    requires { AreOperands row.now }
    ensures { IsTrapped result row.now own.now }
{
    if sum_of(own, row) % 128 == CALL_NUMBER {
        Step::Calls
    } else {
        Step::Stays
    }
}

// Y becomes the one operand with the other's bits turned.
#[inline(always)]
#[tactic(auto, unfolding(crate::specs::lemmas::Effects::y_of))]
fn put_y(own: &mut Processor, row: &Row)
    requires { AreOperands row.now }
    ensures { own.new ≡ left_so WritesY row.now own.old }
{
    let y = first(own, row) ^ second(own, row);
    own.set_y(y);
}

/// Does what the row of a place says. Where it may, it finds the branch after a comparison, too; in a delay slot it does no instruction
/// that goes elsewhere.
#[inline(always)]
pub(crate) fn execute<B: HasWords, S: Copy>(
    own: &mut Processor,
    rows: &[Row],
    bus: &mut B,
    origin: u32,
    at: usize,
    paired: bool,
    slot: bool,
    site: S,
) -> Step
    requires place { at < length rows.now }
    requires rows { AreRowsOf rows.now (B.areas bus.old) (B.memory bus.old) origin }
    ensures step { (row : Placed) → slice_get rows.now at ≡ Some row → IsStep result row origin at (B.areas bus.old) own.old own.new (B.memory bus.old) (B.memory bus.new) }
    ensures alone { paired ≡ false → IsAlone result }
    ensures still { slot ≡ true → IsStill result own.old own.new }
    ensures rows { AreRowsOf rows.now (B.areas bus.old) (B.memory bus.new) origin }
    ensures areas { B.areas bus.new ≡ B.areas bus.old }
    ensures others { B.others bus.new ≡ B.others bus.old }
{
    do_row(own, rows, bus, origin, at, &rows[at], paired, slot, site)
}

/// The same, where the rows from the place on are given, too.
#[inline(always)]
pub(crate) fn execute_first<B: HasWords, S: Copy>(
    own: &mut Processor,
    rows: &[Row],
    rest: &[Row],
    bus: &mut B,
    origin: u32,
    at: usize,
    paired: bool,
    slot: bool,
    site: S,
) -> Step
    requires place { at < length rows.now }
    requires rest { rest.now ≡ drop at rows.now }
    requires rows { AreRowsOf rows.now (B.areas bus.old) (B.memory bus.old) origin }
    ensures step { (row : Placed) → slice_get rows.now at ≡ Some row → IsStep result row origin at (B.areas bus.old) own.old own.new (B.memory bus.old) (B.memory bus.new) }
    ensures alone { paired ≡ false → IsAlone result }
    ensures still { slot ≡ true → IsStill result own.old own.new }
    ensures rows { AreRowsOf rows.now (B.areas bus.old) (B.memory bus.new) origin }
    ensures areas { B.areas bus.new ≡ B.areas bus.old }
    ensures others { B.others bus.new ≡ B.others bus.old }
{
    do_row(own, rows, bus, origin, at, &rest[0], paired, slot, site)
}

// The same by the row itself.
#[inline(always)]
fn do_row<B: HasWords, S: Copy>(
    own: &mut Processor,
    rows: &[Row],
    bus: &mut B,
    origin: u32,
    at: usize,
    row: &Row,
    paired: bool,
    slot: bool,
    _site: S,
) -> Step
    requires registers { AreRegisterNumbers row.now }
    requires rows { AreRowsOf rows.now (B.areas bus.old) (B.memory bus.old) origin }
    ensures step { IsStep result row.now origin at (B.areas bus.old) own.old own.new (B.memory bus.old) (B.memory bus.new) }
    ensures alone { paired ≡ false → IsAlone result }
    ensures still { slot ≡ true → IsStill result own.old own.new }
    ensures rows { AreRowsOf rows.now (B.areas bus.old) (B.memory bus.new) origin }
    ensures areas { B.areas bus.new ≡ B.areas bus.old }
    ensures others { B.others bus.new ≡ B.others bus.old }
{
    match row.kind {
        Kind::Empty => Step::Stays,
        Kind::Other => Step::Stays,
        Kind::Nothing => Step::Next(Way::Idle),
        Kind::AddNumber => {
            let value = sum(first(own, row), row.number, false);
            put(own, row, value);
            Step::Next(Way::Sums)
        }
        Kind::AddRegister => {
            let value = sum(first(own, row), register(own, row), false);
            put(own, row, value);
            Step::Next(Way::Sums)
        }
        Kind::SubNumber => {
            let value = difference(first(own, row), row.number, false);
            put(own, row, value);
            Step::Next(Way::Sums)
        }
        Kind::SubRegister => {
            let value = difference(first(own, row), register(own, row), false);
            put(own, row, value);
            Step::Next(Way::Sums)
        }
        Kind::SetNumber => {
            put(own, row, row.number);
            Step::Next(Way::Bits)
        }
        Kind::SetRegister => {
            let value = register(own, row);
            put(own, row, value);
            Step::Next(Way::Bits)
        }
        Kind::OrNumber => {
            let value = first(own, row) | row.number;
            put(own, row, value);
            Step::Next(Way::Bits)
        }
        Kind::OrRegister => {
            let value = first(own, row) | register(own, row);
            put(own, row, value);
            Step::Next(Way::Bits)
        }
        Kind::AndNumber => {
            let value = first(own, row) & row.number;
            put(own, row, value);
            Step::Next(Way::Bits)
        }
        Kind::AndRegister => {
            let value = first(own, row) & register(own, row);
            put(own, row, value);
            Step::Next(Way::Bits)
        }
        Kind::XorNumber => {
            let value = first(own, row) ^ row.number;
            put(own, row, value);
            Step::Next(Way::Bits)
        }
        Kind::XorRegister => {
            let value = first(own, row) ^ register(own, row);
            put(own, row, value);
            Step::Next(Way::Bits)
        }
        Kind::SllNumber => {
            let value = shifted_left(first(own, row), row.number);
            put(own, row, value);
            Step::Next(Way::Shifts)
        }
        Kind::SllRegister => {
            let value = shifted_left(first(own, row), register(own, row));
            put(own, row, value);
            Step::Next(Way::Shifts)
        }
        Kind::SrlNumber => {
            let value = shifted_right(first(own, row), row.number);
            put(own, row, value);
            Step::Next(Way::Shifts)
        }
        Kind::SrlRegister => {
            let value = shifted_right(first(own, row), register(own, row));
            put(own, row, value);
            Step::Next(Way::Shifts)
        }
        Kind::SraNumber => {
            let value = shifted_arithmetically(first(own, row), row.number);
            put(own, row, value);
            Step::Next(Way::Shifts)
        }
        Kind::SraRegister => {
            let value = shifted_arithmetically(first(own, row), register(own, row));
            put(own, row, value);
            Step::Next(Way::Shifts)
        }
        Kind::AndN => {
            let value = first(own, row) & !second(own, row);
            put(own, row, value);
            Step::Next(Way::Bits)
        }
        Kind::OrN => {
            let value = first(own, row) | !second(own, row);
            put(own, row, value);
            Step::Next(Way::Bits)
        }
        Kind::XNor => {
            let value = !(first(own, row) ^ second(own, row));
            put(own, row, value);
            Step::Next(Way::Bits)
        }
        Kind::AddX => {
            let value = sum(first(own, row), second(own, row), carry(own.icc()));
            put(own, row, value);
            Step::Next(Way::Sums)
        }
        Kind::SubX => {
            let value = difference(first(own, row), second(own, row), carry(own.icc()));
            put(own, row, value);
            Step::Next(Way::Sums)
        }
        Kind::CompareNumber => {
            compare_number(own, row);
            Step::Next(Way::Sums)
        }
        Kind::CompareRegister => {
            compare_register(own, row);
            Step::Next(Way::Sums)
        }
        Kind::AddCc => {
            put_added(own, row);
            Step::Next(Way::Sums)
        }
        Kind::SubCc => {
            put_compared(own, row);
            Step::Next(Way::Sums)
        }
        Kind::AndCc => {
            let value = first(own, row) & second(own, row);
            put_logical(own, row, value);
            Step::Next(Way::Tests)
        }
        Kind::OrCc => {
            let value = first(own, row) | second(own, row);
            put_logical(own, row, value);
            Step::Next(Way::Tests)
        }
        Kind::XorCc => {
            let value = first(own, row) ^ second(own, row);
            put_logical(own, row, value);
            Step::Next(Way::Tests)
        }
        Kind::AndNCc => {
            let value = first(own, row) & !second(own, row);
            put_logical(own, row, value);
            Step::Next(Way::Tests)
        }
        Kind::OrNCc => {
            let value = first(own, row) | !second(own, row);
            put_logical(own, row, value);
            Step::Next(Way::Tests)
        }
        Kind::XNorCc => {
            let value = !(first(own, row) ^ second(own, row));
            put_logical(own, row, value);
            Step::Next(Way::Tests)
        }
        Kind::AddXCc => {
            put_sum(own, row);
            Step::Next(Way::Sums)
        }
        Kind::SubXCc => {
            put_difference(own, row);
            Step::Next(Way::Sums)
        }
        Kind::UMul => {
            let value = product(first(own, row), second(own, row));
            put_product(own, row.rd, value);
            Step::Next(Way::Tests)
        }
        Kind::SMul => {
            let value = signed_product(first(own, row), second(own, row));
            put_product(own, row.rd, value);
            Step::Next(Way::Tests)
        }
        Kind::UMulCc => {
            let value = product(first(own, row), second(own, row));
            put_product_coded(own, row.rd, value);
            Step::Next(Way::Tests)
        }
        Kind::SMulCc => {
            let value = signed_product(first(own, row), second(own, row));
            put_product_coded(own, row.rd, value);
            Step::Next(Way::Tests)
        }
        Kind::UDiv => divided(own, row),
        Kind::SDiv => divided_signed(own, row),
        Kind::LdNumber => {
            let to = first(own, row).wrapping_add(row.number);
            load(own, bus, row, to, Size::Four, false)
        }
        Kind::LdRegister => {
            let to = first(own, row).wrapping_add(register(own, row));
            load(own, bus, row, to, Size::Four, false)
        }
        Kind::LdUbNumber => {
            let to = first(own, row).wrapping_add(row.number);
            load(own, bus, row, to, Size::One, false)
        }
        Kind::LdUbRegister => {
            let to = first(own, row).wrapping_add(register(own, row));
            load(own, bus, row, to, Size::One, false)
        }
        Kind::LdUh => {
            let to = sum_of(own, row);
            load(own, bus, row, to, Size::Two, false)
        }
        Kind::LdSb => {
            let to = sum_of(own, row);
            load(own, bus, row, to, Size::One, true)
        }
        Kind::LdSh => {
            let to = sum_of(own, row);
            load(own, bus, row, to, Size::Two, true)
        }
        Kind::LdD => {
            let to = sum_of(own, row);
            load_double(own, bus, row, to)
        }
        Kind::StNumber => {
            let to = first(own, row).wrapping_add(row.number);
            store_register(own, rows, bus, origin, row.rd, to, Size::Four)
        }
        Kind::StRegister => {
            let to = first(own, row).wrapping_add(register(own, row));
            store_register(own, rows, bus, origin, row.rd, to, Size::Four)
        }
        Kind::StBNumber => {
            let to = first(own, row).wrapping_add(row.number);
            store_register(own, rows, bus, origin, row.rd, to, Size::One)
        }
        Kind::StBRegister => {
            let to = first(own, row).wrapping_add(register(own, row));
            store_register(own, rows, bus, origin, row.rd, to, Size::One)
        }
        Kind::StH => {
            let to = sum_of(own, row);
            store_register(own, rows, bus, origin, row.rd, to, Size::Two)
        }
        Kind::StD => {
            let to = sum_of(own, row);
            store_double(own, rows, bus, origin, row.rd, to)
        }
        Kind::RdY => {
            let value = own.y();
            put(own, row, value);
            Step::Next(Way::Tests)
        }
        Kind::WrY => {
            put_y(own, row);
            Step::Next(Way::Tests)
        }
        Kind::Save => save(own, row),
        Kind::Restore => restore(own, row),
        Kind::Call => {
            if slot {
                Step::Stays
            } else {
                call(own, row, address(origin, at))
            }
        }
        Kind::Jump => {
            if slot {
                Step::Stays
            } else {
                jump(own, row, address(origin, at))
            }
        }
        Kind::Always => Step::Taken(row.number),
        Kind::Branch => branch(own, row),
        Kind::Annulling => {
            if slot {
                Step::Stays
            } else {
                annulling(own, row)
            }
        }
        Kind::AnnullingAlways => {
            if slot {
                Step::Stays
            } else {
                Step::Jumped(row.number)
            }
        }
        Kind::Trap => { if slot { Step::Stays } else { trap(own, row) } }
        Kind::CompareNumberE => chosen(paired, equal(compare_number(own, row))),
        Kind::CompareNumberLe => chosen(paired, not_more(compare_number(own, row))),
        Kind::CompareNumberL => chosen(paired, less(compare_number(own, row))),
        Kind::CompareNumberLeu => chosen(paired, at_most(compare_number(own, row))),
        Kind::CompareNumberCs => chosen(paired, below(compare_number(own, row))),
        Kind::CompareNumberNe => chosen(paired, not_equal(compare_number(own, row))),
        Kind::CompareNumberG => chosen(paired, more(compare_number(own, row))),
        Kind::CompareNumberGe => chosen(paired, not_less(compare_number(own, row))),
        Kind::CompareNumberGu => chosen(paired, above(compare_number(own, row))),
        Kind::CompareNumberCc => chosen(paired, not_below(compare_number(own, row))),
        Kind::CompareRegisterE => chosen(paired, equal(compare_register(own, row))),
        Kind::CompareRegisterLe => chosen(paired, not_more(compare_register(own, row))),
        Kind::CompareRegisterL => chosen(paired, less(compare_register(own, row))),
        Kind::CompareRegisterLeu => chosen(paired, at_most(compare_register(own, row))),
        Kind::CompareRegisterCs => chosen(paired, below(compare_register(own, row))),
        Kind::CompareRegisterNe => chosen(paired, not_equal(compare_register(own, row))),
        Kind::CompareRegisterG => chosen(paired, more(compare_register(own, row))),
        Kind::CompareRegisterGe => chosen(paired, not_less(compare_register(own, row))),
        Kind::CompareRegisterGu => chosen(paired, above(compare_register(own, row))),
        Kind::CompareRegisterCc => chosen(paired, not_below(compare_register(own, row))),
        Kind::AddE => chosen(paired, put_added(own, row)),
        Kind::AddNe => chosen(paired, differs(put_added(own, row))),
        Kind::SubE => chosen(paired, put_compared(own, row)),
        Kind::SubNe => chosen(paired, differs(put_compared(own, row))),
        Kind::AndE => {
            let value = first(own, row) & second(own, row);
            chosen(paired, put_logical(own, row, value))
        }
        Kind::AndNe => {
            let value = first(own, row) & second(own, row);
            chosen(paired, differs(put_logical(own, row, value)))
        }
        Kind::OrE => {
            let value = first(own, row) | second(own, row);
            chosen(paired, put_logical(own, row, value))
        }
        Kind::OrNe => {
            let value = first(own, row) | second(own, row);
            chosen(paired, differs(put_logical(own, row, value)))
        }
    }
}
