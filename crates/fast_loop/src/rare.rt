//! Windows that are entered.

ghost use Rattle.std.specs.Prelude.{◌≡◌, ◌≢◌, ◌+◌, ◌%◌, ◌<◌};
ghost use Rattle.sparc_step.specs.Registers.{in_window, with_register};
ghost use Rattle.predecode.specs.Kinds.{Sum};
ghost use Rattle.fast_loop.specs.lemmas.Effects.{address_so};
ghost use Rattle.fast_loop.specs.lemmas.Steps.{AreOperands, IsEntered};

use crate::simple::Step;
use crate::ways::Way;
use crate::working::sum_of;
use predecode::Row;
use sparc_step::Processor;

/// SAVE. One that needs a window spilled is left.
#[inline(always)]
pub(crate) fn save(own: &mut Processor, row: &Row) -> Step
    requires registers { AreOperands row.now }
    requires result { row.now.rd < 32 }
    ensures { IsEntered result ((own.old.cwp + 7) % 8) row.now own.old own.new }
{
    if (own.cwp() + 7) % 8 == own.inv() {
        return Step::Shifts;
    }
    below(own, row);
    Step::Next(Way::Loads)
}

/// RESTORE. One that needs a window filled is left.
#[inline(always)]
pub(crate) fn restore(own: &mut Processor, row: &Row) -> Step
    requires registers { AreOperands row.now }
    requires result { row.now.rd < 32 }
    ensures { IsEntered result ((own.old.cwp + 1) % 8) row.now own.old own.new }
{
    if (own.cwp() + 1) % 8 == own.inv() {
        return Step::Shifts;
    }
    above(own, row);
    Step::Next(Way::Loads)
}

// The sum of the operands becomes a register of the window below, which is valid.
#[inline(never)]
fn below(own: &mut Processor, row: &Row)
    requires valid { (own.old.cwp + 7) % 8 ≢ own.old.inv }
    requires registers { AreOperands row.now }
    requires result { row.now.rd < 32 }
    ensures { own.new ≡ with_register (in_window own.old ((own.old.cwp + 7) % 8)) row.now.rd (address_so Sum row.now own.old) }
{
    let value = sum_of(own, row);
    own.enter_below();
    own.set(row.rd, value);
}

// The sum of the operands becomes a register of the window above, which is valid.
#[inline(never)]
fn above(own: &mut Processor, row: &Row)
    requires valid { (own.old.cwp + 1) % 8 ≢ own.old.inv }
    requires registers { AreOperands row.now }
    requires result { row.now.rd < 32 }
    ensures { own.new ≡ with_register (in_window own.old ((own.old.cwp + 1) % 8)) row.now.rd (address_so Sum row.now own.old) }
{
    let value = sum_of(own, row);
    own.enter_above();
    own.set(row.rd, value);
}
