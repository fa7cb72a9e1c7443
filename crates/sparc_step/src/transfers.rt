//! Loads, stores and exchanges.

ghost use Rattle.std.specs.Prelude.{◌≡◌, ◌⊎◌, ◌+◌, ◌%◌, ◌<◌, ◌≤◌};
ghost use Rattle.guest_bus.specs.Access.{after_store, loaded, store_fault};
ghost use Rattle.sparc_code.specs.Decoded.{double_work, memory_row};
ghost use Rattle.sparc_code.specs.Fields.{rd};
ghost use Rattle.sparc_code.specs.declared.instruction.MemOp.TheVariants.{LdD, StD};
ghost use Rattle.sparc_step.specs.Execution.{executed};
ghost use Rattle.sparc_step.specs.Transfers.{exchange_of, exchanged_with, fault_type, loaded_into, pair_at, signed_byte, signed_half, store_of, with_pair};
ghost use Rattle.sparc_step.specs.lemmas.TransfersTerms.{word_loaded};

use crate::operands::{set_result, sum_of};
use crate::outcome::Turn;
use crate::processor::Processor;
use guest_bus::{Bus, BusFault, Size};
use sparc_code::fields::rd;

impl Processor {
    /// The double word in a pair of registers.
    #[tactic(auto, unfolding(crate::specs::Transfers::pair_at))]
    pub fn pair(&self, rd: u8) -> u64
        // Called for a register below 31.
        requires { rd + 1 < 32 }
        // The double word in a pair of registers.
        ensures { result ≡ pair_at self.now rd }
    {
        (u64::from(self.get(rd)) << 32) + u64::from(self.get(rd + 1))
    }

    /// Sets a pair of registers to a double word, its high half in the first.
    #[tactic(auto, unfolding(crate::specs::Transfers::with_pair))]
    pub fn set_pair(&mut self, rd: u8, value: u64)
        // Called for a register below 31.
        requires { rd + 1 < 32 }
        // The pair of registers has the double word, and nothing else changes.
        ensures { self.new ≡ with_pair rd value self.old }
    {
        self.set(rd, (value >> 32) as u32);
        self.set(rd + 1, (value % 0x1_0000_0000) as u32);
    }
}

// The selectors 00 to 03.
#[tactic(auto, unfolding(sparc_code::specs::Decoded::memory_row))]
#[inline(always)]
pub(crate) fn load<B: Bus>(core: &mut Processor, bus: &mut B, selector: u32, word: u32) -> Turn
    requires { selector < 4 }
    ensures turned { executed (memory_row selector word) (B.areas bus.old) core.old (B.memory bus.old) ≡ record { turn = result; core = core.new; memory = B.memory bus.new } }
    ensures areas { B.areas bus.new ≡ B.areas bus.old }
    ensures others { B.others bus.new ≡ B.others bus.old }
{
    let address = sum_of(core, word);
    if selector < 2 {
        if selector == 0x00 {
            load_value(core, bus, word, address, Size::Four, false)
        } else {
            load_value(core, bus, word, address, Size::One, false)
        }
    } else if selector == 0x02 {
        load_value(core, bus, word, address, Size::Two, false)
    } else {
        load_double(core, bus, word)
    }
}

// The selectors 04 to 07.
#[tactic(auto, unfolding(sparc_code::specs::Decoded::memory_row))]
#[inline(always)]
pub(crate) fn store<B: Bus>(core: &mut Processor, bus: &mut B, selector: u32, word: u32) -> Turn
    requires from { 4 ≤ selector }
    requires below { selector < 8 }
    ensures turned { executed (memory_row selector word) (B.areas bus.old) core.old (B.memory bus.old) ≡ record { turn = result; core = core.new; memory = B.memory bus.new } }
    ensures areas { B.areas bus.new ≡ B.areas bus.old }
    ensures others { B.others bus.new ≡ B.others bus.old }
{
    let address = sum_of(core, word);
    let value = u64::from(core.get(rd(word)));
    if selector < 6 {
        if selector == 0x04 {
            store_value(core, bus, address, Size::Four, value)
        } else {
            store_value(core, bus, address, Size::One, value)
        }
    } else if selector == 0x06 {
        store_value(core, bus, address, Size::Two, value)
    } else {
        store_double(core, bus, word)
    }
}

// The selectors 08 to 0f.
#[tactic(auto, unfolding(sparc_code::specs::Decoded::memory_row))]
#[inline(always)]
pub(crate) fn load_signed_or_exchange<B: Bus>(
    core: &mut Processor,
    bus: &mut B,
    selector: u32,
    word: u32,
) -> Turn
    requires from { 8 ≤ selector }
    requires below { selector < 16 }
    ensures turned { executed (memory_row selector word) (B.areas bus.old) core.old (B.memory bus.old) ≡ record { turn = result; core = core.new; memory = B.memory bus.new } }
    ensures areas { B.areas bus.new ≡ B.areas bus.old }
    ensures others { B.others bus.new ≡ B.others bus.old }
{
    let address = sum_of(core, word);
    if selector < 0x0d {
        if matches!(selector, 0x09 | 0x0a) {
            load_signed(core, bus, selector, word)
        } else {
            Turn::Trap(0x02)
        }
    } else if selector == 0x0d {
        exchange(core, bus, word, address, Size::One, 0xff)
    } else if selector == 0x0f {
        let value = u64::from(core.get(rd(word)));
        exchange(core, bus, word, address, Size::Four, value)
    } else {
        Turn::Trap(0x02)
    }
}

// Loads a value, with its sign or without.
#[inline(always)]
fn load_value<B: Bus>(
    core: &mut Processor,
    bus: &mut B,
    word: u32,
    address: u32,
    size: Size,
    signed: bool,
) -> Turn
    ensures turned { loaded_into (loaded (B.areas bus.old) (B.memory bus.old) address size) (word_loaded signed size) (rd word) core.old (B.memory bus.old) ≡ record { turn = result; core = core.new; memory = B.memory bus.new } }
    ensures areas { B.areas bus.new ≡ B.areas bus.old }
    ensures others { B.others bus.new ≡ B.others bus.old }
{
    match bus.load(address, size) {
        Ok(value) => {
            set_result(core, word, word_loaded(value, size, signed));
            Turn::Went
        }
        Err(fault) => Turn::Trap(fault_type(fault)),
    }
}

// LDSB and LDSH.
#[tactic(auto, unfolding(sparc_code::specs::Decoded::memory_row))]
#[inline(never)]
fn load_signed<B: Bus>(core: &mut Processor, bus: &mut B, selector: u32, word: u32) -> Turn
    requires { (selector ≡ 0x09) ⊎ (selector ≡ 0x0a) }
    ensures turned { executed (memory_row selector word) (B.areas bus.old) core.old (B.memory bus.old) ≡ record { turn = result; core = core.new; memory = B.memory bus.new } }
    ensures areas { B.areas bus.new ≡ B.areas bus.old }
    ensures others { B.others bus.new ≡ B.others bus.old }
{
    let address = sum_of(core, word);
    if selector == 0x09 {
        load_value(core, bus, word, address, Size::One, true)
    } else {
        load_value(core, bus, word, address, Size::Two, true)
    }
}

// The word that a load makes of a value.
#[inline(always)]
fn word_loaded(value: u64, size: Size, signed: bool) -> u32
    ensures { result ≡ word_loaded signed size value }
{
    let low = (value % 0x1_0000_0000) as u32;
    if !signed {
        return low;
    }
    match size {
        Size::One => signed_byte(value),
        Size::Two => signed_half(value),
        Size::Four | Size::Eight => low,
    }
}

/// The low byte of a value with its sign.
#[tactic(auto, unfolding(crate::specs::Transfers::signed_byte))]
pub fn signed_byte(value: u64) -> u32
    ensures { result ≡ signed_byte value }
{
    i32::from(((value % 0x100) as u8).cast_signed()).cast_unsigned()
}

/// The low half word of a value with its sign.
#[tactic(auto, unfolding(crate::specs::Transfers::signed_half))]
pub fn signed_half(value: u64) -> u32
    ensures { result ≡ signed_half value }
{
    i32::from(((value % 0x1_0000) as u16).cast_signed()).cast_unsigned()
}

// LDD.
#[tactic(auto, unfolding(sparc_code::specs::Decoded::double_work))]
#[inline(never)]
fn load_double<B: Bus>(core: &mut Processor, bus: &mut B, word: u32) -> Turn
    ensures turned { executed (double_work LdD word) (B.areas bus.old) core.old (B.memory bus.old) ≡ record { turn = result; core = core.new; memory = B.memory bus.new } }
    ensures areas { B.areas bus.new ≡ B.areas bus.old }
    ensures others { B.others bus.new ≡ B.others bus.old }
{
    if rd(word) % 2 != 0 {
        return Turn::Trap(0x02);
    }
    match bus.load(sum_of(core, word), Size::Eight) {
        Ok(value) => {
            core.set_pair(rd(word), value);
            core.advance();
            Turn::Went
        }
        Err(fault) => Turn::Trap(fault_type(fault)),
    }
}

// STD.
#[tactic(auto, unfolding(sparc_code::specs::Decoded::double_work))]
#[inline(never)]
fn store_double<B: Bus>(core: &mut Processor, bus: &mut B, word: u32) -> Turn
    ensures turned { executed (double_work StD word) (B.areas bus.old) core.old (B.memory bus.old) ≡ record { turn = result; core = core.new; memory = B.memory bus.new } }
    ensures areas { B.areas bus.new ≡ B.areas bus.old }
    ensures others { B.others bus.new ≡ B.others bus.old }
{
    if rd(word) % 2 != 0 {
        return Turn::Trap(0x02);
    }
    let address = sum_of(core, word);
    let value = core.pair(rd(word));
    store_value(core, bus, address, Size::Eight, value)
}

// Stores a value.
#[tactic(auto, unfolding(crate::specs::Transfers::store_of))]
#[inline(always)]
fn store_value<B: Bus>(
    core: &mut Processor,
    bus: &mut B,
    address: u32,
    size: Size,
    value: u64,
) -> Turn
    ensures turned { store_of value address size (B.areas bus.old) core.old (B.memory bus.old) ≡ record { turn = result; core = core.new; memory = B.memory bus.new } }
    ensures areas { B.areas bus.new ≡ B.areas bus.old }
    ensures others { B.others bus.new ≡ B.others bus.old }
{
    match bus.store(address, size, value) {
        Ok(()) => {
            core.advance();
            Turn::Went
        }
        Err(fault) => Turn::Trap(fault_type(fault)),
    }
}

// LDSTUB and SWAP.
#[tactic(auto, unfolding(crate::specs::Transfers::exchange_of))]
#[inline(never)]
fn exchange<B: Bus>(
    core: &mut Processor,
    bus: &mut B,
    word: u32,
    address: u32,
    size: Size,
    value: u64,
) -> Turn
    ensures turned { exchange_of value address size (rd word) (B.areas bus.old) core.old (B.memory bus.old) ≡ record { turn = result; core = core.new; memory = B.memory bus.new } }
    ensures areas { B.areas bus.new ≡ B.areas bus.old }
    ensures others { B.others bus.new ≡ B.others bus.old }
{
    match bus.load(address, size) {
        Ok(found) => exchange_for(core, bus, word, address, size, value, found),
        Err(fault) => Turn::Trap(fault_type(fault)),
    }
}

// Stores a value, and puts what was found there.
fn exchange_for<B: Bus>(
    core: &mut Processor,
    bus: &mut B,
    word: u32,
    address: u32,
    size: Size,
    value: u64,
    found: u64,
) -> Turn
    ensures turned { exchanged_with (store_fault (B.areas bus.old) address size) found (rd word) core.old (B.memory bus.old) (after_store (B.areas bus.old) (B.memory bus.old) address size value) ≡ record { turn = result; core = core.new; memory = B.memory bus.new } }
    ensures areas { B.areas bus.new ≡ B.areas bus.old }
    ensures others { B.others bus.new ≡ B.others bus.old }
{
    match bus.store(address, size, value) {
        Ok(()) => {
            set_result(core, word, (found % 0x1_0000_0000) as u32);
            Turn::Went
        }
        Err(fault) => Turn::Trap(fault_type(fault)),
    }
}

// The trap type of a refused access.
fn fault_type(fault: BusFault) -> u8
    ensures { result ≡ fault_type fault }
{
    match fault {
        BusFault::Unaligned => 0x07,
        BusFault::Outside => 0x09,
    }
}
