//! One instruction, executed.

ghost use Rattle.std.specs.Prelude.{◌≡◌, ◌≢◌, ◌<◌, ◌≤◌, ℕ, List};
ghost use Rattle.guest_bus.specs.Memory.{Area, Memory};
ghost use Rattle.sparc_code.specs.Decoded.{decoded, format2_row, memory_row, read_state, registers_row, write_state};
ghost use Rattle.sparc_code.specs.Fields.{op2, op3};
ghost use Rattle.sparc_step.specs.lemmas.ExecutionTerms.{TurnsTo};
ghost use Rattle.sparc_step.specs.Execution.{executed, refused, turned};
ghost use Rattle.sparc_step.specs.Registers.{Registers, advanced};
ghost use Rattle.sparc_step.specs.Undone.{IsUndone};

use crate::arithmetic::{plain, work};
use crate::flow::{branch, call, jump, read_y, sethi, shift_window, trap, write_y};
use crate::outcome::Turn;
use crate::processor::Processor;
use crate::registers::Core;
use crate::transfers::{load, load_signed_or_exchange, store};
use guest_bus::Bus;
use sparc_code::fields::{op, op2, op3, rd, rs1};

/// Executes the instruction at `pc`.
#[inline(never)]
pub fn turn<B: Bus>(core: &mut Core, bus: &mut B) -> Turn
    // The outcome of an instruction, and the registers and the memory that it leaves.
    ensures turned { turned (B.areas bus.old) core.old (B.memory bus.old) ≡ record { turn = result; core = core.new; memory = B.memory bus.new } }
    // After a trap the registers and the memory are as before.
    ensures trapped { IsUndone result core.old core.new (B.memory bus.old) (B.memory bus.new) }
    // After a call the program resumes after it.
    ensures called { result ≡ Turn.Call → core.new ≡ advanced core.old }
    // Areas and the memories of others are as before.
    ensures areas { B.areas bus.new ≡ B.areas bus.old }
    ensures others { B.others bus.new ≡ B.others bus.old }
{
    let mut processor = Processor::of(core);
    let turn = processor.turn(bus);
    *core = processor.core();
    turn
}

impl Processor {
    /// Executes the instruction at `pc`.
    #[inline(always)]
    #[tactic(auto, unfolding(crate::specs::Execution::turned))]
    pub fn turn<B: Bus>(&mut self, bus: &mut B) -> Turn
        // The outcome of an instruction, and the registers and the memory that it leaves.
        ensures turn { result ≡ (turned (B.areas bus.old) self.old (B.memory bus.old)).turn }
        ensures core { self.new ≡ (turned (B.areas bus.old) self.old (B.memory bus.old)).core }
        ensures memory { B.memory bus.new ≡ (turned (B.areas bus.old) self.old (B.memory bus.old)).memory }
        // After a trap the registers and the memory are as before.
        ensures trapped { IsUndone result self.old self.new (B.memory bus.old) (B.memory bus.new) }
        // After a call the program resumes after it.
        ensures called { result ≡ Turn.Call → self.new ≡ advanced self.old }
        // Areas and the memories of others are as before.
        ensures areas { B.areas bus.new ≡ B.areas bus.old }
        ensures others { B.others bus.new ≡ B.others bus.old }
    {
        let pc = self.pc();
        match bus.fetch(pc) {
            Ok(word) => execute(self, bus, word),
            Err(_) => Turn::Trap(0x01),
        }
    }
}

// Executes an instruction word: which instruction it is, is decided here by compares, without a value for it in between.
#[tactic(auto, unfolding(sparc_code::specs::Decoded::decoded))]
#[inline(always)]
pub(crate) fn execute<B: Bus>(core: &mut Processor, bus: &mut B, word: u32) -> Turn
    ensures turned { executed (decoded word) (B.areas bus.old) core.old (B.memory bus.old) ≡ record { turn = result; core = core.new; memory = B.memory bus.new } }
    ensures areas { B.areas bus.new ≡ B.areas bus.old }
    ensures others { B.others bus.new ≡ B.others bus.old }
{
    if op(word) >= 2 {
        if op(word) == 2 {
            on_registers(core, op3(word), word)
        } else {
            on_memory(core, bus, op3(word), word)
        }
    } else if op(word) == 0 {
        format2(core, op2(word), word)
    } else {
        call(core, word);
        Turn::Went
    }
}

// Branches and SETHI.
#[tactic(auto, unfolding(sparc_code::specs::Decoded::format2_row))]
#[inline(always)]
fn format2(core: &mut Processor, selector: u32, word: u32) -> Turn
    requires { selector < 8 }
    ensures { TurnsTo (format2_row selector word) core.old result core.new }
{
    if selector == 2 {
        branch(core, word);
        Turn::Went
    } else if selector == 4 {
        sethi(core, word);
        Turn::Went
    } else {
        Turn::Trap(other_format2(selector))
    }
}

// The other selectors of format 2: which trap each raises.
#[inline(never)]
#[tactic(auto, unfolding(sparc_code::specs::Decoded::format2_row))]
fn other_format2(selector: u32) -> u8
    requires branch { selector ≢ 2 }
    requires sethi { selector ≢ 4 }
    ensures { (word : ℕ) (areas : List Area) (core : Registers) (memory : Memory) → executed (format2_row selector word) areas core memory ≡ refused result core memory }
{
    if selector == 6 {
        0x04
    } else if selector == 7 {
        0x24
    } else {
        0x02
    }
}

// Work on registers, and what reads and writes the state.
#[inline(always)]
fn on_registers(core: &mut Processor, selector: u32, word: u32) -> Turn
    requires { selector < 64 }
    ensures { TurnsTo (registers_row selector word) core.old result core.new }
{
    if selector < 8 {
        plain(core, selector, word)
    } else if selector < 0x28 {
        work(core, selector, word)
    } else if selector >= 0x38 {
        transfer_control(core, selector, word)
    } else {
        on_state(core, selector, word)
    }
}

// The selectors 28 to 37.
#[tactic(auto, unfolding(sparc_code::specs::Decoded::registers_row))]
#[inline(never)]
fn on_state(core: &mut Processor, selector: u32, word: u32) -> Turn
    requires { (0x28 ≤ selector) × (selector < 0x38) }
    ensures { TurnsTo (registers_row selector word) core.old result core.new }
{
    match selector {
        0x28 => read_state(core, word),
        0x30 => write_state(core, word),
        0x29..=0x2b | 0x31..=0x33 => Turn::Trap(0x03),
        0x34 | 0x35 => Turn::Trap(0x04),
        0x36 | 0x37 => Turn::Trap(0x24),
        _ => Turn::Trap(0x02),
    }
}

// RDY and STBAR.
#[tactic(auto, unfolding(sparc_code::specs::Decoded::read_state))]
fn read_state(core: &mut Processor, word: u32) -> Turn
    ensures { TurnsTo (read_state word) core.old result core.new }
{
    if rs1(word) == 0 {
        read_y(core, word);
        Turn::Went
    } else if rs1(word) == 15 && rd(word) == 0 {
        core.advance();
        Turn::Went
    } else {
        Turn::Trap(0x02)
    }
}

// WRY.
#[tactic(auto, unfolding(sparc_code::specs::Decoded::write_state))]
fn write_state(core: &mut Processor, word: u32) -> Turn
    ensures { TurnsTo (write_state word) core.old result core.new }
{
    if rd(word) != 0 {
        return Turn::Trap(0x02);
    }
    write_y(core, word);
    Turn::Went
}

// The selectors 38 to 3f.
#[tactic(auto, unfolding(sparc_code::specs::Decoded::registers_row, crate::specs::Flow::window_below, crate::specs::Flow::window_above))]
#[inline(always)]
fn transfer_control(core: &mut Processor, selector: u32, word: u32) -> Turn
    requires from { 0x38 ≤ selector }
    requires below { selector < 0x40 }
    ensures { TurnsTo (registers_row selector word) core.old result core.new }
{
    if selector < 0x3b {
        if selector == 0x38 {
            jump(core, word)
        } else if selector == 0x3a {
            trap(core, word)
        } else {
            Turn::Trap(0x03)
        }
    } else if selector == 0x3c {
        let below = (core.cwp() + 7) % 8;
        shift_window(core, below, 0x05, word)
    } else if selector == 0x3d {
        let above = (core.cwp() + 1) % 8;
        shift_window(core, above, 0x06, word)
    } else if selector == 0x3b {
        core.advance();
        Turn::Went
    } else {
        Turn::Trap(0x02)
    }
}

// Work on memory.
#[inline(always)]
fn on_memory<B: Bus>(core: &mut Processor, bus: &mut B, selector: u32, word: u32) -> Turn
    requires { selector < 64 }
    ensures turned { executed (memory_row selector word) (B.areas bus.old) core.old (B.memory bus.old) ≡ record { turn = result; core = core.new; memory = B.memory bus.new } }
    ensures areas { B.areas bus.new ≡ B.areas bus.old }
    ensures others { B.others bus.new ≡ B.others bus.old }
{
    if selector < 4 {
        load(core, bus, selector, word)
    } else if selector < 8 {
        store(core, bus, selector, word)
    } else if selector < 16 {
        load_signed_or_exchange(core, bus, selector, word)
    } else {
        Turn::Trap(other_memory(selector))
    }
}

// The selectors 10 to 3f, the other spaces of addresses and the other units: which trap each raises.
#[tactic(auto, unfolding(sparc_code::specs::Decoded::memory_row))]
#[inline(never)]
fn other_memory(selector: u32) -> u8
    requires from { 0x10 ≤ selector }
    requires below { selector < 0x40 }
    ensures { (word : ℕ) (areas : List Area) (core : Registers) (memory : Memory) → executed (memory_row selector word) areas core memory ≡ refused result core memory }
{
    if selector >= 0x20 {
        other_unit(selector)
    } else if matches!(selector, 0x10..=0x17 | 0x19 | 0x1a | 0x1d | 0x1f) {
        0x03
    } else {
        0x02
    }
}

// The selectors 20 to 3f, the other units.
#[tactic(auto, unfolding(sparc_code::specs::Decoded::memory_row))]
fn other_unit(selector: u32) -> u8
    requires from { 0x20 ≤ selector }
    requires below { selector < 0x40 }
    ensures { (word : ℕ) (areas : List Area) (core : Registers) (memory : Memory) → executed (memory_row selector word) areas core memory ≡ refused result core memory }
{
    if matches!(selector, 0x20 | 0x21 | 0x23..=0x25 | 0x27) {
        0x04
    } else if matches!(selector, 0x30 | 0x31 | 0x33..=0x35 | 0x37) {
        0x24
    } else if matches!(selector, 0x26 | 0x36) {
        0x03
    } else {
        0x02
    }
}
