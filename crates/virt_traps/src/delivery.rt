//! Virtual traps that are delivered, and the return from them.

ghost use Rattle.std.specs.Prelude.{◌≡◌, ◌≢◌, ◌↔◌, ◌+◌, ◌%◌, ◌<◌, IsErr, IsFalse, OnErr, OnOk};
ghost use Rattle.guest_bus.specs.Memory.{is_readable, is_writable};
ghost use Rattle.virt_traps.specs.Delivery.{
  LacksWindow,
  are_aligned,
  at_entry,
  brought_above,
  delivered,
  enabled_of,
  entered_below,
  freed_below,
  icc_of,
  restored,
  returned,
  virtual_psr,
};
ghost use Rattle.virt_traps.specs.Moves.{fill_address, spill_address};
ghost use Rattle.virt_traps.specs.SaveArea.{is_usable};

use crate::interrupts::Virt;
use crate::windows::{StackFault, fill_cached, spill_cached};
use guest_bus::Bus;
use sparc_step::{Core, Processor};

/// Why a guest cannot return from a virtual trap. Nothing changed.
#[derive(Clone, Copy, Debug, PartialEq, Eq)]
pub enum IretFault {
    /// Local 1 or local 2 is no multiple of 4, and so no program counter.
    Unaligned,
    /// The window above is the invalid one, and it cannot be filled.
    Stack,
}

// Local 0, which has the virtual PSR while a trap is handled.
const LOCAL_0: u8 = 16;

// Local 1, which has pc.
const LOCAL_1: u8 = 17;

// Local 2, which has npc.
const LOCAL_2: u8 = 18;

// The bit of a PSR that is always set in the virtual one.
const SUPERVISOR: u32 = 1 << 7;

// The bit of a PSR that is set where traps are enabled.
const TRAPS_ENABLED: u32 = 1 << 5;

/// Delivers a virtual trap of a type: the guest goes on at its entry in the table, in the window
/// below, with traps disabled. What is pending stays so.
pub fn deliver<B: Bus>(v: &mut Virt, core: &mut Core, bus: &mut B, tt: u8) -> Result<(), StackFault>
    // A virtual trap is delivered: the window below, its locals, the entry in the table; what is pending stays.
    ensures answer { result ≡ (delivered (B.areas bus.old) v.old core.old (B.memory bus.old) tt).answer }
    ensures traps { v.new ≡ (delivered (B.areas bus.old) v.old core.old (B.memory bus.old) tt).traps }
    ensures core { core.new ≡ (delivered (B.areas bus.old) v.old core.old (B.memory bus.old) tt).core }
    ensures memory { B.memory bus.new ≡ (delivered (B.areas bus.old) v.old core.old (B.memory bus.old) tt).memory }
    // It is refused exactly where the window below has to be spilled and cannot be, and nothing changed then.
    ensures fault { IsErr result ↔ (((core.old.cwp + 7) % 8 ≡ core.old.inv) × IsFalse (is_usable (is_writable (B.areas bus.old)) (spill_address core.old))) }
    ensures unchanged { OnErr result ((v.new ≡ v.old) × (core.new ≡ core.old) × (B.memory bus.new ≡ B.memory bus.old)) }
    // What is pending stays.
    ensures pending { v.new.pending ≡ v.old.pending }
    // Areas and the memories of others are as before.
    ensures areas { B.areas bus.new ≡ B.areas bus.old }
    ensures others { B.others bus.new ≡ B.others bus.old }
{
    let mut processor = Processor::of(core);
    let answer = deliver_cached(v, &mut processor, bus, tt);
    *core = processor.core();
    answer
}

/// The same on cached registers.
#[tactic(auto, unfolding(crate::specs::Delivery::delivered))]
pub fn deliver_cached<B: Bus>(
    v: &mut Virt,
    processor: &mut Processor,
    bus: &mut B,
    tt: u8,
) -> Result<(), StackFault>
    // A virtual trap is delivered: the window below, its locals, the entry in the table; what is pending stays.
    ensures answer { result ≡ (delivered (B.areas bus.old) v.old processor.old (B.memory bus.old) tt).answer }
    ensures traps { v.new ≡ (delivered (B.areas bus.old) v.old processor.old (B.memory bus.old) tt).traps }
    ensures core { processor.new ≡ (delivered (B.areas bus.old) v.old processor.old (B.memory bus.old) tt).core }
    ensures memory { B.memory bus.new ≡ (delivered (B.areas bus.old) v.old processor.old (B.memory bus.old) tt).memory }
    // It is refused exactly where the window below has to be spilled and cannot be, and nothing changed then.
    ensures fault { IsErr result ↔ (((processor.old.cwp + 7) % 8 ≡ processor.old.inv) × IsFalse (is_usable (is_writable (B.areas bus.old)) (spill_address processor.old))) }
    ensures unchanged { OnErr result ((v.new ≡ v.old) × (processor.new ≡ processor.old) × (B.memory bus.new ≡ B.memory bus.old)) }
    // What is pending stays.
    ensures pending { v.new.pending ≡ v.old.pending }
    // Areas and the memories of others are as before.
    ensures areas { B.areas bus.new ≡ B.areas bus.old }
    ensures others { B.others bus.new ≡ B.others bus.old }
{
    free_below(processor, bus)?;
    enter_below(processor, v.enabled);
    go_to_entry(processor, v.base, tt);
    v.enabled = false;
    Ok(())
}

/// Returns from a virtual trap: locals 0 to 2 have the virtual PSR, pc and npc, which come back in
/// the window above. Memory does not change.
pub fn iret<B: Bus>(v: &mut Virt, core: &mut Core, bus: &mut B) -> Result<(), IretFault>
    // A return from a virtual trap, which changes no memory.
    ensures answer { result ≡ (returned (B.areas bus.old) v.old core.old (B.memory bus.old)).answer }
    ensures traps { v.new ≡ (returned (B.areas bus.old) v.old core.old (B.memory bus.old)).traps }
    ensures core { core.new ≡ (returned (B.areas bus.old) v.old core.old (B.memory bus.old)).core }
    ensures memory { B.memory bus.new ≡ B.memory bus.old }
    // It is refused exactly where a program counter is no multiple of 4, or else where the window above has to be
    // filled and cannot be; nothing changed then.
    ensures unaligned { (result ≡ Err IretFault.Unaligned) ↔ IsFalse (are_aligned core.old) }
    ensures stack { (result ≡ Err IretFault.Stack) ↔ LacksWindow (B.areas bus.old) core.old }
    ensures unchanged { OnErr result ((v.new ≡ v.old) × (core.new ≡ core.old)) }
    // What is pending stays.
    ensures pending { v.new.pending ≡ v.old.pending }
    // Areas and the memories of others are as before.
    ensures areas { B.areas bus.new ≡ B.areas bus.old }
    ensures others { B.others bus.new ≡ B.others bus.old }
{
    let mut processor = Processor::of(core);
    let answer = iret_cached(v, &mut processor, bus);
    *core = processor.core();
    answer
}

/// The same on cached registers.
#[tactic(auto, unfolding(crate::specs::Delivery::returned))]
pub fn iret_cached<B: Bus>(
    v: &mut Virt,
    processor: &mut Processor,
    bus: &mut B,
) -> Result<(), IretFault>
    // A return from a virtual trap, which changes no memory.
    ensures answer { result ≡ (returned (B.areas bus.old) v.old processor.old (B.memory bus.old)).answer }
    ensures traps { v.new ≡ (returned (B.areas bus.old) v.old processor.old (B.memory bus.old)).traps }
    ensures core { processor.new ≡ (returned (B.areas bus.old) v.old processor.old (B.memory bus.old)).core }
    ensures memory { B.memory bus.new ≡ B.memory bus.old }
    // It is refused exactly where a program counter is no multiple of 4, or else where the window above has to be
    // filled and cannot be; nothing changed then.
    ensures unaligned { (result ≡ Err IretFault.Unaligned) ↔ IsFalse (are_aligned processor.old) }
    ensures stack { (result ≡ Err IretFault.Stack) ↔ LacksWindow (B.areas bus.old) processor.old }
    ensures unchanged { OnErr result ((v.new ≡ v.old) × (processor.new ≡ processor.old)) }
    // What is pending stays.
    ensures pending { v.new.pending ≡ v.old.pending }
    // Areas and the memories of others are as before.
    ensures areas { B.areas bus.new ≡ B.areas bus.old }
    ensures others { B.others bus.new ≡ B.others bus.old }
{
    let psr = processor.get(LOCAL_0);
    let pc = processor.get(LOCAL_1);
    let npc = processor.get(LOCAL_2);
    if pc % 4 != 0 || npc % 4 != 0 {
        return Err(IretFault::Unaligned);
    }
    if bring_above(processor, bus).is_err() {
        return Err(IretFault::Stack);
    }
    restore(processor, psr, pc, npc);
    v.enabled = enabled_of(psr);
    Ok(())
}

// Makes the window below free, with a spill where it is the invalid one.
#[tactic(auto, unfolding(crate::specs::Delivery::freed_below))]
fn free_below<B: Bus>(processor: &mut Processor, bus: &mut B) -> Result<(), StackFault>
    ensures answer { result ≡ (freed_below (B.areas bus.old) processor.old (B.memory bus.old)).answer }
    ensures core { processor.new ≡ (freed_below (B.areas bus.old) processor.old (B.memory bus.old)).core }
    ensures memory { B.memory bus.new ≡ (freed_below (B.areas bus.old) processor.old (B.memory bus.old)).memory }
    ensures free { OnOk result ((processor.new.cwp + 7) % 8 ≢ processor.new.inv) }
    ensures fault { IsErr result ↔ (((processor.old.cwp + 7) % 8 ≡ processor.old.inv) × IsFalse (is_usable (is_writable (B.areas bus.old)) (spill_address processor.old))) }
    ensures unchanged { OnErr result ((processor.new ≡ processor.old) × (B.memory bus.new ≡ B.memory bus.old)) }
    ensures areas { B.areas bus.new ≡ B.areas bus.old }
    ensures others { B.others bus.new ≡ B.others bus.old }
{
    let below = (processor.cwp() + 7) % 8;
    if below == processor.inv() {
        spill_cached(processor, bus)
    } else {
        Ok(())
    }
}

// Brings the window above back, with a fill where it is the invalid one.
#[tactic(auto, unfolding(crate::specs::Delivery::brought_above))]
fn bring_above<B: Bus>(processor: &mut Processor, bus: &mut B) -> Result<(), StackFault>
    ensures answer { result ≡ (brought_above (B.areas bus.old) processor.old (B.memory bus.old)).answer }
    ensures core { processor.new ≡ (brought_above (B.areas bus.old) processor.old (B.memory bus.old)).core }
    ensures memory { B.memory bus.new ≡ B.memory bus.old }
    ensures valid { OnOk result ((processor.new.cwp + 1) % 8 ≢ processor.new.inv) }
    ensures fault { IsErr result ↔ (((processor.old.cwp + 1) % 8 ≡ processor.old.inv) × IsFalse (is_usable (is_readable (B.areas bus.old)) (fill_address processor.old))) }
    ensures unchanged { OnErr result (processor.new ≡ processor.old) }
    ensures areas { B.areas bus.new ≡ B.areas bus.old }
    ensures others { B.others bus.new ≡ B.others bus.old }
{
    let above = (processor.cwp() + 1) % 8;
    if above == processor.inv() {
        fill_cached(processor, bus)
    } else {
        Ok(())
    }
}

// Enters the window below, which has to be free, and keeps in its locals where the guest was.
#[tactic(auto, unfolding(crate::specs::Delivery::entered_below))]
fn enter_below(processor: &mut Processor, enabled: bool)
    requires { (processor.old.cwp + 7) % 8 ≢ processor.old.inv }
    ensures { processor.new ≡ entered_below enabled processor.old }
{
    let psr = virtual_psr(enabled, processor.icc(), processor.cwp());
    let pc = processor.pc();
    let npc = processor.npc();
    processor.enter_below();
    processor.set_held(LOCAL_0, psr);
    processor.set_held(LOCAL_1, pc);
    processor.set_held(LOCAL_2, npc);
}

// Goes on at the entry of a trap in a table.
#[tactic(auto, unfolding(crate::specs::Delivery::at_entry, sparc_step::specs::Registers::placed))]
fn go_to_entry(processor: &mut Processor, base: u32, tt: u8)
    requires { base % 4096 ≡ 0 }
    ensures { processor.new ≡ at_entry base tt processor.old }
{
    let pc = base + 16 * u32::from(tt);
    processor.place(pc, pc + 4);
}

// Goes back to the window above, which has to be valid.
#[tactic(auto, unfolding(crate::specs::Delivery::restored, sparc_step::specs::Registers::in_window, sparc_step::specs::Registers::with_icc, sparc_step::specs::Registers::placed))]
fn restore(processor: &mut Processor, psr: u32, pc: u32, npc: u32)
    requires pc { pc % 4 ≡ 0 }
    requires npc { npc % 4 ≡ 0 }
    requires valid { (processor.old.cwp + 1) % 8 ≢ processor.old.inv }
    ensures { processor.new ≡ restored psr pc npc processor.old }
{
    processor.enter((processor.cwp() + 1) % 8);
    processor.set_icc(icc_of(psr));
    processor.place(pc, npc);
}

// The virtual PSR.
#[tactic(auto, unfolding(crate::specs::Delivery::virtual_psr))]
fn virtual_psr(enabled: bool, icc: u8, cwp: u8) -> u32
    requires icc { icc < 16 }
    requires cwp { cwp < 8 }
    ensures { result ≡ virtual_psr enabled icc cwp }
{
    let enabled = if enabled { TRAPS_ENABLED } else { 0 };
    (u32::from(icc) << 20) + SUPERVISOR + enabled + u32::from(cwp)
}

// The condition codes of a PSR.
fn icc_of(psr: u32) -> u8
    ensures value { result ≡ icc_of psr }
    ensures four { result < 16 }
{
    ((psr >> 20) & 15) as u8
}

// Whether traps are enabled in a PSR.
fn enabled_of(psr: u32) -> bool
    ensures { result ≡ enabled_of psr }
{
    psr & TRAPS_ENABLED != 0
}
