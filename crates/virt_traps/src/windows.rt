//! Register windows, spilled to the stack and filled from it.

ghost use Rattle.std.specs.Prelude.{◌≡◌, ◌≢◌, ◌↔◌, ◌+◌, ◌%◌, ◌<◌, IsErr, IsFalse, OnErr};
ghost use Rattle.guest_bus.specs.Memory.{is_readable, is_writable};
ghost use Rattle.virt_traps.specs.lemmas.MovesTerms.{CanMove, loaded_with, moved_by};
ghost use Rattle.virt_traps.specs.Moves.{fill_address, filled, spill_address, spilled};
ghost use Rattle.virt_traps.specs.SaveArea.{is_usable, register_of, saved};

use crate::save_area::{is_usable, load_words, store_words};
use guest_bus::Bus;
use sparc_step::{Core, Processor};

/// The stack pointer is no multiple of 8, or not all 64 bytes there may be used. Nothing changed.
#[derive(Clone, Copy, Debug, PartialEq, Eq)]
pub struct StackFault;

/// A move of a window between the registers and the stack.
#[derive(Clone, Copy, Debug)]
pub(crate) enum WindowMove {
    /// To the stack.
    Spill,
    /// From the stack.
    Fill,
}

// The frame pointer, which is the stack pointer of the window above.
const FRAME: u8 = 30;

/// Stores the window below the invalid one, which becomes the invalid one.
pub fn spill<B: Bus>(core: &mut Core, bus: &mut B) -> Result<(), StackFault>
    // Called where the window above the current one is not the invalid one.
    requires { (core.old.cwp + 1) % 8 ≢ core.old.inv }
    // A spill: its answer, and the registers and the memory that it leaves.
    ensures answer { result ≡ (spilled (B.areas bus.old) core.old (B.memory bus.old)).answer }
    ensures core { core.new ≡ (spilled (B.areas bus.old) core.old (B.memory bus.old)).core }
    ensures memory { B.memory bus.new ≡ (spilled (B.areas bus.old) core.old (B.memory bus.old)).memory }
    // StackFault exactly where the stack's address is no multiple of 8 or one of its 64 bytes is not allowed, and
    // nothing changed then.
    ensures fault { IsErr result ↔ IsFalse (is_usable (is_writable (B.areas bus.old)) (spill_address core.old)) }
    ensures unchanged { OnErr result ((core.new ≡ core.old) × (B.memory bus.new ≡ B.memory bus.old)) }
    // Areas and the memories of others are as before.
    ensures areas { B.areas bus.new ≡ B.areas bus.old }
    ensures others { B.others bus.new ≡ B.others bus.old }
{
    let mut processor = Processor::of(core);
    let answer = spill_cached(&mut processor, bus);
    *core = processor.core();
    answer
}

/// The same on cached registers.
#[tactic(auto, unfolding(crate::specs::Moves::spilled, crate::specs::Moves::spill_address, sparc_step::specs::Registers::with_inv))]
pub fn spill_cached<B: Bus>(processor: &mut Processor, bus: &mut B) -> Result<(), StackFault>
    // Called where the window above the current one is not the invalid one.
    requires { (processor.old.cwp + 1) % 8 ≢ processor.old.inv }
    // A spill: its answer, and the registers and the memory that it leaves.
    ensures answer { result ≡ (spilled (B.areas bus.old) processor.old (B.memory bus.old)).answer }
    ensures core { processor.new ≡ (spilled (B.areas bus.old) processor.old (B.memory bus.old)).core }
    ensures memory { B.memory bus.new ≡ (spilled (B.areas bus.old) processor.old (B.memory bus.old)).memory }
    // StackFault exactly where the stack's address is no multiple of 8 or one of its 64 bytes is not allowed, and
    // nothing changed then.
    ensures fault { IsErr result ↔ IsFalse (is_usable (is_writable (B.areas bus.old)) (spill_address processor.old)) }
    ensures unchanged { OnErr result ((processor.new ≡ processor.old) × (B.memory bus.new ≡ B.memory bus.old)) }
    // Areas and the memories of others are as before.
    ensures areas { B.areas bus.new ≡ B.areas bus.old }
    ensures others { B.others bus.new ≡ B.others bus.old }
{
    let window = (processor.inv() + 7) % 8;
    let address = stack_of(processor, window);
    if !is_usable(bus, address, WindowMove::Spill) {
        return Err(StackFault);
    }
    let words = saved(processor, window);
    store_words(&words, bus, address);
    processor.set_inv(window);
    Ok(())
}

/// Loads the invalid window, and the one above it becomes the invalid one.
pub fn fill<B: Bus>(core: &mut Core, bus: &mut B) -> Result<(), StackFault>
    // Called where the window above the invalid one is not the current one.
    requires { (core.old.inv + 1) % 8 ≢ core.old.cwp }
    // A fill, which changes no memory.
    ensures answer { result ≡ (filled (B.areas bus.old) core.old (B.memory bus.old)).answer }
    ensures core { core.new ≡ (filled (B.areas bus.old) core.old (B.memory bus.old)).core }
    ensures memory { B.memory bus.new ≡ (filled (B.areas bus.old) core.old (B.memory bus.old)).memory }
    ensures untouched { B.memory bus.new ≡ B.memory bus.old }
    // StackFault exactly where the stack's address is no multiple of 8 or one of its 64 bytes is not allowed, and
    // nothing changed then.
    ensures fault { IsErr result ↔ IsFalse (is_usable (is_readable (B.areas bus.old)) (fill_address core.old)) }
    ensures unchanged { OnErr result (core.new ≡ core.old) }
    // Areas and the memories of others are as before.
    ensures areas { B.areas bus.new ≡ B.areas bus.old }
    ensures others { B.others bus.new ≡ B.others bus.old }
{
    let mut processor = Processor::of(core);
    let answer = fill_cached(&mut processor, bus);
    *core = processor.core();
    answer
}

/// The same on cached registers.
#[tactic(auto, unfolding(crate::specs::Moves::filled, crate::specs::Moves::fill_address, sparc_step::specs::Registers::register_at))]
pub fn fill_cached<B: Bus>(processor: &mut Processor, bus: &mut B) -> Result<(), StackFault>
    // Called where the window above the invalid one is not the current one.
    requires { (processor.old.inv + 1) % 8 ≢ processor.old.cwp }
    // A fill, which changes no memory.
    ensures answer { result ≡ (filled (B.areas bus.old) processor.old (B.memory bus.old)).answer }
    ensures core { processor.new ≡ (filled (B.areas bus.old) processor.old (B.memory bus.old)).core }
    ensures memory { B.memory bus.new ≡ (filled (B.areas bus.old) processor.old (B.memory bus.old)).memory }
    ensures untouched { B.memory bus.new ≡ B.memory bus.old }
    // StackFault exactly where the stack's address is no multiple of 8 or one of its 64 bytes is not allowed, and
    // nothing changed then.
    ensures fault { IsErr result ↔ IsFalse (is_usable (is_readable (B.areas bus.old)) (fill_address processor.old)) }
    ensures unchanged { OnErr result (processor.new ≡ processor.old) }
    // Areas and the memories of others are as before.
    ensures areas { B.areas bus.new ≡ B.areas bus.old }
    ensures others { B.others bus.new ≡ B.others bus.old }
{
    let address = processor.get(FRAME);
    if !is_usable(bus, address, WindowMove::Fill) {
        return Err(StackFault);
    }
    let words = load_words(bus, address);
    fill_window(processor, &words);
    Ok(())
}

// The stack pointer of a window that is not the current one.
fn stack_of(processor: &Processor, window: u8) -> u32
    requires window { window < 8 }
    requires other { window ≢ processor.now.cwp }
    ensures { result ≡ register_of processor.now.windows window 14 }
{
    if window == (processor.cwp() + 1) % 8 {
        processor.get(FRAME)
    } else {
        processor.stack_of(window)
    }
}

// The locals of a window, and after them its ins. The window is neither the current one nor the one below it.
fn saved(processor: &Processor, window: u8) -> [u32; 16]
    requires window { window < 8 }
    requires other { window ≢ processor.now.cwp }
    requires below { (window + 1) % 8 ≢ processor.now.cwp }
    ensures { result ≡ saved processor.now.windows window }
{
    processor.saved(window)
}

// Fills the invalid window with its locals and after them its ins.
fn fill_window(processor: &mut Processor, words: &[u32; 16])
    requires { (processor.old.inv + 1) % 8 ≢ processor.old.cwp }
    ensures { processor.new ≡ loaded_with words.now processor.old }
{
    processor.fill_window(words);
}

/// A spill or a fill.
pub(crate) fn move_window<B: Bus>(
    processor: &mut Processor,
    bus: &mut B,
    which: WindowMove,
) -> Result<(), StackFault>
    requires { CanMove which processor.old }
    ensures moved { moved_by which (B.areas bus.old) processor.old (B.memory bus.old) ≡ record { answer = result; core = processor.new; memory = B.memory bus.new } }
    ensures areas { B.areas bus.new ≡ B.areas bus.old }
    ensures others { B.others bus.new ≡ B.others bus.old }
{
    match which {
        WindowMove::Spill => spill_cached(processor, bus),
        WindowMove::Fill => fill_cached(processor, bus),
    }
}
