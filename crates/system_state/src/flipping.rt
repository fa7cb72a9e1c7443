//! A bit of a partition's registers, timers or virtual traps flips.

ghost use Rattle.std.specs.Prelude.{◌≡◌, ◌%◌, ◌<◌, ◌≤◌, length};
ghost use Rattle.upset_model.specs.Places.{flipped, flipped_at};
ghost use Rattle.system_state.specs.lemmas.FlipTerms.{IsOwnBit, byte_address, flipped_own};

use crate::own_state::PartState;
use sparc_step::Processor;
use virt_clocks::Clock;
use xm_report::Place;

/// The address of a byte of memory, or `None` of another place.
pub(crate) fn byte_address(place: Place) -> Option<u32>
    ensures { result ≡ byte_address place }
{
    match place {
        Place::MemoryByte(address) => Some(address),
        Place::Global(_)
        | Place::Windowed(_)
        | Place::Pc
        | Place::Npc
        | Place::YRegister
        | Place::Conditions
        | Place::HardwareDeadline
        | Place::ExecutionDeadline
        | Place::TrapBase
        | Place::Mask
        | Place::Pending => None,
    }
}

/// A bit of a place of a partition flips; of a byte of memory none does here.
pub(crate) fn flip_own(own: &mut PartState, place: Place, bit: u8)
    requires { IsOwnBit place bit }
    ensures { own.new ≡ flipped_own place bit own.old }
{
    match place {
        Place::Global(n) => flip_global(&mut own.core, n, bit),
        Place::Windowed(n) => flip_windowed(&mut own.core, n, bit),
        Place::Pc => flip_pc(&mut own.core, bit),
        Place::Npc => flip_npc(&mut own.core, bit),
        Place::YRegister => flip_y(&mut own.core, bit),
        Place::Conditions => flip_conditions(&mut own.core, bit),
        Place::HardwareDeadline => own.clocks.flip_deadline(Clock::Hw, bit),
        Place::ExecutionDeadline => own.clocks.flip_deadline(Clock::Exec, bit),
        Place::TrapBase => own.virt.base = flipped_base(own.virt.base, bit),
        Place::Mask => own.virt.mask = flipped(own.virt.mask, bit),
        Place::Pending => own.virt.pending = flipped(own.virt.pending, bit),
        Place::MemoryByte(_) => {}
    }
}

// A bit of a global register flips.
fn flip_global(core: &mut Processor, n: u8, bit: u8)
    requires some { 1 ≤ n }
    requires n { n < 8 }
    requires bit { bit < 32 }
    ensures { core.new ≡ record core.old { globals = flipped_at n bit core.old.globals } }
{
    let mut registers = core.core();
    flip_word(&mut registers.globals, n, bit);
    *core = Processor::of(&registers);
}

// A bit of a register of the windows flips.
fn flip_windowed(core: &mut Processor, n: u8, bit: u8)
    requires n { n < 128 }
    requires bit { bit < 32 }
    ensures { core.new ≡ record core.old { windows = flipped_at n bit core.old.windows } }
{
    let mut registers = core.core();
    flip_word(&mut registers.windows, n, bit);
    *core = Processor::of(&registers);
}

// A bit of one of these words flips.
fn flip_word(words: &mut [u32], n: u8, bit: u8)
    requires n { n < length words.old }
    requires bit { bit < 32 }
    ensures { words.new ≡ flipped_at n bit words.old }
{
    let at = usize::from(n);
    words[at] = flipped(words[at], bit);
}

// A bit of the program counter flips.
#[tactic(auto, unfolding(sparc_step::specs::Registers::placed))]
fn flip_pc(core: &mut Processor, bit: u8)
    requires low { 2 ≤ bit }
    requires bit { bit < 32 }
    ensures { core.new ≡ record core.old { pc = flipped bit core.old.pc } }
{
    let pc = flipped_counter(core.pc(), bit);
    let npc = core.npc();
    core.place(pc, npc);
}

// A bit of the next program counter flips.
#[tactic(auto, unfolding(sparc_step::specs::Registers::placed))]
fn flip_npc(core: &mut Processor, bit: u8)
    requires low { 2 ≤ bit }
    requires bit { bit < 32 }
    ensures { core.new ≡ record core.old { npc = flipped bit core.old.npc } }
{
    let pc = core.pc();
    let npc = flipped_counter(core.npc(), bit);
    core.place(pc, npc);
}

// A bit of Y flips.
#[tactic(auto, unfolding(sparc_step::specs::Registers::with_y))]
fn flip_y(core: &mut Processor, bit: u8)
    requires { bit < 32 }
    ensures { core.new ≡ record core.old { y = flipped bit core.old.y } }
{
    core.set_y(flipped(core.y(), bit));
}

// A bit of the condition codes flips.
#[tactic(auto, unfolding(sparc_step::specs::Registers::with_icc))]
fn flip_conditions(core: &mut Processor, bit: u8)
    requires { bit < 4 }
    ensures { core.new ≡ record core.old { icc = flipped bit core.old.icc } }
{
    core.set_icc(flipped_conditions(core.icc(), bit));
}

// A word after the flip of a bit.
fn flipped(word: u32, bit: u8) -> u32
    requires { bit < 32 }
    ensures { result ≡ flipped bit word }
{
    word ^ (1 << bit)
}

// A multiple of 4 after the flip of a bit that leaves it one.
fn flipped_counter(counter: u32, bit: u8) -> u32
    requires aligned { counter % 4 ≡ 0 }
    requires low { 2 ≤ bit }
    requires bit { bit < 32 }
    ensures value { result ≡ flipped bit counter }
    ensures aligned { result % 4 ≡ 0 }
{
    flipped(counter, bit)
}

// The base of a table of traps after the flip of a bit that leaves it one.
fn flipped_base(base: u32, bit: u8) -> u32
    requires aligned { base % 4096 ≡ 0 }
    requires low { 12 ≤ bit }
    requires bit { bit < 32 }
    ensures value { result ≡ flipped bit base }
    ensures aligned { result % 4096 ≡ 0 }
{
    flipped(base, bit)
}

// Four condition codes after the flip of one.
fn flipped_conditions(conditions: u8, bit: u8) -> u8
    requires four { conditions < 16 }
    requires bit { bit < 4 }
    ensures value { result ≡ flipped bit conditions }
    ensures four { result < 16 }
{
    flipped_codes(conditions, bit)
}

// A byte of condition codes after the flip of one.
fn flipped_codes(codes: u8, bit: u8) -> u8
    requires { bit < 4 }
    ensures { result ≡ flipped bit codes }
{
    codes ^ (1 << bit)
}
