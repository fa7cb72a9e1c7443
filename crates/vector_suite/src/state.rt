//! What a vector is about: the registers, the virtual traps, and the memory.

ghost use Rattle.std.specs.Prelude.{◌≡◌, ◌%◌, ◌<◌, IfSome};

use crate::contents::Contents;
use crate::memory::AREA_START;
use crate::vector::hexadecimal;
use sparc_step::Core;
use virt_traps::Virt;

/// The registers, the virtual traps and the memory of a vector.
#[derive(Drop)]
pub(crate) struct State {
    pub(crate) core: Core,
    pub(crate) traps: Virt,
    pub(crate) contents: Contents,
}

impl State {
    /// What holds unless the vector says otherwise, with the instruction at `pc`.
    pub(crate) fn new(instruction: u32) -> State {
        let mut core = Core::start(AREA_START);
        core.cwp = 7;
        core.inv = 3;
        for r in 1..32u8 {
            core.set(r, 0x1000_0000 + u32::from(r) * 0x0101_0101);
        }
        State {
            core,
            traps: Virt::new(),
            contents: Contents::new(instruction),
        }
    }

    /// Sets what the words say, and answers whether each says something.
    pub(crate) fn set_all(&mut self, settings: &str) -> bool {
        for setting in settings.split(' ') {
            if !setting.is_empty() && self.set(setting).is_none() {
                return false;
            }
        }
        true
    }

    /// Goes on to the next instruction.
    pub(crate) fn advance(&mut self) {
        self.core.pc = self.core.npc;
        self.core.npc = self.core.npc.wrapping_add(4);
    }

    // Sets what a word `NAME=VALUE` says.
    fn set(&mut self, setting: &str) -> Option<()> {
        let (name, value) = setting.split_once('=')?;
        match name {
            "mem" | "bytes" | "read-only" => self.contents.set(name, value),
            "enabled" | "base" | "pending" | "mask" => {
                set_trap(&mut self.traps, name, hexadecimal(value)?)
            },
            _ if name.len() == 8 => self.contents.put_at(hexadecimal(name)?, value),
            _ => set_register(&mut self.core, name, hexadecimal(value)?),
        }
    }
}

// Sets the register of a name; where the processor cannot have such a value, there is no such vector.
fn set_register(core: &mut Core, name: &str, value: u32) -> Option<()> {
    match name {
        "pc" => core.pc = address(value)?,
        "npc" => core.npc = address(value)?,
        "y" => core.y = value,
        "icc" => core.icc = below(value, 16)?,
        "cwp" => set_window(core, below(value, 8)?)?,
        "inv" => set_invalid(core, below(value, 8)?)?,
        "windows" => number_windows(core, value),
        _ => {
            let number = name.strip_prefix('r')?.parse::<u32>().ok()?;
            core.set(below(number, 32)?, value);
        },
    }
    Some(())
}

// Sets what a guest has of virtual traps.
fn set_trap(traps: &mut Virt, name: &str, value: u32) -> Option<()> {
    match name {
        "enabled" => traps.enabled = below(value, 2)? == 1,
        "base" => traps.base = table(value)?,
        "pending" => traps.pending = value,
        "mask" => traps.mask = value,
        _ => return None,
    }
    Some(())
}

// An address of an instruction.
fn address(value: u32) -> Option<u32>
    ensures { IfSome result (λ address. address % 4 ≡ 0) }
{
    if value % 4 == 0 { Some(value) } else { None }
}

// An address of a table of traps.
fn table(value: u32) -> Option<u32>
    ensures { IfSome result (λ address. address % 4096 ≡ 0) }
{
    if value % 4096 == 0 { Some(value) } else { None }
}

// A small number.
fn below(value: u32, bound: u8) -> Option<u8>
    ensures { IfSome result (λ small. small < bound) }
{
    match u8::try_from(value) {
        Ok(small) if small < bound => Some(small),
        _ => None,
    }
}

// Enters a window.
fn set_window(core: &mut Core, window: u8) -> Option<()>
    requires { window < 8 }
{
    if window == core.inv {
        return None;
    }
    core.cwp = window;
    Some(())
}

// Makes a window the invalid one.
fn set_invalid(core: &mut Core, window: u8) -> Option<()>
    requires { window < 8 }
{
    if window == core.cwp {
        return None;
    }
    core.inv = window;
    Some(())
}

// Numbers the outs and locals of all windows from a value upward.
fn number_windows(core: &mut Core, first: u32) {
    let mut value = first;
    for register in core.windows.iter_mut() {
        *register = value;
        value = value.wrapping_add(1);
    }
}
