//! The registers of a processor.

ghost use Rattle.std.specs.Prelude.{◌≡◌, ◌%◌, ◌<◌, ◌≤◌};
ghost use Rattle.sparc_step.specs.Registers.{
  AreRegisters,
  place_in_windows,
  register_at,
  registers_started,
  with_register,
};

use std::marker::Model;

/// The registers of one guest's processor, in eight windows.
#[derive(Debug, Drop)]
pub struct Core {
    pub pc: u32,
    pub npc: u32,
    pub y: u32,
    /// The condition codes n z v c, n the highest of four bits.
    pub icc: u8,
    /// The current window.
    pub cwp: u8,
    /// The window that a program may not enter.
    pub inv: u8,
    pub globals: [u32; 8],
    /// The outs and the locals of each window; its ins are the outs of the next one.
    pub windows: [u32; 128],
}

impl Model for Core {
    ghost use Rattle.sparc_step.specs.Registers.{AreRegisters, Registers};

    ghost Value = { Registers };

    ghost view = { λ c. record { pc = c.pc; npc = c.npc; y = c.y; icc = c.icc; cwp = c.cwp; inv = c.inv; globals = c.globals; windows = c.windows } };

    ghost invariant = { λ c. AreRegisters record { pc = c.pc; npc = c.npc; y = c.y; icc = c.icc; cwp = c.cwp; inv = c.inv; globals = c.globals; windows = c.windows } };
}

impl Core {
    /// The registers of a program that begins at the entry.
    #[tactic(auto, unfolding(crate::specs::Registers::registers_started))]
    pub fn start(entry: u32) -> Core
        // Called with an entry that is a multiple of 4.
        requires { entry % 4 ≡ 0 }
        // The registers at an entry that is a multiple of 4.
        ensures started { result ≡ registers_started entry }
        // Register 0 is zero, pc and npc are multiples of 4, the codes are below 16, the windows below 8 and apart.
        ensures registers { AreRegisters result }
    {
        Core {
            pc: entry,
            npc: entry.wrapping_add(4),
            y: 0,
            icc: 0,
            cwp: 7,
            inv: 0,
            globals: [0; 8],
            windows: [0; 128],
        }
    }

    /// The value of a register of the current window.
    #[tactic(auto, unfolding(crate::specs::Registers::register_at))]
    pub fn get(&self, r: u8) -> u32
        // Called for a register below 32.
        requires { r < 32 }
        // The value of a register of the current window.
        ensures value { result ≡ register_at self.now r }
        // Register 0 is zero, pc and npc are multiples of 4, the codes are below 16, the windows below 8 and apart.
        ensures registers { AreRegisters self.now }
    {
        if r < 8 {
            self.globals[usize::from(r)]
        } else {
            self.windows[place_in_windows(self.cwp, r)]
        }
    }

    /// Sets a register of the current window.
    #[tactic(auto, unfolding(crate::specs::Registers::with_register))]
    pub fn set(&mut self, r: u8, value: u32)
        // Called for a register below 32.
        requires { r < 32 }
        // The register is set, and no other; register 0 stays zero.
        ensures value { self.new ≡ with_register self.old r value }
        // Register 0 is zero, pc and npc are multiples of 4, the codes are below 16, the windows below 8 and apart.
        ensures registers { AreRegisters self.new }
    {
        if r >= 8 {
            self.windows[place_in_windows(self.cwp, r)] = value;
        } else if r > 0 {
            self.globals[usize::from(r)] = value;
        }
    }
}

/// Where a register of a window stands.
pub fn place_in_windows(window: u8, r: u8) -> usize
    // Called for a window below 8, for a register from 8 on, and for a register below 32.
    requires window { window < 8 }
    requires low { 8 ≤ r }
    requires high { r < 32 }
    // Where a register stands in the eight windows.
    ensures place { result ≡ place_in_windows window r }
    ensures inside { result < 128 }
{
    if r < 24 {
        16 * usize::from(window) + usize::from(r) - 8
    } else {
        16 * usize::from((window + 1) % 8) + usize::from(r) - 24
    }
}
