//! The virtual traps of a guest, and its interrupts that wait.

ghost use Rattle.std.specs.Prelude.{◌≡◌, ◌<◌, ◌↔◌, IfSome, IsNone};
ghost use Rattle.virt_traps.specs.Virtual.{
  IsLowestDue,
  NoneIsDue,
  interrupt_cleared,
  due,
  no_traps,
  raised,
};

use std::marker::Model;

/// The virtual traps of one guest. Interrupts have the numbers 0 to 31.
#[derive(Debug, Drop)]
pub struct Virt {
    /// Whether the guest takes virtual traps.
    pub enabled: bool,
    /// The address of the table of traps, 16 bytes for each trap type.
    pub base: u32,
    /// The interrupts that are pending, bit n for interrupt n.
    pub pending: u32,
    /// The interrupts that are masked.
    pub mask: u32,
}

impl Model for Virt {
    ghost use Rattle.virt_traps.specs.Virtual.{AreVirtualTraps, VirtualTraps};

    ghost Value = { VirtualTraps };

    ghost view = { λ v. record { enabled = v.enabled; base = v.base; pending = v.pending; mask = v.mask } };

    ghost invariant = { λ v. AreVirtualTraps record { enabled = v.enabled; base = v.base; pending = v.pending; mask = v.mask } };
}

impl Virt {
    /// Disabled, the table at 0, nothing pending, all 32 interrupts masked.
    #[tactic(auto, unfolding(crate::specs::Virtual::no_traps))]
    pub fn new() -> Virt
        ensures value { result ≡ no_traps }
    {
        Virt {
            enabled: false,
            base: 0,
            pending: 0,
            mask: 0xffff_ffff,
        }
    }

    /// Makes interrupt n pending.
    #[tactic(auto, unfolding(crate::specs::Virtual::raised))]
    pub fn raise(&mut self, n: u8)
        // Called for an interrupt below 32.
        requires { n < 32 }
        ensures value { self.new ≡ raised n self.old }
    {
        self.pending |= 1 << n;
    }

    /// Makes interrupt n no longer pending.
    #[tactic(auto, unfolding(crate::specs::Virtual::interrupt_cleared))]
    pub fn clear(&mut self, n: u8)
        // Called for an interrupt below 32.
        requires { n < 32 }
        ensures value { self.new ≡ interrupt_cleared n self.old }
    {
        self.pending &= !(1 << n);
    }

    /// The lowest interrupt that is pending and not masked, whether or not traps are enabled.
    pub fn due(&self) -> Option<u8>
        // The lowest interrupt that is pending and not masked; none exactly where there is none.
        ensures value { result ≡ due self.now }
        ensures none { IsNone result ↔ NoneIsDue self.now }
        ensures lowest { IfSome result (IsLowestDue self.now) }
    {
        let waiting = self.pending & !self.mask;
        if waiting == 0 {
            None
        } else {
            Some(waiting.trailing_zeros() as u8)
        }
    }
}
