//! The refusal of a copy.

ghost use Rattle.std.specs.Prelude.{◌≡◌};
ghost use Rattle.guest_memory.specs.Memories.{fault_at};

/// Some byte of a range lies in no area that allows the access. Nothing was copied.
#[derive(Clone, Copy, Debug, PartialEq, Eq)]
pub struct Outside {
    /// The address of the first such byte, or 0 where that is past 2^32 - 1.
    pub address: u32,
}

impl Outside {
    /// The refusal at an address.
    pub(crate) fn at(address: u64) -> Outside
        ensures { result ≡ fault_at address }
    {
        if address < 1 << 32 {
            Outside {
                address: address as u32,
            }
        } else {
            Outside { address: 0 }
        }
    }
}
