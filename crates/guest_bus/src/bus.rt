//! The bus between a processor and a memory, by what is asked of it.

ghost use Rattle.std.specs.Prelude.{◌≡◌, List};
ghost use Rattle.std.specs.Int.{byte_len};
ghost use Rattle.guest_bus.specs.Access.{Stores, after_store, fetched, loaded, store_fault, width_of};
ghost use Rattle.guest_bus.specs.Memory.{Area, Memory, Others};
ghost use Rattle.guest_bus.specs.Whole.{IsMemoryOf};

/// Why an access was refused. It changed nothing.
#[derive(Clone, Copy, Debug, PartialEq, Eq)]
pub enum BusFault {
    /// Some byte of it lies in no area that allows the access.
    Outside,
    /// The address is no multiple of the size; this is tested first.
    Unaligned,
}

/// How many bytes an access has.
#[derive(Clone, Copy, Debug, PartialEq, Eq)]
pub enum Size {
    One,
    Two,
    Four,
    Eight,
}

impl Size {
    /// The number of bytes.
    pub fn bytes(self) -> u32
        // How many bytes an access of a size has.
        ensures { result ≡ byte_len (width_of self) }
    {
        match self {
            Size::One => 1,
            Size::Two => 2,
            Size::Four => 4,
            Size::Eight => 8,
        }
    }
}

/// A memory of one guest, with the memories of others beside it.
pub trait Bus {
    /// The areas, which no call changes.
    ghost areas: { Self → List Area };

    /// The bytes of the areas by their addresses: one at each address of an area, and nothing elsewhere.
    ghost memory: { Self → Memory };

    /// The number of this guest, and the areas and the memories of all others, which no call changes.
    ghost others: { Self → Others };

    /// The instruction word at the address.
    fn fetch(&mut self, address: u32) -> Result<u32, BusFault>
        // The big endian value; Unaligned exactly where the address is no multiple of the size, Outside exactly where
        // it is one and some byte may not be read.
        ensures value { result ≡ fetched (areas self.old) (memory self.old) address }
        // A fetch and a load change nothing.
        ensures memory { memory self.new ≡ memory self.old }
        ensures areas { areas self.new ≡ areas self.old }
        ensures others { others self.new ≡ others self.old }
        // A byte stands at each address of the areas, and nothing elsewhere.
        ensures whole { IsMemoryOf (areas self.new) (memory self.new) };

    /// The big endian value at the address.
    fn load(&mut self, address: u32, size: Size) -> Result<u64, BusFault>
        // The big endian value; Unaligned exactly where the address is no multiple of the size, Outside exactly where
        // it is one and some byte may not be read.
        ensures value { result ≡ loaded (areas self.old) (memory self.old) address size }
        // A fetch and a load change nothing.
        ensures memory { memory self.new ≡ memory self.old }
        ensures areas { areas self.new ≡ areas self.old }
        ensures others { others self.new ≡ others self.old }
        // A byte stands at each address of the areas, and nothing elsewhere.
        ensures whole { IsMemoryOf (areas self.new) (memory self.new) };

    /// Writes the low bytes of the value, as many as the size, in big endian order.
    fn store(&mut self, address: u32, size: Size, value: u64) -> Result<(), BusFault>
        // A store is refused: Unaligned exactly where the address is no multiple of the size, Outside exactly where it
        // is one and some byte may not be written.
        ensures fault { Stores result (store_fault (areas self.old) address size) }
        // The low bytes of the value stand at the address, and every other byte is as before; a refused store changes
        // nothing.
        ensures memory { memory self.new ≡ after_store (areas self.old) (memory self.old) address size value }
        // A store changes no area and no memory of others.
        ensures areas { areas self.new ≡ areas self.old }
        ensures others { others self.new ≡ others self.old }
        // A byte stands at each address of the areas, and nothing elsewhere.
        ensures whole { IsMemoryOf (areas self.new) (memory self.new) };
}
