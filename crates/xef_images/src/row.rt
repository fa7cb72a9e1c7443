//! A row of an image's table.

ghost use Rattle.std.specs.Prelude.{◌≡◌, ◌+◌};

/// What the table says of a segment.
#[derive(Clone, Copy, Debug)]
pub(crate) struct Row {
    /// Where its memory begins.
    pub address: u32,
    /// The size of its memory.
    pub memory: u32,
    /// How many bytes it has.
    pub count: u32,
}

impl Row {
    /// The first address after its memory.
    pub(crate) fn end(self) -> u64
        ensures { result ≡ self.address + self.memory }
    {
        u64::from(self.address) + u64::from(self.memory)
    }
}
