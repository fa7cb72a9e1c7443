//! A program header of an ELF file.

ghost use Rattle.std.specs.Prelude.{◌≡◌, ◌+◌, ◌≤◌, length};
ghost use Rattle.xef_images.specs.Elf.{half, header_at, is_cut, is_loaded, elf_word};

use byteorder::{BigEndian, ByteOrder};

/// The bytes of a program header.
pub(crate) const HEADER: usize = 32;

/// The type of a header whose contents are loaded.
const LOAD: u32 = 1;

/// What a program header says.
#[derive(Clone, Copy, Debug)]
pub(crate) struct Header {
    /// Where it stands in the file.
    pub place: usize,
    /// Its type.
    pub kind: u32,
    /// Where its contents stand in the file.
    pub offset: u32,
    /// Where its memory begins.
    pub address: u32,
    /// How many bytes its contents have.
    pub count: u32,
    /// The size of its memory.
    pub memory: u32,
}

impl Header {
    /// The header at a place.
    #[tactic(auto, unfolding(crate::specs::Elf::header_at))]
    pub(crate) fn at(bytes: &[u8], place: usize) -> Header
        requires { place + 32 ≤ length bytes.now }
        ensures { result ≡ header_at bytes.now place }
    {
        Header {
            place,
            kind: word(bytes, place),
            offset: word(bytes, place + 4),
            address: word(bytes, place + 8),
            count: word(bytes, place + 16),
            memory: word(bytes, place + 20),
        }
    }

    /// Whether it is loaded.
    pub(crate) fn is_loaded(&self) -> bool
        ensures { result ≡ is_loaded self.now }
    {
        self.kind == LOAD && 0 < self.memory
    }

    /// Whether some of its contents stand past the end of the file.
    pub(crate) fn is_cut(&self, bytes: &[u8]) -> bool
        ensures { result ≡ is_cut bytes.now self.now }
    {
        0 < self.count && bytes.len() < self.offset as usize + self.count as usize
    }
}

/// The number of two bytes at a place.
pub(crate) fn half(bytes: &[u8], place: usize) -> u16
    requires { place + 2 ≤ length bytes.now }
    ensures { result ≡ half bytes.now place }
{
    BigEndian::read_u16(&bytes[place..place + 2])
}

/// The number of four bytes at a place.
pub(crate) fn word(bytes: &[u8], place: usize) -> u32
    requires { place + 4 ≤ length bytes.now }
    ensures { result ≡ elf_word bytes.now place }
{
    BigEndian::read_u32(&bytes[place..place + 4])
}
