//! Where a bit of a partition may flip.

ghost use Rattle.std.specs.Prelude.{◌≡◌, ◌≤◌, List, ℕ, ◌++◌, decimal, length};
ghost use Rattle.std.specs.Int.{w32, to_be_bytes};
ghost use Rattle.hex.specs.Hex.{encode_lower};
ghost use Rattle.xm_report.specs.Places.{place_text as place_text_of};

use arrayvec::ArrayVec;
use itoa::Buffer;

/// A place of a partition that has bits that may flip. Each has a spelling in a file of upsets, which stands beside it.
#[derive(Clone, Copy, Debug, PartialEq, Eq)]
pub enum Place {
    /// A global register by its number in the core file: `g1` to `g7`.
    Global(u8),
    /// A register of the windows by its number in the core file: `w0` to `w127`.
    Windowed(u8),
    /// The program counter: `pc`.
    Pc,
    /// The next program counter: `npc`.
    Npc,
    /// The register Y: `y`.
    YRegister,
    /// The condition codes: `icc`.
    Conditions,
    /// The deadline of the timer on the hardware clock: `hw`.
    HardwareDeadline,
    /// The deadline of the timer on the execution clock: `exec`.
    ExecutionDeadline,
    /// The base of the table of traps: `tbr`.
    TrapBase,
    /// The masked interrupts: `mask`.
    Mask,
    /// The pending interrupts: `pending`.
    Pending,
    /// A byte of memory by its address: eight hexadecimal digits.
    MemoryByte(u32),
}

/// The bytes of the longest spelling: an address.
const PLACE_BYTES: usize = 8;

/// The spelling of a place, as a file of upsets has it.
pub fn place_text(place: Place) -> ArrayVec<u8, PLACE_BYTES>
    // The spelling of the place.
    ensures { result.items ≡ place_text_of place }
{
    match place {
        Place::Global(n) => numbered(b"g", n),
        Place::Windowed(n) => numbered(b"w", n),
        Place::Pc => named(b"pc"),
        Place::Npc => named(b"npc"),
        Place::YRegister => named(b"y"),
        Place::Conditions => named(b"icc"),
        Place::HardwareDeadline => named(b"hw"),
        Place::ExecutionDeadline => named(b"exec"),
        Place::TrapBase => named(b"tbr"),
        Place::Mask => named(b"mask"),
        Place::Pending => named(b"pending"),
        Place::MemoryByte(address) => eight_digits(address),
    }
}

/// A name.
fn named(name: &[u8]) -> ArrayVec<u8, PLACE_BYTES>
    requires { length name.now ≤ 8 }
    ensures { result.items ≡ name.now }
{
    let mut text = ArrayVec::new();
    text.try_extend_from_slice(name).unwrap();
    text
}

/// A letter and a number.
fn numbered(letter: &[u8], n: u8) -> ArrayVec<u8, PLACE_BYTES>
    requires { length letter.now ≤ 1 }
    ensures { result.items ≡ letter.now ++ decimal n }
{
    let mut text = named(letter);
    let mut buffer = Buffer::new();
    text.try_extend_from_slice(buffer.format(n).as_bytes())
        .unwrap();
    text
}

/// The eight digits of an address.
fn eight_digits(address: u32) -> ArrayVec<u8, PLACE_BYTES>
    ensures { result.items ≡ encode_lower (to_be_bytes w32 address) }
{
    let mut digits = [0; 8];
    hex::encode_to_slice(address.to_be_bytes(), &mut digits).unwrap();
    named(&digits)
}
