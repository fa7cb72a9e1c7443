//! Words by their places.

ghost use Rattle.std.specs.Prelude.{◌≡◌, ℕ, ◌+◌, ◌*◌, ◌%◌, ◌^◌, ◌<◌};
ghost use Rattle.guest_bus.specs.Words.{word_address};

/// The address of the word at a place.
#[inline(always)]
#[tactic(auto, unfolding(guest_bus::specs::Words::word_address))]
pub(crate) fn address(origin: u32, place: usize) -> u32
    requires { origin % 4 ≡ 0 }
    ensures value { result ≡ word_address origin place }
    ensures aligned { result % 4 ≡ 0 }
{
    origin.wrapping_add(4 * ((place % 0x4000_0000) as u32))
}

/// The place of the word at an address, whether or not it is one of the words.
#[inline(always)]
#[tactic(auto, unfolding(guest_bus::specs::Words::word_address))]
pub(crate) fn place_of(origin: u32, address: u32) -> usize
    requires origin { origin % 4 ≡ 0 }
    requires aligned { address % 4 ≡ 0 }
    ensures value { word_address origin result ≡ address }
    ensures few { result < 2 ^ 33 }
{
    (address.wrapping_sub(origin) >> 2) as usize
}

/// The address of the word after the one at a place.
#[inline(always)]
#[tactic(auto, unfolding(guest_bus::specs::Words::word_address))]
pub(crate) fn address_after(origin: u32, place: usize) -> u32
    requires { origin % 4 ≡ 0 }
    ensures value { result ≡ word_address origin (place + 1) }
    ensures aligned { result % 4 ≡ 0 }
{
    address(origin, place).wrapping_add(4)
}

/// The displacement from the word at an address to the one at another.
#[inline(always)]
#[tactic(auto, unfolding(guest_bus::specs::Words::word_address))]
pub(crate) fn displacement(here: u32, target: u32) -> u32
    requires here { here % 4 ≡ 0 }
    requires target { target % 4 ≡ 0 }
    ensures { (origin at : ℕ) → here ≡ word_address origin at → word_address origin (at + result) ≡ target }
{
    // A shift that keeps the sign, so that a place before another is this many words before it.
    (target.wrapping_sub(here).wrapping_add(0x8000_0000) >> 2).wrapping_sub(0x2000_0000)
}

/// What is added to a place for a displacement, which is signed.
#[inline(always)]
pub(crate) fn distance(displacement: u32) -> usize
    ensures { result % 2 ^ 32 ≡ displacement }
{
    (displacement.wrapping_add(0x8000_0000) as usize).wrapping_sub(0x8000_0000)
}
