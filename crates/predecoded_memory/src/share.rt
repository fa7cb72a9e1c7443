//! The rows of one partition.

ghost use Rattle.std.specs.Prelude.{◌≡◌, ◌*◌, ◌+◌, ◌-◌, ◌%◌, ◌^◌, ◌≤◌, ◌<◌};
ghost use Rattle.guest_bus.specs.Words.{AreWords, word_address};
ghost use Rattle.predecoded_memory.specs.Shares.{AreNumbered, share_for};
ghost use Rattle.predecode.specs.lemmas.Reached.{word_after};

use guest_bus::Words;

/// The rows of one partition.
#[derive(Clone, Copy, Debug)]
pub(crate) struct PartRows {
    /// The address of the word of the first one.
    pub(crate) first: u32,
    /// The words that have rows, with the rows' numbers as their places.
    pub(crate) words: Words,
}

// The most rows, for all partitions together.
const MOST: usize = 0x10_0000;

/// How many words of each of this many partitions have rows, where the widest has this many words.
#[tactic(auto, unfolding(crate::specs::Shares::share_for))]
pub(crate) fn share_for(count: usize, wide: usize) -> usize
    requires { 0 < count }
    ensures { result ≡ share_for count wide }
{
    (MOST / count).min(wide)
}

/// How many words after the first one another stands, by its address.
#[inline(always)]
#[tactic(auto, unfolding(predecode::specs::lemmas::Reached::word_after))]
pub(crate) fn word_after(first: u32, address: u32) -> usize
    ensures value { result ≡ word_after first address }
    ensures few { result < 2 ^ 30 }
{
    (address.wrapping_sub(first) >> 2) as usize
}

/// The words from a first address on that have rows of a share, with the rows' numbers as their places.
#[tactic(auto, unfolding(guest_bus::specs::Words::word_address))]
pub(crate) fn numbered(first: u32, base: usize, share: usize) -> Words
    requires first { first % 4 ≡ 0 }
    requires base { base + share ≤ 1048576 }
    ensures words { AreWords result }
    ensures begin { result.begin ≡ base }
    ensures under { result.end ≤ base + share }
    ensures address { AreNumbered first result }
{
    // None of them stands after the last address.
    let count = share.min((u32::MAX - first) as usize / 4 + 1);
    // Four times a number and the origin are the address.
    Words {
        begin: base,
        end: base + count,
        origin: first.wrapping_sub(4 * base as u32),
    }
}
