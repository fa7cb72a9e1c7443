//! Words that lie one after the other: by their places, and sixteen of them as one.

ghost use Rattle.std.specs.Prelude.{◌≡◌, IfSome, false};
ghost use Rattle.std.specs.Bool.{OnTrue};
ghost use Rattle.guest_bus.specs.Memory.{is_readable, is_writable, with_bytes};
ghost use Rattle.guest_bus.specs.Words.{MayStand, bytes_of, words_at};

use crate::bus::Bus;

/// Words by their places: where they begin and end, and what four times a place is added to for the address of the word
/// there.
#[derive(Clone, Copy, Debug)]
pub struct Words {
    pub begin: usize,
    pub end: usize,
    pub origin: u32,
}

/// A memory of which sixteen words are written or read as one.
pub trait HasWords: Bus {
    /// Writes sixteen words from an address on, the highest byte of each first, where all of them may be written and no
    /// search is needed for their area. The answer is whether it did.
    fn put_words(&mut self, address: u32, words: &[u32; 16]) -> bool
        // Sixteen words written as one, where all their bytes may be; nothing changed where they were not; that they
        // were is promised for no address.
        ensures free { OnTrue result (MayStand (is_writable (Self.areas self.old)) address) }
        ensures done { OnTrue result (Self.memory self.new ≡ with_bytes (Self.memory self.old) address (bytes_of words.now)) }
        ensures not_done { result ≡ false → Self.memory self.new ≡ Self.memory self.old }
        ensures areas { Self.areas self.new ≡ Self.areas self.old }
        ensures others { Self.others self.new ≡ Self.others self.old };

    /// The sixteen words from an address on, where all of them may be read and no search is needed for their area.
    fn get_words(&self, address: u32) -> Option<[u32; 16]>
        // Sixteen words read as one, where all their bytes may be; none may be the answer for any address.
        ensures free { IfSome result (λ words. MayStand (is_readable (Self.areas self.now)) address) }
        ensures words { IfSome result (λ words. words ≡ words_at (Self.memory self.now) address 16) };
}
