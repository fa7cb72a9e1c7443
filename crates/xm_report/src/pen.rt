//! A pen that writes the pieces of one line into a buffer of fixed size.

ghost use Rattle.std.specs.Prelude.{◌≡◌, ℕ, ◌+◌, ◌*◌, ◌≤◌, List, [], ◌∷◌, ◌++◌, length, decimal};
ghost use Rattle.std.specs.Int.{w32, to_be_bytes};
ghost use Rattle.hex.specs.Hex.{encode_lower};
ghost use Rattle.xm_report.specs.Report.{HasRoom, escape, escaped};

use arrayvec::ArrayVec;
use itoa::Buffer;
use std::marker::Model;
use xm_base::CONSOLE_BYTES;

/// Bytes of the longest line: a console call that is escaped in all places, and what stands around it.
const LINE_BYTES: usize = 4 * CONSOLE_BYTES as usize + 64;

/// The text of a line, as far as it is written, in a buffer of its own.
#[derive(Drop)]
pub struct Pen {
    line: ArrayVec<u8, LINE_BYTES>,
}

impl Model for Pen {
    ghost Value = { List ℕ };

    ghost view = { λ pen. pen.line.items };
}

impl Pen {
    /// Nothing is written.
    pub fn new() -> Pen
        ensures { result ≡ [] }
    {
        Pen {
            line: ArrayVec::new(),
        }
    }

    /// The text so far.
    pub fn bytes(&self) -> &[u8]
        ensures { result.now ≡ self.now }
    {
        self.line.as_slice()
    }

    /// Writes bytes as they are.
    pub fn text(&mut self, bytes: &[u8])
        // Called where there is room for the bytes.
        requires { HasRoom self.old (length bytes.now) }
        // The bytes are written after the text so far.
        ensures value { self.new ≡ self.old ++ bytes.now }
        // The text grows by no more than their number.
        ensures room { length self.new ≤ length self.old + length bytes.now }
    {
        self.line.try_extend_from_slice(bytes).unwrap();
    }

    /// Writes a name.
    pub(crate) fn name(&mut self, name: &str)
        requires short { length name.now ≤ 40 }
        requires room { HasRoom self.old 40 }
        ensures value { self.new ≡ self.old ++ name.now }
        ensures room { length self.new ≤ length self.old + 40 }
    {
        self.text(name.as_bytes());
    }

    /// Writes a number in decimal.
    pub fn number(&mut self, n: u64)
        // Called where there is room for a number.
        requires { HasRoom self.old 20 }
        // The number is written in decimal after the text so far.
        ensures value { self.new ≡ self.old ++ decimal n }
        // The text grows by no more than 20 bytes.
        ensures room { length self.new ≤ length self.old + 20 }
    {
        let mut buffer = Buffer::new();
        self.text(buffer.format(n).as_bytes());
    }

    /// Writes what stands before a number, and the number in decimal.
    pub fn field(&mut self, before: &[u8], n: u64)
        // Called where there is room for both.
        requires { HasRoom self.old (length before.now + 20) }
        // The bytes and the number are written after the text so far.
        ensures value { self.new ≡ self.old ++ before.now ++ decimal n }
        // The text grows by no more than their number and 20.
        ensures room { length self.new ≤ length self.old + (length before.now + 20) }
    {
        self.text(before);
        self.number(n);
    }

    /// Writes a word with eight hexadecimal digits.
    pub fn word(&mut self, word: u32)
        // Called where there is room for a word.
        requires { HasRoom self.old 8 }
        // The word is written with eight hexadecimal digits after the text so far.
        ensures value { self.new ≡ self.old ++ encode_lower (to_be_bytes w32 word) }
        // The text grows by no more than 8 bytes.
        ensures room { length self.new ≤ length self.old + 8 }
    {
        let mut digits = [0; 8];
        hex::encode_to_slice(word.to_be_bytes(), &mut digits).unwrap();
        self.text(&digits);
    }

    /// Writes eight bytes with two hexadecimal digits each.
    pub(crate) fn eight_bytes(&mut self, bytes: [u8; 8])
        requires { HasRoom self.old 16 }
        ensures value { self.new ≡ self.old ++ encode_lower bytes }
        ensures room { length self.new ≤ length self.old + 16 }
    {
        let mut digits = [0; 16];
        hex::encode_to_slice(bytes, &mut digits).unwrap();
        self.text(&digits);
    }

    /// Writes a byte with two hexadecimal digits.
    pub(crate) fn byte(&mut self, byte: u8)
        requires { HasRoom self.old 2 }
        ensures value { self.new ≡ self.old ++ encode_lower (byte ∷ []) }
        ensures room { length self.new ≤ length self.old + 2 }
    {
        let mut digits = [0; 2];
        hex::encode_to_slice([byte], &mut digits).unwrap();
        self.text(&digits);
    }

    /// Writes a byte of a console's text.
    #[tactic(auto, unfolding(crate::specs::Report::escape))]
    pub(crate) fn escape(&mut self, byte: u8)
        requires { HasRoom self.old 4 }
        ensures value { self.new ≡ self.old ++ escape byte }
        ensures room { length self.new ≤ length self.old + 4 }
    {
        match byte {
            b'\n' => self.text(b"\\n"),
            b'\\' => self.text(b"\\\\"),
            b' '..=b'~' => self.text(&[byte]),
            _ => {
                self.text(b"\\x");
                self.byte(byte);
            }
        }
    }

    /// Writes a console's text.
    pub(crate) fn escaped(&mut self, bytes: &[u8])
        requires { HasRoom self.old (4 * length bytes.now) }
        ensures value { self.new ≡ self.old ++ escaped bytes.now }
        ensures room { length self.new ≤ length self.old + 4 * length bytes.now }
    {
        for byte in bytes {
            self.escape(*byte);
        }
    }
}
