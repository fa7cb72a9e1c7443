//! What the memory of a vector holds.

use crate::memory::AREA_START;

/// How many bytes are given of the start of the area.
pub(crate) const HEAD_BYTES: usize = 64;

/// Where in the area the data stand, up to its end.
pub(crate) const DATA_AT: usize = 0x7_f000;

// How many bytes the data have.
const DATA_BYTES: usize = 192;

/// The bytes at the start of the area, where the instruction is, and the data. All else is zero.
#[derive(Drop)]
pub(crate) struct Contents {
    pub(crate) head: [u8; HEAD_BYTES],
    pub(crate) data: [u8; DATA_BYTES],
    /// Whether the area may only be read.
    pub(crate) read_only: bool,
}

impl Contents {
    /// An instruction at the start, and data of zeros.
    pub(crate) fn new(instruction: u32) -> Contents {
        let mut head = [0; HEAD_BYTES];
        head[..4].copy_from_slice(&instruction.to_be_bytes());
        Contents {
            head,
            data: [0; DATA_BYTES],
            read_only: false,
        }
    }

    /// Sets the first 32 bytes of the data, all of them to one value, or whether the area may only be read.
    pub(crate) fn set(&mut self, name: &str, value: &str) -> Option<()> {
        match name {
            "mem" => hex::decode_to_slice(value, &mut self.data[..32]).ok(),
            "bytes" => {
                self.data.fill(u8::from_str_radix(value, 16).ok()?);
                Some(())
            },
            "read-only" => {
                self.read_only = true;
                (value == "1").then_some(())
            },
            _ => None,
        }
    }

    /// Puts bytes at an address, at the start of the area or in the data.
    pub(crate) fn put_at(&mut self, address: u32, digits: &str) -> Option<()> {
        let at = address.checked_sub(AREA_START)? as usize;
        if at < DATA_AT {
            put_digits(&mut self.head, at, digits)
        } else {
            put_digits(&mut self.data, at - DATA_AT, digits)
        }
    }
}

// Puts the bytes that hexadecimal digits spell at a place, where there is room for them.
fn put_digits(bytes: &mut [u8], at: usize, digits: &str) -> Option<()> {
    let count = digits.len() / 2;
    if at > bytes.len() || count > bytes.len() - at {
        return None;
    }
    hex::decode_to_slice(digits, &mut bytes[at..at + count]).ok()
}
