//! The limits of a run, each the largest value that is accepted.

/// Bytes of one console call.
pub const CONSOLE_BYTES: u32 = 1024;

/// Bytes of one file that is read.
pub const FILE_BYTES: usize = 16_777_216;

/// Bytes of one raw image.
pub const IMAGE_BYTES: usize = 1_048_576;

/// Ticks of one run.
pub const TICKS: u64 = 4_000_000_000;
