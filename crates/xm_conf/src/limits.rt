//! The most that a configuration may have, each the largest number that is accepted.

/// Partitions.
pub const PARTS: u8 = 32;

/// Partitions in version 1 of the formats.
pub const PARTS_1: u8 = 16;

/// Destinations of a sampling channel.
pub const DESTS: usize = 16;

/// Links.
pub const LINKS: usize = 64;

/// The numbers that the links of one partition have, from 0 on.
pub const LINK_NUMBERS: u8 = 8;
