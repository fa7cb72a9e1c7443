//! The lines of a file of upsets.

use xm_base::PartId;
use xm_report::Place;

/// A line of a file of upsets: before the tick begins, the bit of the place of the partition flips.
#[derive(Clone, Copy, Debug, PartialEq, Eq)]
pub struct UpsetLine {
    /// The tick before which it strikes, counted from 0.
    pub tick: u64,
    /// The partition.
    pub part: PartId,
    /// Where the bit is.
    pub place: Place,
    /// The number of the bit, the lowest being 0.
    pub bit: u8,
}
