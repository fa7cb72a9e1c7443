//! What a partition traces.

/// An entry of a partition's trace stream.
#[derive(Clone, Copy, Debug, PartialEq, Eq)]
pub struct TraceEntry {
    /// When it was made, in microseconds.
    pub time: u64,
    /// The trace events that it belongs to, a bit each.
    pub bits: u32,
    /// Its number in the stream.
    pub seq: u32,
    /// What the partition had to say.
    pub load: [u8; 8],
}
