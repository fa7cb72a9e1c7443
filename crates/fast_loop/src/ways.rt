//! Ends of the loop of words. All do the same.

/// Where the loop goes on to the next word after work of a kind. The kit copies the dispatch of the next row to where at most sixteen
/// arms come from, so that none of them jumps to it.
#[derive(Clone, Copy, Debug)]
pub(crate) enum Way {
    /// Nothing but to go on.
    Idle,
    /// Sums, differences and comparisons.
    Sums,
    /// Words of bits.
    Bits,
    /// Words of bits whose condition codes are set, and products.
    Tests,
    /// Shifts and divisions.
    Shifts,
    /// Loads, and windows that are entered.
    Loads,
    /// Stores.
    Stores,
}
