//! Rows worked by hand: the bytes of parts of saved machines, and what is read of bytes.

ghost use Rattle.saved_machines.specs.rows.SavedRows.{ChannelRows, ClockRows, HeadRows, LogRows, PageRows, PartitionRows};

/// Plan clocks and heads.
pub fn heads_at_edges()
    // A plan, its frame and the plan that is asked for, at their edges.
    ensures clocks { ClockRows }
    // A head, one of another container, and the ticks and the time at their edges.
    ensures heads { HeadRows }
{}

/// What channels hold.
pub fn channels_by_kind()
    // A sampling channel with and without a message, and a queue; too many messages, and messages of no length that they may have.
    ensures rows { ChannelRows }
{}

/// Parts of a partition.
pub fn partitions_in_order()
    // How it stands, its registers, its timers and its ports, at the edges of each.
    ensures parts { PartitionRows }
    // The counts of its logs, and an entry of each.
    ensures logs { LogRows }
{}

/// Pages of memory.
pub fn pages_that_differ()
    // The last page of an area, one after it, one between two pages, one that does not rise, one before the area, an area
    // without pages, and a page as it was loaded.
    ensures rows { PageRows }
{}
