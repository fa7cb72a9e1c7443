//! Rows worked by hand: the bytes of small values in each way, and what is read of bytes.

ghost use Rattle.codecs.specs.rows.FormatRows.{FieldRows, FileRows, PartRows};

/// Numbers, bytes and texts.
pub fn fields_at_edges()
    // The bytes of a number in each width, and what is read of bytes that are too few, too large or another text.
    ensures rows { FieldRows }
{}

/// Values after one another, keys, codes and lists.
pub fn parts_in_order()
    // The bytes of pairs, tags, flags and lists, and where the first fault lies.
    ensures rows { PartRows }
{}

/// Files by their first bytes.
pub fn heads_of_files()
    // What stands before the digest, and what is read of a head with another name, version or length.
    ensures rows { FileRows }
{}
