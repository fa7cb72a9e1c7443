//! The name of a file that is written first, and gets its own name at the end.

use std::io;
use std::io::{Cursor, Write};
use std::str::from_utf8;

/// The longest path that the system takes, in bytes.
const MOST: usize = 4096;

/// A path in room of its own, so that no memory is asked for in a write.
#[derive(Drop)]
pub(crate) struct PartName {
    text: Cursor<[u8; MOST]>,
}

impl PartName {
    /// The name `.xm_run-NUMBER.part` in the folder of the path.
    pub(crate) fn new(path: &str, number: u32) -> io::Result<PartName> {
        let mut text = Cursor::new([0; MOST]);
        if let Some((folder, _)) = path.rsplit_once('/') {
            write!(text, "{folder}/")?;
        }
        write!(text, ".xm_run-{number}.part")?;
        Ok(PartName { text })
    }

    /// The path.
    pub(crate) fn as_str(&self) -> &str {
        let length = self.text.position() as usize;
        let used = self.text.get_ref().get(..length).unwrap_or(&[]);
        from_utf8(used).unwrap_or("")
    }
}
