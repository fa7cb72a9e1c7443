//! Bytes with their length, put after others.

ghost use Rattle.std.specs.Prelude.{◌≡◌, ◌++◌, OnOk};
ghost use Rattle.xm_container.specs.Box.{sized_text};

use file_headers::put_word;
use xm_base::Memory;

/// Puts bytes after their length. A file has far fewer bytes than a word can count.
#[tactic(auto, unfolding(crate::specs::Box::sized_text))]
pub(crate) fn put_sized(out: &mut Vec<u8>, bytes: &[u8]) -> Result<(), Memory>
    ensures { OnOk result (out.new.items ≡ out.old.items ++ sized_text bytes.now) }
{
    match u32::try_from(bytes.len()) {
        Ok(length) => {
            put_word(out, length)?;
            out.extend_from_slice(bytes)?;
            Ok(())
        }
        Err(_) => Err(Memory),
    }
}
