//! The lines that describe an image's file.

ghost use Rattle.std.specs.Prelude.{◌≡◌, ◌++◌, ◌-◌, IfOk, OnOk, length};
ghost use Rattle.std.specs.List.{flat_map};
ghost use Rattle.xef_images.specs.Spelling.{xef_text};
ghost use Rattle.xef_images.specs.Texts.{digest_line, entry_line, segment_line, xef_lines};

use crate::segment::Segment;
use crate::xef::Xef;
use fault_messages::{put_address, put_digest, put_number};
use file_headers::stored_digest;
use std::alloc::Global;
use xm_base::Memory;

/// The lines that describe the file of an image: its entry, its segments, and the digest that stands
/// at its end.
#[tactic(auto, unfolding(crate::specs::Texts::xef_lines))]
pub fn describe(alloc: Global, bytes: &[u8], image: &Xef) -> Result<Vec<u8>, Memory>
    // Called with the file of the image.
    requires { bytes.now ≡ xef_text image.now }
    // The lines that describe an image's file.
    ensures { IfOk result (λ lines. lines.items ≡ xef_lines image.now) }
{
    let mut lines = Vec::new(alloc);
    put_entry(&mut lines, image.entry())?;
    put_segments(alloc, &mut lines, image.segments())?;
    put_digest_line(&mut lines, stored_digest(bytes))?;
    Ok(lines)
}

/// Writes the line of the entry.
#[tactic(auto, unfolding(crate::specs::Texts::entry_line))]
fn put_entry(lines: &mut Vec<u8>, entry: u32) -> Result<(), Memory>
    ensures { OnOk result (lines.new.items ≡ lines.old.items ++ entry_line entry) }
{
    put_address(lines, b"entry=", entry)?;
    lines.extend_from_slice(b"\n")?;
    Ok(())
}

/// Writes the lines of all segments.
fn put_segments(alloc: Global, lines: &mut Vec<u8>, segments: &[Segment]) -> Result<(), Memory>
    ensures { OnOk result (lines.new.items ≡ lines.old.items ++ flat_map segment_line segments.now) }
{
    for segment in segments {
        put_segment(alloc, lines, segment)?;
    }
    Ok(())
}

/// Writes the line of a segment.
#[tactic(auto, unfolding(crate::specs::Texts::segment_line))]
fn put_segment(alloc: Global, lines: &mut Vec<u8>, segment: &Segment) -> Result<(), Memory>
    ensures { OnOk result (lines.new.items ≡ lines.old.items ++ segment_line segment.now) }
{
    put_address(lines, b"segment address=", segment.address)?;
    put_number(alloc, lines, b" memory=", segment.memory as usize)?;
    put_number(alloc, lines, b" file=", segment.count())?;
    lines.extend_from_slice(b"\n")?;
    Ok(())
}

/// Writes the line of the digest.
#[tactic(auto, unfolding(crate::specs::Texts::digest_line))]
fn put_digest_line(lines: &mut Vec<u8>, digest: &[u8]) -> Result<(), Memory>
    requires { length digest.now ≡ 16 }
    ensures { OnOk result (lines.new.items ≡ lines.old.items ++ digest_line digest.now) }
{
    put_digest(lines, b"md5=", digest)?;
    lines.extend_from_slice(b"\n")?;
    Ok(())
}
