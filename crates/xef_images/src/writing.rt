//! The writing of an image's file.

ghost use Rattle.std.specs.Prelude.{◌≡◌, ◌^◌, ◌<◌, ◌++◌, All, IfOk, OnOk, length};
ghost use Rattle.std.specs.List.{flat_map};
ghost use Rattle.xef_images.specs.Image.{contents};
ghost use Rattle.xef_images.specs.Spelling.{before_text, image_head_text, row_text, xef_text};

use crate::segment::Segment;
use crate::xef::{Xef, file_length};
use file_headers::{put_half, put_word};
use md5::{Digest, Md5};
use std::alloc::Global;
use xm_base::Memory;

/// The name of the format, at the beginning of each file.
pub(crate) const MAGIC: [u8; 4] = *b"XMEF";

/// The version that is written and read.
pub(crate) const VERSION: u16 = 1;

/// The one file of an image.
#[tactic(auto, unfolding(crate::specs::Spelling::xef_text))]
pub fn build_xef(alloc: Global, image: &Xef) -> Result<Vec<u8>, Memory>
    // The file of an image is its one spelling.
    ensures { IfOk result (λ file. file.items ≡ xef_text image.now) }
{
    let mut file = before_digest(alloc, image)?;
    let digest = Md5::digest(file.as_slice());
    file.extend_from_slice(&digest)?;
    Ok(file)
}

/// What stands before the digest.
#[tactic(auto, unfolding(crate::specs::Spelling::before_text))]
fn before_digest(alloc: Global, image: &Xef) -> Result<Vec<u8>, Memory>
    ensures { IfOk result (λ bytes. bytes.items ≡ before_text image.now) }
{
    let segments = image.segments();
    let mut bytes = Vec::new(alloc);
    put_head(
        &mut bytes,
        file_length(segments),
        image.entry(),
        segments.len() as u8,
    )?;
    put_rows(&mut bytes, segments)?;
    put_contents(&mut bytes, segments)?;
    Ok(bytes)
}

/// Writes the head of a file.
#[tactic(auto, unfolding(crate::specs::Spelling::image_head_text))]
fn put_head(out: &mut Vec<u8>, length: u32, entry: u32, count: u8) -> Result<(), Memory>
    ensures { OnOk result (out.new.items ≡ out.old.items ++ image_head_text length entry count) }
{
    out.extend_from_slice(&MAGIC)?;
    put_half(out, VERSION)?;
    put_word(out, length)?;
    put_word(out, entry)?;
    out.push(count)?;
    Ok(())
}

/// Writes the rows of all segments.
fn put_rows(out: &mut Vec<u8>, segments: &[Segment]) -> Result<(), Memory>
    requires { All (λ segment. length segment.bytes < 2 ^ 32) segments.now }
    ensures { OnOk result (out.new.items ≡ out.old.items ++ flat_map row_text segments.now) }
{
    for segment in segments {
        put_row(out, segment)?;
    }
    Ok(())
}

/// Writes the row of a segment.
#[tactic(auto, unfolding(crate::specs::Spelling::row_text))]
fn put_row(out: &mut Vec<u8>, segment: &Segment) -> Result<(), Memory>
    requires { length segment.now.bytes < 2 ^ 32 }
    ensures { OnOk result (out.new.items ≡ out.old.items ++ row_text segment.now) }
{
    put_word(out, segment.address)?;
    put_word(out, segment.memory)?;
    put_word(out, segment.bytes.len() as u32)
}

/// Writes the bytes of all segments.
fn put_contents(out: &mut Vec<u8>, segments: &[Segment]) -> Result<(), Memory>
    ensures { OnOk result (out.new.items ≡ out.old.items ++ contents segments.now) }
{
    for segment in segments {
        out.extend_from_slice(&segment.bytes)?;
    }
    Ok(())
}
