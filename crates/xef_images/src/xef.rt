//! An image that may be loaded.

ghost use Rattle.std.specs.Prelude.{◌≡◌, ◌+◌, ◌^◌, ◌<◌, ◌↔◌, IsNone, IfSome, length, nat_le};
ghost use Rattle.xef_images.specs.Image.{IsImage, xef_length};
ghost use Rattle.xef_images.specs.lemmas.TestsTerms.{are_placed, is_image};
ghost use Rattle.xef_images.specs.Tests.{is_entry, is_in_memory};

use crate::segment::Segment;
use std::marker::Model;

/// What stands in a partition's memory when it starts, and where it starts: 1 to 8 segments that
/// rise and are disjoint, and an entry in one of them.
#[derive(Debug, Drop)]
pub struct Xef {
    pub(crate) entry: u32,
    pub(crate) segments: Vec<Segment>,
}

impl Model for Xef {
    ghost use Rattle.xef_images.specs.Image.{Image, IsImage};

    ghost Value = { Image };

    ghost view = { λ xef. record { entry = xef.entry; segments = xef.segments.items } };

    ghost invariant = { λ xef. IsImage record { entry = xef.entry; segments = xef.segments.items } };
}

impl Xef {
    /// The image with this entry and these segments, or `None` where they make none.
    pub fn new(entry: u32, segments: Vec<Segment>) -> Option<Xef>
        // The image has the segments and the entry that were handed in.
        ensures value { IfSome result (λ xef. xef ≡ record { entry = entry; segments = segments.items }) }
        // None exactly where the segments or the entry break a rule, or its file would be too long.
        ensures refused { IsNone result ↔ ¬ (IsImage record { entry = entry; segments = segments.items }) }
    {
        if !is_image(entry, &segments) {
            return None;
        }
        Some(Xef { entry, segments })
    }

    /// The address where it starts.
    pub fn entry(&self) -> u32
        // The address where it starts.
        ensures value { result ≡ self.now.entry }
        // The image keeps the rules.
        ensures image { IsImage self.now }
    {
        self.entry
    }

    /// Its segments, by rising addresses.
    pub fn segments(&self) -> &[Segment]
        // Its segments, by rising addresses.
        ensures value { result.now ≡ self.now.segments }
        // The image keeps the rules.
        ensures image { IsImage self.now }
    {
        &self.segments
    }
}

/// Whether an image may have this entry and these segments.
fn is_image(entry: u32, segments: &[Segment]) -> bool
    ensures { result ≡ is_image record { entry = entry; segments = segments.now } }
{
    let count = segments.len();
    1 <= count
        && count <= SEGMENTS
        && are_placed(segments)
        && is_entry(entry, segments)
        && fits(segments, MOST_BYTES)
}

/// The most segments that an image has.
pub(crate) const SEGMENTS: usize = 8;

/// The length of the longest file whose length a word can say.
const MOST_BYTES: usize = 0xffff_ffff;

/// Whether the segments may stand one after the other.
fn are_placed(segments: &[Segment]) -> bool
    ensures { result ≡ are_placed 0 segments.now }
{
    let mut floor = 0;
    for segment in segments {
        if !segment.is_placed(floor) {
            return false;
        }
        floor = segment.end();
    }
    true
}

/// Whether an image may start at the address.
pub(crate) fn is_entry(address: u32, segments: &[Segment]) -> bool
    ensures { result ≡ is_entry address segments.now }
{
    address % 4 == 0 && is_inside(address, segments)
}

/// Whether the address is in the memory of one of the segments.
fn is_inside(address: u32, segments: &[Segment]) -> bool
    ensures { result ≡ is_in_memory address segments.now }
{
    segments.iter().any(|segment| segment.covers(address))
}

/// Whether a file with these segments has at most this many bytes.
pub(crate) fn fits(segments: &[Segment], most: usize) -> bool
    ensures { result ≡ nat_le (xef_length segments.now) most }
{
    if most < 31 {
        return false;
    }
    let mut room = most - 31;
    for segment in segments {
        if room < 12 || room - 12 < segment.bytes.len() {
            return false;
        }
        room -= 12 + segment.bytes.len();
    }
    true
}

/// The length of the file with these segments.
pub(crate) fn file_length(segments: &[Segment]) -> u32
    requires { xef_length segments.now < 2 ^ 32 }
    ensures { result ≡ xef_length segments.now }
{
    let mut length = 31;
    for segment in segments {
        length += 12 + segment.bytes.len() as u32;
    }
    length
}
