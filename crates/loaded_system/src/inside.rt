//! Which segments lie inside the areas of their partition.

ghost use Rattle.std.specs.Prelude.{◌≡◌, ◌≤◌, All, IsNone, length};
ghost use Rattle.xm_conf.specs.Limits.{most_parts};
ghost use Rattle.loaded_system.specs.Inside.{first_outside as first_outside_of, has_segment, is_inside, outside_in};
ghost use Rattle.xef_images.specs.Image.{IsImage};

use crate::system::Outside;
use xef_images::{Segment, Xef};
use xm_conf::{Area, Part};

/// Whether an area has all addresses of a segment.
#[tactic(auto, unfolding(crate::specs::Inside::has_segment))]
fn has_segment(segment: &Segment, area: &Area) -> bool
    ensures { result ≡ has_segment segment.now area.now }
{
    let end = u64::from(segment.address) + u64::from(segment.memory);
    area.start <= segment.address && end <= u64::from(area.start) + u64::from(area.size)
}

/// Whether a segment lies inside one of these areas.
#[tactic(auto, unfolding(crate::specs::Inside::is_inside))]
fn is_inside(areas: &[Area], segment: &Segment) -> bool
    ensures { result ≡ is_inside areas.now segment.now }
{
    areas.iter().any(|area| has_segment(segment, area))
}

/// The address of the first segment that lies inside none of these areas.
fn outside_in(areas: &[Area], segments: &[Segment]) -> Option<u32>
    ensures { result ≡ outside_in areas.now segments.now }
{
    for segment in segments {
        if !is_inside(areas, segment) {
            return Some(segment.address);
        }
    }
    None
}

/// The address of the first segment of an image that lies inside no area of its partition.
pub fn outside_of(part: &Part, image: &Xef) -> Option<u32>
    // The address of the first segment of an image that lies inside no area of its partition; none where each lies
    // inside one.
    ensures value { result ≡ outside_in part.now.areas image.now.segments }
    ensures image { IsImage image.now }
{
    outside_in(&part.areas, image.segments())
}

/// The first segment of the images that lies inside no area of its partition.
pub(crate) fn first_outside(parts: &[Part], images: &[Xef]) -> Option<Outside>
    requires counted { length images.now ≡ length parts.now }
    requires few { length parts.now ≤ most_parts }
    ensures value { result ≡ first_outside_of parts.now images.now }
    ensures images { IsNone result → All IsImage images.now }
{
    for id in 0..images.len() {
        if let Some(address) = outside_of(&parts[id], &images[id]) {
            return Some(Outside {
                id: id as u8,
                address,
            });
        }
    }
    None
}
