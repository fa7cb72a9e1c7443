//! Sets of partitions as the bits of a word.

ghost use Rattle.std.specs.Prelude.{◌≡◌, ◌<◌, ◌≤◌, ◌&&◌, All, length};
ghost use Rattle.xm_flows.specs.Groups.{has_dest_in};
ghost use Rattle.xm_flows.specs.Masks.{has_no_system as has_no_system_from, members_of, with_ends, with_member};

use xm_base::PartId;
use xm_conf::{End, Part};

/// Whether a partition is in a mask.
#[tactic(auto, using(crate::proofs::MaskLemmas::bit_tested, crate::proofs::MaskLemmas::bit_above), unfolding(crate::specs::Masks::members_of))]
pub(crate) fn is_member(mask: u32, p: PartId) -> bool
    ensures { result ≡ members_of mask p }
{
    p < 32 && mask >> p & 1 == 1
}

/// The mask with a partition.
#[tactic(auto, unfolding(crate::specs::Masks::with_member))]
pub(crate) fn with_member(mask: u32, p: PartId) -> u32
    requires { p < 32 }
    ensures { result ≡ with_member mask p }
{
    mask | 1 << p
}

/// Whether a destination is in a mask.
pub(crate) fn has_dest(mask: u32, dests: &[End]) -> bool
    ensures { result ≡ has_dest_in (members_of mask) dests.now }
{
    dests.iter().any(|end| is_member(mask, end.part))
}

/// The mask with the partitions of these ends.
pub(crate) fn with_ends(mask: u32, ends: &[End]) -> u32
    requires { All (λ end. end.part < 32) ends.now }
    ensures { result ≡ with_ends mask ends.now }
{
    let mut joined = mask;
    for end in ends {
        joined = with_member(joined, end.part);
    }
    joined
}

/// Whether a partition is a system partition and in a mask.
fn is_system_member(mask: u32, p: PartId, part: &Part) -> bool
    ensures { result ≡ (part.now.system && members_of mask p) }
{
    part.system && is_member(mask, p)
}

/// Whether no partition in a mask is a system partition.
pub(crate) fn has_no_system(mask: u32, parts: &[Part]) -> bool
    requires { length parts.now ≤ 32 }
    ensures { result ≡ has_no_system_from mask 0 parts.now }
{
    for (p, part) in parts.iter().enumerate() {
        if is_system_member(mask, p as u8, part) {
            return false;
        }
    }
    true
}
