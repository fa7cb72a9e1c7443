//! Which partitions have images, by their numbers.

ghost use Rattle.std.specs.Prelude.{◌≡◌, ◌≤◌, ◌<◌, All, IsNone};
ghost use Rattle.xm_conf.specs.Limits.{most_parts};
ghost use Rattle.xm_container.specs.Numbers.{extra as extra_of, has_id, missing as missing_of};

/// Whether a number is among these.
#[tactic(auto, unfolding(crate::specs::Numbers::has_id))]
fn has_id(ids: &[u8], id: u8) -> bool
    ensures { result ≡ has_id ids.now id }
{
    ids.iter().any(|other| *other == id)
}

/// The smallest of these numbers that is no partition's.
pub(crate) fn extra(parts: usize, ids: &[u8]) -> Option<u8>
    requires { parts ≤ most_parts }
    ensures value { result ≡ extra_of parts ids.now }
    ensures below { IsNone result → All (λ id. id < parts) ids.now }
{
    for id in parts..256 {
        if has_id(ids, id as u8) {
            return Some(id as u8);
        }
    }
    None
}

/// The smallest number of a partition that is none of these.
pub(crate) fn missing(parts: usize, ids: &[u8]) -> Option<u8>
    requires { parts ≤ most_parts }
    ensures { result ≡ missing_of parts ids.now }
{
    for id in 0..parts {
        if !has_id(ids, id as u8) {
            return Some(id as u8);
        }
    }
    None
}
