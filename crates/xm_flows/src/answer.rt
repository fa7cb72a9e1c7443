//! What is found of a partition's group.

ghost use Rattle.std.specs.Prelude.{◌≡◌};
ghost use Rattle.xm_flows.specs.Masks.{members_of};

use crate::mask::is_member;
use xm_base::PartId;

/// The group of a partition.
#[derive(Clone, Copy, Debug, PartialEq, Eq)]
pub struct Group {
    /// The members: bit p is set where partition p is one.
    pub members: u32,
    /// Whether the laws on closed sets speak of the members: none of them is a system partition.
    pub covered: bool,
}

impl Group {
    /// Whether a partition is a member.
    pub fn has(self, p: PartId) -> bool
        // Whether the partition's bit is set.
        ensures { result ≡ members_of self.members p }
    {
        is_member(self.members, p)
    }
}
