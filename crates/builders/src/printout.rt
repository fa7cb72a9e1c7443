//! What is reported of a file.

ghost use Rattle.std.specs.Prelude.{◌<◌, ◌^◌, length};
ghost use Rattle.builders.specs.Makes.{Makes};
ghost use Rattle.builders.specs.Printout.{printout_text};

use crate::grouping::groups;
use crate::imaging::{container_lines, container_verdict, image_lines};
use crate::planning::{plan_lines, verdicts};
use crate::steering::steering;
use crate::unmade::Unmade;
use std::alloc::Global;

/// What is reported of a file.
#[derive(Clone, Copy, Debug, PartialEq, Eq)]
pub enum Printout {
    /// The image.
    Image,
    /// The container.
    Container,
    /// That it is a container.
    Verdict,
    /// The plan that the requirements of a system description make.
    Plan,
    /// How its own plan stands to them.
    Verdicts,
    /// The group of each partition of a system description.
    Groups,
    /// The group of each partition, and by what each may steer others.
    Steering,
}

/// The text that is printed of a file.
pub fn printout_text(alloc: Global, what: Printout, bytes: &[u8]) -> Result<Vec<u8>, Unmade>
    // Called with fewer than 2^32 bytes.
    requires { length bytes.now < 2 ^ 32 }
    // What is printed of an image, of a container, of a container that is only checked, of the plan that a
    // description's requirements make, of its own plan, of its groups, and of these and of who may steer others; or the
    // text of the first fault.
    ensures { Makes result (printout_text what bytes.now) }
{
    match what {
        Printout::Image => image_lines(alloc, bytes),
        Printout::Container => container_lines(alloc, bytes),
        Printout::Verdict => container_verdict(alloc, bytes),
        Printout::Plan => plan_lines(alloc, bytes),
        Printout::Verdicts => verdicts(alloc, bytes),
        Printout::Groups => groups(alloc, bytes),
        Printout::Steering => steering(alloc, bytes),
    }
}
