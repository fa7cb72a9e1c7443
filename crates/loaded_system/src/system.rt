//! A system that can be loaded.

ghost use Rattle.std.specs.Prelude.{◌≡◌, ◌↔◌, ◌<◌, ◌≤◌, IfErr, IfOk, IsOk, Some, length, slice_get};
ghost use Rattle.loaded_system.specs.Inside.{first_outside as first_outside_of};
ghost use Rattle.loaded_system.specs.System.{AreInside, IsSystem};
ghost use Rattle.xm_conf.specs.Description.{described};
ghost use Rattle.xm_conf.specs.Fits.{Fits};
ghost use Rattle.xm_conf.specs.Limits.{most_parts};

use crate::inside::first_outside;
use std::marker::Model;
use xef_images::Xef;
use xm_conf::{Conf, Part};

/// A segment that lies inside no area of its partition.
#[derive(Clone, Copy, Debug, PartialEq, Eq)]
pub struct Outside {
    /// The partition's number.
    pub id: u8,
    /// Where the segment begins.
    pub address: u32,
}

/// A configuration, and an image for each of its partitions. Each segment of an image lies inside one area
/// of its partition.
#[derive(Debug, Drop)]
pub struct System {
    conf: Conf,
    images: Vec<Xef>,
}

impl Model for System {
    ghost use Rattle.loaded_system.specs.System.{System as Meaning, IsSystem};

    ghost Value = { Meaning };

    ghost view = { λ system. record { conf = system.conf; images = system.images.items } };

    ghost invariant = { λ system. IsSystem record { conf = system.conf; images = system.images.items } };
}

impl System {
    /// The system of a configuration and an image for each of its partitions, in the order of their numbers.
    pub fn new(conf: Conf, images: Vec<Xef>) -> Result<System, Outside>
        // Called with an image for each partition.
        requires { length images.items ≡ length conf.parts }
        // The system of a configuration and its images comes exactly where every segment lies inside one area of its
        // partition; else the first segment that does not is reported.
        ensures value { IfOk result (λ system. system ≡ record { conf = conf; images = images.items }) }
        ensures inside { IsOk result ↔ AreInside conf.parts images.items }
        ensures outside { IfErr result (λ outside. first_outside_of conf.parts images.items ≡ Some outside) }
    {
        match first_outside(parts(&conf), &images) {
            Some(outside) => Err(outside),
            None => Ok(System { conf, images }),
        }
    }

    /// Its configuration.
    pub fn conf(&self) -> &Conf
        // The configuration.
        ensures value { result.now ≡ self.now.conf }
        // Each segment of each image lies inside one area of its partition.
        ensures system { IsSystem self.now }
    {
        &self.conf
    }

    /// The image of a partition.
    pub fn image(&self, id: u8) -> &Xef
        // Called for a partition that exists.
        requires { id < length self.now.conf.parts }
        // The image of the partition.
        ensures value { slice_get self.now.images id ≡ Some result.now }
        // Each segment of each image lies inside one area of its partition.
        ensures system { IsSystem self.now }
    {
        &self.images[usize::from(id)]
    }
}

/// The partitions of a configuration.
#[tactic(auto, unfolding(xm_conf::specs::Description::described))]
pub fn parts(conf: &Conf) -> &[Part]
    // The partitions of a configuration: no more than the limit, and the configuration meets the rules.
    ensures value { result.now ≡ conf.now.parts }
    ensures few { length result.now ≤ most_parts }
    ensures fits { Fits (described conf.now) }
{
    &conf.raw().parts
}
