//! The images of a container.

use std::marker::Model;
use xef_images::Xef;

/// Images with the numbers of their partitions, in the order in which they stand.
#[derive(Debug, Drop)]
pub(crate) struct Entries {
    pub(crate) ids: Vec<u8>,
    pub(crate) images: Vec<Xef>,
}

impl Model for Entries {
    ghost use Rattle.xm_container.specs.Entries.{Entries as Meaning};

    ghost Value = { Meaning };

    ghost view = { λ entries. record { ids = entries.ids.items; images = entries.images.items } };
}
