//! An image for a partition.

use xef_images::Xef;

/// The image of a partition, by the partition's number.
#[derive(Debug, Drop)]
pub struct Image {
    /// The partition's number.
    pub id: u8,
    /// What is loaded.
    pub xef: Xef,
}
