//! Laws on the files of images.

ghost use Rattle.xef_images.specs.Laws.{LengthIsStated, ImagesArePrefixFree, WrittenImageIsRead};

/// An image that was written is read back.
pub fn written_is_read()
    // Law: what is written is read.
    ensures { WrittenImageIsRead }
{}

/// No file of an image is a proper prefix of the file of another.
pub fn none_goes_on()
    // No file is a prefix of another.
    ensures { ImagesArePrefixFree }
{}

/// The length in the head of a file is the file's.
pub fn length_is_stated()
    // A file has its length in it.
    ensures { LengthIsStated }
{}
