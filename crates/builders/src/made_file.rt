//! The files that are made of a file.

ghost use Rattle.std.specs.Prelude.{◌≡◌, ◌<◌, ◌^◌, IfOk, Ok, length};
ghost use Rattle.bin_config.specs.Reading.{read_of};
ghost use Rattle.builders.specs.MadeFile.{made_file};
ghost use Rattle.builders.specs.Makes.{Makes};
ghost use Rattle.builders.specs.Parsing.{upgraded_of};

use crate::imaging::make_xef;
use crate::parsing::make_xmc;
use crate::unmade::Unmade;
use crate::upgrading::make_upgraded;
use std::alloc::Global;

/// A file that is made of a file.
#[derive(Clone, Copy, Debug, PartialEq, Eq)]
pub enum MadeFile {
    /// The binary configuration of a system description.
    Configuration,
    /// The binary configuration of a file of either version, in version 2.
    Upgraded,
    /// The image of a program.
    Image,
}

/// The bytes of the file that is made of a file.
pub fn make_file(alloc: Global, what: MadeFile, bytes: &[u8]) -> Result<Vec<u8>, Unmade>
    // Called with a description of fewer than 2^32 bytes.
    requires { what ≡ MadeFile.Configuration → length bytes.now < 2 ^ 32 }
    // The binary configuration of a description, the configuration of a binary one of either version, in version 2, or
    // the image of a program; or the text of the first fault, or of the first rule that a description breaks.
    ensures exact { Makes result (made_file what bytes.now) }
    // What is read of the upgraded file is what is read of the file that was given.
    ensures same { what ≡ MadeFile.Upgraded → IfOk result (λ out. read_of out.items ≡ read_of bytes.now) }
    // An upgrade of the upgraded file gives the same bytes.
    ensures once { what ≡ MadeFile.Upgraded → IfOk result (λ out. upgraded_of out.items ≡ Ok out.items) }
{
    match what {
        MadeFile::Configuration => make_xmc(alloc, bytes),
        MadeFile::Upgraded => make_upgraded(alloc, bytes),
        MadeFile::Image => make_xef(alloc, bytes),
    }
}
