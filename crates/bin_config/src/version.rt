//! The two versions of the binary form.

ghost use Rattle.std.specs.Prelude.{◌≡◌, ◌≤◌};
ghost use Rattle.bin_config.specs.Version as specs;
ghost use Rattle.xm_conf.specs.Limits.{most_parts};

use xm_conf::{PARTS, PARTS_1};

/// A version of the binary form.
#[derive(Clone, Copy, Debug, PartialEq, Eq)]
pub enum Version {
    /// Without links, and with fewer partitions.
    One,
    /// With all that a configuration may have.
    Two,
}

impl Version {
    /// The number that a file has.
    pub fn number(self) -> u16
        // The number of the version.
        ensures { result ≡ specs.version_number self }
    {
        match self {
            Version::One => 1,
            Version::Two => 2,
        }
    }

    /// How many partitions a configuration may have.
    pub fn parts(self) -> u8
        // How many partitions a configuration of this version may have.
        ensures value { result ≡ specs.parts_in_version self }
        // It is no more than the limit.
        ensures few { result ≤ most_parts }
    {
        match self {
            Version::One => PARTS_1,
            Version::Two => PARTS,
        }
    }

    /// The version of a number, or `None` where it is none.
    pub fn numbered(number: u16) -> Option<Version>
        // The version of the number, and none where there is none.
        ensures { result ≡ specs.version_numbered number }
    {
        if number == 1 {
            return Some(Version::One);
        }
        if number == 2 {
            return Some(Version::Two);
        }
        None
    }

    /// The version of a number, where it is the one that is wanted, or where either is.
    pub(crate) fn wanted(wanted: Option<Version>, number: u16) -> Option<Version>
        ensures { result ≡ specs.wanted wanted number }
    {
        match wanted {
            Some(version) => {
                if number == version.number() {
                    return Some(version);
                }
                None
            }
            None => Version::numbered(number),
        }
    }
}
