//! The laws of containers.

ghost use Rattle.xm_container.specs.Laws.{ContainersArePrefixFree, PackedIsUnpacked, UnpackedIsPacked, VersionsAreAlike};

use xm_conf::broken_unless_fits;

/// No container is a proper prefix of another.
pub fn none_goes_on()
    // No container, of either version, is a prefix of another.
    ensures law { ContainersArePrefixFree }
{}

/// A system is unpacked from its container.
pub fn packed_is_unpacked()
    // Law: what is packed is unpacked.
    ensures law { PackedIsUnpacked }
{
    broken_unless_fits();
}

/// A system is unpacked from its container of version 1 as from that of version 2.
pub fn versions_are_alike()
    // Law: a system that has a container of version 1 is unpacked from it as from its container of version 2, unless
    // the latter's length is 2^32 or more.
    ensures law { VersionsAreAlike }
{
    packed_is_unpacked();
}

/// The system that is unpacked is the one whose container the bytes are.
pub fn unpacked_is_packed()
    // What is unpacked is what was packed.
    ensures law { UnpackedIsPacked }
{
    broken_unless_fits();
}
