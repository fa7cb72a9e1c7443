//! The laws of the binary form.

ghost use Rattle.bin_config.specs.Laws.{
  CutIsShort,
  IsPrefixFree,
  FitsItsLength,
  MoreIsTrailing,
  OtherIsRefused,
  ReadIsSpelled,
  SpelledIsRead,
  UpgradedIsSame,
};

use xm_conf::broken_unless_fits;

/// What is read of bytes is what they spell: no two files are read as the same configuration.
pub fn read_is_spelled()
    // Law: what is read of bytes is what they spell in a version, and meets its rules.
    ensures law { ReadIsSpelled }
{
    broken_unless_fits();
}

/// A configuration that meets the rules is read of its spelling.
pub fn spelled_is_read()
    ensures law { SpelledIsRead }
{
    broken_unless_fits();
}

/// What is read of bytes of either version is read of its spelling in version 2.
pub fn upgraded_is_same()
    ensures law { UpgradedIsSame }
{
    read_is_spelled();
    spelled_is_read();
}

/// A spelling in another version than the one that is wanted is refused by its version.
pub fn other_is_refused()
    // Law: where one version is asked for, a spelling in the other is refused by its version.
    ensures law { OtherIsRefused }
{}

/// Nothing is read of a spelling with something after it.
pub fn more_is_trailing()
    // Law: nothing is read of a spelling with something after it.
    ensures law { MoreIsTrailing }
{}

/// A spelling that is cut after its length field is short where it ends.
pub fn cut_is_short()
    // Law: a spelling that is cut is short where it ends.
    ensures law { CutIsShort }
{}

/// No spelling is a proper prefix of another, of whichever versions they are.
pub fn prefix_free()
    // Law: no spelling, of either version, is a prefix of another.
    ensures law { IsPrefixFree }
{}

/// The length of a spelling fits its field.
pub fn spelling_is_short()
    // Law: the length of a spelling is one that its field holds.
    ensures law { FitsItsLength }
{}
