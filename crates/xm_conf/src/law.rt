//! The law of the rules, over all descriptions.

ghost use Rattle.xm_conf.specs.Laws.{IsBrokenUnlessFits};

/// A description breaks no rule exactly where it meets each of them.
pub fn broken_unless_fits()
    // Law: no rule is broken exactly where the rules are met, whatever the limit of partitions.
    ensures law { IsBrokenUnlessFits }
{}
