//! What is reported of a rule that is broken.

ghost use Rattle.std.specs.Prelude.{◌≡◌};
ghost use Rattle.xm_conf.specs.Along.{head_of, unless as unless_of};
ghost use Rattle.xm_conf.specs.Rules.{alone as alone_of};

use xm_conf::{Broken, Item};

/// An item breaks a rule by itself.
pub(crate) fn alone(rule: u8, item: Item) -> Broken
    ensures { result ≡ alone_of rule item }
{
    Broken {
        rule,
        first: item,
        second: item,
    }
}

/// Where a test fails, the item breaks the rule.
pub(crate) fn unless(holds: bool, rule: u8, item: Item) -> Option<Broken>
    ensures { result ≡ head_of (unless_of holds (alone_of rule item)) }
{
    if holds {
        return None;
    }
    Some(alone(rule, item))
}
