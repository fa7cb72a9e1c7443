//! What is reported of a rule that is broken.

ghost use Rattle.std.specs.Prelude.{◌≡◌, ◌≤◌, ℕ, Bool, length};
ghost use Rattle.std.specs.List.{position_from};
ghost use Rattle.xm_conf.specs.Along.{head_of, unless as unless_of};
ghost use Rattle.xm_conf.specs.Rules.{alone as alone_of, beside as beside_of, broken as broken_of, repeated as repeated_of};

use crate::first::first_of_each;
use crate::item::{Broken, Item};

/// Where a test fails, the item breaks the rule.
pub(super) fn unless(holds: bool, rule: u8, item: Item) -> Option<Broken>
    ensures { result ≡ head_of (unless_of holds (alone_of rule item)) }
{
    unless_by(holds, rule, item, item)
}

/// Where a test fails, the first item breaks the rule by the second.
pub(super) fn unless_by(holds: bool, rule: u8, first: Item, second: Item) -> Option<Broken>
    ensures { result ≡ head_of (unless_of holds (broken_of rule first second)) }
{
    if holds {
        return None;
    }
    Some(Broken {
        rule,
        first,
        second,
    })
}

/// Where there is an earlier item, the later one breaks the rule by it.
pub(super) fn beside(rule: u8, later: Item, earlier: Option<Item>) -> Option<Broken>
    ensures { result ≡ head_of (beside_of rule later earlier) }
{
    match earlier {
        Some(earlier) => Some(Broken {
            rule,
            first: later,
            second: earlier,
        }),
        None => None,
    }
}

/// The number of the first item that clashes with this one.
fn first_clash<T, S: Fn(&T, &T) -> bool>(before: &[T], item: &T, clash: S) -> Option<u8>
    requires few { length before.now ≤ 255 }
    requires clashes { S.IsAlwaysCallable clash }
    ensures { (clash_of : T → T → Bool) → ((a : _) (b : _) (clashes : Bool) → S.post clash a b clashes → clashes ≡ clash_of a.now b.now) → result ≡ position_from (λ earlier. clash_of earlier item.now) 0 before.now }
{
    first_of_each(
        before,
        |n, earlier| if clash(earlier, item) { Some(n) } else { None },
    )
}

/// An item that clashes with an earlier one breaks the rule by the first such.
pub fn repeated<T, S: Fn(&T, &T) -> bool, N: Fn(u8) -> Item>(
    rule: u8,
    before: &[T],
    item: &T,
    clash: S,
    numbered: N,
) -> Option<Broken>
    // Called with at most 255 items before it, with a test that may be called of any two items, and with a name for
    // each number.
    requires few { length before.now ≤ 255 }
    requires clashes { S.IsAlwaysCallable clash }
    requires numbers { N.IsAlwaysCallable numbered }
    ensures { (clash_of : T → T → Bool) (item_of : ℕ → Item) → ((a : _) (b : _) (clashes : Bool) → S.post clash a b clashes → clashes ≡ clash_of a.now b.now) → ((n : ℕ) (it : Item) → N.post numbered n it → it ≡ item_of n) → result ≡ head_of (repeated_of rule item_of clash_of before.now item.now) }
{
    let later = numbered(before.len() as u8);
    match first_clash(before, item, clash) {
        Some(n) => beside(rule, later, Some(numbered(n))),
        None => None,
    }
}
