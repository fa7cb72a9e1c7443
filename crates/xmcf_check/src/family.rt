//! The entries that stand within an entry, and among them its children and theirs.

ghost use Rattle.std.specs.Prelude.{◌≡◌, ◌<◌, ◌≤◌, ◌==◌, IfOk, Option, length, nat_le, slice_get};
ghost use Rattle.std.specs.List.{prefix_len};
ghost use Rattle.xmcf_check.specs.Described.{among, first_among, is_child, with_grandparent, with_parent};
ghost use Rattle.xmcf_check.specs.lemmas.Families.{within};

use std::alloc::Global;
use xm_base::Memory;
use xmcf_reader::{Element, Entry};

/// Whether an entry has its parent not before the entry of a number.
fn is_inside(entry: &Entry, number: usize) -> bool
    ensures { result ≡ nat_le number entry.now.parent }
{
    number <= entry.parent as usize
}

/// How many entries come before the first with its parent before the entry of a number.
fn count_inside(entries: &[Entry], number: usize) -> usize
    ensures count { result ≡ prefix_len (λ entry. nat_le number entry.parent) entries.now }
    ensures bound { result ≤ length entries.now }
{
    entries
        .iter()
        .take_while(|entry| is_inside(entry, number))
        .count()
}

/// The entries within the entry of a number.
#[tactic(auto, unfolding(crate::specs::lemmas::Families::within))]
pub(crate) fn within(entries: &[Entry], number: usize) -> &[Entry]
    requires { number < length entries.now }
    ensures { result.now ≡ within number entries.now }
{
    let (_, following) = entries.split_at(number + 1);
    let (inside, _) = following.split_at(count_inside(following, number));
    inside
}

/// Whether an entry is a child of the entry of a number.
pub(crate) fn is_child(entry: &Entry, number: usize) -> bool
    ensures { result ≡ (entry.now.parent == number) }
{
    entry.parent as usize == number
}

/// Whether an entry is a child of a child of the entry of a number.
pub(crate) fn is_grandchild(entries: &[Entry], entry: &Entry, number: usize) -> bool
    ensures { result ≡ is_child number (slice_get entries.now entry.now.parent) }
{
    match entries.get(entry.parent as usize) {
        Some(parent) => is_child(parent, number),
        None => false,
    }
}

/// What is picked of the first child of the entry of a number of which something is picked.
pub(crate) fn first_of_children<T: Copy, P: Fn(&Element) -> Option<T>>(
    inside: &[Entry],
    number: usize,
    pick: P,
) -> Option<T>
    requires { P.IsAlwaysCallable pick }
    ensures { (picks : Element → Option T) → ((element : _) (found : Option T) → P.post pick element found → found ≡ picks element.now) → result ≡ first_among picks (with_parent number inside.now) }
{
    for entry in inside {
        if is_child(entry, number) {
            if let Some(found) = pick(&entry.what) {
                return Some(found);
            }
        }
    }
    None
}

/// What is picked of the children of children of the entry of a number, in their order.
pub(crate) fn all_of_grandchildren<T: Copy, P: Fn(&Element) -> Option<T>>(
    alloc: Global,
    entries: &[Entry],
    inside: &[Entry],
    number: usize,
    pick: P,
) -> Result<Vec<T>, Memory>
    requires { P.IsAlwaysCallable pick }
    ensures { IfOk result (λ all. (picks : Element → Option T) → ((element : _) (found : Option T) → P.post pick element found → found ≡ picks element.now) → all.items ≡ among picks (with_grandparent entries.now number inside.now)) }
{
    let mut all = Vec::new(alloc);
    for entry in inside {
        if is_grandchild(entries, entry, number) {
            if let Some(found) = pick(&entry.what) {
                all.push(found)?;
            }
        }
    }
    Ok(all)
}
