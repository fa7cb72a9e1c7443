//! The place of each item in the text.

ghost use Rattle.std.specs.Prelude.{◌≡◌, filter, flat_map, length};
ghost use Rattle.xm_conf.specs.Health.{events};
ghost use Rattle.xmcf_reader.specs.Drafts.{after_root};
ghost use Rattle.xmcf_check.specs.Places.{child_items, end_place, event_items, grandchild_items, is_item, items, number_nth, place_nth, place_of};

use crate::sorts::{Owner, Sort, is_item, is_of};
use xm_conf::{EVENTS, Event, Item};
use xmcf_reader::{Draft, Entry};

/// The entries after the first.
fn after_root(entries: &[Entry]) -> &[Entry]
    ensures { result.now ≡ after_root entries.now }
{
    match entries.split_first() {
        Some((_, following)) => following,
        None => entries,
    }
}

/// The place of the n-th of some entries that is of a sort and belongs to an owner among all, or 0.
#[tactic(auto, unfolding(crate::specs::Places::place_nth))]
fn nth_among(all: &[Entry], entries: &[Entry], sort: Sort, owner: Owner, n: usize) -> usize
    ensures { result ≡ place_nth n (filter (is_item all.now sort owner) entries.now) }
{
    let mut left = n;
    for entry in entries {
        if is_item(all, sort, owner, entry) {
            if left == 0 {
                return entry.at;
            }
            left -= 1;
        }
    }
    0
}

/// The place of the n-th item of a sort that belongs to an owner, or 0.
fn nth(entries: &[Entry], sort: Sort, owner: Owner, n: usize) -> usize
    ensures { result ≡ place_nth n (items entries.now sort owner) }
{
    nth_among(entries, after_root(entries), sort, owner, n)
}

/// The number of the n-th entry of a sort.
#[tactic(auto, unfolding(crate::specs::Places::number_nth))]
fn number_nth(entries: &[Entry], sort: Sort, n: usize) -> Option<usize>
    ensures { result ≡ number_nth entries.now sort n }
{
    let mut left = n;
    for (number, entry) in entries.iter().enumerate() {
        if is_of(sort, &entry.what) {
            if left == 0 {
                return Some(number);
            }
            left -= 1;
        }
    }
    None
}

/// The place of the n-th child of a sort of an entry, or 0.
#[tactic(auto, unfolding(crate::specs::Places::place_nth))]
fn nth_child(entries: &[Entry], sort: Sort, parent: Option<usize>, n: usize) -> usize
    ensures { result ≡ place_nth n (child_items entries.now sort parent) }
{
    match parent {
        Some(number) => nth(entries, sort, Owner::Parent(number), n),
        None => 0,
    }
}

/// The place of the n-th child of a sort of an entry's children, or 0.
#[tactic(auto, unfolding(crate::specs::Places::place_nth))]
fn nth_grandchild(entries: &[Entry], sort: Sort, parent: Option<usize>, n: usize) -> usize
    ensures { result ≡ place_nth n (grandchild_items entries.now sort parent) }
{
    match parent {
        Some(number) => nth(entries, sort, Owner::Grandparent(number), n),
        None => 0,
    }
}

/// The place of the end of a channel, or 0.
#[tactic(auto, unfolding(crate::specs::Places::end_place))]
fn end_place(entries: &[Entry], chan: Option<usize>, n: usize) -> usize
    ensures { result ≡ end_place entries.now chan n }
{
    if n == 0 {
        nth_child(entries, Sort::Source, chan, 0)
    } else {
        nth_child(entries, Sort::Dest, chan, n - 1)
    }
}

/// How many of some entries are of a sort and belong to an owner among all.
fn count_among(all: &[Entry], entries: &[Entry], sort: Sort, owner: Owner) -> usize
    ensures { result ≡ length (filter (is_item all.now sort owner) entries.now) }
{
    entries
        .iter()
        .filter(|entry| is_item(all, sort, owner, entry))
        .count()
}

/// How many children of a sort an entry's children have.
fn count(entries: &[Entry], sort: Sort, parent: Option<usize>) -> usize
    ensures { result ≡ length (grandchild_items entries.now sort parent) }
{
    match parent {
        Some(number) => count_among(
            entries,
            after_root(entries),
            sort,
            Owner::Grandparent(number),
        ),
        None => 0,
    }
}

/// The place of the n-th answer of a partition to these events, in their order and then in that of the text, or 0.
fn nth_answer(entries: &[Entry], part: Option<usize>, events: &[Event], n: usize) -> usize
    ensures { result ≡ place_nth n (flat_map (event_items entries.now part) events.now) }
{
    let mut left = n;
    for event in events {
        let count = count(entries, Sort::Answer(*event), part);
        if left < count {
            return nth_grandchild(entries, Sort::Answer(*event), part, left);
        }
        left -= count;
    }
    0
}

/// The place of the n-th answer of a partition to health events, or 0.
fn nth_event(entries: &[Entry], part: Option<usize>, n: usize) -> usize
    ensures { result ≡ place_nth n (flat_map (event_items entries.now part) events) }
{
    nth_answer(entries, part, &EVENTS, n)
}

/// The place of the first entry, or 0.
#[tactic(auto, unfolding(crate::specs::Places::place_nth))]
fn first(entries: &[Entry]) -> usize
    ensures { result ≡ place_nth 0 entries.now }
{
    match entries.first() {
        Some(entry) => entry.at,
        None => 0,
    }
}

/// The place of an item among entries, or 0.
#[tactic(auto, unfolding(crate::specs::Places::place_of))]
fn place_among(entries: &[Entry], item: Item) -> usize
    ensures { result ≡ place_of entries.now item }
{
    match item {
        Item::Whole => first(entries),
        Item::Region(n) => nth(entries, Sort::Region, Owner::Nobody, usize::from(n)),
        Item::Uart(n) => nth(entries, Sort::Uart, Owner::Nobody, usize::from(n)),
        Item::Plan(n) => nth(entries, Sort::Plan, Owner::Nobody, usize::from(n)),
        Item::Slot(p, n) => {
            let plan = number_nth(entries, Sort::Plan, usize::from(p));
            nth_child(entries, Sort::Slot, plan, usize::from(n))
        }
        Item::Part(n) => nth(entries, Sort::Part, Owner::Nobody, usize::from(n)),
        Item::Area(p, n) => {
            let part = number_nth(entries, Sort::Part, usize::from(p));
            nth_grandchild(entries, Sort::Area, part, usize::from(n))
        }
        Item::Port(p, n) => {
            let part = number_nth(entries, Sort::Part, usize::from(p));
            nth_grandchild(entries, Sort::Port, part, usize::from(n))
        }
        Item::Event(p, n) => {
            let part = number_nth(entries, Sort::Part, usize::from(p));
            nth_event(entries, part, usize::from(n))
        }
        Item::Chan(n) => nth(entries, Sort::Chan, Owner::Nobody, usize::from(n)),
        Item::End(c, n) => {
            let chan = number_nth(entries, Sort::Chan, usize::from(c));
            end_place(entries, chan, usize::from(n))
        }
        Item::Link(n) => nth(entries, Sort::Link, Owner::Nobody, usize::from(n)),
    }
}

/// The place of an item: that of the `<` of its element, or 0 where there is none.
pub(crate) fn place(draft: &Draft, item: Item) -> usize
    ensures { result ≡ place_of draft.now item }
{
    place_among(draft.entries(), item)
}
