//! The sorts of items, and to which entry an item belongs.

ghost use Rattle.std.specs.Prelude.{◌≡◌};
ghost use Rattle.xmcf_check.specs.Places.{belongs, is_item, is_of};

use crate::family::{is_child, is_grandchild};
use xm_conf::Event;
use xmcf_reader::{Element, Entry};

/// A sort of items.
#[derive(Clone, Copy, Debug)]
pub(crate) enum Sort {
    Region,
    Uart,
    Plan,
    Slot,
    Part,
    Area,
    Port,
    /// The answers to a health event.
    Answer(Event),
    Chan,
    Source,
    Dest,
    Link,
}

/// To which entry an item belongs, by its number.
#[derive(Clone, Copy, Debug)]
pub(crate) enum Owner {
    Nobody,
    Parent(usize),
    Grandparent(usize),
}

/// Whether an element is of a sort.
pub(crate) fn is_of(sort: Sort, element: &Element) -> bool
    ensures { result ≡ is_of sort element.now }
{
    match sort {
        Sort::Region => matches!(element, Element::Region { .. }),
        Sort::Uart => matches!(element, Element::Uart { .. }),
        Sort::Plan => matches!(element, Element::Plan { .. }),
        Sort::Slot => matches!(element, Element::Slot { .. }),
        Sort::Part => matches!(element, Element::Partition { .. }),
        Sort::Area => matches!(element, Element::Area { .. }),
        Sort::Port => matches!(element, Element::Port { .. }),
        Sort::Answer(wanted) => match element {
            Element::Event { event, .. } => event.number() == wanted.number(),
            _ => false,
        },
        Sort::Chan => matches!(element, Element::Sampling { .. } | Element::Queuing { .. }),
        Sort::Source => matches!(element, Element::Source { .. }),
        Sort::Dest => matches!(element, Element::Destination { .. }),
        Sort::Link => matches!(element, Element::Ipvi { .. }),
    }
}

/// Whether an entry belongs to an owner.
fn belongs(entries: &[Entry], owner: Owner, entry: &Entry) -> bool
    ensures { result ≡ belongs entries.now owner entry.now }
{
    match owner {
        Owner::Nobody => true,
        Owner::Parent(number) => is_child(entry, number),
        Owner::Grandparent(number) => is_grandchild(entries, entry, number),
    }
}

/// Whether an entry is of a sort and belongs to an owner.
pub(crate) fn is_item(entries: &[Entry], sort: Sort, owner: Owner, entry: &Entry) -> bool
    ensures { result ≡ is_item entries.now sort owner entry.now }
{
    is_of(sort, &entry.what) && belongs(entries, owner, entry)
}
