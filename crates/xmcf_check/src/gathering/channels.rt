//! The channels and their ends.

ghost use Rattle.std.specs.Prelude.{◌≡◌, ◌<◌, ◌++◌, IfOk, OnOk, length, map, slice_get};
ghost use Rattle.xm_base.specs.Options.{on};
ghost use Rattle.xmcf_reader.specs.Drafts.{IsDraft};
ghost use Rattle.xm_conf.specs.declared.port.Way.TheVariants as way;
ghost use Rattle.xmcf_check.specs.lemmas.Capped.{capped_chan, capped_end};
ghost use Rattle.xmcf_check.specs.Described.{among, chan_with, chans_by, children, described_end, end_of_way, first_among, port_names, with_parent};
ghost use Rattle.xmcf_check.specs.lemmas.ElementsTerms.{capped_carried};
ghost use Rattle.xmcf_check.specs.Elements.{carried_of};
ghost use Rattle.xmcf_check.specs.lemmas.Families.{picked};
ghost use Rattle.xmcf_check.specs.lemmas.Numbers.{HasPortNumbers};

use crate::elements::{Carried, byte, carried_of, item_byte};
use crate::family::{is_child, within};
use crate::numbers::{port_number, port_numbers};
use indexmap::IndexMap;
use std::alloc::Global;
use xm_base::Memory;
use xm_conf::{Chan, End, Name, Part, Way};
use xmcf_reader::{Element, Entry};

/// The end that a partition's number and a port's name denote, with both numbers capped.
#[tactic(auto, unfolding(crate::specs::Described::described_end, crate::specs::lemmas::Capped::capped_end))]
fn end_named(
    parts: &[Part],
    numbers: &IndexMap<(usize, &[u8]), usize>,
    part: u32,
    name: &Name,
) -> End
    requires { HasPortNumbers parts.now numbers.now }
    ensures { result ≡ capped_end (described_end (port_names parts.now) part name.now) }
{
    End {
        part: byte(part),
        port: item_byte(port_number(parts, numbers, part, name)),
    }
}

/// The end that an element names, where it names one of this way.
fn end_of_way(
    parts: &[Part],
    numbers: &IndexMap<(usize, &[u8]), usize>,
    way: Way,
    element: &Element,
) -> Option<End>
    requires { HasPortNumbers parts.now numbers.now }
    ensures { result ≡ on capped_end (end_of_way way (port_names parts.now) element.now) }
{
    match (way, element) {
        (Way::Source, Element::Source { part, name }) => {
            Some(end_named(parts, numbers, *part, name))
        }
        (Way::Destination, Element::Destination { part, name }) => {
            Some(end_named(parts, numbers, *part, name))
        }
        _ => None,
    }
}

/// The first source among the children of the entry of a number.
fn source(
    parts: &[Part],
    numbers: &IndexMap<(usize, &[u8]), usize>,
    inside: &[Entry],
    number: usize,
) -> Option<End>
    requires { HasPortNumbers parts.now numbers.now }
    ensures { result ≡ first_among (λ element. on capped_end (end_of_way way.Source (port_names parts.now) element)) (with_parent number inside.now) }
{
    for entry in inside {
        if is_child(entry, number) {
            if let Some(end) = end_of_way(parts, numbers, Way::Source, &entry.what) {
                return Some(end);
            }
        }
    }
    None
}

/// The destinations among the children of the entry of a number.
fn dests(
    alloc: Global,
    parts: &[Part],
    numbers: &IndexMap<(usize, &[u8]), usize>,
    inside: &[Entry],
    number: usize,
) -> Result<Vec<End>, Memory>
    requires { HasPortNumbers parts.now numbers.now }
    ensures { IfOk result (λ dests. dests.items ≡ among (λ element. on capped_end (end_of_way way.Destination (port_names parts.now) element)) (with_parent number inside.now)) }
{
    let mut dests = Vec::new(alloc);
    for entry in inside {
        if is_child(entry, number) {
            if let Some(end) = end_of_way(parts, numbers, Way::Destination, &entry.what) {
                dests.push(end)?;
            }
        }
    }
    Ok(dests)
}

/// What the channel that the entry of a number is carries, with its numbers capped.
fn carried_at(entries: &[Entry], number: usize) -> Option<Carried>
    ensures { result ≡ on capped_carried (picked carried_of (slice_get entries.now number)) }
{
    match entries.get(number) {
        Some(entry) => carried_of(&entry.what),
        None => None,
    }
}

/// One channel more, where the entry of a number is one.
fn push_chan(
    alloc: Global,
    chans: &mut Vec<Chan>,
    parts: &[Part],
    numbers: &IndexMap<(usize, &[u8]), usize>,
    entries: &[Entry],
    number: usize,
) -> Result<(), Memory>
    requires numbered { HasPortNumbers parts.now numbers.now }
    requires draft { IsDraft entries.now }
    requires inside { number < length entries.now }
    ensures { OnOk result (chans.new.items ≡ chans.old.items ++ map capped_chan (chan_with (port_names parts.now) (children number entries.now) (picked carried_of (slice_get entries.now number)))) }
{
    match carried_at(entries, number) {
        Some(carried) => {
            let inside = within(entries, number);
            let dests = dests(alloc, parts, numbers, inside, number)?;
            let source = source(parts, numbers, inside, number);
            chans.push(Chan {
                kind: carried.kind,
                length: carried.size,
                source: source.unwrap_or(End { part: 0, port: 0 }),
                dests,
            })?;
            Ok(())
        }
        None => Ok(()),
    }
}

/// The channels, with their numbers capped.
pub(super) fn chans(alloc: Global, parts: &[Part], entries: &[Entry]) -> Result<Vec<Chan>, Memory>
    requires draft { IsDraft entries.now }
    ensures { IfOk result (λ chans. chans.items ≡ map capped_chan (chans_by (port_names parts.now) entries.now)) }
{
    let numbers = port_numbers(alloc, parts)?;
    let mut chans = Vec::new(alloc);
    for number in 0..entries.len() {
        push_chan(alloc, &mut chans, parts, &numbers, entries, number)?;
    }
    Ok(chans)
}
