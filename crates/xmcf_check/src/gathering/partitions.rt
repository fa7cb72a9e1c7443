//! The partitions.

ghost use Rattle.std.specs.Prelude.{◌≡◌, ◌<◌, ◌++◌, ◌∷◌, [], IfOk, OnOk, Some, length, map, slice_get};
ghost use Rattle.xm_base.specs.Options.{on};
ghost use Rattle.xmcf_reader.specs.Drafts.{IsDraft};
ghost use Rattle.xmcf_check.specs.lemmas.Capped.{capped, capped_part};
ghost use Rattle.xmcf_check.specs.Described.{children, grandchildren, number_named, part_with, parts_by};
ghost use Rattle.xmcf_check.specs.Elements.{element_own};
ghost use Rattle.xmcf_check.specs.lemmas.Families.{picked};
ghost use Rattle.xmcf_check.specs.lemmas.Numbers.{HasFirsts};

use super::health::table;
use crate::elements::{Own, area_of, given_of, item_byte, mask_of, need_of, own_of, port_of};
use crate::family::{all_of_grandchildren, first_of_children, within};
use crate::numbers::{name_numbers, number_of};
use indexmap::IndexMap;
use std::alloc::Global;
use xm_base::Memory;
use xm_conf::{Name, Part};
use xmcf_reader::Entry;

/// The number of the UART that a console names, capped.
fn console(uarts: &[Name], numbers: &IndexMap<&[u8], usize>, name: &Option<Name>) -> Option<u8>
    requires { HasFirsts 0 uarts.now numbers.now }
    ensures { result ≡ on (capped 255) (on (number_named uarts.now) name.now) }
{
    match name {
        Some(name) => Some(item_byte(number_of(uarts, numbers, name))),
        None => None,
    }
}

/// What the partition that the entry of a number is calls itself.
fn own_at(entries: &[Entry], number: usize) -> Option<Own>
    ensures { result ≡ picked element_own (slice_get entries.now number) }
{
    match entries.get(number) {
        Some(entry) => own_of(&entry.what),
        None => None,
    }
}

/// The partition that calls itself so, with its console capped.
fn part(
    alloc: Global,
    uarts: &[Name],
    numbers: &IndexMap<&[u8], usize>,
    entries: &[Entry],
    number: usize,
    own: &Own,
) -> Result<Part, Memory>
    requires numbered { HasFirsts 0 uarts.now numbers.now }
    requires draft { IsDraft entries.now }
    requires inside { number < length entries.now }
    ensures { IfOk result (λ part. part ∷ [] ≡ map capped_part (part_with uarts.now (children number entries.now) (grandchildren number entries.now) (Some own.now))) }
{
    let inside = within(entries, number);
    let given = all_of_grandchildren(alloc, entries, inside, number, given_of)?;
    let areas = all_of_grandchildren(alloc, entries, inside, number, area_of)?;
    let ports = all_of_grandchildren(alloc, entries, inside, number, port_of)?;
    let need = first_of_children(inside, number, need_of);
    let mask = first_of_children(inside, number, mask_of);
    Ok(Part {
        name: own.name,
        system: own.system,
        console: console(uarts, numbers, &own.console),
        need,
        trace_mask: mask.unwrap_or(0),
        hm: table(&given),
        areas,
        ports,
    })
}

/// One partition more, where the entry of a number is one.
fn push_part(
    alloc: Global,
    parts: &mut Vec<Part>,
    uarts: &[Name],
    numbers: &IndexMap<&[u8], usize>,
    entries: &[Entry],
    number: usize,
) -> Result<(), Memory>
    requires numbered { HasFirsts 0 uarts.now numbers.now }
    requires draft { IsDraft entries.now }
    requires inside { number < length entries.now }
    ensures { OnOk result (parts.new.items ≡ parts.old.items ++ map capped_part (part_with uarts.now (children number entries.now) (grandchildren number entries.now) (picked element_own (slice_get entries.now number)))) }
{
    match own_at(entries, number) {
        Some(own) => {
            let part = part(alloc, uarts, numbers, entries, number, &own)?;
            parts.push(part)?;
            Ok(())
        }
        None => Ok(()),
    }
}

/// The partitions, with their consoles capped.
pub(super) fn parts(alloc: Global, uarts: &[Name], entries: &[Entry]) -> Result<Vec<Part>, Memory>
    requires draft { IsDraft entries.now }
    ensures { IfOk result (λ parts. parts.items ≡ map capped_part (parts_by uarts.now entries.now)) }
{
    let numbers = name_numbers(alloc, uarts)?;
    let mut parts = Vec::new(alloc);
    for number in 0..entries.len() {
        push_part(alloc, &mut parts, uarts, &numbers, entries, number)?;
    }
    Ok(parts)
}
