//! What stands alone: the names, the regions, the sizes, the links and the ids.

ghost use Rattle.std.specs.Prelude.{◌≡◌, IfOk, unwrap_or};
ghost use Rattle.xmcf_reader.specs.Drafts.{IsDraft};
ghost use Rattle.xmcf_check.specs.Described.{among, first_among, hv_size_of, regions_of, system_name, uarts_of};
ghost use Rattle.xm_base.specs.Options.{on};
ghost use Rattle.xmcf_check.specs.lemmas.Capped.{capped_link};
ghost use Rattle.xmcf_check.specs.Elements.{link_element, part_id_of, processor_of, element_size, uart_id_of};

use crate::elements::{link_of, part_id_of, processor_of, region_of, size_of, uart_id_of, uart_of};
use std::alloc::{AllocError, Global};
use xm_conf::{Link, Name, Region};
use xmcf_reader::{Element, Entry};

/// The system's name.
pub(super) fn system_name(entries: &[Entry]) -> Name
    requires { IsDraft entries.now }
    ensures { result ≡ system_name entries.now }
{
    match &entries[0].what {
        Element::System { name } => *name,
        _ => unreachable!(),
    }
}

/// The regions.
#[tactic(auto, unfolding(crate::specs::Described::regions_of))]
pub(super) fn regions(alloc: Global, entries: &[Entry]) -> Result<Vec<Region>, AllocError>
    ensures { IfOk result (λ regions. regions.items ≡ regions_of entries.now) }
{
    entries
        .iter()
        .filter_map(|entry| region_of(&entry.what))
        .collect(alloc)
}

/// The size of the first that has the hypervisor's.
fn first_size(entries: &[Entry]) -> Option<u32>
    ensures { result ≡ first_among element_size entries.now }
{
    for entry in entries {
        if let Some(size) = size_of(&entry.what) {
            return Some(size);
        }
    }
    None
}

/// The hypervisor's size.
#[tactic(auto, unfolding(crate::specs::Described::hv_size_of))]
pub(super) fn hv_size(entries: &[Entry]) -> u32
    ensures { result ≡ hv_size_of entries.now }
{
    first_size(entries).unwrap_or(0)
}

/// The names of the UARTs.
#[tactic(auto, unfolding(crate::specs::Described::uarts_of))]
pub(super) fn uarts(alloc: Global, entries: &[Entry]) -> Result<Vec<Name>, AllocError>
    ensures { IfOk result (λ uarts. uarts.items ≡ uarts_of entries.now) }
{
    entries
        .iter()
        .filter_map(|entry| uart_of(&entry.what))
        .collect(alloc)
}

/// The links, with their numbers capped.
pub(super) fn links(alloc: Global, entries: &[Entry]) -> Result<Vec<Link>, AllocError>
    ensures { IfOk result (λ links. links.items ≡ among (λ element. on capped_link (link_element element)) entries.now) }
{
    entries
        .iter()
        .filter_map(|entry| link_of(&entry.what))
        .collect(alloc)
}

/// The id of the first processor.
fn first_processor(entries: &[Entry]) -> Option<u32>
    ensures { result ≡ first_among processor_of entries.now }
{
    for entry in entries {
        if let Some(id) = processor_of(&entry.what) {
            return Some(id);
        }
    }
    None
}

/// The processor's id.
pub(super) fn processor_id(entries: &[Entry]) -> u32
    ensures { result ≡ unwrap_or (first_among processor_of entries.now) 0 }
{
    first_processor(entries).unwrap_or(0)
}

/// The ids of the UARTs.
pub(super) fn uart_ids(alloc: Global, entries: &[Entry]) -> Result<Vec<u32>, AllocError>
    ensures { IfOk result (λ ids. ids.items ≡ among uart_id_of entries.now) }
{
    entries
        .iter()
        .filter_map(|entry| uart_id_of(&entry.what))
        .collect(alloc)
}

/// The ids of the partitions.
pub(super) fn part_ids(alloc: Global, entries: &[Entry]) -> Result<Vec<u32>, AllocError>
    ensures { IfOk result (λ ids. ids.items ≡ among part_id_of entries.now) }
{
    entries
        .iter()
        .filter_map(|entry| part_id_of(&entry.what))
        .collect(alloc)
}
