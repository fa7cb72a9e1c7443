//! Names with their numbers: of each name that of the first that has it.

ghost use Rattle.std.specs.Prelude.{◌≡◌, IfOk, OnOk, length, slice_get};
ghost use Rattle.xmcf_check.specs.Described.{number_named, names_or_none, port_names};
ghost use Rattle.xmcf_check.specs.lemmas.Numbers.{HasFirsts, HasNone, HasPortNumbers, HasNumbersForPorts};

use indexmap::IndexMap;
use std::alloc::Global;
use xm_base::Memory;
use xm_conf::{Name, Part, Port};

/// The number of the first of each name.
pub(crate) fn name_numbers(alloc: Global, names: &[Name]) -> Result<IndexMap<&[u8], usize>, Memory>
    ensures { IfOk result (HasFirsts 0 names.now) }
{
    let mut numbers = IndexMap::new(alloc);
    let mut left = names.len();
    while left > 0 {
        left -= 1;
        numbers.insert(names[left].bytes(), left)?;
    }
    Ok(numbers)
}

/// The number of the first with a name, or, where there is none, how many names there are.
#[tactic(auto, unfolding(crate::specs::Described::number_named))]
pub(crate) fn number_of(names: &[Name], numbers: &IndexMap<&[u8], usize>, name: &Name) -> usize
    requires { HasFirsts 0 names.now numbers.now }
    ensures { result ≡ number_named names.now name.now }
{
    match numbers.get(&name.bytes()) {
        Some(number) => *number,
        None => names.len(),
    }
}

/// A partition's ports.
fn ports_of(part: &Part) -> &[Port]
    ensures { result.now ≡ part.now.ports }
{
    part.ports.as_slice()
}

/// The number of the first port of each name of a partition.
fn add_ports<'a>(
    numbers: &mut IndexMap<(usize, &'a [u8]), usize>,
    part: usize,
    ports: &'a [Port],
) -> Result<(), Memory>
    requires { HasNone part numbers.old }
    ensures { OnOk result (HasNumbersForPorts part 0 ports.now numbers.old numbers.new) }
{
    let mut left = ports.len();
    while left > 0 {
        left -= 1;
        numbers.insert((part, ports[left].name.bytes()), left)?;
    }
    Ok(())
}

/// The number of the first port of each name of each partition.
pub(crate) fn port_numbers(
    alloc: Global,
    parts: &[Part],
) -> Result<IndexMap<(usize, &[u8]), usize>, Memory>
    ensures { IfOk result (HasPortNumbers parts.now) }
{
    let mut numbers = IndexMap::new(alloc);
    let mut left = parts.len();
    while left > 0 {
        left -= 1;
        add_ports(&mut numbers, left, ports_of(&parts[left]))?;
    }
    Ok(numbers)
}

/// How many ports a partition has, or none where there is no such partition.
fn port_count(parts: &[Part], part: u32) -> usize
    ensures { result ≡ length (names_or_none (slice_get (port_names parts.now) part)) }
{
    match parts.get(part as usize) {
        Some(part) => ports_of(part).len(),
        None => 0,
    }
}

/// The number of the first port with a name of a partition, or, where there is none, how many ports it has.
#[tactic(auto, unfolding(crate::specs::Described::number_named))]
pub(crate) fn port_number(
    parts: &[Part],
    numbers: &IndexMap<(usize, &[u8]), usize>,
    part: u32,
    name: &Name,
) -> usize
    requires { HasPortNumbers parts.now numbers.now }
    ensures { result ≡ number_named (names_or_none (slice_get (port_names parts.now) part)) name.now }
{
    match numbers.get(&(part as usize, name.bytes())) {
        Some(number) => *number,
        None => port_count(parts, part),
    }
}
