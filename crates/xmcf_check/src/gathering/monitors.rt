//! What the partitions answer to health events.

ghost use Rattle.std.specs.Prelude.{◌≡◌, ◌<◌, ◌++◌, IfOk, OnOk, length, map, slice_get};
ghost use Rattle.xmcf_reader.specs.Drafts.{IsDraft};
ghost use Rattle.xmcf_check.specs.Described.{grandchildren, monitor_with, monitors_of};
ghost use Rattle.xmcf_check.specs.Elements.{part_id_of};
ghost use Rattle.xmcf_check.specs.lemmas.Families.{picked};

use super::health::answers;
use crate::elements::{given_of, part_id_of};
use crate::family::{all_of_grandchildren, within};
use crate::gathered::Answer;
use std::alloc::Global;
use xm_base::Memory;
use xmcf_reader::Entry;

/// The id of the partition that the entry of a number is.
fn part_id_at(entries: &[Entry], number: usize) -> Option<u32>
    ensures { result ≡ picked part_id_of (slice_get entries.now number) }
{
    match entries.get(number) {
        Some(entry) => part_id_of(&entry.what),
        None => None,
    }
}

/// The answers of one partition more, where the entry of a number is one.
fn push_monitor(
    alloc: Global,
    monitors: &mut Vec<Vec<Answer>>,
    entries: &[Entry],
    number: usize,
) -> Result<(), Memory>
    requires draft { IsDraft entries.now }
    requires inside { number < length entries.now }
    ensures { OnOk result (map (λ answers. answers.items) monitors.new.items ≡ map (λ answers. answers.items) monitors.old.items ++ map (λ monitor. monitor.answers) (monitor_with (grandchildren number entries.now) (picked part_id_of (slice_get entries.now number)))) }
{
    match part_id_at(entries, number) {
        Some(_) => {
            let inside = within(entries, number);
            let given = all_of_grandchildren(alloc, entries, inside, number, given_of)?;
            let answers = answers(alloc, &given)?;
            monitors.push(answers)?;
            Ok(())
        }
        None => Ok(()),
    }
}

/// The answers of each partition.
pub(super) fn monitors(alloc: Global, entries: &[Entry]) -> Result<Vec<Vec<Answer>>, Memory>
    requires draft { IsDraft entries.now }
    ensures { IfOk result (λ monitors. map (λ answers. answers.items) monitors.items ≡ map (λ monitor. monitor.answers) (monitors_of entries.now)) }
{
    let mut monitors = Vec::new(alloc);
    for number in 0..entries.len() {
        push_monitor(alloc, &mut monitors, entries, number)?;
    }
    Ok(monitors)
}
