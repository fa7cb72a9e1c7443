//! The cyclic plans and their slots.

ghost use Rattle.std.specs.Prelude.{◌≡◌, ◌<◌, ◌++◌, IfOk, OnOk, length, map, slice_get};
ghost use Rattle.xm_base.specs.Options.{on};
ghost use Rattle.xmcf_reader.specs.Drafts.{IsDraft};
ghost use Rattle.xmcf_check.specs.lemmas.Capped.{capped_plan, capped_slot};
ghost use Rattle.xmcf_check.specs.Described.{among, children, plan_of_children, plans_of, with_parent};
ghost use Rattle.xmcf_check.specs.Elements.{element_frame, element_slot};
ghost use Rattle.xmcf_check.specs.lemmas.Families.{picked};

use crate::elements::{frame_of, slot_of};
use crate::family::{is_child, within};
use std::alloc::{AllocError, Global};
use xm_base::Memory;
use xm_conf::{Plan, Slot};
use xmcf_reader::Entry;

/// The slots among entries of which the children of the entry of a number are theirs, with their partitions capped.
fn slots(alloc: Global, entries: &[Entry], number: usize) -> Result<Vec<Slot>, AllocError>
    ensures { IfOk result (λ slots. slots.items ≡ among (λ element. on capped_slot (element_slot element)) (with_parent number entries.now)) }
{
    entries
        .iter()
        .filter(|entry| is_child(entry, number))
        .filter_map(|entry| slot_of(&entry.what))
        .collect(alloc)
}

/// The frame of the plan that the entry of a number is.
fn frame_at(entries: &[Entry], number: usize) -> Option<u32>
    ensures { result ≡ picked element_frame (slice_get entries.now number) }
{
    match entries.get(number) {
        Some(entry) => frame_of(&entry.what),
        None => None,
    }
}

/// One plan more, where the entry of a number is one.
fn push_plan(
    alloc: Global,
    plans: &mut Vec<Plan>,
    entries: &[Entry],
    number: usize,
) -> Result<(), Memory>
    requires draft { IsDraft entries.now }
    requires inside { number < length entries.now }
    ensures { OnOk result (plans.new.items ≡ plans.old.items ++ map capped_plan (plan_of_children (children number entries.now) (picked element_frame (slice_get entries.now number)))) }
{
    match frame_at(entries, number) {
        Some(frame) => {
            let slots = slots(alloc, within(entries, number), number)?;
            plans.push(Plan { frame, slots })?;
            Ok(())
        }
        None => Ok(()),
    }
}

/// The plans, with the partitions of their slots capped.
pub(super) fn plans(alloc: Global, entries: &[Entry]) -> Result<Vec<Plan>, Memory>
    requires draft { IsDraft entries.now }
    ensures { IfOk result (λ plans. plans.items ≡ map capped_plan (plans_of entries.now)) }
{
    let mut plans = Vec::new(alloc);
    for number in 0..entries.len() {
        push_plan(alloc, &mut plans, entries, number)?;
    }
    Ok(plans)
}
