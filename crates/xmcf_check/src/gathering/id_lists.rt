//! The ids.

ghost use Rattle.std.specs.Prelude.{◌≡◌, ◌<◌, ◌++◌, IfOk, OnOk, length, slice_get};
ghost use Rattle.xmcf_reader.specs.Drafts.{IsDraft};
ghost use Rattle.xmcf_check.specs.Described.{among, children, described_ids, plan_ids_with, plans_ids_of, with_parent};
ghost use Rattle.xmcf_check.specs.Elements.{plan_id_of, slot_id_of};
ghost use Rattle.xmcf_check.specs.lemmas.Families.{picked};

use super::lists::{part_ids, processor_id, uart_ids};
use crate::elements::{plan_id_of, slot_id_of};
use crate::family::{is_child, within};
use crate::gathered::{Ids, PlanIds};
use std::alloc::{AllocError, Global};
use xm_base::Memory;
use xmcf_reader::Entry;

/// The ids of the slots among entries that are children of the entry of a number.
fn slot_ids(alloc: Global, entries: &[Entry], number: usize) -> Result<Vec<u32>, AllocError>
    ensures { IfOk result (λ ids. ids.items ≡ among slot_id_of (with_parent number entries.now)) }
{
    entries
        .iter()
        .filter(|entry| is_child(entry, number))
        .filter_map(|entry| slot_id_of(&entry.what))
        .collect(alloc)
}

/// The id of the plan that the entry of a number is.
fn plan_id_at(entries: &[Entry], number: usize) -> Option<u32>
    ensures { result ≡ picked plan_id_of (slice_get entries.now number) }
{
    match entries.get(number) {
        Some(entry) => plan_id_of(&entry.what),
        None => None,
    }
}

/// The ids of one plan more, where the entry of a number is one.
fn push_plan_ids(
    alloc: Global,
    plans: &mut Vec<PlanIds>,
    entries: &[Entry],
    number: usize,
) -> Result<(), Memory>
    requires draft { IsDraft entries.now }
    requires inside { number < length entries.now }
    ensures { OnOk result (plans.new.items ≡ plans.old.items ++ plan_ids_with (children number entries.now) (picked plan_id_of (slice_get entries.now number))) }
{
    match plan_id_at(entries, number) {
        Some(plan) => {
            let slots = slot_ids(alloc, within(entries, number), number)?;
            plans.push(PlanIds { plan, slots })?;
            Ok(())
        }
        None => Ok(()),
    }
}

/// The ids of the plans and their slots.
fn plan_ids(alloc: Global, entries: &[Entry]) -> Result<Vec<PlanIds>, Memory>
    requires draft { IsDraft entries.now }
    ensures { IfOk result (λ plans. plans.items ≡ plans_ids_of entries.now) }
{
    let mut plans = Vec::new(alloc);
    for number in 0..entries.len() {
        push_plan_ids(alloc, &mut plans, entries, number)?;
    }
    Ok(plans)
}

/// All ids.
#[tactic(auto, unfolding(crate::specs::Described::described_ids))]
pub(super) fn ids(alloc: Global, entries: &[Entry]) -> Result<Ids, Memory>
    requires draft { IsDraft entries.now }
    ensures { IfOk result (λ ids. ids ≡ described_ids entries.now) }
{
    Ok(Ids {
        processor: processor_id(entries),
        uarts: uart_ids(alloc, entries)?,
        plans: plan_ids(alloc, entries)?,
        parts: part_ids(alloc, entries)?,
    })
}
