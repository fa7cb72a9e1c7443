//! Plans are made from the requirements of a system description, and its own plan is checked against them.

ghost use Rattle.std.specs.Prelude.{◌≡◌, ◌++◌, ◌<◌, ◌≤◌, ◌^◌, [], All, IfErr, IfOk, IfSome, OnOk, length};
ghost use Rattle.fault_messages.specs.Texts.{plan_fault_text};
ghost use Rattle.xm_conf.specs.Along.{added_by_each};
ghost use Rattle.xm_conf.specs.Fits.{InFrame, InTurn, IsNeed, IsTime};
ghost use Rattle.xm_conf.specs.Limits.{most_parts};
ghost use Rattle.builders.specs.Makes.{IsRefusalText, Makes};
ghost use Rattle.builders.specs.Planning.{first_plan, frame_line, frame_text, met_by, met_line, part_line, plan_lines_for, plan_lines_of, lines_of_plan, slot_line, verdicts_by, verdicts_for, verdicts_of};

use crate::parsing::{parts_of, read_conf};
use crate::unmade::Unmade;
use crate::unmade_by;
use plan_maker::{Met, PlanFault, make, met};
use std::alloc::Global;
use xm_base::{Memory, PartId};
use xm_conf::{Conf, Need, Part, Plan, Slot};
use xm_report::Pen;

/// The longest frame of a plan that is checked.
const LONGEST_CHECKED: u32 = 1_000_000;

/// The lines of the plan that a text's requirements make.
#[tactic(auto, unfolding(crate::specs::Planning::plan_lines_of))]
pub(crate) fn plan_lines(alloc: Global, text: &[u8]) -> Result<Vec<u8>, Unmade>
    requires { length text.now < 2 ^ 32 }
    ensures { Makes result (plan_lines_of text.now) }
{
    match read_conf(alloc, text) {
        Ok(conf) => lines_of_made(alloc, &conf),
        Err(why) => Err(why),
    }
}

// The lines of the plan that the requirements of a configuration make.
fn lines_of_made(alloc: Global, conf: &Conf) -> Result<Vec<u8>, Unmade>
    ensures { Makes result (plan_lines_for conf.now) }
{
    match make(alloc, conf) {
        Ok(plan) => lines_of_plan(alloc, &plan),
        Err(fault) => Err(no_plan(alloc, fault)),
    }
}

// The lines that describe a plan.
fn lines_of_plan(alloc: Global, plan: &Plan) -> Result<Vec<u8>, Unmade>
    ensures lines { IfOk result (λ lines. lines.items ≡ lines_of_plan plan.now) }
    ensures memory { IfErr result (λ why. why ≡ Unmade.Memory) }
{
    put_plan(alloc, plan).map_err(|_| Unmade::Memory)
}

// The lines that describe a plan, where there is memory for them.
#[tactic(auto, unfolding(crate::specs::Planning::lines_of_plan))]
fn put_plan(alloc: Global, plan: &Plan) -> Result<Vec<u8>, Memory>
    ensures { IfOk result (λ lines. lines.items ≡ lines_of_plan plan.now) }
{
    let mut lines = Vec::new(alloc);
    put_frame(&mut lines, plan.frame, plan.slots.len())?;
    put_slots(&mut lines, &plan.slots)?;
    Ok(lines)
}

// Puts the line of a plan after others.
fn put_frame(lines: &mut Vec<u8>, frame: u32, slots: usize) -> Result<(), Memory>
    ensures { OnOk result (lines.new.items ≡ lines.old.items ++ frame_line frame slots) }
{
    let mut pen = Pen::new();
    frame_line(&mut pen, frame, slots);
    lines.extend_from_slice(pen.bytes())?;
    Ok(())
}

// Puts the lines of slots after others.
fn put_slots(lines: &mut Vec<u8>, slots: &[Slot]) -> Result<(), Memory>
    ensures { OnOk result (lines.new.items ≡ lines.old.items ++ added_by_each slot_line slots.now) }
{
    for (id, slot) in slots.iter().enumerate() {
        put_slot(lines, id, *slot)?;
    }
    Ok(())
}

// Puts the line of a slot after others.
fn put_slot(lines: &mut Vec<u8>, id: usize, slot: Slot) -> Result<(), Memory>
    ensures { OnOk result (lines.new.items ≡ lines.old.items ++ slot_line id slot) }
{
    let mut pen = Pen::new();
    slot_line(&mut pen, id, slot);
    lines.extend_from_slice(pen.bytes())?;
    Ok(())
}

// Writes the line of a plan.
#[tactic(auto, unfolding(crate::specs::Planning::frame_line))]
fn frame_line(pen: &mut Pen, frame: u32, slots: usize)
    requires { pen.old ≡ [] }
    ensures { pen.new ≡ frame_line frame slots }
{
    pen.text(b"plan frame=");
    pen.number(u64::from(frame));
    pen.text(b" slots=");
    pen.number(slots as u64);
    pen.text(b"\n");
}

// Writes the line of a slot.
#[tactic(auto, unfolding(crate::specs::Planning::slot_line))]
fn slot_line(pen: &mut Pen, id: usize, slot: Slot)
    requires { pen.old ≡ [] }
    ensures { pen.new ≡ slot_line id slot }
{
    pen.text(b"slot id=");
    pen.number(id as u64);
    pen.text(b" start=");
    pen.number(u64::from(slot.start));
    pen.text(b" duration=");
    pen.number(u64::from(slot.duration));
    pen.text(b" part=");
    pen.number(u64::from(slot.part));
    pen.text(b"\n");
}

// What is said where no plan is made.
fn no_plan(alloc: Global, fault: PlanFault) -> Unmade
    ensures text { IsRefusalText result (plan_fault_text fault) }
    ensures memory { fault ≡ PlanFault.Memory → result ≡ Unmade.Memory }
{
    unmade_by!(alloc, fault, PlanFault::Memory)
}

/// The lines of the partitions of a text under its plan.
#[tactic(auto, unfolding(crate::specs::Planning::verdicts_of))]
pub(crate) fn verdicts(alloc: Global, text: &[u8]) -> Result<Vec<u8>, Unmade>
    requires { length text.now < 2 ^ 32 }
    ensures { Makes result (verdicts_of text.now) }
{
    match read_conf(alloc, text) {
        Ok(conf) => verdicts_for(alloc, &conf),
        Err(why) => Err(why),
    }
}

// The lines of the partitions of a configuration under its plan.
fn verdicts_for(alloc: Global, conf: &Conf) -> Result<Vec<u8>, Unmade>
    ensures { Makes result (verdicts_for conf.now) }
{
    verdicts_by(alloc, first_plan(conf), parts_of(conf))
}

// The first plan of a configuration.
#[tactic(auto, unfolding(xm_conf::specs::Description::described))]
fn first_plan(conf: &Conf) -> &Plan
    ensures value { result.now ≡ first_plan conf.now }
    ensures frame { IsTime result.now.frame }
    ensures inside { All (InFrame result.now.frame) result.now.slots }
    ensures in_turn { InTurn result.now.slots }
{
    &conf.raw().plans[0]
}

// The lines of partitions under a plan, where its frame is not too long.
#[tactic(auto, unfolding(crate::specs::Planning::verdicts_by, plan_maker::specs::Needed::longest_common))]
fn verdicts_by(alloc: Global, plan: &Plan, parts: &[Part]) -> Result<Vec<u8>, Unmade>
    requires frame { IsTime plan.now.frame }
    requires inside { All (InFrame plan.now.frame) plan.now.slots }
    requires in_turn { InTurn plan.now.slots }
    requires few { length parts.now ≤ most_parts }
    requires needs { All (λ part. IfSome part.need IsNeed) parts.now }
    ensures { Makes result (verdicts_by plan.now parts.now) }
{
    if plan.frame > LONGEST_CHECKED {
        return Err(too_long(alloc, plan.frame));
    }
    put_parts(alloc, plan, parts).map_err(|_| Unmade::Memory)
}

// What is said of a plan whose frame is too long to be checked.
#[tactic(auto, unfolding(crate::specs::Planning::frame_text))]
fn too_long(alloc: Global, frame: u32) -> Unmade
    ensures { IsRefusalText result (frame_text frame) }
{
    match format!(in alloc; "frame found={frame}") {
        Ok(text) => Unmade::Refused { text },
        Err(_) => Unmade::Memory,
    }
}

// The lines of partitions under a plan, where there is memory for them.
fn put_parts(alloc: Global, plan: &Plan, parts: &[Part]) -> Result<Vec<u8>, Memory>
    requires frame { IsTime plan.now.frame }
    requires short { plan.now.frame ≤ 1000000 }
    requires inside { All (InFrame plan.now.frame) plan.now.slots }
    requires in_turn { InTurn plan.now.slots }
    requires few { length parts.now ≤ most_parts }
    requires needs { All (λ part. IfSome part.need IsNeed) parts.now }
    ensures { IfOk result (λ lines. lines.items ≡ added_by_each (part_line plan.now) parts.now) }
{
    let mut lines = Vec::new(alloc);
    for (id, part) in parts.iter().enumerate() {
        put_part(&mut lines, plan, id as u8, part.need)?;
    }
    Ok(lines)
}

// Puts the line of a partition under a plan after others.
fn put_part(lines: &mut Vec<u8>, plan: &Plan, id: PartId, need: Option<Need>) -> Result<(), Memory>
    requires frame { IsTime plan.now.frame }
    requires short { plan.now.frame ≤ 1000000 }
    requires inside { All (InFrame plan.now.frame) plan.now.slots }
    requires in_turn { InTurn plan.now.slots }
    requires need { IfSome need IsNeed }
    ensures { OnOk result (lines.new.items ≡ lines.old.items ++ met_line id (met_by plan.now id need)) }
{
    let mut pen = Pen::new();
    met_line(&mut pen, id, met_by(plan, need, id));
    lines.extend_from_slice(pen.bytes())?;
    Ok(())
}

// How a plan stands to a partition's requirement.
fn met_by(plan: &Plan, need: Option<Need>, id: PartId) -> Met
    requires frame { IsTime plan.now.frame }
    requires short { plan.now.frame ≤ 1000000 }
    requires inside { All (InFrame plan.now.frame) plan.now.slots }
    requires in_turn { InTurn plan.now.slots }
    requires need { IfSome need IsNeed }
    ensures { result ≡ met_by plan.now id need }
{
    met(plan, need, id)
}

// Writes the line of a partition, by how a plan stands to its requirement.
#[tactic(auto, unfolding(crate::specs::Planning::met_line))]
fn met_line(pen: &mut Pen, id: PartId, met: Met)
    requires { pen.old ≡ [] }
    ensures { pen.new ≡ met_line id met }
{
    pen.text(b"P");
    pen.number(u64::from(id));
    match met {
        Met::Met => pen.text(b" met\n"),
        Met::NoNeed => pen.text(b" none\n"),
        Met::Uneven => pen.text(b" uneven\n"),
        Met::Missed { window } => {
            pen.text(b" missed window=");
            pen.number(u64::from(window));
            pen.text(b"\n");
        }
    }
}
