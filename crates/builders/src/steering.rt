//! Prints, after the groups of a system description's partitions, by what each may steer others.

ghost use Rattle.std.specs.Prelude.{◌≡◌, ◌++◌, ◌+◌, ◌<◌, ◌≤◌, ◌^◌, [], IfOk, OnOk, length};
ghost use Rattle.xm_conf.specs.Along.{added_by_each};
ghost use Rattle.xm_conf.specs.Limits.{most_parts};
ghost use Rattle.xm_flows.specs.Rights.{reaches_all};
ghost use Rattle.xm_report.specs.Report.{HasRoom};
ghost use Rattle.builders.specs.Grouping.{group_line_in};
ghost use Rattle.builders.specs.Makes.{Makes};
ghost use Rattle.builders.specs.Steering.{answer_line, answer_lines, flag_line, flag_lines, steering_for, steering_lines, steering_of, table_lines, table_lines_for};

use crate::grouping::put_groups;
use crate::parsing::{parts_of, read_conf};
use crate::unmade::Unmade;
use health_monitor::action_of;
use std::alloc::Global;
use xm_base::{Memory, PartId};
use xm_conf::{Action, Conf, EVENTS, Event, HmTable, Part};
use xm_report::Pen;

/// The lines of the groups of a text's partitions, and then those of steering.
#[tactic(auto, unfolding(crate::specs::Steering::steering_of))]
pub(crate) fn steering(alloc: Global, text: &[u8]) -> Result<Vec<u8>, Unmade>
    requires { length text.now < 2 ^ 32 }
    ensures { Makes result (steering_of text.now) }
{
    match read_conf(alloc, text) {
        Ok(conf) => steering_for(alloc, &conf),
        Err(why) => Err(why),
    }
}

// The lines of a configuration.
fn steering_for(alloc: Global, conf: &Conf) -> Result<Vec<u8>, Unmade>
    ensures { Makes result (steering_for conf.now) }
{
    put_lines(alloc, conf, parts_of(conf)).map_err(|_| Unmade::Memory)
}

// The lines of a configuration, where there is memory for them.
fn put_lines(alloc: Global, conf: &Conf, parts: &[Part]) -> Result<Vec<u8>, Memory>
    requires same { parts.now ≡ conf.now.parts }
    requires few { length parts.now ≤ most_parts }
    ensures { IfOk result (λ lines. lines.items ≡ added_by_each (group_line_in conf.now) parts.now ++ added_by_each steering_lines parts.now) }
{
    let mut lines = put_groups(alloc, conf, parts)?;
    put_parts(&mut lines, parts)?;
    Ok(lines)
}

// Puts the lines of steering of partitions after others.
fn put_parts(lines: &mut Vec<u8>, parts: &[Part]) -> Result<(), Memory>
    requires { length parts.now ≤ most_parts }
    ensures { OnOk result (lines.new.items ≡ lines.old.items ++ added_by_each steering_lines parts.now) }
{
    for (p, part) in parts.iter().enumerate() {
        put_part(lines, p as u8, part)?;
    }
    Ok(())
}

// Puts the lines of steering of a partition after others.
#[tactic(auto, unfolding(crate::specs::Steering::steering_lines))]
fn put_part(lines: &mut Vec<u8>, p: PartId, part: &Part) -> Result<(), Memory>
    ensures { OnOk result (lines.new.items ≡ lines.old.items ++ steering_lines p part.now) }
{
    put_flag(lines, p, part.system)?;
    put_table(lines, p, &part.hm)?;
    Ok(())
}

// Puts the line of the system flag after others, where a partition has it.
fn put_flag(lines: &mut Vec<u8>, p: PartId, system: bool) -> Result<(), Memory>
    ensures { OnOk result (lines.new.items ≡ lines.old.items ++ flag_lines p system) }
{
    if !system {
        return Ok(());
    }
    let mut pen = Pen::new();
    flag_line(&mut pen, p);
    lines.extend_from_slice(pen.bytes())?;
    Ok(())
}

// Puts the lines of a health table after others.
fn put_table(lines: &mut Vec<u8>, p: PartId, table: &HmTable) -> Result<(), Memory>
    ensures { OnOk result (lines.new.items ≡ lines.old.items ++ table_lines p table.now) }
{
    put_answers(lines, p, table, &EVENTS)
}

// Puts the lines that a health table has for these events after others.
fn put_answers(
    lines: &mut Vec<u8>,
    p: PartId,
    table: &HmTable,
    events: &[Event],
) -> Result<(), Memory>
    ensures { OnOk result (lines.new.items ≡ lines.old.items ++ table_lines_for p table.now events.now) }
{
    for event in events {
        put_answer(lines, p, *event, action_of(table, *event))?;
    }
    Ok(())
}

// Puts the line of the action for an event after others, where it reaches all partitions.
fn put_answer(lines: &mut Vec<u8>, p: PartId, event: Event, action: Action) -> Result<(), Memory>
    ensures { OnOk result (lines.new.items ≡ lines.old.items ++ answer_lines p event action) }
{
    if !reaches_all(action) {
        return Ok(());
    }
    let mut pen = Pen::new();
    answer_line(&mut pen, p, event, action);
    lines.extend_from_slice(pen.bytes())?;
    Ok(())
}

// Whether an action reaches all partitions.
fn reaches_all(action: Action) -> bool
    ensures { result ≡ reaches_all action }
{
    match action {
        Action::Ignore
        | Action::Shutdown
        | Action::PartitionColdReset
        | Action::PartitionWarmReset
        | Action::Suspend
        | Action::Halt
        | Action::Propagate => false,
        Action::HypervisorColdReset
        | Action::HypervisorWarmReset
        | Action::HypervisorHalt
        | Action::SwitchToMaintenance => true,
    }
}

// Writes the line of a partition that may steer others as a system partition.
#[tactic(auto, unfolding(crate::specs::Steering::flag_line))]
fn flag_line(pen: &mut Pen, p: PartId)
    requires { pen.old ≡ [] }
    ensures { pen.new ≡ flag_line p }
{
    pen.text(b"P");
    pen.number(u64::from(p));
    pen.text(b" steers by=system\n");
}

// Writes the line of a partition that may steer others by the action for an event.
#[tactic(auto, unfolding(crate::specs::Steering::answer_line))]
fn answer_line(pen: &mut Pen, p: PartId, event: Event, action: Action)
    requires { pen.old ≡ [] }
    ensures { pen.new ≡ answer_line p event action }
{
    pen.text(b"P");
    pen.number(u64::from(p));
    pen.text(b" steers by=health event=");
    put_name(pen, event.text());
    pen.text(b" action=");
    put_name(pen, action.text());
    pen.text(b"\n");
}

// Writes a name.
fn put_name(pen: &mut Pen, name: &str)
    requires short { length name.now ≤ 40 }
    requires room { HasRoom pen.old 40 }
    ensures value { pen.new ≡ pen.old ++ name.now }
    ensures room { length pen.new ≤ length pen.old + 40 }
{
    pen.text(name.as_bytes());
}
