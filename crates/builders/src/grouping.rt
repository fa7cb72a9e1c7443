//! Prints the groups of a system description's partitions.

ghost use Rattle.std.specs.Prelude.{◌≡◌, ◌++◌, ◌<◌, ◌≤◌, ◌&&◌, ◌^◌, [], IfOk, OnOk, length, not, ◌+◌, ◌*◌};
ghost use Rattle.xm_conf.specs.Along.{added_by_each};
ghost use Rattle.xm_conf.specs.Limits.{most_parts};
ghost use Rattle.xm_report.specs.Report.{HasRoom};
ghost use Rattle.xm_flows.specs.Masks.{group_of, members_of};
ghost use Rattle.builders.specs.lemmas.GroupingTerms.{comma_unless, id_text};
ghost use Rattle.builders.specs.Grouping.{covered_text, group_line, group_line_in, groups_for, groups_of, ids_below, joined_by_commas, members_text};
ghost use Rattle.builders.specs.Makes.{Makes};

use crate::parsing::{parts_of, read_conf};
use crate::unmade::Unmade;
use std::alloc::Global;
use xm_base::{Memory, PartId};
use xm_conf::{Conf, Part};
use xm_flows::{Group, group};
use xm_report::Pen;

/// The lines of the partitions of a text.
#[tactic(auto, unfolding(crate::specs::Grouping::groups_of))]
pub(crate) fn groups(alloc: Global, text: &[u8]) -> Result<Vec<u8>, Unmade>
    requires { length text.now < 2 ^ 32 }
    ensures { Makes result (groups_of text.now) }
{
    match read_conf(alloc, text) {
        Ok(conf) => groups_for(alloc, &conf),
        Err(why) => Err(why),
    }
}

// The lines of the partitions of a configuration.
fn groups_for(alloc: Global, conf: &Conf) -> Result<Vec<u8>, Unmade>
    ensures { Makes result (groups_for conf.now) }
{
    put_groups(alloc, conf, parts_of(conf)).map_err(|_| Unmade::Memory)
}

/// The lines of the partitions of a configuration, where there is memory for them.
pub(crate) fn put_groups(alloc: Global, conf: &Conf, parts: &[Part]) -> Result<Vec<u8>, Memory>
    requires same { parts.now ≡ conf.now.parts }
    requires few { length parts.now ≤ most_parts }
    ensures { IfOk result (λ lines. lines.items ≡ added_by_each (group_line_in conf.now) parts.now) }
{
    let mut lines = Vec::new(alloc);
    for (p, _) in parts.iter().enumerate() {
        put_group(&mut lines, conf, p as u8)?;
    }
    Ok(lines)
}

// Puts the line of a partition with its group after others.
fn put_group(lines: &mut Vec<u8>, conf: &Conf, p: PartId) -> Result<(), Memory>
    requires { p < length conf.now.parts }
    ensures { OnOk result (lines.new.items ≡ lines.old.items ++ group_line p (group_of conf.now p)) }
{
    let mut pen = Pen::new();
    group_line(&mut pen, p, group(conf, p));
    lines.extend_from_slice(pen.bytes())?;
    Ok(())
}

// Writes the line of a partition with its group.
#[tactic(auto, unfolding(crate::specs::Grouping::group_line))]
fn group_line(pen: &mut Pen, p: PartId, found: Group)
    requires { pen.old ≡ [] }
    ensures { pen.new ≡ group_line p found }
{
    pen.text(b"P");
    pen.number(u64::from(p));
    pen.text(b" members=");
    put_members(pen, found);
    put_covered(pen, found.covered);
}

// Writes whether a group is covered.
fn put_covered(pen: &mut Pen, covered: bool)
    requires { HasRoom pen.old 13 }
    ensures { pen.new ≡ pen.old ++ covered_text covered }
{
    if covered {
        pen.text(b" covered=yes\n");
    } else {
        pen.text(b" covered=no\n");
    }
}

// Writes the ids of a group's members.
#[tactic(auto, unfolding(crate::specs::Grouping::members_text))]
fn put_members(pen: &mut Pen, found: Group)
    requires { HasRoom pen.old 672 }
    ensures value { pen.new ≡ pen.old ++ members_text found }
    ensures room { length pen.new ≤ length pen.old + 672 }
{
    put_ids(pen, found, 32);
}

// Writes the ids of the members below a number.
#[tactic(auto, using(crate::proofs::GroupingLemmas::text_more, crate::proofs::GroupingLemmas::first_more))]
fn put_ids(pen: &mut Pen, found: Group, count: u8)
    requires room { HasRoom pen.old 672 }
    requires few { count ≤ 32 }
    ensures value { pen.new ≡ pen.old ++ joined_by_commas (ids_below found.members count) }
    ensures room { length pen.new ≤ length pen.old + 21 * count }
{
    let mut first = true;
    for p in 0..count {
        first = put_id(pen, found, p, first);
    }
}

// Writes the id of a partition that is a member, after a comma where it is not the first. The answer is whether none was written yet.
fn put_id(pen: &mut Pen, found: Group, p: PartId, first: bool) -> bool
    requires { HasRoom pen.old 21 }
    ensures value { pen.new ≡ pen.old ++ id_text first (members_of found.members p) p }
    ensures first { result ≡ (first && not (members_of found.members p)) }
    ensures room { length pen.new ≤ length pen.old + 21 }
{
    if !found.has(p) {
        return first;
    }
    put_comma(pen, first);
    pen.number(u64::from(p));
    false
}

// Writes what stands before an id.
fn put_comma(pen: &mut Pen, first: bool)
    requires { HasRoom pen.old 1 }
    ensures value { pen.new ≡ pen.old ++ comma_unless first }
    ensures room { length pen.new ≤ length pen.old + 1 }
{
    if !first {
        pen.text(b",");
    }
}
