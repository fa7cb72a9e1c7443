//! Partitions: their consoles, requirements and answers to health events.

ghost use Rattle.std.specs.Prelude.{◌≡◌, ◌++◌, ◌<◌, ◌≤◌, length, map, nat_lt};
ghost use Rattle.xm_conf.specs.Along.{added_by_each, head_of, unless as unless_of};
ghost use Rattle.xm_conf.specs.lemmas.FitsTerms.{HasCounts};
ghost use Rattle.xm_conf.specs.Rules as rules;
ghost use Rattle.xm_conf.specs.lemmas.Walks as walks;
ghost use Rattle.xm_conf.specs.declared.item.Item.TheVariants as item;
ghost use Rattle.xm_conf.specs.Description.{event_numbered, monitor_of};

use super::broken::unless;
use crate::first::first_of_each;
use crate::health::{Action, EVENTS, Event, allowed, has_plan};
use crate::item::{Broken, Item};
use crate::part::{HmTable, Need, Part};
use crate::raw::RawConf;

const LONGEST: u32 = 1_000_000_000;

const FLAGS: u16 = 1 << 12;

/// Whether a console is one of this many UARTs, where there is one.
fn is_console(uarts: usize, console: Option<u8>) -> bool
    ensures { result ≡ rules.is_console uarts console }
{
    match console {
        Some(uart) => usize::from(uart) < uarts,
        None => true,
    }
}

/// A partition whose console is no UART.
#[tactic(auto, unfolding(crate::specs::Rules::no_console))]
fn no_console(uarts: usize, n: u8, part: &Part) -> Option<Broken>
    ensures { result ≡ head_of (rules.no_console uarts n part.now) }
{
    unless(is_console(uarts, part.console), 14, Item::Part(n))
}

/// Whether a requirement, where there is one, is a time in a period.
#[tactic(auto, unfolding(crate::specs::Rules::longest))]
fn is_need(need: Option<Need>) -> bool
    ensures { result ≡ rules.is_need need }
{
    match need {
        Some(need) => {
            0 < need.duration && need.duration <= need.period && need.period <= LONGEST
        }
        None => true,
    }
}

/// A partition whose requirement is none.
#[tactic(auto, unfolding(crate::specs::Rules::unfit_need))]
fn unfit_need(n: u8, part: &Part) -> Option<Broken>
    ensures { result ≡ head_of (rules.unfit_need n part.now) }
{
    unless(is_need(part.need), 20, Item::Part(n))
}

/// The event of a number.
#[tactic(auto, unfolding(crate::specs::Description::event_numbered))]
fn event_of(n: u8) -> Event
    requires { n < 12 }
    ensures { result ≡ event_numbered n }
{
    EVENTS[usize::from(n)]
}

/// An action that is not allowed for its event, or whose plan is none.
#[tactic(auto, unfolding(crate::specs::lemmas::Walks::action_broken))]
fn action_broken(plans: usize, p: u8, n: u8, action: Action) -> Option<Broken>
    requires { n < 12 }
    ensures { result ≡ head_of (walks.action_broken plans p n action) }
{
    if !allowed(event_of(n), action) {
        return unless(false, 19, Item::Event(p, n));
    }
    unless(has_plan(plans, action), 19, Item::Event(p, n))
}

/// The first of the actions of a partition that is not allowed, or whose plan is none.
fn actions_broken(plans: usize, p: u8, actions: &[Action]) -> Option<Broken>
    requires { length actions.now ≤ 12 }
    ensures { result ≡ head_of (added_by_each (walks.action_broken plans p) actions.now) }
{
    first_of_each(actions, |n, action| action_broken(plans, p, n, *action))
}

/// A table that logs an event that is none, or the first of its actions that may not stand.
#[tactic(auto, using(crate::specs::lemmas::AlongLemmas::in_turn))]
fn table_broken(plans: usize, p: u8, hm: &HmTable) -> Option<Broken>
    ensures first { result ≡ head_of (unless_of (nat_lt hm.now.logged 4096) (rules.alone 19 (item.Part p)) ++ added_by_each (walks.action_broken plans p) hm.now.actions) }
    ensures few { length hm.now.actions ≤ 12 }
{
    let broken = unless(hm.logged < FLAGS, 19, Item::Part(p));
    if broken.is_some() {
        return broken;
    }
    actions_broken(plans, p, &hm.actions)
}

/// A partition that logs an event that is none, or the first of its actions that may not stand.
#[tactic(auto, using(crate::proofs::AnswerLemmas::monitor_broken_table), unfolding(crate::specs::lemmas::Walks::part_monitor))]
fn part_monitor(plans: usize, p: u8, part: &Part) -> Option<Broken>
    ensures { result ≡ head_of (walks.part_monitor plans p part.now) }
{
    table_broken(plans, p, &part.hm)
}

/// The first partition whose console is no UART.
#[tactic(auto, unfolding(crate::specs::Rules::rule_14))]
pub(super) fn rule_14(raw: &RawConf) -> Option<Broken>
    requires { HasCounts raw.now }
    ensures { result ≡ head_of (rules.rule_14 raw.now) }
{
    first_of_each(&raw.parts, |n, part| no_console(raw.uarts.len(), n, part))
}

/// The first partition or action that breaks the rule on health events.
#[tactic(auto, using(crate::proofs::AnswerLemmas::rule_19_tables))]
pub(super) fn rule_19(raw: &RawConf) -> Option<Broken>
    requires { HasCounts raw.now }
    ensures { result ≡ head_of (rules.rule_19 (length raw.now.plans) (map monitor_of raw.now.parts)) }
{
    first_of_each(&raw.parts, |n, part| part_monitor(raw.plans.len(), n, part))
}

/// The first partition whose requirement is none.
#[tactic(auto, unfolding(crate::specs::Rules::rule_20))]
pub(super) fn rule_20(raw: &RawConf) -> Option<Broken>
    requires { HasCounts raw.now }
    ensures { result ≡ head_of (rules.rule_20 raw.now) }
{
    first_of_each(&raw.parts, unfit_need)
}
