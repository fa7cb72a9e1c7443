//! The rules of a configuration: the first that is broken, and by which item.

ghost use Rattle.std.specs.Prelude.{◌≡◌, ◌≤◌};
ghost use Rattle.xm_conf.specs.Along.{head_of};
ghost use Rattle.xm_conf.specs.Description.{described};
ghost use Rattle.xm_conf.specs.lemmas.FitsTerms.{HasCounts};
ghost use Rattle.xm_conf.specs.Limits.{most_parts};
ghost use Rattle.xm_conf.specs.Rules as specs;
ghost use Rattle.xm_conf.specs.lemmas.Walks.{walk_broken};

mod areas;
mod broken;
mod channels;
mod counts;
mod ends;
mod links;
mod memory;
mod names;
mod partitions;
mod plans;
mod stretches;

use crate::item::Broken;
use crate::raw::RawConf;
use areas::{rule_7, rule_8, rule_10};
pub use broken::repeated;
use channels::{rule_15, rule_16, rule_17};
use counts::rule_1;
use ends::rule_18;
use links::links_broken;
use memory::regions_broken;
use names::rule_3;
use partitions::{rule_14, rule_19, rule_20};
use plans::{rule_11, rule_12, rule_13};
use stretches::rule_9;

/// The first item that breaks a rule on memory.
#[tactic(auto, using(crate::specs::lemmas::AlongLemmas::in_turn), unfolding(crate::specs::Rules::memory_rules))]
fn memory_broken(raw: &RawConf) -> Option<Broken>
    requires { HasCounts raw.now }
    ensures { result ≡ head_of (specs.memory_rules raw.now) }
{
    let broken = regions_broken(raw);
    if broken.is_some() {
        return broken;
    }
    let broken = rule_7(raw);
    if broken.is_some() {
        return broken;
    }
    let broken = rule_8(raw);
    if broken.is_some() {
        return broken;
    }
    let broken = rule_9(raw);
    if broken.is_some() {
        return broken;
    }
    rule_10(raw)
}

/// The first item that breaks a rule on plans and consoles.
#[tactic(auto, using(crate::specs::lemmas::AlongLemmas::in_turn), unfolding(crate::specs::Rules::plan_rules))]
fn plans_broken(raw: &RawConf) -> Option<Broken>
    requires { HasCounts raw.now }
    ensures { result ≡ head_of (specs.plan_rules raw.now) }
{
    let broken = rule_11(raw);
    if broken.is_some() {
        return broken;
    }
    let broken = rule_12(raw);
    if broken.is_some() {
        return broken;
    }
    let broken = rule_13(raw);
    if broken.is_some() {
        return broken;
    }
    rule_14(raw)
}

/// The first item that breaks a rule on channels.
#[tactic(auto, using(crate::specs::lemmas::AlongLemmas::in_turn), unfolding(crate::specs::Rules::chan_rules))]
fn channels_broken(raw: &RawConf) -> Option<Broken>
    requires { HasCounts raw.now }
    ensures { result ≡ head_of (specs.chan_rules raw.now) }
{
    let broken = rule_15(raw);
    if broken.is_some() {
        return broken;
    }
    let broken = rule_16(raw);
    if broken.is_some() {
        return broken;
    }
    let broken = rule_17(raw);
    if broken.is_some() {
        return broken;
    }
    rule_18(raw)
}

/// The first rule that is broken, in the order of the rules, where this many partitions are the most.
#[tactic(auto, using(crate::specs::lemmas::AlongLemmas::in_turn), unfolding(crate::specs::lemmas::Walks::walk_broken))]
fn walk(most: u8, raw: &RawConf) -> Option<Broken>
    requires { most ≤ most_parts }
    ensures { result ≡ head_of (walk_broken most raw.now) }
{
    let broken = rule_1(most, raw);
    if broken.is_some() {
        return broken;
    }
    let broken = rule_3(raw);
    if broken.is_some() {
        return broken;
    }
    let broken = memory_broken(raw);
    if broken.is_some() {
        return broken;
    }
    let broken = plans_broken(raw);
    if broken.is_some() {
        return broken;
    }
    let broken = channels_broken(raw);
    if broken.is_some() {
        return broken;
    }
    let broken = rule_19(raw);
    if broken.is_some() {
        return broken;
    }
    let broken = rule_20(raw);
    if broken.is_some() {
        return broken;
    }
    links_broken(raw)
}

/// The first rule that is broken, with the items, where this many partitions are the most.
#[tactic(auto, using(crate::proofs::WalkLemmas::walk_first))]
pub(crate) fn first_broken(most: u8, raw: &RawConf) -> Option<Broken>
    requires { most ≤ most_parts }
    ensures { result ≡ specs.first_broken most (described raw.now) }
{
    walk(most, raw)
}
