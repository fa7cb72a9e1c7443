//! Answers to health events are allowed, and each event has one.

ghost use Rattle.std.specs.Prelude.{◌≡◌, ◌<◌, ◌≤◌, length, map};
ghost use Rattle.xm_conf.specs.Limits.{most_parts};
ghost use Rattle.xm_conf.specs.Along.{added_by_each, head_of};
ghost use Rattle.xm_conf.specs.Rules as rules;
ghost use Rattle.xm_conf.specs.declared.item.Item.TheVariants as item;
ghost use Rattle.xmcf_check.specs.lemmas.Answered.{answers_broken};

use crate::broken::unless;
use crate::gathered::Answer;
use xm_conf::{Broken, Item, allowed, first_of_each, has_plan, repeated};

/// Whether two answers are to one event.
#[tactic(auto, unfolding(xm_conf::specs::Rules::same_event))]
fn same_event(a: &Answer, b: &Answer) -> bool
    ensures { result ≡ rules.same_event a.now b.now }
{
    a.event.number() == b.event.number()
}

/// An answer to the event of one before it.
fn repeated_answer(p: u8, before: &[Answer], answer: &Answer) -> Option<Broken>
    requires { length before.now ≤ 12 }
    ensures { result ≡ head_of (rules.repeated 19 (item.Event p) rules.same_event before.now answer.now) }
{
    repeated(
        19,
        before,
        answer,
        |a, b| same_event(a, b),
        |n| Item::Event(p, n),
    )
}

/// An answer that is not allowed, that is to the event of one before it, or whose plan is none.
#[tactic(auto, using(xm_conf::specs::lemmas::AlongLemmas::in_turn), unfolding(xm_conf::specs::Rules::answer_broken))]
fn answer_broken(plans: usize, p: u8, before: &[Answer], answer: &Answer) -> Option<Broken>
    requires { length before.now ≤ 12 }
    ensures { result ≡ head_of (rules.answer_broken plans p before.now answer.now) }
{
    let n = before.len() as u8;
    let broken = unless(allowed(answer.event, answer.action), 19, Item::Event(p, n));
    if broken.is_some() {
        return broken;
    }
    let broken = repeated_answer(p, before, answer);
    if broken.is_some() {
        return broken;
    }
    unless(has_plan(plans, answer.action), 19, Item::Event(p, n))
}

/// The first answer of a partition that may not stand.
#[tactic(auto, using(xm_conf::specs::lemmas::AlongLemmas::along_loop), unfolding(crate::specs::lemmas::Answered::answers_broken))]
fn answers_broken(plans: usize, p: u8, answers: &[Answer]) -> Option<Broken>
    ensures { result ≡ head_of (answers_broken plans p answers.now) }
{
    for (n, answer) in answers.iter().enumerate() {
        let broken = answer_broken(plans, p, &answers[..n], answer);
        if broken.is_some() {
            return broken;
        }
    }
    None
}

/// The first answer of a partition that may not stand.
fn lists_broken(plans: usize, answers: &[Vec<Answer>]) -> Option<Broken>
    requires { length answers.now ≤ most_parts }
    ensures { result ≡ head_of (added_by_each (λ p list. answers_broken plans p list.items) answers.now) }
{
    first_of_each(answers, |p, list| answers_broken(plans, p, list))
}

/// The first answer that may not stand.
pub(crate) fn rule_19(plans: usize, answers: &[Vec<Answer>]) -> Option<Broken>
    requires { length answers.now ≤ most_parts }
    ensures { result ≡ head_of (added_by_each (answers_broken plans) (map (λ list. list.items) answers.now)) }
{
    lists_broken(plans, answers)
}
