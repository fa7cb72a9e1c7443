//! The configuration of what is gathered, or the first rule that it breaks.

ghost use Rattle.std.specs.Prelude.{◌≡◌, false, IfErr, IfOk, None, Some, length, map};
ghost use Rattle.xm_conf.specs.Description.{Description, described};
ghost use Rattle.xm_conf.specs.Limits.{most_parts};
ghost use Rattle.xm_conf.specs.Rules.{first_broken};
ghost use Rattle.xmcf_check.specs.lemmas.Judged.{Gathers, HasSizes, Judges, gathered_of};
ghost use Rattle.xmcf_check.specs.lemmas.Reported.{HasFew, first_reported, is_within};

use crate::answers::rule_19;
use crate::gathered::{Answer, Gathered, Ids};
use crate::ids::rule_2;
use xm_base::proof;
use xm_conf::{Broken, Conf, RawConf, broken_unless_fits};

/// Whether a broken rule, where there is one, has at most this number.
fn is_within(last: u8, found: Option<Broken>) -> bool
    ensures { result ≡ is_within last found }
{
    match found {
        Some(broken) => broken.rule <= last,
        None => false,
    }
}

/// The first broken rule of the ids, the answers and what is found among the other rules.
#[tactic(auto, unfolding(crate::specs::lemmas::Reported::first_reported, crate::specs::lemmas::Reported::reported_among))]
fn first_reported(
    found: Option<Broken>,
    plans: usize,
    ids: &Ids,
    answers: &[Vec<Answer>],
) -> Option<Broken>
    requires { is_within 1 found ≡ false → HasFew ids.now (length answers.now) }
    ensures { result ≡ first_reported plans ids.now (map (λ list. list.items) answers.now) found }
{
    if is_within(1, found) {
        return found;
    }
    let broken = rule_2(ids);
    if broken.is_some() {
        return broken;
    }
    if is_within(18, found) {
        return found;
    }
    let broken = rule_19(plans, answers);
    if broken.is_some() {
        return broken;
    }
    found
}

/// The configuration, where its ids and answers to health events aside it breaks no rule, or the first that it breaks.
fn configured(raw: RawConf) -> Result<Conf, Broken>
    ensures kept { IfOk result (λ conf. conf ≡ raw) }
    ensures none { IfOk result (λ conf. first_broken most_parts (described raw) ≡ None) }
    ensures broken { IfErr result (λ broken. first_broken most_parts (described raw) ≡ Some broken) }
{
    proof! { broken_unless_fits(); }
    Conf::new(raw)
}

/// The first broken rule, where this one is broken.
fn first_with(broken: Broken, plans: usize, ids: &Ids, answers: &[Vec<Answer>]) -> Broken
    requires { is_within 1 (Some broken) ≡ false → HasFew ids.now (length answers.now) }
    ensures { Some result ≡ first_reported plans ids.now (map (λ list. list.items) answers.now) (Some broken) }
{
    match first_reported(Some(broken), plans, ids, answers) {
        Some(first) => first,
        None => broken,
    }
}

/// How many plans there are.
fn plan_count(raw: &RawConf) -> usize
    ensures { result ≡ length raw.now.plans }
{
    raw.plans.len()
}

/// The configuration, or the first broken rule.
fn judged(raw: RawConf, ids: &Ids, answers: &[Vec<Answer>]) -> Result<Conf, Broken>
    requires { HasSizes (gathered_of raw ids.now (map (λ list. list.items) answers.now)) }
    ensures { (d : Description) → Gathers (gathered_of raw ids.now (map (λ list. list.items) answers.now)) d → Judges result d }
{
    let plans = plan_count(&raw);
    match configured(raw) {
        Ok(conf) => match first_reported(None, plans, ids, answers) {
            Some(broken) => Err(broken),
            None => Ok(conf),
        },
        Err(broken) => Err(first_with(broken, plans, ids, answers)),
    }
}

/// The configuration, or the first broken rule.
pub(crate) fn judge(gathered: Gathered) -> Result<Conf, Broken>
    requires { HasSizes gathered }
    ensures { (d : Description) → Gathers gathered d → Judges result d }
{
    let Gathered { raw, ids, answers } = gathered;
    judged(raw, &ids, &answers)
}
