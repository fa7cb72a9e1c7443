//! The configuration of a system description, and its binary form.

ghost use Rattle.std.specs.Prelude.{◌≡◌, ◌<◌, ◌≤◌, ◌^◌, All, IfSome, length};
ghost use Rattle.xm_conf.specs.Fits.{IsNeed};
ghost use Rattle.xm_conf.specs.Limits.{most_parts};
ghost use Rattle.builders.specs.lemmas.MakesTerms.{Describes};
ghost use Rattle.builders.specs.Makes.{IsRefusalText, Makes};
ghost use Rattle.builders.specs.Parsing.{conf_by_verdict, conf_of, xmc_of};
ghost use Rattle.fault_messages.specs.Texts.{check_fault_text};
ghost use Rattle.xmcf_check.specs.Verdict.{verdict_of};
ghost use Rattle.xmcf_reader.specs.Texts.{read_fault_text};

use crate::unmade::Unmade;
use crate::unmade_by;
use bin_config::write_xmc;
use std::alloc::Global;
use xm_conf::{Conf, Part};
use xmcf_check::{CheckFault, check};
use xmcf_reader::{Draft, ReadFault, read_xmcf};

/// The binary configuration of a system description.
#[tactic(auto, unfolding(crate::specs::Parsing::xmc_of))]
pub(crate) fn make_xmc(alloc: Global, text: &[u8]) -> Result<Vec<u8>, Unmade>
    requires { length text.now < 2 ^ 32 }
    ensures { Makes result (xmc_of text.now) }
{
    match read_conf(alloc, text) {
        Ok(conf) => write_xmc(alloc, &conf).map_err(|_| Unmade::Memory),
        Err(why) => Err(why),
    }
}

/// The configuration of a system description.
#[tactic(auto, unfolding(crate::specs::Parsing::conf_of))]
pub(crate) fn read_conf(alloc: Global, text: &[u8]) -> Result<Conf, Unmade>
    requires { length text.now < 2 ^ 32 }
    ensures { Describes result (conf_of text.now) }
{
    match read_xmcf(alloc, text) {
        Ok(draft) => checked(alloc, &draft),
        Err(fault) => Err(unread(alloc, fault)),
    }
}

/// The partitions of a configuration.
#[tactic(auto, unfolding(xm_conf::specs::Description::described))]
pub(crate) fn parts_of(conf: &Conf) -> &[Part]
    ensures value { result.now ≡ conf.now.parts }
    ensures few { length result.now ≤ most_parts }
    ensures needs { All (λ part. IfSome part.need IsNeed) result.now }
{
    &conf.raw().parts
}

// The configuration of a draft.
fn checked(alloc: Global, draft: &Draft) -> Result<Conf, Unmade>
    ensures { Describes result (conf_by_verdict (verdict_of draft.now) draft.now) }
{
    match check(alloc, draft) {
        Ok(conf) => Ok(conf),
        Err(fault) => Err(unfit(alloc, fault)),
    }
}

// What is said of a text that is no system description.
fn unread(alloc: Global, fault: ReadFault) -> Unmade
    ensures text { IsRefusalText result (read_fault_text fault) }
    ensures memory { fault ≡ ReadFault.Memory → result ≡ Unmade.Memory }
{
    unmade_by!(alloc, fault, ReadFault::Memory)
}

// What is said of a draft that breaks a rule.
fn unfit(alloc: Global, fault: CheckFault) -> Unmade
    ensures text { IsRefusalText result (check_fault_text fault) }
    ensures memory { fault ≡ CheckFault.Memory → result ≡ Unmade.Memory }
{
    unmade_by!(alloc, fault, CheckFault::Memory)
}
