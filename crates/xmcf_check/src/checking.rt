//! The verdict on a draft.

ghost use Rattle.std.specs.Prelude.{◌≡◌, OnOk};
ghost use Rattle.xm_conf.specs.Fits.{Fits};
ghost use Rattle.xmcf_check.specs.Described.{description_of};
ghost use Rattle.xmcf_check.specs.Verdict.{IsVerdict, broken_with_places};

use crate::gathering::gather;
use crate::judging::judge;
use crate::places::place;
use fault_messages::CheckFault;
use std::alloc::Global;
use xm_base::proof;
use xm_conf::{Broken, Conf, broken_unless_fits};
use xmcf_reader::Draft;

/// The configuration that a draft describes, or the first rule that it breaks, with the places of the two items: of the
/// one that breaks it and of the one that it clashes with. A place is how many bytes stand before an element's `<`; the
/// whole has that of the root. The numbers of the draft are tested as they are written, and never cut.
pub fn check(alloc: Global, draft: &Draft) -> Result<Conf, CheckFault>
    // The configuration that the draft describes comes only where it breaks no rule; else the first broken rule is
    // reported, with the places of the item that breaks it and of the one that it clashes with, or there was no memory.
    ensures verdict { IsVerdict result draft.now }
    // What is given meets the rules.
    ensures fits { OnOk result (Fits (description_of draft.now)) }
{
    proof! { broken_unless_fits(); }
    let gathered = gather(alloc, draft)?;
    match judge(gathered) {
        Ok(conf) => Ok(conf),
        Err(broken) => Err(at_places(draft, broken)),
    }
}

/// A broken rule with the places of its two items.
fn at_places(draft: &Draft, broken: Broken) -> CheckFault
    ensures { result ≡ broken_with_places draft.now broken }
{
    CheckFault::Rule {
        rule: broken.rule,
        at: place(draft, broken.first),
        and: place(draft, broken.second),
    }
}
