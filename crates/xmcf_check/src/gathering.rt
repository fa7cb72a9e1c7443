//! What a draft describes, gathered out of its entries.

mod channels;
mod health;
mod id_lists;
mod lists;
mod monitors;
mod partitions;
mod plans;

ghost use Rattle.std.specs.Prelude.{◌≡◌, IfOk, map};
ghost use Rattle.xmcf_reader.specs.Drafts.{IsDraft};
ghost use Rattle.xmcf_check.specs.lemmas.Capped.{capped_conf};
ghost use Rattle.xmcf_check.specs.Described.{described_conf, description_of};

use crate::gathered::Gathered;
use crate::gathering::channels::chans;
use crate::gathering::id_lists::ids;
use crate::gathering::lists::{hv_size, links, regions, system_name, uarts};
use crate::gathering::monitors::monitors;
use crate::gathering::partitions::parts;
use crate::gathering::plans::plans;
use std::alloc::Global;
use xm_base::Memory;
use xm_conf::RawConf;
use xmcf_reader::{Draft, Entry};

/// The configuration, with numbers that no field holds capped.
fn raw(alloc: Global, entries: &[Entry]) -> Result<RawConf, Memory>
    requires draft { IsDraft entries.now }
    ensures { IfOk result (λ raw. raw ≡ capped_conf (described_conf entries.now)) }
{
    let uarts = uarts(alloc, entries)?;
    let parts = parts(alloc, &uarts, entries)?;
    let chans = chans(alloc, &parts, entries)?;
    Ok(RawConf {
        name: system_name(entries),
        regions: regions(alloc, entries)?,
        hv_size: hv_size(entries),
        uarts,
        plans: plans(alloc, entries)?,
        parts,
        chans,
        links: links(alloc, entries)?,
    })
}

/// What a draft describes.
pub(crate) fn gather(alloc: Global, draft: &Draft) -> Result<Gathered, Memory>
    ensures conf { IfOk result (λ g. g.raw ≡ capped_conf (description_of draft.now).conf) }
    ensures ids { IfOk result (λ g. g.ids ≡ (description_of draft.now).ids) }
    ensures answers { IfOk result (λ g. g.answers ≡ map (λ monitor. monitor.answers) (description_of draft.now).monitors) }
{
    let entries = draft.entries();
    Ok(Gathered {
        raw: raw(alloc, entries)?,
        ids: ids(alloc, entries)?,
        answers: monitors(alloc, entries)?,
    })
}
