//! The configuration of a generated system.

ghost use Rattle.std.specs.Prelude.{◌≡◌, IfOk};
ghost use Rattle.generated_system.specs.Generated.{generated_conf, conf_with};

use crate::channels::channels;
use crate::parts::{name, parts};
use crate::plan::plan;
use std::alloc::Global;
use xm_base::{Memory, proof};
use xm_conf::{Conf, RawConf, Region, broken_unless_fits};

/// The region, and the hypervisor's share of it.
const REGION_START: u32 = 0x4000_0000;

const REGION_BYTES: u32 = 0x0040_0000;

const HYPERVISOR_BYTES: u32 = 0x0001_0000;

/// The configuration of the system that is generated out of a number.
pub(crate) fn configuration(alloc: Global, number: u32) -> Result<Conf, Memory>
    ensures { IfOk result (λ conf. conf ≡ generated_conf number) }
{
    proof! { broken_unless_fits(); }
    let raw = raw(alloc, number)?;
    let Ok(conf) = Conf::new(raw) else {
        unreachable!();
    };
    Ok(conf)
}

// What it is made of.
#[tactic(auto, unfolding(crate::specs::Generated::generated_conf, crate::specs::Generated::conf_with))]
fn raw(alloc: Global, number: u32) -> Result<RawConf, Memory>
    ensures { IfOk result (λ raw. raw ≡ generated_conf number) }
{
    let region = Region {
        start: REGION_START,
        size: REGION_BYTES,
    };
    let plan = plan(alloc, number)?;
    Ok(RawConf {
        name: name(b"gen"),
        regions: Vec::from_array(alloc, [region])?,
        hv_size: HYPERVISOR_BYTES,
        uarts: Vec::new(alloc),
        plans: Vec::from_array(alloc, [plan])?,
        parts: parts(alloc)?,
        chans: channels(alloc)?,
        links: Vec::new(alloc),
    })
}
