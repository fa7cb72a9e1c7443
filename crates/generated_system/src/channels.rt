//! The channels, each from one partition to the next.

ghost use Rattle.std.specs.Prelude.{◌≡◌, ◌<◌, IfOk};
ghost use Rattle.generated_system.specs.Generated.{all_chans, chan_of};

use std::alloc::Global;
use xm_base::Memory;
use xm_conf::{Chan, ChanKind, End};

/// How many channels there are.
const CHANNELS: u8 = 8;

/// All channels.
#[tactic(auto, using(crate::proofs::NumberedLemmas::numbered_more), unfolding(crate::specs::Generated::all_chans))]
pub(crate) fn channels(alloc: Global) -> Result<Vec<Chan>, Memory>
    ensures { IfOk result (λ chans. chans.items ≡ all_chans) }
{
    let mut chans = Vec::new(alloc);
    for number in 0..CHANNELS {
        chans.push(channel(alloc, number)?)?;
    }
    Ok(chans)
}

// A channel: four messages of a byte.
#[tactic(auto, unfolding(crate::specs::Generated::chan_of))]
fn channel(alloc: Global, number: u8) -> Result<Chan, Memory>
    requires { number < 8 }
    ensures { IfOk result (λ chan. chan ≡ chan_of number) }
{
    let source = End {
        part: 2 * number,
        port: 0,
    };
    let dest = End {
        part: 2 * number + 1,
        port: 0,
    };
    Ok(Chan {
        kind: ChanKind::Queuing { most: 4 },
        length: 1,
        source,
        dests: Vec::from_array(alloc, [dest])?,
    })
}
