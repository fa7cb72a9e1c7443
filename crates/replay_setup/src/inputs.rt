//! The input words of the one partition that is replayed.

ghost use Rattle.std.specs.Prelude.{◌<◌, ◌≡◌, ◌^◌, IfOk, length};
ghost use Rattle.builders.specs.Ready.{inputs_given};
ghost use Rattle.replay_setup.specs.lemmas.ReadiedTerms.{GivesOr};

use crate::unready::Unready;
use std::alloc::Global;
use xm_base::PartId;
use xm_machine::{InputFault, Inputs};

/// The input words of this many partitions of which this one has those that bytes spell, and the others none.
pub(crate) fn inputs_given(
    alloc: Global,
    parts: u8,
    p: PartId,
    bytes: &[u8],
) -> Result<Inputs, Unready>
    requires there { p < parts }
    requires few { length bytes.now < 2 ^ 34 }
    ensures value { GivesOr (λ inputs. inputs) result (inputs_given parts p bytes.now) }
    ensures count { IfOk result (λ inputs. length inputs ≡ parts) }
{
    let Ok(mut inputs) = Inputs::new(alloc, parts) else {
        return Err(Unready::Memory);
    };
    match inputs.set(p, bytes) {
        Ok(()) => Ok(inputs),
        Err(InputFault::Length { found }) => Err(Unready::OddInput { found }),
        Err(InputFault::Memory) => Err(Unready::Memory),
    }
}
