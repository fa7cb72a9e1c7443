//! A binary configuration of either version is made again in version 2.

ghost use Rattle.std.specs.Prelude.{◌≡◌, IfOk, Ok};
ghost use Rattle.bin_config.specs.Reading.{read_of};
ghost use Rattle.fault_messages.specs.Texts.{xmc_fault_text};
ghost use Rattle.builders.specs.Makes.{IsRefusalText, Makes};
ghost use Rattle.builders.specs.Parsing.{upgraded_of};

use crate::unmade::Unmade;
use crate::unmade_by;
use bin_config::{XmcFault, read_xmc, write_xmc};
use std::alloc::Global;

/// The binary configuration of a file of either version, in version 2.
#[tactic(auto, unfolding(crate::specs::Parsing::upgraded_of))]
pub(crate) fn make_upgraded(alloc: Global, bytes: &[u8]) -> Result<Vec<u8>, Unmade>
    ensures exact { Makes result (upgraded_of bytes.now) }
    ensures same { IfOk result (λ out. read_of out.items ≡ read_of bytes.now) }
    ensures once { IfOk result (λ out. upgraded_of out.items ≡ Ok out.items) }
{
    match read_xmc(alloc, bytes) {
        Ok(conf) => write_xmc(alloc, &conf).map_err(|_| Unmade::Memory),
        Err(fault) => Err(no_configuration(alloc, fault)),
    }
}

/// What is said of a file that is no configuration.
pub fn no_configuration(alloc: Global, fault: XmcFault) -> Unmade
    // The refusal has the text of the binary configuration's fault.
    ensures text { IsRefusalText result (xmc_fault_text fault) }
    // Out of memory is the answer where that was the fault.
    ensures memory { fault ≡ XmcFault.Memory → result ≡ Unmade.Memory }
{
    unmade_by!(alloc, fault, XmcFault::Memory)
}
