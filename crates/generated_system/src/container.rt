//! The container of a generated system.

ghost use Rattle.std.specs.Prelude.{◌≡◌, IfOk, Ok};
ghost use Rattle.bin_config.specs.declared.version.Version.TheVariants.{Two};
ghost use Rattle.loaded_system.specs.System.{System as Meaning};
ghost use Rattle.xm_container.specs.Box.{box_text};
ghost use Rattle.xm_container.specs.Reading.{unpacked};
ghost use Rattle.generated_system.specs.Generated.{generated};

use crate::configuration::configuration;
use crate::images::images;
use std::alloc::Global;
use xm_base::Memory;
use xm_container::{BoxFault, PackFault, System, pack, unpack};

/// The container of the system that is generated out of a number.
pub fn container_of(alloc: Global, number: u32) -> Result<Vec<u8>, Memory>
    // The container of the system that is generated from a seed, whatever the seed; unpacking it gives that system.
    ensures text { IfOk result (λ bytes. bytes.items ≡ box_text Two (generated number)) }
    ensures read { IfOk result (λ bytes. unpacked bytes.items ≡ Ok (generated number)) }
{
    let conf = configuration(alloc, number)?;
    let images = images(alloc)?;
    match pack(alloc, &conf, &images) {
        Ok(bytes) => Ok(bytes),
        Err(fault) => Err(starved(fault)),
    }
}

// The one fault that is left, since the system is one that is packed.
fn starved(fault: PackFault) -> Memory
    requires { fault ≡ PackFault.Memory }
{
    let PackFault::Memory = fault else {
        unreachable!();
    };
    Memory
}

/// The system whose container these bytes are.
pub fn system_in(alloc: Global, bytes: &[u8]) -> Result<System, Memory>
    // Called with bytes that are a container.
    requires { (system : Meaning) × (unpacked bytes.now ≡ Ok system) }
    // The system that bytes are a container of.
    ensures { IfOk result (λ system. unpacked bytes.now ≡ Ok system) }
{
    match unpack(alloc, bytes) {
        Ok(system) => Ok(system),
        Err(BoxFault::Memory) => Err(Memory),
        Err(_) => unreachable!(),
    }
}
