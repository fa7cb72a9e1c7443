//! The whole file.

ghost use Rattle.std.specs.Prelude.{◌≡◌, ◌+◌, ◌≤◌, IfOk, length};
ghost use Rattle.saved_machines.specs.Savable.{IsSavedMachine};
ghost use Rattle.saved_machines.specs.Saving.{saved_file};
ghost use Rattle.xm_ports.specs.Channels.{shapes_of};
ghost use Rattle.machine_saves.specs.Gives.{IsSavedFile};
ghost use Rattle.machine_saves.specs.Loaded.{AreLoaded};
ghost use Rattle.machine_saves.specs.lemmas.SaveTerms.{machine_text, sealed_text, text_before};

use crate::channels::put_channels;
use crate::head::put_machine_head;
use crate::not_saved::NotSaved;
use crate::parts::put_parts;
use crate::ranges::look_at_machine;
use file_headers::{put_half, put_word};
use guest_memory::Ram;
use md5::{Digest, Md5};
use std::alloc::Global;
use system_state::Sys;
use xm_base::{FILE_BYTES, Memory, proof};

/// The name of the format.
const MAGIC: [u8; 4] = *b"XMSM";

/// The version that is written.
const VERSION: u16 = 1;

/// The bytes of name, version, length and digest.
const FRAME_BYTES: usize = 26;

/// The file of a machine that runs a container with this digest. `loaded` has the memory of each partition as it is
/// loaded: of a machine's memory only what is not as it is there is saved. A machine that is refused for its length takes
/// memory for all its bytes, too.
pub fn save(
    alloc: Global,
    sys: &Sys,
    loaded: &Ram,
    container: [u8; 16],
) -> Result<Vec<u8>, NotSaved>
    // Called for a system whose channels are those of its configuration, and with memories in which each partition's
    // image is loaded, with zeros in all other places.
    requires shapes { sys.now.shapes ≡ shapes_of sys.now.machine.system.conf }
    requires loaded { AreLoaded sys.now.machine.system loaded.now }
    // The file is the one spelling of what is saved of the machine; one that is longer than a file may be is refused with
    // its length.
    ensures file { IsSavedFile (λ file. file.items) (saved_file container sys.now.machine) result }
    // The numbers of a machine that has a file are in the ranges of their fields, and a byte stands at each address of a
    // partition's areas and at no other.
    ensures stored { IfOk result (λ file. IsSavedMachine sys.now.machine) }
{
    // As many partitions run as are configured, and the numbers of a machine are in the ranges of their fields.
    proof! {
        let _count = sys.count();
        look_at_machine(sys, loaded);
    }
    let fields = fields(alloc, sys, loaded, &container)?;
    sealed_within(alloc, &fields)
}

/// The bytes between the head and the digest.
#[tactic(auto, unfolding(crate::specs::lemmas::SaveTerms::machine_text))]
fn fields(alloc: Global, sys: &Sys, loaded: &Ram, container: &[u8]) -> Result<Vec<u8>, Memory>
    requires shapes { sys.now.shapes ≡ shapes_of sys.now.machine.system.conf }
    requires loaded { AreLoaded sys.now.machine.system loaded.now }
    ensures { IfOk result (λ bytes. bytes.items ≡ machine_text container.now sys.now.machine) }
{
    let mut bytes = Vec::new(alloc);
    put_machine_head(&mut bytes, sys, container)?;
    put_channels(&mut bytes, sys)?;
    put_parts(alloc, &mut bytes, sys, loaded)?;
    Ok(bytes)
}

/// The file with these fields, where it is not too long.
fn sealed_within(alloc: Global, fields: &[u8]) -> Result<Vec<u8>, NotSaved>
    ensures { IsSavedFile (λ file. file.items) (sealed_text fields.now) result }
{
    let found = FRAME_BYTES + fields.len();
    if found > FILE_BYTES {
        return Err(NotSaved::Length {
            found: found as u64,
        });
    }
    Ok(sealed(alloc, fields)?)
}

/// A file with these fields: its head before them, and its digest after them.
#[tactic(auto, unfolding(crate::specs::lemmas::SaveTerms::sealed_text))]
fn sealed(alloc: Global, fields: &[u8]) -> Result<Vec<u8>, Memory>
    requires { 26 + length fields.now ≤ 16777216 }
    ensures { IfOk result (λ file. file.items ≡ sealed_text fields.now) }
{
    let total = FRAME_BYTES + fields.len();
    let mut file = before_digest(alloc, total as u32, fields)?;
    let digest = Md5::digest(file.as_slice());
    file.extend_from_slice(&digest)?;
    Ok(file)
}

/// What stands before the digest.
#[tactic(auto, unfolding(crate::specs::lemmas::SaveTerms::text_before))]
fn before_digest(alloc: Global, total: u32, fields: &[u8]) -> Result<Vec<u8>, Memory>
    requires { total ≡ 26 + length fields.now }
    ensures { IfOk result (λ bytes. bytes.items ≡ text_before fields.now) }
{
    let mut bytes = Vec::new(alloc);
    bytes.extend_from_slice(&MAGIC)?;
    put_half(&mut bytes, VERSION)?;
    put_word(&mut bytes, total)?;
    bytes.extend_from_slice(fields)?;
    Ok(bytes)
}
