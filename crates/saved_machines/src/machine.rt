//! The reading of a whole saved machine.

ghost use Rattle.std.specs.Prelude.{◌≡◌, IfOk, codes, length, map};
ghost use Rattle.codecs.specs.Files.{read_to_end};
ghost use Rattle.codecs.specs.Gives.{ReadsOr};
ghost use Rattle.file_headers.specs.Gives.{Gives};
ghost use Rattle.guest_memory.specs.Loading.{memory_areas};
ghost use Rattle.guest_memory.specs.Memories.{map_at};
ghost use Rattle.saved_machines.specs.Reading.{Fails, saved_value};
ghost use Rattle.saved_machines.specs.Restorable.{IsRestorable};
ghost use Rattle.saved_machines.specs.SavedFormat.{machine_format, saved_format};
ghost use Rattle.saved_machines.specs.declared.fault.SavedFault.TheVariants as fault;
ghost use Rattle.xm_base.specs.Cursor.{past};
ghost use Rattle.saved_machines.specs.lemmas.ReadTerms.{machine_in, machine_read};

use crate::content::contents;
use crate::fault::SavedFault;
use crate::head::{Head, first_head, unsealed_machine};
use crate::part::{SavedParts, parts};
use crate::values::MachineValues;
use guest_memory::Ram;
use std::alloc::Global;
use xm_base::{Cursor, proof};
use xm_conf::Conf;
use xm_ports::ContentValue;

/// A saved machine.
#[derive(Debug, Drop)]
pub struct Saved {
    /// The digest of its container.
    pub container: [u8; 16],
    /// All that it is restored from, but for the input words.
    pub values: MachineValues,
    /// The input words that are left, of each partition.
    pub inputs: Vec<Vec<u32>>,
}

/// The machine of what was read.
fn gathered(head: Head, channels: Vec<ContentValue>, parts: SavedParts) -> Saved
    ensures value { saved_value result ≡ machine_read head channels parts }
    ensures inputs { result.inputs ≡ parts.inputs }
{
    let container = head.container;
    Saved {
        container,
        values: MachineValues {
            parts: parts.values,
            channels,
            plan: head.clock.plan,
            frame_start: head.clock.frame_start,
            asked: head.clock.asked,
            time: head.time,
            ticks: head.ticks,
            resets: head.resets,
            halted: head.halted,
        },
        inputs: parts.inputs,
    }
}

/// The machine after the bytes of name, version and length.
fn machine(
    alloc: Global,
    cursor: &mut Cursor<'_>,
    conf: &Conf,
    loaded: &Ram,
    container: [u8; 16],
) -> Result<Saved, SavedFault>
    requires start { cursor.old.at ≡ 0 }
    requires memory { length loaded.now.areas ≡ length conf.now.parts }
    ensures value { ReadsOr fault.Memory saved_value result cursor.new ((machine_format conf.now (λ p. map_at p loaded.now) container).read (past 10 cursor.old)) }
    ensures counted { IfOk result (λ saved. length saved.inputs.items ≡ length conf.now.parts) }
{
    let head = first_head(cursor, conf, container)?;
    let channels = contents(alloc, cursor, &conf.raw().chans)?;
    let parts = parts(alloc, cursor, conf, loaded, &head)?;
    Ok(gathered(head, channels, parts))
}

/// The machine in the bytes before the digest, with nothing after it.
#[tactic(auto, unfolding(crate::specs::lemmas::ReadTerms::machine_in))]
fn whole_machine(
    alloc: Global,
    conf: &Conf,
    loaded: &Ram,
    container: [u8; 16],
    before: &[u8],
) -> Result<Saved, SavedFault>
    requires memory { length loaded.now.areas ≡ length conf.now.parts }
    ensures value { Gives Fails saved_value result (machine_in conf.now (λ p. map_at p loaded.now) container before.now) }
    ensures counted { IfOk result (λ saved. length saved.inputs.items ≡ length conf.now.parts) }
{
    let mut cursor = Cursor::new(before);
    let saved = machine(alloc, &mut cursor, conf, loaded, container)?;
    if cursor.left() > 0 {
        return Err(SavedFault::Trailing { at: cursor.at() });
    }
    Ok(saved)
}

/// Reads a saved machine that runs a container: all that it is restored from, or the first fault of its file.
#[tactic(auto, unfolding(crate::specs::lemmas::ReadTerms::machine_in))]
pub fn read_machine(
    alloc: Global,
    conf: &Conf,
    loaded: &Ram,
    container: [u8; 16],
    bytes: &[u8],
) -> Result<Saved, SavedFault>
    // Called with the memories of the configuration's partitions as their images are loaded.
    requires memories { loaded.now.areas ≡ map memory_areas conf.now.parts }
    // The machine is the one that the bytes spell; a fault is the first one of the file, or being out of memory.
    ensures value { Gives Fails saved_value result ((saved_format conf.now (λ p. map_at p loaded.now) container).read bytes.now) }
    // It can be restored.
    ensures restorable { IfOk result (λ saved. IsRestorable conf.now (saved_value saved)) }
    // There are input words for each partition.
    ensures inputs { IfOk result (λ saved. length saved.inputs.items ≡ length conf.now.parts) }
{
    // It meets the rules.
    proof! {
        let _raw = conf.raw();
    }
    let before = unsealed_machine(bytes)?;
    whole_machine(alloc, conf, loaded, container, before)
}
