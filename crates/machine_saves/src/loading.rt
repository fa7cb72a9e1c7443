//! The memories of a system as they are loaded.

ghost use Rattle.std.specs.Prelude.{◌≡◌, ℕ, ◌≤◌, IfOk, List, length, map};
ghost use Rattle.guest_memory.specs.Loading.{memory_areas};
ghost use Rattle.loaded_system.specs.System.{IsSystem};
ghost use Rattle.system_state.specs.State.{with_inputs};
ghost use Rattle.xm_conf.specs.Limits.{most_parts};
ghost use Rattle.machine_saves.specs.Loaded.{AreLoaded};
ghost use Rattle.machine_saves.specs.lemmas.SaveTerms.{HasImage};

use guest_memory::Ram;
use loaded_system::System;
use std::alloc::Global;
use xm_base::Memory;

/// The memories of a system's partitions as they are loaded: what `save` compares with.
pub fn load(alloc: Global, system: &System) -> Result<Ram, Memory>
    // Each image is loaded, with zeros in all other places, whatever input words the partitions have.
    ensures { IfOk result (λ ram. (inputs : List (List ℕ)) → AreLoaded (with_inputs system.now inputs) ram) }
{
    let mut ram = Ram::new(alloc, system.conf())?;
    load_images(&mut ram, system);
    Ok(ram)
}

/// Loads the image of each partition.
fn load_images(ram: &mut Ram, system: &System)
    requires areas { ram.old.areas ≡ map memory_areas system.now.conf.parts }
    requires held { length ram.old.maps ≡ length system.now.conf.parts }
    ensures areas { ram.new.areas ≡ ram.old.areas }
    ensures loaded { (q : ℕ) → HasImage q system.now.conf.parts system.now.images ram.new }
{
    for p in 0..count(system) {
        ram.reload(p, system.image(p));
    }
}

/// How many partitions a system has.
fn count(system: &System) -> u8
    ensures value { result ≡ length system.now.conf.parts }
    ensures few { result ≤ most_parts }
    ensures system { IsSystem system.now }
{
    system.conf().part_count()
}
