//! The partitions of a system as they boot.

ghost use Rattle.std.specs.Prelude.{◌≡◌, ◌≤◌, IfOk, map, length};
ghost use Rattle.guest_memory.specs.Loading.{memory_areas};
ghost use Rattle.loaded_system.specs.System.{IsSystem};
ghost use Rattle.system_state.specs.lemmas.StateTerms.{booted_own, loaded_all};
ghost use Rattle.xm_conf.specs.Limits.{most_parts};

use crate::own_state::PartState;
use loaded_system::System;
use predecoded_memory::PredecodedRam;
use std::alloc::Global;
use xm_base::{Memory, proof};

/// The memories of a system's partitions, with their images loaded.
pub(crate) fn load(alloc: Global, system: &System) -> Result<PredecodedRam, Memory>
    ensures areas { IfOk result (λ ram. ram.areas ≡ map memory_areas system.now.conf.parts) }
    ensures maps { IfOk result (λ ram. ram.maps ≡ loaded_all system.now.conf.parts system.now.images) }
{
    let mut ram = PredecodedRam::new(alloc, system.conf())?;
    load_images(&mut ram, system);
    Ok(ram)
}

// Loads the image of each partition.
fn load_images(ram: &mut PredecodedRam, system: &System)
    requires areas { ram.old.areas ≡ map memory_areas system.now.conf.parts }
    ensures areas { ram.new.areas ≡ ram.old.areas }
    ensures maps { ram.new.maps ≡ loaded_all system.now.conf.parts system.now.images }
{
    // Its contract says that there is a memory for each partition.
    proof! { let _selected = ram.selected(); }
    for p in 0..count(system) {
        ram.reload(p, system.image(p));
    }
}

/// The states of a system's partitions as they boot.
pub(crate) fn boot_parts(alloc: Global, system: &System) -> Result<Vec<PartState>, Memory>
    ensures { IfOk result (λ owns. owns.items ≡ map (λ image. booted_own image.entry) system.now.images) }
{
    let mut parts = Vec::with_capacity(alloc, usize::from(count(system)))?;
    for p in 0..count(system) {
        parts.push_reserved(PartState::boot(alloc, system.image(p).entry())?);
    }
    Ok(parts)
}

/// How many partitions a system has.
pub(crate) fn count(system: &System) -> u8
    ensures value { result ≡ length system.now.conf.parts }
    ensures few { result ≤ most_parts }
    ensures system { IsSystem system.now }
{
    system.conf().part_count()
}
