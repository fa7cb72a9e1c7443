//! The partitions.

ghost use Rattle.std.specs.Prelude.{◌≡◌, ◌<◌, ◌≤◌, ◌++◌, ◌∷◌, [], IfErr, IfOk, OnOk, length, map, slice_index};
ghost use Rattle.codecs.specs.Codec.{each_of};
ghost use Rattle.codecs.specs.Gives.{ReadsOr};
ghost use Rattle.guest_memory.specs.Loading.{area_of, memory_areas};
ghost use Rattle.guest_memory.specs.Memories.{map_at};
ghost use Rattle.machine_model.specs.Lists.{table};
ghost use Rattle.machine_model.specs.Partition.{is_halted};
ghost use Rattle.machine_model.specs.View.{part_of};
ghost use Rattle.saved_machines.specs.Reading.{head_value};
ghost use Rattle.saved_machines.specs.SavedFormat.{partition_format, store_format};
ghost use Rattle.saved_machines.specs.Values.{part_of_values};
ghost use Rattle.saved_machines.specs.declared.fault.SavedFault.TheVariants as fault;
ghost use Rattle.saved_machines.specs.lemmas.ReadTerms.{AreStatusRegisters, part_read, parts_value, registers_of, stored_value};

use crate::fault::SavedFault;
use crate::fields::word;
use crate::head::Head;
use crate::logs::{HealthLog, TraceLog, health, traces};
use crate::pages::pages;
use crate::processor::{PartStanding, StatusRegisters, begun, processor, standing, timer, traps};
use crate::store::{globals, inputs, made, windows};
use crate::values::{Page, PartValues};
use guest_memory::Ram;
use sparc_step::Core;
use std::alloc::Global;
use virt_clocks::Timer;
use virt_traps::Virt;
use xm_base::{Cursor, State};
use xm_conf::{Area, Conf};

/// What a partition has stored.
#[derive(Debug, Drop)]
pub(crate) struct StoredPart {
    made: [bool; 32],
    globals: [u32; 8],
    windows: [u32; 128],
    traces: TraceLog,
    health: HealthLog,
    inputs: Vec<u32>,
    pages: Vec<Vec<Page>>,
}

/// The values of each partition, and its input words that are left.
#[derive(Debug, Drop)]
pub(crate) struct SavedParts {
    pub(crate) values: Vec<PartValues>,
    pub(crate) inputs: Vec<Vec<u32>>,
}

/// Whether a state is that of a partition that has halted.
fn is_halted(state: State) -> bool
    ensures { result ≡ is_halted state }
{
    state == State::Halted
}

/// The areas of partition `p`.
#[tactic(auto, unfolding(machine_model::specs::View::part_of, guest_memory::specs::Loading::memory_areas))]
fn areas_of(conf: &Conf, p: u8) -> &[Area]
    requires { p < length conf.now.parts }
    ensures { map area_of result.now ≡ memory_areas (part_of conf.now p) }
{
    let part = &conf.raw().parts[usize::from(p)];
    &part.areas
}

/// What partition `p` has stored, which has halted or not, and has so many input words left.
fn stored(
    alloc: Global,
    cursor: &mut Cursor<'_>,
    conf: &Conf,
    loaded: &Ram,
    head: &Head,
    p: u8,
    halted: bool,
    left: u32,
) -> Result<StoredPart, SavedFault>
    requires partition { p < length conf.now.parts }
    requires memory { p < length loaded.now.areas }
    requires ticks { head.now.ticks ≤ 4000000000 }
    ensures value { ReadsOr fault.Memory stored_value result cursor.new ((store_format conf.now (map_at p loaded.now) (head_value head.now) p halted left).read cursor.old) }
    ensures zero { IfOk result (λ stored. slice_index stored.globals 0 ≡ 0) }
{
    let made = made(cursor, conf, p)?;
    let globals = globals(cursor)?;
    let windows = windows(cursor)?;
    let traces = traces(alloc, cursor, head.ticks)?;
    let health = health(alloc, cursor, begun(head.ticks, head.halted || halted))?;
    let inputs = inputs(alloc, cursor, left)?;
    let pages = pages(alloc, cursor, loaded, p, areas_of(conf, p))?;
    Ok(StoredPart {
        made,
        globals,
        windows,
        traces,
        health,
        inputs,
        pages,
    })
}

/// All registers of a partition.
fn core_of(registers: StatusRegisters, globals: [u32; 8], windows: [u32; 128]) -> Core
    requires registers { AreStatusRegisters registers }
    requires zero { slice_index globals 0 ≡ 0 }
    ensures { result ≡ registers_of registers globals windows }
{
    Core {
        pc: registers.pc,
        npc: registers.npc,
        y: registers.y,
        icc: registers.icc,
        cwp: registers.cwp,
        inv: registers.inv,
        globals,
        windows,
    }
}

/// The values of a partition, and its input words that are left.
fn part_values(
    standing: PartStanding,
    registers: StatusRegisters,
    virt: Virt,
    hardware_timer: Option<Timer>,
    execution_timer: Option<Timer>,
    stored: StoredPart,
) -> (PartValues, Vec<u32>)
    requires registers { AreStatusRegisters registers }
    requires zero { slice_index stored.globals 0 ≡ 0 }
    ensures { part_of_values result.0 result.1.items ≡ part_read standing registers virt hardware_timer execution_timer stored }
{
    let core = core_of(registers, stored.globals, stored.windows);
    let made = stored.made;
    let traces = stored.traces;
    let health = stored.health;
    let values = PartValues {
        core,
        virt,
        execution: standing.execution,
        hardware_timer,
        execution_timer,
        state: standing.state,
        resets: standing.resets,
        reset_status: standing.reset_status,
        made,
        next_trace: traces.next,
        traces: traces.entries,
        next_health: health.next,
        health: health.entries,
        pages: stored.pages,
    };
    (values, stored.inputs)
}

/// Partition `p`.
fn partition(
    alloc: Global,
    cursor: &mut Cursor<'_>,
    conf: &Conf,
    loaded: &Ram,
    head: &Head,
    p: u8,
) -> Result<(PartValues, Vec<u32>), SavedFault>
    requires partition { p < length conf.now.parts }
    requires memory { p < length loaded.now.areas }
    requires ticks { head.now.ticks ≤ 4000000000 }
    ensures { ReadsOr fault.Memory (λ part. part_of_values part.0 part.1.items) result cursor.new ((partition_format conf.now (map_at p loaded.now) (head_value head.now) p).read cursor.old) }
{
    let standing = standing(cursor, head, p)?;
    let registers = processor(cursor)?;
    let virt = traps(cursor)?;
    let hardware_timer = timer(cursor)?;
    let execution_timer = timer(cursor)?;
    let left = word(cursor)?;
    let halted = is_halted(standing.state);
    let stored = stored(alloc, cursor, conf, loaded, head, p, halted, left)?;
    Ok(part_values(
        standing,
        registers,
        virt,
        hardware_timer,
        execution_timer,
        stored,
    ))
}

/// All partitions.
pub(crate) fn parts(
    alloc: Global,
    cursor: &mut Cursor<'_>,
    conf: &Conf,
    loaded: &Ram,
    head: &Head,
) -> Result<SavedParts, SavedFault>
    requires memory { length loaded.now.areas ≡ length conf.now.parts }
    requires ticks { head.now.ticks ≤ 4000000000 }
    ensures value { ReadsOr fault.Memory parts_value result cursor.new ((each_of (λ p. partition_format conf.now (map_at p loaded.now) (head_value head.now) p) (table (λ p. p) (length conf.now.parts))).read cursor.old) }
    ensures counted { IfOk result (λ parts. length parts.inputs.items ≡ length conf.now.parts) }
{
    let mut parts = SavedParts {
        values: Vec::new(alloc),
        inputs: Vec::new(alloc),
    };
    for p in 0..conf.part_count() {
        let (values, words) = partition(alloc, cursor, conf, loaded, head, p)?;
        put_part(&mut parts, values, words)?;
    }
    Ok(parts)
}

/// One partition more.
fn put_part(parts: &mut SavedParts, values: PartValues, words: Vec<u32>) -> Result<(), SavedFault>
    ensures put { OnOk result ((parts.new.values.items ≡ parts.old.values.items ++ values ∷ []) × (parts.new.inputs.items ≡ parts.old.inputs.items ++ words ∷ [])) }
    ensures memory { IfErr result (λ found. found ≡ fault.Memory) }
{
    match parts.values.push(values) {
        Ok(()) => {}
        Err(_) => return Err(SavedFault::Memory),
    }
    match parts.inputs.push(words) {
        Ok(()) => Ok(()),
        Err(_) => Err(SavedFault::Memory),
    }
}
