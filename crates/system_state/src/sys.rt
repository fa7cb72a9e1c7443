//! The whole system.

ghost use Rattle.std.specs.Prelude.{◌≡◌, ◌+◌, ◌-◌, ◌%◌, ◌^◌, ◌<◌, ◌≤◌, true, IfOk, IfSome, OnErr, OnOk, length, map, slice_get};
ghost use Rattle.std.specs.Borrow.{sem};
ghost use Rattle.cyclic_plans.specs.PlanClock.{AsksPlan, IsInFrame, ended, entered_plan};
ghost use Rattle.guest_bus.specs.Memory.{all_from, is_readable, is_writable};
ghost use Rattle.guest_memory.specs.Loading.{memory_areas};
ghost use Rattle.guest_memory.specs.Memories.{answer_by, first_refused};
ghost use Rattle.loaded_system.specs.System.{IsSystem};
ghost use Rattle.virt_traps.specs.Settled.{GoesOn, settled};
ghost use Rattle.xef_images.specs.Image.{IsImage};
ghost use Rattle.xm_ports.specs.Channels.{shapes_of};
ghost use Rattle.xm_ports.specs.Ports.{created, with_port};
ghost use Rattle.machine_model.specs.Caller.{with_written};
ghost use Rattle.machine_model.specs.Health.{after_delivery};
ghost use Rattle.machine_model.specs.LocalTick.{turned_state};
ghost use Rattle.machine_model.specs.Machine.{start};
ghost use Rattle.machine_model.specs.Partition.{loaded_memory, resets_after};
ghost use Rattle.machine_model.specs.View.{view_of};
ghost use Rattle.system_state.specs.State.{areas_in, memory_of, part_at, with_inputs, with_machine, with_memory, with_part, input_words_of};
ghost use Rattle.system_state.specs.Lending.{LendsChannels, LendsPart, LendsPlanClock};
ghost use Rattle.virt_traps.specs.Stepping.{stepped};
ghost use Rattle.system_state.specs.Stepping.{IsGone, after_flush, after_return, delivered_to, flushed_in, returned_in, with_turned};
ghost use Rattle.xm_conf.specs.Limits.{most_parts};

use crate::deadlines::least_but;
use crate::gone::Gone;
use crate::inputs::Inputs;
use crate::own_state::PartState;
use crate::starting::{boot_parts, count, load};
use crate::stepping::{deliver_part, flush_part, return_part, settle_part, step_part};
use cyclic_plans::PlanClock;
use guest_memory::{Outside, Ram};
use loaded_system::System;
use predecoded_memory::PredecodedRam;
use sparc_step::Turn;
use std::alloc::Global;
use std::marker::Model;
use virt_traps::{IretFault, StackFault};
use xef_images::Xef;
use xm_base::{Memory, Mode, PartId};
use xm_conf::{Conf, Kind, Part};
use xm_ports::{Channels, CreateFault};

pub mod engine;
pub mod messages;
pub mod restoring;
pub mod upsets;

/// How many bytes a message has at most.
const MESSAGE_BYTES: usize = 4096;

/// A system that was booted: its partitions, memories, channels and clocks.
#[derive(Debug, Drop)]
pub struct Sys {
    system: System,
    inputs: Inputs,
    parts: Vec<PartState>,
    ram: PredecodedRam,
    channels: Channels,
    plan_clock: PlanClock,
    time: u64,
    ticks: u64,
    resets: u32,
    halted: bool,
    // Where it is set, no hardware timer is armed; where it is not, one may be. It is no part of what the system means.
    untimed: bool,
    // No hardware timer is due before this time, but for that of the partition whose state was lent last, or that worked. Neither is a
    // part of what the system means.
    least: u64,
    lent: Option<PartId>,
    // A message on its way to a channel. It is no part of what the system means.
    message: [u8; MESSAGE_BYTES],
}

impl Model for Sys {
    ghost use Rattle.std.specs.Coded.{codes};
    ghost use Rattle.guest_bus.specs.Memory.{memory_code};
    ghost use Rattle.system_state.specs.State.{IsKeptSo, SysState, kept_so};

    ghost Value = { SysState };

    ghost coded = { Prim.hlevel (codes, memory_code) };

    ghost view = { λ a. kept_so a.system a.inputs a.parts.items a.ram a.channels a.plan_clock a.time a.ticks a.resets a.halted };

    ghost invariant = { λ a. IsKeptSo a.system a.inputs a.parts.items a.ram a.untimed a.least a.lent };
}

impl Sys {
    /// A system as it boots: each partition is ready at its image's entry, with its image loaded and zeros in all other
    /// places of its memory. All memory is taken here: no other call needs any.
    pub fn new(alloc: Global, system: System, inputs: Inputs) -> Result<Sys, Memory>
        // Called with inputs for each partition.
        requires { length inputs ≡ length system.conf.parts }
        // The machine boots as defined, with channels of the configuration's shapes.
        ensures machine { IfOk result (λ sys. sys.machine ≡ start (with_inputs system inputs)) }
        ensures shapes { IfOk result (λ sys. sys.shapes ≡ shapes_of system.conf) }
        // What it was given is a system: each segment lies inside one area of its partition.
        ensures system { IsSystem system }
    {
        let ram = load(alloc, &system)?;
        let parts = boot_parts(alloc, &system)?;
        let channels = Channels::new(alloc, system.conf())?;
        Ok(Sys {
            system,
            inputs,
            parts,
            ram,
            channels,
            plan_clock: PlanClock::start(),
            time: 0,
            ticks: 0,
            resets: 0,
            halted: false,
            untimed: true,
            least: u64::MAX,
            lent: None,
            message: [0; MESSAGE_BYTES],
        })
    }

    /// The configuration.
    pub fn conf(&self) -> &Conf
        // The configuration of the system.
        ensures value { result.now ≡ self.now.machine.system.conf }
    {
        self.system.conf()
    }

    /// What the configuration says of a partition.
    pub fn configured(&self, p: PartId) -> &Part
        // Called for a partition that exists.
        requires { p < length self.now.machine.parts }
        // What the configuration says of the partition.
        ensures value { result.now ≡ (view_of self.now.machine.system p).part }
    {
        &self.system.conf().raw().parts[usize::from(p)]
    }

    /// The image of a partition.
    pub fn image(&self, p: PartId) -> &Xef
        // Called for a partition that exists.
        requires { p < length self.now.machine.parts }
        // The partition's image.
        ensures value { result.now ≡ (view_of self.now.machine.system p).image }
        // It keeps the rules of an image.
        ensures image { IsImage result.now }
    {
        self.system.image(p)
    }

    /// The state of a partition.
    pub fn part(&self, p: PartId) -> &PartState
        // Called for a partition that exists.
        requires { p < length self.now.machine.parts }
        // A partition's state but for its memory and its input words.
        ensures value { part_at p self.now.machine ≡ with_memory result.now (memory_of p self.now.machine) (input_words_of p self.now.machine) }
    {
        &self.parts[usize::from(p)]
    }

    /// The state of a partition, to be changed. Its memory and its input words stay.
    pub fn part_mut(&mut self, p: PartId) -> &mut PartState
        // Called for a partition that exists.
        requires { p < length self.now.machine.parts }
        // What is lent to be changed is the state of that partition, but for its memory and its input words, and
        // nothing else changes.
        ensures* lent { sem 𝓛 (LendsPart self.entry p result) }
        // It has the partition's state.
        ensures value { part_at p self.old.machine ≡ with_memory result.now (memory_of p self.old.machine) (input_words_of p self.old.machine) }
    {
        self.untimed = false;
        self.least = least_but(&self.parts, self.lent, self.least, Some(p));
        self.lent = Some(p);
        &mut self.parts[usize::from(p)]
    }

    /// The memories of all partitions.
    pub fn ram(&self) -> &Ram
        // The memories with their areas.
        ensures areas { result.now.areas ≡ map memory_areas self.now.machine.system.conf.parts }
        ensures maps { result.now.maps ≡ map (λ part. part.memory) self.now.machine.parts }
    {
        self.ram.ram()
    }

    /// Whether a partition may read this many bytes from an address on.
    pub fn may_read(&self, p: PartId, address: u32, size: u32) -> bool
        // Called for a partition that exists.
        requires { p < length self.now.machine.parts }
        // Whether the partition may read all of these bytes.
        ensures value { result ≡ all_from (is_readable (areas_in p self.now.machine)) address size }
    {
        self.ram.may_read(p, address, size)
    }

    /// Whether a partition may write this many bytes from an address on.
    pub fn may_write(&self, p: PartId, address: u32, size: u32) -> bool
        // Called for a partition that exists.
        requires { p < length self.now.machine.parts }
        // Whether the partition may write all of these bytes.
        ensures value { result ≡ all_from (is_writable (areas_in p self.now.machine)) address size }
    {
        self.ram.may_write(p, address, size)
    }

    /// An input word of a partition, or `None` after its last.
    pub fn input(&self, p: PartId, place: usize) -> Option<u32>
        // Called for a partition that exists.
        requires { p < length self.now.machine.parts }
        // The input word at this place, or none after the last.
        ensures value { result ≡ slice_get (input_words_of p self.now.machine) place }
        // The place after it is a number that can be counted.
        ensures few { IfSome result (λ word. place + 1 < 2 ^ 64) }
    {
        self.inputs.word(p, place)
    }

    /// How many input words a partition has not read.
    pub fn inputs_left(&self, p: PartId) -> usize
        // Called for a partition that exists.
        requires { p < length self.now.machine.parts }
        ensures value { result ≡ length (part_at p self.now.machine).inputs }
    {
        self.inputs.left(p, self.parts[usize::from(p)].used)
    }

    /// What the channels hold.
    pub fn channels(&self) -> &Channels
        // The channels.
        ensures contents { result.now.contents ≡ self.now.machine.channels }
        ensures shapes { result.now.shapes ≡ self.now.shapes }
    {
        &self.channels
    }

    /// What the channels hold, to be changed.
    pub fn channels_mut(&mut self) -> &mut Channels
        // What is lent to be changed is the channels, and nothing else changes.
        ensures* lent { sem 𝓛 (LendsChannels self.entry result) }
        // It has what the channels hold, in their shapes.
        ensures contents { result.now.contents ≡ self.old.machine.channels }
        ensures shapes { result.now.shapes ≡ self.old.shapes }
    {
        &mut self.channels
    }

    /// The plan clock.
    pub fn plan_clock(&self) -> &PlanClock
        ensures value { result.now ≡ self.now.machine.clock }
    {
        &self.plan_clock
    }

    /// The plan clock, to be changed.
    pub fn plan_clock_mut(&mut self) -> &mut PlanClock
        // What is lent to be changed is the plan clock, and nothing else changes.
        ensures* lent { sem 𝓛 (LendsPlanClock self.entry result) }
        // It has the plan clock.
        ensures value { result.now ≡ self.old.machine.clock }
    {
        &mut self.plan_clock
    }

    /// How many partitions there are.
    pub fn count(&self) -> u8
        // How many partitions there are.
        ensures value { result ≡ length self.now.machine.parts }
        // There is a partition for each of the configuration.
        ensures parts { length self.now.machine.parts ≡ length self.now.machine.system.conf.parts }
        // There are no more than the limit.
        ensures few { result ≤ most_parts }
    {
        count(&self.system)
    }

    /// The hardware clock: the ticks since boot or since the last reset of the hypervisor.
    pub fn now(&self) -> u64
        // The hardware clock.
        ensures value { result ≡ self.now.machine.time }
    {
        self.time
    }

    /// Sets the hardware clock.
    pub fn set_now(&mut self, now: u64)
        ensures value { self.new ≡ with_machine (record self.old.machine { time = now }) self.old }
    {
        self.time = now;
    }

    /// How many ticks were done since boot.
    pub fn ticks(&self) -> u64
        // The ticks since boot.
        ensures value { result ≡ self.now.machine.ticks }
    {
        self.ticks
    }

    /// Counts ticks of one slot or gap, which the hardware clock counts, too.
    pub fn pass_ticks(&mut self, ticks: u64)
        // Called where the hardware clock does not wrap and where the count of ticks does not wrap.
        requires time { self.old.machine.time + ticks < 2 ^ 64 }
        requires done { self.old.machine.ticks + ticks < 2 ^ 64 }
        // Ticks are counted.
        ensures value { self.new ≡ with_machine (record self.old.machine { time = self.old.machine.time + ticks; ticks = self.old.machine.ticks + ticks }) self.old }
    {
        self.time += ticks;
        self.ticks += ticks;
    }

    /// Counts ticks of one frame, and ends it where it ends with them. The answer is the plan that starts after them, where it is
    /// another than before.
    pub fn end_ticks(&mut self, ticks: u64) -> Option<u8>
        // Called for at least one tick, where the hardware clock does not wrap, and where the count of ticks does not
        // wrap whose last tick is inside the frame.
        requires some { 0 < ticks }
        requires time { self.old.machine.time + ticks < 2 ^ 64 }
        requires done { self.old.machine.ticks + ticks < 2 ^ 64 }
        requires frame { IsInFrame self.old.machine.system.conf self.old.machine.clock (self.old.machine.time + ticks - 1) }
        // Ticks of one frame are counted, and end it where it ends with them; the plan that starts after them, where it
        // is another one; the clock stays in its frame.
        ensures value { self.new ≡ with_machine (record self.old.machine { clock = ended self.old.machine.system.conf self.old.machine.clock (self.old.machine.time + ticks - 1); time = self.old.machine.time + ticks; ticks = self.old.machine.ticks + ticks }) self.old }
        ensures plan { result ≡ entered_plan self.old.machine.system.conf self.old.machine.clock (self.old.machine.time + ticks - 1) }
        ensures kept { AsksPlan self.old.machine.system.conf self.old.machine.clock → IsInFrame self.new.machine.system.conf self.new.machine.clock self.new.machine.time }
    {
        let last = self.time + ticks - 1;
        self.time += ticks;
        self.ticks += ticks;
        self.plan_clock.advance(self.system.conf(), last)
    }

    /// How many warm resets of the hypervisor there were since the last cold one.
    pub fn resets(&self) -> u32
        // The count of resets.
        ensures value { result ≡ self.now.machine.resets }
    {
        self.resets
    }

    /// Counts a reset of the hypervisor: a cold one sets the counter to zero, and it goes on at zero after 2^32 - 1.
    pub fn count_reset(&mut self, mode: Mode)
        // A reset is counted, a cold one from zero.
        ensures value { self.new ≡ with_machine (record self.old.machine { resets = resets_after mode self.old.machine.resets }) self.old }
    {
        self.resets = match mode {
            Mode::Cold => 0,
            Mode::Warm => self.resets.wrapping_add(1),
        };
    }

    /// Whether the hypervisor has halted.
    pub fn halted(&self) -> bool
        ensures value { result ≡ self.now.machine.halted }
    {
        self.halted
    }

    /// Halts the hypervisor.
    pub fn halt(&mut self)
        // The hypervisor halts.
        ensures value { self.new ≡ with_machine (record self.old.machine { halted = true }) self.old }
    {
        self.halted = true;
    }

    /// One instruction of a partition, with the window that it needs.
    pub fn step_core(&mut self, p: PartId) -> Turn
        // Called for a partition that exists.
        requires { p < length self.old.machine.parts }
        // One instruction of a partition, with the window that it needs; nothing else changes.
        ensures turn { result ≡ (settled (areas_in p self.old.machine) (part_at p self.old.machine).core (memory_of p self.old.machine)).turn }
        ensures value { self.new ≡ with_machine (with_part p (turned_state (settled (areas_in p self.old.machine) (part_at p self.old.machine).core (memory_of p self.old.machine)) (part_at p self.old.machine)) self.old.machine) self.old }
        ensures called { result ≡ Turn.Call → GoesOn (part_at p self.old.machine).core (part_at p self.new.machine).core }
    {
        settle_part(&mut self.parts[usize::from(p)].core, &mut self.ram, p)
    }

    /// Steps of a partition, at most this many, up to the first that does more than go.
    #[inline(always)]
    pub fn step_many(&mut self, p: PartId, most: u64) -> Gone
        // Called for a partition that exists.
        requires { p < length self.old.machine.parts }
        // As many steps of one partition as are asked for, up to the first that does more than go, with the registers
        // and the memory that this one leaves, which are those before it where it trapped, but for a spill; nothing
        // else changes.
        ensures went { (stepped result.went (areas_in p self.old.machine) (part_at p self.old.machine).core (memory_of p self.old.machine)).turn ≡ Turn.Went }
        ensures gone { IsGone result.turn result.went most (areas_in p self.old.machine) (stepped result.went (areas_in p self.old.machine) (part_at p self.old.machine).core (memory_of p self.old.machine)) (part_at p self.new.machine).core (memory_of p self.new.machine) }
        ensures at { result.pc ≡ (stepped result.went (areas_in p self.old.machine) (part_at p self.old.machine).core (memory_of p self.old.machine)).core.pc }
        // The program counter is a multiple of 4.
        ensures aligned { result.pc % 4 ≡ 0 }
        // Only the registers and the memory of this partition may have changed.
        ensures others { self.new ≡ with_machine (with_part p (with_turned (part_at p self.new.machine).core (memory_of p self.new.machine) (part_at p self.old.machine)) self.old.machine) self.old }
    {
        step_part(&mut self.parts[usize::from(p)].core, &mut self.ram, p, most)
    }

    /// Delivers a trap of a type to a partition, or answers that a window could not be spilled, and then nothing has changed. What is
    /// pending stays so.
    pub fn deliver_to(&mut self, p: PartId, tt: u8) -> Result<(), StackFault>
        // Called for a partition that exists.
        requires { p < length self.old.machine.parts }
        // A trap is delivered to a partition, or its window could not be spilled, and then nothing changed.
        ensures answer { result ≡ (delivered_to tt (areas_in p self.old.machine) (part_at p self.old.machine)).answer }
        ensures value { self.new ≡ with_machine (with_part p (after_delivery (delivered_to tt (areas_in p self.old.machine) (part_at p self.old.machine)) (part_at p self.old.machine)) self.old.machine) self.old }
        ensures unchanged { OnErr result (self.new ≡ self.old) }
    {
        let own = &mut self.parts[usize::from(p)];
        deliver_part(&mut own.virt, &mut own.core, &mut self.ram, p, tt)
    }

    /// Returns from a partition's trap, or answers why it cannot, and then nothing has changed.
    pub fn return_in(&mut self, p: PartId) -> Result<(), IretFault>
        // Called for a partition that exists.
        requires { p < length self.old.machine.parts }
        // A partition returns from its trap, or answers why it cannot, and then nothing changed.
        ensures answer { result ≡ (returned_in (areas_in p self.old.machine) (part_at p self.old.machine)).answer }
        ensures value { self.new ≡ with_machine (with_part p (after_return (returned_in (areas_in p self.old.machine) (part_at p self.old.machine)) (part_at p self.old.machine)) self.old.machine) self.old }
        ensures unchanged { OnErr result (self.new ≡ self.old) }
    {
        let own = &mut self.parts[usize::from(p)];
        return_part(&mut own.virt, &mut own.core, &mut self.ram, p)
    }

    /// Spills a partition's windows, all but the current one, or answers that one could not be spilled; those before it stay spilled.
    pub fn flush_in(&mut self, p: PartId) -> Result<(), StackFault>
        // Called for a partition that exists.
        requires { p < length self.old.machine.parts }
        // A partition's windows but the current one are spilled, up to the first that cannot be.
        ensures answer { result ≡ (flushed_in (areas_in p self.old.machine) (part_at p self.old.machine)).answer }
        ensures value { self.new ≡ with_machine (with_part p (after_flush (flushed_in (areas_in p self.old.machine) (part_at p self.old.machine)) (part_at p self.old.machine)) self.old.machine) self.old }
    {
        flush_part(&mut self.parts[usize::from(p)].core, &mut self.ram, p)
    }

    /// Makes a port of a partition, and gives its number. The way is 0 for a source and 1 for a destination; `most` is looked at
    /// for queuing ports alone.
    pub fn create_port(
        &mut self,
        p: PartId,
        name: &[u8],
        kind: Kind,
        way: u32,
        size: u32,
        most: u32,
    ) -> Result<u8, CreateFault>
        // Called for a partition that exists.
        requires { p < length self.old.machine.parts }
        // A port of a partition is made, or refused, and then nothing changed.
        ensures answer { result ≡ created self.old.machine.system.conf p name.now kind way size most (part_at p self.old.machine).made }
        ensures made { IfOk result (λ port. self.new ≡ with_machine (with_part p (record (part_at p self.old.machine) { made = with_port port (part_at p self.old.machine).made }) self.old.machine) self.old) }
        ensures unchanged { OnErr result (self.new ≡ self.old) }
    {
        let ports = &mut self.parts[usize::from(p)].ports;
        ports.create(self.system.conf(), p, name, kind, way, size, most)
    }

    /// Loads a partition's image, and makes all other bytes of its memory zero.
    pub fn reload(&mut self, p: PartId)
        // Called for a partition that exists.
        requires { p < length self.old.machine.parts }
        // A partition's image is loaded, with zeros in all other places of its memory.
        ensures value { self.new ≡ with_machine (with_part p (record (part_at p self.old.machine) { memory = loaded_memory (view_of self.old.machine.system p) }) self.old.machine) self.old }
    {
        self.ram.reload(p, self.system.image(p));
    }

    /// Writes bytes to a partition's memory from an address on, where all of them may be written.
    pub fn copy_to(&mut self, p: PartId, address: u32, from: &[u8]) -> Result<(), Outside>
        // Called for a partition that exists.
        requires { p < length self.old.machine.parts }
        // Bytes are written to a partition's memory, or refused with the first address that is not allowed, and then
        // nothing changed.
        ensures answer { result ≡ answer_by (first_refused (is_writable (areas_in p self.old.machine)) address (length from.now)) }
        ensures written { OnOk result (self.new ≡ with_machine (with_part p (with_written address from.now (part_at p self.old.machine)) self.old.machine) self.old) }
        ensures unchanged { OnErr result (self.new ≡ self.old) }
    {
        self.ram.copy_out(p, address, from)
    }
}
