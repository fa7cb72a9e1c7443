//! What the processor does with the memory of a partition.

ghost use Rattle.std.specs.Prelude.{◌≡◌, ◌%◌, ◌<◌, OnErr, length};
ghost use Rattle.guest_memory.specs.Memories.{areas_at, map_at, with_map, with_selected};
ghost use Rattle.sparc_step.specs.Registers.{advanced};
ghost use Rattle.virt_traps.specs.Stepping.{stepped};
ghost use Rattle.virt_traps.specs.Delivery.{delivered, returned};
ghost use Rattle.virt_traps.specs.Moves.{move_made};
ghost use Rattle.virt_traps.specs.Settled.{GoesOn, settled};
ghost use Rattle.machine_model.specs.OwnEffects.{flushed};
ghost use Rattle.system_state.specs.Stepping.{IsGone};
ghost use Rattle.system_state.specs.lemmas.SteppingTerms.{IsMoved};

use crate::gone::Gone;
use fast_loop::Runs;
use guest_bus::Bus;
use predecoded_memory::PredecodedRam;
use sparc_step::{Processor, Turn};
use virt_traps::{
    IretFault, StackFault, Virt, deliver_cached, iret_cached, settle_cached, spill_cached,
};
use xm_base::{PartId, proof};

// Selects a partition, unless it is selected already.
fn select(ram: &mut PredecodedRam, p: PartId)
    requires { p < length ram.old.areas }
    ensures value { ram.new ≡ with_selected p ram.old }
{
    if ram.selected() != p {
        ram.select(p);
    }
}

/// One step of partition `p`, with the window that it needs.
pub(crate) fn settle_part(core: &mut Processor, ram: &mut PredecodedRam, p: PartId) -> Turn
    requires { p < length ram.old.areas }
    ensures turn { result ≡ (settled (areas_at p ram.old) core.old (map_at p ram.old)).turn }
    ensures core { core.new ≡ (settled (areas_at p ram.old) core.old (map_at p ram.old)).core }
    ensures memory { ram.new ≡ with_selected p (with_map p (settled (areas_at p ram.old) core.old (map_at p ram.old)).memory ram.old) }
    ensures called { result ≡ Turn.Call → GoesOn core.old core.new }
{
    select(ram, p);
    // It is selected before and after the step.
    proof! { let _before = ram.selected(); }
    let turn = settle_cached(core, ram);
    proof! { let _after = ram.selected(); }
    turn
}

/// Delivers a trap of a type to partition `p`.
pub(crate) fn deliver_part(
    virt: &mut Virt,
    core: &mut Processor,
    ram: &mut PredecodedRam,
    p: PartId,
    tt: u8,
) -> Result<(), StackFault>
    requires { p < length ram.old.areas }
    ensures answer { result ≡ (delivered (areas_at p ram.old) virt.old core.old (map_at p ram.old) tt).answer }
    ensures traps { virt.new ≡ (delivered (areas_at p ram.old) virt.old core.old (map_at p ram.old) tt).traps }
    ensures core { core.new ≡ (delivered (areas_at p ram.old) virt.old core.old (map_at p ram.old) tt).core }
    ensures memory { ram.new ≡ with_selected p (with_map p (delivered (areas_at p ram.old) virt.old core.old (map_at p ram.old) tt).memory ram.old) }
    ensures unchanged { OnErr result ((virt.new ≡ virt.old) × (core.new ≡ core.old) × (map_at p ram.new ≡ map_at p ram.old)) }
{
    select(ram, p);
    // It is selected before and after the delivery.
    proof! { let _before = ram.selected(); }
    let answer = deliver_cached(virt, core, ram, tt);
    proof! { let _after = ram.selected(); }
    answer
}

/// Returns from a trap of partition `p`.
pub(crate) fn return_part(
    virt: &mut Virt,
    core: &mut Processor,
    ram: &mut PredecodedRam,
    p: PartId,
) -> Result<(), IretFault>
    requires { p < length ram.old.areas }
    ensures answer { result ≡ (returned (areas_at p ram.old) virt.old core.old (map_at p ram.old)).answer }
    ensures traps { virt.new ≡ (returned (areas_at p ram.old) virt.old core.old (map_at p ram.old)).traps }
    ensures core { core.new ≡ (returned (areas_at p ram.old) virt.old core.old (map_at p ram.old)).core }
    ensures memory { ram.new ≡ with_selected p ram.old }
    ensures unchanged { OnErr result ((virt.new ≡ virt.old) × (core.new ≡ core.old)) }
{
    select(ram, p);
    // It is selected before and after the return.
    proof! { let _before = ram.selected(); }
    let answer = iret_cached(virt, core, ram);
    proof! { let _after = ram.selected(); }
    answer
}

/// Spills the windows of partition `p`, all but the current one.
pub(crate) fn flush_part(
    core: &mut Processor,
    ram: &mut PredecodedRam,
    p: PartId,
) -> Result<(), StackFault>
    requires { p < length ram.old.areas }
    ensures answer { result ≡ (flushed 8 (areas_at p ram.old) (move_made core.old (map_at p ram.old))).answer }
    ensures core { core.new ≡ (flushed 8 (areas_at p ram.old) (move_made core.old (map_at p ram.old))).core }
    ensures memory { ram.new ≡ with_selected p (with_map p (flushed 8 (areas_at p ram.old) (move_made core.old (map_at p ram.old))).memory ram.old) }
{
    select(ram, p);
    // It is selected before and after the spills.
    proof! { let _before = ram.selected(); }
    let answer = flush(core, ram);
    proof! { let _after = ram.selected(); }
    answer
}

// Spills windows until all but the current one are.
fn flush<B: Bus>(own: &mut Processor, bus: &mut B) -> Result<(), StackFault>
    ensures moved { IsMoved result own.new (B.memory bus.new) (flushed 8 (B.areas bus.old) (move_made own.old (B.memory bus.old))) }
    ensures areas { B.areas bus.new ≡ B.areas bus.old }
    ensures others { B.others bus.new ≡ B.others bus.old }
{
    for _ in 0..8u8 {
        let above = (own.cwp() + 1) % 8;
        if above == own.inv() {
            return Ok(());
        }
        spill_cached(own, bus)?;
    }
    Ok(())
}

/// Steps of partition `p`, at most this many, up to the first that does more than go.
#[inline(always)]
pub(crate) fn step_part(core: &mut Processor, ram: &mut PredecodedRam, p: PartId, most: u64) -> Gone
    requires { p < length ram.old.areas }
    ensures went { (stepped result.went (areas_at p ram.old) core.old (map_at p ram.old)).turn ≡ Turn.Went }
    ensures gone { IsGone result.turn result.went most (areas_at p ram.old) (stepped result.went (areas_at p ram.old) core.old (map_at p ram.old)) core.new (map_at p ram.new) }
    ensures at { result.pc ≡ (stepped result.went (areas_at p ram.old) core.old (map_at p ram.old)).core.pc }
    ensures aligned { result.pc % 4 ≡ 0 }
    ensures others { ram.new ≡ with_selected p (with_map p (map_at p ram.new) ram.old) }
{
    select(ram, p);
    // It is selected before and after the steps.
    proof! { let _before = ram.selected(); }
    let gone = go(core, ram, most);
    proof! { let _after = ram.selected(); }
    gone
}

// The same over any memory.
#[inline(never)]
fn go<B: Runs>(core: &mut Processor, bus: &mut B, most: u64) -> Gone
    ensures went { (stepped result.went (B.areas bus.old) core.old (B.memory bus.old)).turn ≡ Turn.Went }
    ensures gone { IsGone result.turn result.went most (B.areas bus.old) (stepped result.went (B.areas bus.old) core.old (B.memory bus.old)) core.new (B.memory bus.new) }
    ensures at { result.pc ≡ (stepped result.went (B.areas bus.old) core.old (B.memory bus.old)).core.pc }
    ensures aligned { result.pc % 4 ≡ 0 }
    ensures areas { B.areas bus.new ≡ B.areas bus.old }
    ensures others { B.others bus.new ≡ B.others bus.old }
{
    go_cached(core, bus, most)
}

// The same with the cached registers. What a straight run leaves to others is a step of its own, but for a call, which the run reports.
#[inline(always)]
fn go_cached<B: Runs>(own: &mut Processor, bus: &mut B, most: u64) -> Gone
    ensures went { (stepped result.went (B.areas bus.old) own.old (B.memory bus.old)).turn ≡ Turn.Went }
    ensures gone { IsGone result.turn result.went most (B.areas bus.old) (stepped result.went (B.areas bus.old) own.old (B.memory bus.old)) own.new (B.memory bus.new) }
    ensures at { result.pc ≡ (stepped result.went (B.areas bus.old) own.old (B.memory bus.old)).core.pc }
    ensures aligned { result.pc % 4 ≡ 0 }
    ensures areas { B.areas bus.new ≡ B.areas bus.old }
    ensures others { B.others bus.new ≡ B.others bus.old }
{
    let mut left = most;
    while left > 0 {
        let ran = bus.run(own, left);
        left -= ran.went;
        if ran.calls {
            return call_met(own, most - left);
        }
        // Where rows were wanted, there may be some now.
        if left > 0 && !(ran.unmade && ran.went > 0) {
            let pc = own.pc();
            match settle_cached(own, bus) {
                Turn::Went => left -= 1,
                Turn::Trap(trap_type) => {
                    return Gone {
                        went: most - left,
                        turn: Turn::Trap(trap_type),
                        pc,
                    };
                }
                Turn::Call => {
                    return Gone {
                        went: most - left,
                        turn: Turn::Call,
                        pc,
                    };
                }
            }
        }
    }
    Gone {
        went: most,
        turn: Turn::Went,
        pc: own.pc(),
    }
}

// The call that the instruction at the program counter makes, after this many steps. The program goes on after it.
#[inline(always)]
#[tactic(auto, unfolding(sparc_step::specs::Registers::placed, sparc_step::specs::Registers::advanced))]
fn call_met(own: &mut Processor, went: u64) -> Gone
    ensures core { own.new ≡ advanced own.old }
    ensures went { result.went ≡ went }
    ensures turn { result.turn ≡ Turn.Call }
    ensures at { result.pc ≡ own.old.pc }
    ensures aligned { result.pc % 4 ≡ 0 }
{
    let pc = own.pc();
    let next = own.npc();
    own.place(next, next.wrapping_add(4));
    Gone {
        went,
        turn: Turn::Call,
        pc,
    }
}
