//! A system that goes on from a given state: for the crate that puts it in.

ghost use Rattle.std.specs.Prelude.{◌≡◌, ◌<◌, true, length};
ghost use Rattle.guest_bus.specs.Memory.{all_from, is_readable};
ghost use Rattle.machine_model.specs.Caller.{with_written};
ghost use Rattle.system_state.specs.State.{areas_in, part_at, with_machine, with_own, with_part, with_table};

use crate::own_state::PartState;
use crate::sys::Sys;
use cyclic_plans::PlanClock;
use xm_base::PartId;
use xm_ports::Channels;

/// A partition has this state. Its memory and its input words stay.
pub fn set_part(sys: &mut Sys, p: PartId, own: PartState)
    // Called for a partition that exists.
    requires { p < length sys.old.machine.parts }
    // The partition has the state, but for its memory and its input words, and nothing else changes.
    ensures { sys.new ≡ with_machine (with_own p own sys.old.machine) sys.old }
{
    *sys.part_mut(p) = own;
}

/// Writes bytes to a partition's memory from an address on, in areas that may only be read, too.
pub fn put(sys: &mut Sys, p: PartId, address: u32, bytes: &[u8])
    // Called for a partition that exists, and for a range of addresses each of which is in one of its areas.
    requires partition { p < length sys.old.machine.parts }
    requires readable { all_from (is_readable (areas_in p sys.old.machine)) address (length bytes.now) ≡ true }
    // The bytes are written, and nothing else changes. A word of them is executed as the new word.
    ensures { sys.new ≡ with_machine (with_part p (with_written address bytes.now (part_at p sys.old.machine)) sys.old.machine) sys.old }
{
    sys.ram.put(p, address, bytes);
}

/// The channels hold this.
pub fn set_channels(sys: &mut Sys, channels: Channels)
    // The channels are these, and nothing else changes.
    ensures { sys.new ≡ with_table channels sys.old }
{
    sys.channels = channels;
}

/// Sets the plan clock.
pub fn set_plan_clock(sys: &mut Sys, clock: PlanClock)
    // The plan clock is this one, and nothing else changes.
    ensures { sys.new ≡ with_machine (record sys.old.machine { clock = clock }) sys.old }
{
    sys.plan_clock = clock;
}

/// Sets how many ticks were done since boot.
pub fn set_ticks(sys: &mut Sys, ticks: u64)
    // The count of ticks is this, and nothing else changes.
    ensures { sys.new ≡ with_machine (record sys.old.machine { ticks = ticks }) sys.old }
{
    sys.ticks = ticks;
}

/// Sets how many warm resets of the hypervisor there were since the last cold one.
pub fn set_resets(sys: &mut Sys, resets: u32)
    // The count of resets is this, and nothing else changes.
    ensures { sys.new ≡ with_machine (record sys.old.machine { resets = resets }) sys.old }
{
    sys.resets = resets;
}

/// Sets whether the hypervisor has halted.
pub fn set_halted(sys: &mut Sys, halted: bool)
    // It has halted or not, and nothing else changes.
    ensures { sys.new ≡ with_machine (record sys.old.machine { halted = halted }) sys.old }
{
    sys.halted = halted;
}
