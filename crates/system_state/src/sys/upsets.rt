//! Upsets: a bit of a partition flips between two ticks.

ghost use Rattle.std.specs.Prelude.{◌≡◌, ◌<◌, true, length};
ghost use Rattle.guest_bus.specs.Memory.{is_readable};
ghost use Rattle.guest_memory.specs.Flips.{with_flipped};
ghost use Rattle.machine_model.specs.View.{view_of};
ghost use Rattle.upset_model.specs.Places.{flip, is_place};
ghost use Rattle.system_state.specs.State.{areas_in, memory_of, part_at, with_machine, with_part};

use crate::flipping::{byte_address, flip_own};
use crate::sys::Sys;
use xm_base::PartId;
use xm_report::Place;

/// A bit of a place of a partition flips.
pub fn flip(sys: &mut Sys, p: PartId, place: Place, bit: u8)
    // Called for a partition that exists, and for a bit that it has and where it may be struck.
    requires partition { p < length sys.old.machine.parts }
    requires place { is_place (view_of sys.old.machine.system p) place bit ≡ true }
    // The bit flips, and nothing else changes. A word of memory with a flipped bit is executed as the new word, and a
    // deadline with a flipped bit is looked at as the new one.
    ensures { sys.new ≡ with_machine (with_part p (flip place bit (part_at p sys.old.machine)) sys.old.machine) sys.old }
{
    match byte_address(place) {
        Some(address) => flip_byte(sys, p, address, bit),
        None => flip_own(sys.part_mut(p), place, bit),
    }
}

// A bit of a byte of a partition's memory flips.
fn flip_byte(sys: &mut Sys, p: PartId, address: u32, bit: u8)
    requires partition { p < length sys.old.machine.parts }
    requires readable { is_readable (areas_in p sys.old.machine) address ≡ true }
    requires bit { bit < 8 }
    ensures { sys.new ≡ with_machine (with_part p (record (part_at p sys.old.machine) { memory = with_flipped address bit (memory_of p sys.old.machine) }) sys.old.machine) sys.old }
{
    sys.ram.flip(p, address, bit);
}
