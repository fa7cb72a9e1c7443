//! A partition's memory, as it is read from outside of the partition.

ghost use Rattle.std.specs.Prelude.{◌≡◌, ◌<◌, length, true};
ghost use Rattle.guest_bus.specs.Memory.{all_from, bytes_at, is_readable};
ghost use Rattle.system_state.specs.State.{areas_in, memory_of};

use crate::sys::Sys;
use xm_base::PartId;

/// Reads bytes of a partition's memory from an address on, all of which the partition may read.
pub fn read_memory(sys: &Sys, p: PartId, address: u32, into: &mut [u8])
    // Called for a partition that exists and with a range that it may read.
    requires partition { p < length sys.now.machine.parts }
    requires readable { all_from (is_readable (areas_in p sys.now.machine)) address (length into.old) ≡ true }
    // Bytes of a partition's memory that it may read.
    ensures { into.new ≡ bytes_at (memory_of p sys.now.machine) address (length into.old) }
{
    let count = sys.count();
    prove!(p < count);
    match sys.ram().copy_in(p, address, into) {
        Ok(()) => {}
        Err(_) => unreachable!(),
    }
}
