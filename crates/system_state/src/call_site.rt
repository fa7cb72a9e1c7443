//! Who calls.

use xm_base::PartId;

/// Who makes a hypercall: the partition, and the program counters of its trap instruction.
#[derive(Clone, Copy, Debug)]
pub struct CallSite {
    pub part: PartId,
    pub pc: u32,
    pub npc: u32,
}
