//! A vector tried: its call is made in its state.

ghost use Rattle.std.specs.Prelude.{◌≡◌, ◌↔◌, IsTrue};

use crate::call::{Call, Came, came_of};
use crate::memory::VectorMemory;
use crate::vector::Vector;
use sparc_step::{Core, turn};
use std::fmt;
use virt_traps::{IretFault, StackFault, Virt, deliver, fill, iret, settle, spill};

/// The outcome of a call where it differs from its vector.
#[derive(Debug, Drop)]
pub(crate) struct Other {
    came: Came,
    core: Core,
    wanted: Core,
    same_traps: bool,
    same_memory: bool,
}

/// Makes the call of a vector, and answers its outcome where that is not what was wanted.
pub(crate) fn tried(memory: &mut VectorMemory, vector: Vector<'_>) -> Option<Other> {
    memory.put(&vector.before.contents);
    let mut core = vector.before.core;
    let mut traps = vector.before.traps;
    let came = called(vector.call, &mut traps, &mut core, memory);
    let same_traps = are_same_traps(&traps, &vector.after.traps);
    let same_memory = memory.has(&vector.after.contents);
    let is_same = came == vector.came && same_traps && same_memory;
    if is_same && are_same(&core, &vector.after.core) {
        return None;
    }
    if !same_memory {
        memory.clear();
    }
    Some(Other {
        came,
        core,
        wanted: vector.after.core,
        same_traps,
        same_memory,
    })
}

// Makes a call.
fn called(call: Call, traps: &mut Virt, core: &mut Core, memory: &mut VectorMemory) -> Came {
    match call {
        Call::Turn => came_of(turn(core, memory)),
        Call::Settle => came_of(settle(core, memory)),
        Call::Spill => spilled(core, memory),
        Call::Fill => filled(core, memory),
        Call::Deliver(trap_type) => stack_came(deliver(traps, core, memory, trap_type)),
        Call::Return => returned(traps, core, memory),
        Call::New => {
            *traps = Virt::new();
            Came::Went
        },
        Call::Raise(number) => raised(traps, number),
        Call::Clear(number) => cleared(traps, number),
        Call::Due => match traps.due() {
            Some(number) => Came::Due(number),
            None => Came::NoneDue,
        },
    }
}

// Spills, unless the window above the current one is the invalid one.
fn spilled(core: &mut Core, memory: &mut VectorMemory) -> Came {
    if (core.cwp + 1) % 8 == core.inv {
        return Came::NotCalled;
    }
    stack_came(spill(core, memory))
}

// Fills, unless the window above the invalid one is the current one.
fn filled(core: &mut Core, memory: &mut VectorMemory) -> Came {
    if (core.inv + 1) % 8 == core.cwp {
        return Came::NotCalled;
    }
    stack_came(fill(core, memory))
}

// The outcome of a move of a window.
fn stack_came(moved: Result<(), StackFault>) -> Came {
    match moved {
        Ok(()) => Came::Went,
        Err(StackFault) => Came::StackFault,
    }
}

// Returns from a virtual trap.
fn returned(traps: &mut Virt, core: &mut Core, memory: &mut VectorMemory) -> Came {
    match iret(traps, core, memory) {
        Ok(()) => Came::Went,
        Err(IretFault::Unaligned) => Came::Unaligned,
        Err(IretFault::Stack) => Came::StackFault,
    }
}

// Makes an interrupt pending, where there is one of the number.
fn raised(traps: &mut Virt, number: u8) -> Came {
    if number >= 32 {
        return Came::NotCalled;
    }
    traps.raise(number);
    Came::Went
}

// Makes an interrupt no longer pending, where there is one of the number.
fn cleared(traps: &mut Virt, number: u8) -> Came {
    if number >= 32 {
        return Came::NotCalled;
    }
    traps.clear(number);
    Came::Went
}

// Whether two processors have the same registers in all windows.
fn are_same(one: &Core, other: &Core) -> bool
    ensures { IsTrue result ↔ one.now ≡ other.now }
{
    [one.pc, one.npc, one.y] == [other.pc, other.npc, other.y]
        && [one.icc, one.cwp, one.inv] == [other.icc, other.cwp, other.inv]
        && one.globals == other.globals
        && one.windows == other.windows
}

// Whether two guests have the same virtual traps.
fn are_same_traps(one: &Virt, other: &Virt) -> bool
    ensures { IsTrue result ↔ one.now ≡ other.now }
{
    one.enabled == other.enabled
        && [one.base, one.pending, one.mask] == [other.base, other.pending, other.mask]
}

// The outcome, the registers that each vector states, and what else differs from the vector.
impl fmt::Display for Other {
    fn fmt<W: fmt::Write>(&self, f: &mut fmt::Formatter<W>) -> fmt::Result {
        let core = &self.core;
        write!(f, "{}", self.came)?;
        write!(f, " pc={:08x} npc={:08x}", core.pc, core.npc)?;
        write!(
            f,
            " icc={:x} y={:x} cwp={} inv={}",
            core.icc, core.y, core.cwp, core.inv
        )?;
        for r in 0..32u8 {
            if core.get(r) != self.wanted.get(r) {
                write!(f, " r{r}={:x}", core.get(r))?;
            }
        }
        if !self.same_traps {
            write!(f, " traps")?;
        }
        if !self.same_memory {
            write!(f, " mem")?;
        }
        Ok(())
    }
}
