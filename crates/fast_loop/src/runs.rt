//! A memory in which instructions run by the rows that it keeps.

ghost use Rattle.std.specs.Prelude.{◌≡◌, ◌<◌, ◌≤◌};
ghost use Rattle.std.specs.Bool.{OnTrue};
ghost use Rattle.fast_loop.specs.Runs.{AreSteps, IsCall};

use crate::running::RunEnd;
use guest_bus::HasWords;
use sparc_step::Processor;

/// A memory in which instructions run by the rows that it keeps.
pub trait Runs: HasWords {
    /// Instructions, at most this many, up to the first that is left to others.
    fn run(&mut self, own: &mut Processor, most: u64) -> RunEnd
        // The answered number of steps, which all went, and the registers and the memory that they leave; no more steps
        // than are asked for.
        ensures steps { AreSteps result.went (Self.areas self.old) own.old (Self.memory self.old) own.new (Self.memory self.new) }
        ensures few { result.went ≤ most }
        // Where it reports a call, the step that would be next is one: it calls the hypervisor, and leaves the registers at
        // the next instruction and the memory as it is; fewer steps than are asked for went before it.
        ensures room { OnTrue result.calls (result.went < most) }
        ensures call { OnTrue result.calls (IsCall (Self.areas self.old) own.new (Self.memory self.new)) }
        // Areas and the memories of others are as before.
        ensures areas { Self.areas self.new ≡ Self.areas self.old }
        ensures others { Self.others self.new ≡ Self.others self.old };
}
