//! All that is outside of the program, as one value in contracts.

ghost use Rattle.xm_commands.specs.World.{World, sink_view, world};

use uart_board::ViewBoard;
use xm_outside::{Sink, Store};

/// What surrounds a call: a store, the report, the error output and a board. It is for contracts alone.
pub trait Surroundings {
    /// What all of them report.
    ghost world: { Self → World };
}

impl<S: Store, O: Sink, E: Sink, B: ViewBoard> Surroundings for (S, O, E, B) {
    ghost world = { λ all. world (S.files all.0) (S.read_faults all.0) (S.write_faults all.0) (S.calls all.0)
        (sink_view (O.got all.1) (O.faults all.1)) (sink_view (E.got all.2) (E.faults all.2)) (B.board_view all.3) };
}
