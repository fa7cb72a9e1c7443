//! What is known of a boxed UART and of a board, as values that clauses can name.

ghost use Rattle.std.specs.Prelude.{map, option_map};
ghost use Rattle.uart_board.specs.Views.{BoardView, UartView};

use crate::board::Board;
use xm_outside::Uart;

/// What is known of a UART.
pub trait ViewUart {
    /// What it got, and how many of its writes failed.
    ghost uart_view: { Self → UartView };
}

impl ViewUart for Box<dyn Uart> {
    ghost uart_view = { λ uart. record { got = (Uart-box uart).got uart.value; faults = (Uart-box uart).faults uart.value } };
}

/// What is known of a board.
pub trait ViewBoard {
    /// What is known of each of its UARTs, and the marks.
    ghost board_view: { Self → BoardView };
}

impl ViewBoard for Board {
    ghost board_view = { λ board. record {
      places = map (option_map (λ uart. record { got = (Uart-box uart).got uart.value; faults = (Uart-box uart).faults uart.value })) board.places;
      marks = board.marks;
    } };
}
