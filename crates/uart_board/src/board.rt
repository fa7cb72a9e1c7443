//! Eight places for boxed UARTs.

ghost use Rattle.std.specs.Prelude.{◌≡◌, ℕ, ◌<◌, ◌⊎◌, ◌↔◌, None, Some, IfErr, IfOk, IfSome, IsNone, IsSome, length};
ghost use Rattle.xm_outside.specs.Causes.{HasCause};
ghost use Rattle.xm_outside.specs.Growth.{Receives};
ghost use Rattle.uart_board.specs.Board.{LosesUart, IsTaken, empty_board, lost, uart_at, unmarked, with_uart};
ghost use Rattle.uart_board.specs.Heard.{IsHeard, IsOneWrite, said_to};
ghost use Rattle.uart_board.specs.Views.{HasFailed, HasTaken, without_marks, mark_at};

use crate::views::{ViewBoard, ViewUart};
use xm_outside::{Failed, Uart};

/// How many places a board has.
const PLACES: usize = 8;

/// Eight places, each for a UART in a box. A UART that fails is taken out, and its place is marked.
#[derive(Drop)]
pub struct Board {
    places: [Option<Box<dyn Uart>>; PLACES],
    marks: [Option<u64>; PLACES],
}

impl Board {
    /// A board without UARTs and without marks.
    pub fn new() -> Board
        // A new board has no UART and no mark.
        ensures value { result ≡ empty_board }
    {
        Board {
            places: [None, None, None, None, None, None, None, None],
            marks: [None; PLACES],
        }
    }

    /// Puts the UART at the place, and hands back the one that stood there. A mark stays.
    pub fn set(&mut self, place: u8, uart: Box<dyn Uart>) -> Option<Box<dyn Uart>>
        // Called with a place below 8.
        requires { place < 8 }
        // The UART that stood there is handed back.
        ensures handed { result ≡ uart_at place self.old }
        // The UART is put at its place, and nothing else of the board changes.
        ensures board { self.new ≡ with_uart place (Some uart) self.old }
    {
        self.places[usize::from(place)].replace(uart)
    }

    /// Empties the place, and hands back the UART that stood there. A mark stays.
    pub fn take(&mut self, place: u8) -> Option<Box<dyn Uart>>
        // Called with a place below 8.
        requires { place < 8 }
        // The UART that stood there is handed back.
        ensures handed { result ≡ uart_at place self.old }
        // The place is empty, and nothing else of the board changes.
        ensures board { self.new ≡ with_uart place None self.old }
    {
        self.places[usize::from(place)].take()
    }

    /// Forgets all marks.
    pub fn begin(&mut self)
        // The marks are forgotten, and nothing else.
        ensures board { self.new ≡ unmarked self.old }
        ensures view { ⟦<Board as ViewBoard>⟧.board_view self.new ≡ without_marks (⟦<Board as ViewBoard>⟧.board_view self.old) }
    {
        self.marks = [None; PLACES];
    }

    /// Says the bytes to the UART at the place, by one write. Where the write fails, the UART is taken out and
    /// dropped, and the place is marked with the number of failed writes that the UART then counts. A write of no bytes may fail, too.
    pub fn say(&mut self, place: u8, bytes: &[u8])
        // Called with a place below 8.
        requires { place < 8 }
        // What is written to an empty place changes nothing.
        ensures empty { uart_at place self.old ≡ None → self.new ≡ self.old }
        // The UART took all of the bytes and stands in its place, and nothing else has changed; or its write failed
        // after a prefix of them, its place is empty and has as its mark what it counts after that write, and nothing
        // else has changed.
        ensures said { IfSome (uart_at place self.old) (λ uart.
            IsTaken ⟦<Box<dyn Uart> as ViewUart>⟧.uart_view place bytes.now uart self.old self.new
            ⊎ LosesUart ⟦<Box<dyn Uart> as ViewUart>⟧.uart_view place bytes.now uart self.old self.new) }
        // The same by what a board holds: the UART of one place got the bytes, or the place is empty and its mark is
        // above what its UART had counted; every other place is as before. A write of no bytes may fail, too, and then
        // its UART is lost.
        ensures write { IsOneWrite place bytes.now (⟦<Board as ViewBoard>⟧.board_view self.old) (⟦<Board as ViewBoard>⟧.board_view self.new) }
        // A write of at least one byte, as bytes to each place: each UART got those of its place, or it failed and at
        // least one byte was written to it. What is written in turn adds up, so a UART to which nothing is written is
        // never lost.
        ensures heard { 0 < length bytes.now → IsHeard (said_to place bytes.now) (⟦<Board as ViewBoard>⟧.board_view self.old) (⟦<Board as ViewBoard>⟧.board_view self.new) }
    {
        let Some(uart) = self.take(place) else {
            return;
        };
        match written(uart, bytes) {
            Ok(uart) => self.put_back(place, uart),
            Err(uart) => self.lose(place, count_of(&uart)),
        }
    }

    /// The lowest place that has a mark.
    pub fn failed(&self) -> Option<u8>
        // The lowest place that is marked, and None exactly where none is.
        ensures marked { IfSome result (λ place. IsSome (mark_at place self.now.marks)) }
        ensures lowest { IfSome result (λ place. (lower : ℕ) → lower < place → IsNone (mark_at lower self.now.marks)) }
        ensures none { IsNone result ↔ ((place : ℕ) → IsNone (mark_at place self.now.marks)) }
    {
        for place in 0..8u8 {
            if self.marks[usize::from(place)].is_some() {
                return Some(place);
            }
        }
        None
    }

    /// Puts the UART at the place, and drops one that stood there.
    fn put_back(&mut self, place: u8, uart: Box<dyn Uart>)
        requires { place < 8 }
        ensures board { self.new ≡ with_uart place (Some uart) self.old }
    {
        self.set(place, uart);
    }

    /// Empties the place, and marks it with the count.
    fn lose(&mut self, place: u8, count: u64)
        requires { place < 8 }
        ensures board { self.new ≡ lost place count self.old }
        ensures marked { mark_at place self.new.marks ≡ Some count }
    {
        self.take(place);
        self.marks[usize::from(place)] = Some(count);
    }
}

/// The UART after one write of the bytes: `Ok` where it took them, `Err` where the write failed.
fn written(uart: Box<dyn Uart>, bytes: &[u8]) -> Result<Box<dyn Uart>, Box<dyn Uart>>
    ensures taken { IfOk result (λ after. HasTaken (⟦<Box<dyn Uart> as ViewUart>⟧.uart_view uart) bytes.now (⟦<Box<dyn Uart> as ViewUart>⟧.uart_view after)) }
    ensures failed { IfErr result (λ after. HasFailed (⟦<Box<dyn Uart> as ViewUart>⟧.uart_view uart) bytes.now (⟦<Box<dyn Uart> as ViewUart>⟧.uart_view after)) }
{
    let mut uart = uart;
    match write_to(&mut uart, bytes) {
        Ok(()) => Ok(uart),
        Err(Failed) => Err(uart),
    }
}

/// Writes the bytes to the UART.
fn write_to(uart: &mut Box<dyn Uart>, bytes: &[u8]) -> Result<(), Failed>
    ensures got { Receives result (⟦<Box<dyn Uart> as ViewUart>⟧.uart_view uart.old).got bytes.now (⟦<Box<dyn Uart> as ViewUart>⟧.uart_view uart.new).got }
    ensures cause { HasCause result (⟦<Box<dyn Uart> as ViewUart>⟧.uart_view uart.old).faults (⟦<Box<dyn Uart> as ViewUart>⟧.uart_view uart.new).faults }
{
    (**uart).write(bytes)
}

/// How many writes of the UART failed.
fn count_of(uart: &Box<dyn Uart>) -> u64
    ensures count { result ≡ (⟦<Box<dyn Uart> as ViewUart>⟧.uart_view uart.now).faults }
{
    (**uart).faulted()
}
