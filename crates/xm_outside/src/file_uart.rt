//! A file of the system as a UART.

ghost use Rattle.std.specs.Prelude.{◌≡◌, ◌<◌, None, OnOk, true, false};
ghost use Rattle.xm_outside.specs.FileUart.{uart_file};

use crate::store::Failed;
use crate::uart::Uart;
use crate::whole_file::{emptied, finish};
use std::fs::OpenOptions;
use std::io;
use std::mem::ManuallyDrop;
use std::rt::Files;

/// A file as a UART: `uart0.out` to `uart7.out` of the folder where the program runs. The first write makes the
/// file, or empties one that was there, and later ones append to it. Without a write no file is touched. From its first
/// write on the file stays open, and the system closes it when the program ends: a value that closes its file when it is
/// dropped could not be boxed as a UART. The disk has the bytes of each write before the write ends.
#[derive(Drop)]
pub struct FileUart<R: Files> {
    rt: R,
    name: &'static str,
    made: bool,
    file: Option<ManuallyDrop<R::File>>,
    faults: u64,
}

impl<R: Files + Drop> FileUart<R> {
    /// The UART of a place, over a clone of the runtime.
    pub fn new(rt: R, place: u8) -> FileUart<R>
        // Called with a place below 8.
        requires { place < 8 }
        // The UART of a file is for the file `uart0.out` to `uart7.out` of its place, which no write has made yet.
        ensures name { result.name.now ≡ uart_file place }
        ensures unmade { result.made ≡ false }
        // Its count of faults is 0.
        ensures faults { ⟦<FileUart<R> as Uart>⟧.faults result ≡ 0 }
    {
        FileUart {
            rt,
            name: name_at(place),
            made: false,
            file: None,
            faults: 0,
        }
    }

    /// Writes the bytes to the file, which the first write makes or empties, and waits until the disk has them: a fault that
    /// only the end of writing shows is this write's.
    fn append(&mut self, bytes: &[u8]) -> io::Result<()>
        ensures name { self.new.name ≡ self.old.name }
        ensures made { OnOk result (self.new.made ≡ true) }
        ensures faults { self.new.faults ≡ self.old.faults }
    {
        let mut file = match self.file.take() {
            Some(file) => file,
            None => ManuallyDrop::new(self.open()?),
        };
        self.made = true;
        let done = finish(&mut *file, bytes);
        self.file = Some(file);
        done
    }

    /// Opens the file to append to it: makes it, or empties one that was there.
    fn open(&self) -> io::Result<R::File> {
        let mut options = OpenOptions::new();
        options.create(true).append(true);
        let file = options.open(&self.rt, self.name)?;
        emptied(&file)?;
        Ok(file)
    }
}

/// The file's name of a place.
fn name_at(place: u8) -> &'static str
    requires { place < 8 }
    ensures { result.now ≡ uart_file place }
{
    match place {
        0 => "uart0.out",
        1 => "uart1.out",
        2 => "uart2.out",
        3 => "uart3.out",
        4 => "uart4.out",
        5 => "uart5.out",
        6 => "uart6.out",
        _ => "uart7.out",
    }
}

impl<R: Files + Drop> Uart for FileUart<R> {
    ghost got = { λ _. None };

    ghost faults = { λ u. u.faults };

    fn write(&mut self, bytes: &[u8]) -> Result<(), Failed> {
        if self.append(bytes).is_err() {
            self.faults = self.faults.saturating_add(1);
            return Err(Failed);
        }
        Ok(())
    }

    fn faulted(&self) -> u64 {
        self.faults
    }
}
