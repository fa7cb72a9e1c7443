//! What is built out of the bytes of a file: another file, or the text that is printed of it.
//! The clauses are about the bytes of a file, fewer than 2^32. Unless out of memory, each answer is that of a
//! definition over them.
#![tactic(auto)]

mod grouping;
mod imaging;
mod law;
mod made_file;
mod parsing;
mod planning;
mod printout;
mod scripting;
mod steering;
mod striking;
mod success;
mod unmade;
mod upgrading;

pub use imaging::{no_container, no_image};
pub use law::shows_steerers;
pub use made_file::{MadeFile, make_file};
pub use printout::{Printout, printout_text};
pub use scripting::no_script;
pub use striking::{no_machine, no_upsets};
pub use success::ok_line;
pub use unmade::Unmade;
pub use upgrading::no_configuration;
