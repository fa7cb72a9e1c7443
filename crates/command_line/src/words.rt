//! The words of a command line.

ghost use Rattle.std.specs.Prelude.{◌≡◌, [], ◌∷◌, ◌++◌, OnOk, OnErr};
ghost use Rattle.command_line.specs.Texts.{texts_of};

use std::alloc::Global;
use std::marker::Model;
use xm_base::Memory;

/// The words of a command line, after the program's name.
#[derive(Debug, Drop)]
pub struct Words {
    alloc: Global,
    words: Vec<String>,
}

impl Model for Words {
    ghost use Rattle.std.specs.Prelude.{ℕ, List};

    ghost Value = { List (List ℕ) };

    ghost use Rattle.command_line.specs.Texts.{texts_of};

    ghost view = { λ w. texts_of w.words.items };
}

impl Words {
    /// No words.
    pub fn new(alloc: Global) -> Words
        // No words at first.
        ensures { result ≡ [] }
    {
        Words {
            alloc,
            words: Vec::new(alloc),
        }
    }

    /// Puts one more word after the others.
    pub fn push(&mut self, word: &str) -> Result<(), Memory>
        // A word is put after the others; after a refusal all is as before.
        ensures pushed { OnOk result (self.new ≡ self.old ++ word.now ∷ []) }
        ensures unchanged { OnErr result (self.new ≡ self.old) }
    {
        let word = String::from_str(self.alloc, word)?;
        self.words.push(word)?;
        Ok(())
    }

    /// The words, in their order.
    pub(crate) fn texts(&self) -> &[String]
        ensures { texts_of result.now ≡ self.now }
    {
        self.words.as_slice()
    }
}
