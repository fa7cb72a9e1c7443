//! The tokens of a text, one after the other.

ghost use Rattle.std.specs.Prelude.{◌≡◌, ◌+◌, ◌<◌, ◌^◌};
ghost use Rattle.xmcf_reader.specs.lemmas.Cuts.{IsNext, MovesOn, cut_left, text_length};
ghost use Rattle.xmcf_reader.specs.Faults.{stopped};

use crate::fault::ReadFault;
use crate::lexer::front;
use crate::token::{Front, Stop, Token};

/// The rest of a text, and its place.
#[derive(Debug, Drop)]
pub(crate) struct Tokens<'a> {
    place: usize,
    rest: &'a [u8],
}

/// What comes next in a text.
#[derive(Debug, Drop)]
pub(crate) enum Next<'a> {
    /// A token at its place.
    Item(Token<'a>, usize),
    /// A rest from this place on, whose first byte begins no token, and how its spelling breaks.
    Rest(usize, u8, ReadFault),
    /// The end of the text.
    End(usize),
}

/// The fault of a spelling that stops, in a rest of this many bytes from a place on.
fn stopped(at: usize, size: usize, stop: Stop) -> ReadFault
    requires small { at + size < 2 ^ 32 }
    requires within { Rattle.xmcf_reader.specs.lemmas.Cuts.StopsWithin stop size }
    ensures { result ≡ stopped at size stop }
{
    match stop {
        Stop::Break { at: offset } => ReadFault::BadItem { at: at + offset },
        Stop::Reference { at: offset } => ReadFault::Reference { at: at + offset },
        Stop::Ended => ReadFault::Unclosed { at: at + size },
    }
}

impl<'a> Tokens<'a> {
    /// The tokens of a text.
    pub(crate) fn new(text: &'a [u8]) -> Tokens<'a>
        ensures place { result.place ≡ 0 }
        ensures rest { result.rest.now ≡ text.now }
    {
        Tokens {
            place: 0,
            rest: text,
        }
    }

    /// What comes next.
    pub(crate) fn next(&mut self) -> Next<'a>
        requires { text_length self.old < 2 ^ 32 }
        ensures next { IsNext result (cut_left self.old) (cut_left self.new) }
        ensures room { text_length self.new ≡ text_length self.old }
        ensures moves { MovesOn result self.old self.new }
    {
        let at = self.place;
        let Some(byte) = self.rest.first() else {
            return Next::End(at);
        };
        match front(at == 0, self.rest) {
            Front::Found(token, size) => {
                let (_, rest) = self.rest.split_at(size);
                self.rest = rest;
                self.place = at + size;
                Next::Item(token, at)
            }
            Front::Broken(stop) => Next::Rest(at, *byte, stopped(at, self.rest.len(), stop)),
        }
    }
}
