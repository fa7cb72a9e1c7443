//! Condition codes that are computed when they are read.

ghost use Rattle.std.specs.Prelude.{◌≡◌, ◌<◌, false};
ghost use Rattle.sparc_step.specs.Conditions.{codes_of_difference, codes_of_result, codes_of_sum};

use crate::conditions::{codes_of_addition, codes_of_comparison, codes_of_result};
use std::marker::Model;

/// What set the codes.
#[derive(Clone, Copy, Debug)]
pub(crate) enum SetBy {
    /// They are known.
    Known,
    /// The difference of two words.
    Difference,
    /// The sum of two words.
    Sum,
    /// A result of logic.
    Result,
}

/// The condition codes: known, or the values that they are those of.
#[derive(Debug, Drop)]
pub(crate) struct Codes {
    by: SetBy,
    known: u8,
    left: u32,
    right: u32,
}

impl Model for Codes {
    ghost use Rattle.std.specs.Prelude.{ℕ, ◌<◌};
    ghost use Rattle.sparc_step.specs.Codes.{codes_by};

    ghost Value = { ℕ };

    ghost view = { λ c. codes_by c.by c.known c.left c.right };

    ghost invariant = { λ c. c.known < 16 };
}

impl Codes {
    /// Codes that are known.
    #[tactic(auto, unfolding(crate::specs::Codes::codes_by))]
    pub(crate) fn of(known: u8) -> Codes
        requires { known < 16 }
        ensures { result ≡ known }
    {
        Codes {
            by: SetBy::Known,
            known,
            left: 0,
            right: 0,
        }
    }

    /// The codes.
    #[inline(always)]
    #[tactic(auto, unfolding(crate::specs::Codes::codes_by))]
    pub(crate) fn value(&self) -> u8
        ensures value { result ≡ self.now }
        ensures four { result < 16 }
    {
        match self.by {
            SetBy::Known => self.known,
            SetBy::Difference => codes_of_comparison(self.left, self.right),
            SetBy::Sum => codes_of_addition(self.left, self.right),
            SetBy::Result => codes_of_result(self.left, false),
        }
    }

    /// They become those of a comparison.
    #[inline(always)]
    #[tactic(auto, unfolding(crate::specs::Codes::codes_by), using(crate::specs::lemmas::CodesLemmas::difference_below))]
    pub(crate) fn compared(&mut self, a: u32, b: u32)
        ensures value { self.new ≡ codes_of_difference a b false }
        ensures four { self.new < 16 }
    {
        self.left = a;
        self.right = b;
        self.by = SetBy::Difference;
    }

    /// They become those of a sum.
    #[inline(always)]
    #[tactic(auto, unfolding(crate::specs::Codes::codes_by), using(crate::specs::lemmas::CodesLemmas::sum_below))]
    pub(crate) fn added(&mut self, a: u32, b: u32)
        ensures value { self.new ≡ codes_of_sum a b false }
        ensures four { self.new < 16 }
    {
        self.left = a;
        self.right = b;
        self.by = SetBy::Sum;
    }

    /// They become those of a result of logic.
    #[inline(always)]
    #[tactic(auto, unfolding(crate::specs::Codes::codes_by), using(crate::specs::lemmas::CodesLemmas::result_below))]
    pub(crate) fn tested(&mut self, value: u32)
        ensures value { self.new ≡ codes_of_result value false }
        ensures four { self.new < 16 }
    {
        self.left = value;
        self.by = SetBy::Result;
    }

    /// They become known ones.
    #[inline(always)]
    #[tactic(auto, unfolding(crate::specs::Codes::codes_by))]
    pub(crate) fn set(&mut self, known: u8)
        requires { known < 16 }
        ensures { self.new ≡ known }
    {
        self.known = known;
        self.by = SetBy::Known;
    }
}
