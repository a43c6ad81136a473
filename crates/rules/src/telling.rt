// Refusals in words.

ghost use Rattle.std.specs.Prelude.{Some};
ghost use Rattle.rules.specs.Words.{meaning, no_meaning};

use crate::{NoRefusal, Refusal};
use std::fmt;

impl fmt::Display for Refusal {
    ghost output = { λ refusal. Some (meaning refusal) };

    fn fmt<W: fmt::Write>(&self, f: &mut fmt::Formatter<W>) -> fmt::Result {
        f.write_str(match self {
            Refusal::TooLong => "a table is too long",
            Refusal::Unknown => {
                "a kind, place or method is unknown, or an unused field is filled"
            }
            Refusal::Unpaired => "pairs do not match",
            Refusal::WrongMethod => "a method is doubled or missing",
            Refusal::Malformed => "an expression or a place is malformed",
            Refusal::SelfNamed => "a place is named in its own expression",
            Refusal::NoBook => "there is no book on this card",
            Refusal::NoSuchWord => "the book has no such word",
            Refusal::TestFailed => "a test failed",
            Refusal::ZeroDivisor => "division by zero",
            Refusal::NoRecord => "no record",
            Refusal::NotClear => "not clear or not equal",
            Refusal::NoFree => "no free record",
            Refusal::FreeUnfit => "the free record is unfit",
            Refusal::Changed => "the record was changed under a call",
            Refusal::TooDeep => "too deep",
            Refusal::OutOfBudget => "the budget is used up",
            Refusal::NoSuchMethod => "no such method",
            Refusal::ListFull => "as many methods stand as may",
            Refusal::NothingStands => "nothing stands",
            Refusal::SomethingStands => "something stands",
        })
    }
}

impl fmt::Display for NoRefusal {
    ghost output = { λ _. Some no_meaning };

    fn fmt<W: fmt::Write>(&self, f: &mut fmt::Formatter<W>) -> fmt::Result {
        f.write_str("no refusal has this number")
    }
}
