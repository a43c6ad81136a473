// Lines and terms of each shape, with all that the shape does not use left empty.

ghost use Rattle.std.specs.Prelude.{◌≡◌, ◌==◌, pos};
ghost use Rattle.rules.specs.Kinds.{code};
ghost use Rattle.rules.specs.Terms.{sign};
ghost use Rattle.rules.specs.declared.Place.TheVariants.{None};

use crate::{Kind, Line, Operator, Place, Term, TermKind};

impl Line {
    // A line of this kind with a method's number.
    pub fn bare(kind: Kind, q: u8) -> Line
        ensures { result ≡ record { kind = code kind; x = None; y = None; q = q; first = 0; count = 0 } }
    {
        Line {
            kind: u8::from(kind),
            q,
            ..Line::default()
        }
    }

    // A call or an uncall of method q on the record that y names.
    pub fn on(kind: Kind, q: u8, y: Place) -> Line
        ensures { result ≡ record { kind = code kind; x = None; y = y; q = q; first = 0; count = 0 } }
    {
        Line {
            y,
            ..Line::bare(kind, q)
        }
    }

    // A line of two places.
    pub fn places(kind: Kind, x: Place, y: Place) -> Line
        ensures { result ≡ record { kind = code kind; x = x; y = y; q = 0; first = 0; count = 0 } }
    {
        Line {
            x,
            ..Line::on(kind, 0, y)
        }
    }

    // A line with an expression: `count` terms from `first` on.
    pub fn with(kind: Kind, x: Place, first: u16, count: u16) -> Line
        ensures { result ≡ record { kind = code kind; x = x; y = None; q = 0; first = first; count = count } }
    {
        Line {
            x,
            first,
            count,
            ..Line::bare(kind, 0)
        }
    }

    // Whether the line is of this kind.
    pub fn is(self, kind: Kind) -> bool
        ensures { result ≡ (self.kind == code kind) }
    {
        self.kind == u8::from(kind)
    }
}

impl Term {
    // A term of this kind, and nothing else filled. Any number is taken, so that a term of no kind can be written.
    pub fn bare(kind: u8) -> Term
        ensures { result ≡ record { kind = kind; number = pos 0; first = None; second = None } }
    {
        Term {
            kind,
            ..Term::default()
        }
    }

    pub fn number(number: i32) -> Term
        ensures { result ≡ record { kind = 0; number = number; first = None; second = None } }
    {
        Term {
            number,
            ..Term::bare(u8::from(TermKind::Number))
        }
    }

    // The word of a number place.
    pub fn word(place: Place) -> Term
        ensures { result ≡ record { kind = 1; number = pos 0; first = place; second = None } }
    {
        Term {
            first: place,
            ..Term::bare(u8::from(TermKind::Word))
        }
    }

    // Whether a reference place names no record.
    pub fn nil(place: Place) -> Term
        ensures { result ≡ record { kind = 2; number = pos 0; first = place; second = None } }
    {
        Term {
            first: place,
            ..Term::bare(u8::from(TermKind::Nil))
        }
    }

    // Whether two reference places are equal.
    pub fn same(first: Place, second: Place) -> Term
        ensures { result ≡ record { kind = 3; number = pos 0; first = first; second = second } }
    {
        Term {
            first,
            second,
            ..Term::bare(u8::from(TermKind::Same))
        }
    }

    pub fn operator(operator: Operator) -> Term
        ensures { result ≡ record { kind = sign operator; number = pos 0; first = None; second = None } }
    {
        Term::bare(u8::from(operator))
    }
}
