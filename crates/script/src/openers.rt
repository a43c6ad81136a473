// The lines that opened a pair that is not closed yet.

ghost use Rattle.std.specs.Prelude.{◌≡◌, suc, ◌<◌, ◌==◌, ◌&&◌, ◌||◌, not, [], length, reverse};
ghost use Rattle.rules.specs.Kinds.{code};
ghost use Rattle.rules.specs.declared.Kind.TheVariants.{End};
ghost use Rattle.rules.specs.Check.{nests as does_nest, after, depth};

use crate::pairs::{closes, opens};
use arrayvec::ArrayVec;
use rules::{Kind, Line};
use std::marker::Model;

// The locals among them are counted as they come and go, since each line of a script asks how many there are.
#[derive(Drop)]
pub(crate) struct Openers {
    lines: ArrayVec<Line, 256>,
    locals: usize,
    ghost counted: { locals ≡ depth (reverse lines.items) },
}

impl Model for Openers {
    ghost use Rattle.std.specs.Prelude.{List, reverse};
    ghost use Rattle.rules.specs.declared.Line.{Line};

    ghost Value = { List Line };

    // the last opened first
    ghost view = { λ o. reverse o.lines.items };
}

impl Openers {
    pub(crate) fn new() -> Openers
        ensures { result ≡ [] }
    {
        Openers {
            lines: ArrayVec::new(),
            locals: 0,
        }
    }

    pub(crate) fn is_empty(&self) -> bool
        ensures { result ≡ (length self.now == 0) }
    {
        self.lines.is_empty()
    }

    // How many locals are open.
    pub(crate) fn locals(&self) -> usize
        ensures { result ≡ depth self.now }
    {
        self.locals
    }

    // Whether a line may stand here: begin outside a method, every other line inside one, and a closer after its opener.
    pub(crate) fn nests(&self, line: Line) -> bool
        ensures { result ≡ does_nest self.now line }
    {
        match self.lines.as_slice().last() {
            None => line.is(Kind::Begin),
            Some(opener) => !line.is(Kind::Begin) & (!closes(line) | closes_after(*opener, line)),
        }
    }

    // The openers after a line.
    pub(crate) fn pass(&mut self, line: Line)
        requires { length self.old < 256 }
        ensures { self.new ≡ after self.old line }
    {
        if opens(line) {
            self.lines.push(line);
            self.locals += usize::from(line.is(Kind::Local));
        } else if closes(line) {
            if let Some(opener) = self.lines.pop() {
                self.locals -= usize::from(opener.is(Kind::Local));
            }
        }
    }
}

// Whether a closer closes this opener: its number is the next one, and an end is of the method that was begun.
fn closes_after(opener: Line, line: Line) -> bool
    ensures { result ≡ (suc opener.kind == line.kind && (not (line.kind == code End) || opener.q == line.q)) }
{
    (u16::from(opener.kind) + 1 == u16::from(line.kind))
        & (!line.is(Kind::End) | (opener.q == line.q))
}
