ghost use Rattle.std.specs.Prelude.{◌≡◌, []};
ghost use Rattle.rules.specs.Expression.{onto};
ghost use Rattle.evaluator.specs.Waiting.{Pushed, top_of, below, alone};

use arrayvec::ArrayVec;
use rules::Refusal;
use std::marker::Model;

// The values that wait while an expression is worked out, at most sixteen. A clause sees their list, the last first.
#[derive(Drop)]
pub(crate) struct Stack {
    cells: ArrayVec<i32, 16>,
}

impl Model for Stack {
    ghost use Rattle.std.specs.Prelude.{List, reverse, ℤ};

    ghost Value = { List ℤ };

    ghost view = { λ s. reverse s.cells.items };
}

impl Stack {
    pub(crate) fn new() -> Self
        ensures { result ≡ [] }
    {
        Stack {
            cells: ArrayVec::new(),
        }
    }

    pub(crate) fn push(&mut self, v: i32) -> Result<(), Refusal>
        ensures { Pushed result self.new (onto self.old v) }
    {
        self.cells.try_push(v).map_err(|_| Refusal::Malformed)
    }

    pub(crate) fn pop(&mut self) -> Result<i32, Refusal>
        ensures answer { result ≡ top_of self.old }
        ensures after { self.new ≡ below self.old }
    {
        self.cells.pop().ok_or(Refusal::Malformed)
    }

    // The value that waits alone.
    pub(crate) fn only(&self) -> Result<i32, Refusal>
        ensures { result ≡ alone self.now }
    {
        match self.cells.as_slice() {
            [v] => Ok(*v),
            _ => Err(Refusal::Malformed),
        }
    }
}
