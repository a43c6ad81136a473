// One step: the line whose turn it is, the values of its tests, and one choice by kind, direction and values.

ghost use Rattle.rules.specs.Kinds.{code};
ghost use Rattle.std.specs.Prelude.{◌≡◌};
ghost use Rattle.rules.specs.Step.{met, step as step_of};
ghost use Rattle.script.specs.Programs.{script_of};
ghost use Rattle.work.specs.View.{state};
ghost use Rattle.machine.specs.Steps.{Made};
ghost use Rattle.machine.specs.Acting.{own_value, far_value, Acted};

use crate::calls::come_back;
use crate::changes::{Change, go_past};
use crate::due::{Due, line_due};
use evaluator::value;
use rules::{Kind, Refusal};
use script::program::Program;
use store::Store;
use work::Work;

impl Due {
    // The value of the line's own expression, 0 for a kind without one. A local must have room first.
    fn own_value<S: Store>(self, store: &S, work: &Work, program: &Program) -> Result<i32, Refusal>
        ensures { result ≡ own_value (met work.now.forward (code self.kind)) (script_of program.now) self.number (state work.now (S.book store.now)) }
    {
        match (self.kind, work.forward) {
            (
                Kind::Begin
                | Kind::End
                | Kind::New
                | Kind::Delete
                | Kind::Copy
                | Kind::Uncopy
                | Kind::Swap
                | Kind::Call
                | Kind::Uncall,
                _,
            ) => Ok(0),
            (Kind::Local, true) | (Kind::Delocal, false) if work.opened >= 256 => {
                Err(Refusal::TooDeep)
            }
            _ => value(store, work, program, self.number),
        }
    }

    // The test of the other line of the pair, where it decides; 0 where it does not.
    fn far_value<S: Store>(
        self,
        store: &S,
        work: &Work,
        program: &Program,
        own: i32,
    ) -> Result<i32, Refusal>
        ensures { result ≡ far_value (met work.now.forward (code self.kind)) (script_of program.now) self.number (state work.now (S.book store.now)) own }
    {
        match (self.kind, work.forward) {
            (Kind::If | Kind::Until, true) | (Kind::Fi | Kind::From, false) if own == 0 => {
                value(store, work, program, program.partner(self.number))
            }
            _ => Ok(0),
        }
    }

    // What the line does, with its values in hand: one match over kind, direction and values, as was wanted of a step.
    fn act<S: Store>(
        self,
        store: &mut S,
        work: &mut Work,
        program: &Program,
        own: i32,
        far: i32,
    ) -> Result<(), Refusal>
        ensures { Acted result work.old (S.book store.old) work.new (S.book store.new) (script_of program.now) self own far }
    {
        match (self.kind, work.forward) {
            (Kind::Begin, true) | (Kind::End, false) => Err(Refusal::Unpaired),
            (Kind::Begin, false) | (Kind::End, true) => come_back(store, work, program),
            (Kind::Add, true) | (Kind::Subtract, false) => {
                self.change(store, work, Change::Raise, own)
            }
            (Kind::Add, false) | (Kind::Subtract, true) => {
                self.change(store, work, Change::Lower, own)
            }
            (Kind::Xor, _) => self.change(store, work, Change::Mix, own),
            (Kind::If | Kind::Until, true) | (Kind::Fi | Kind::From, false) if own != 0 => {
                go_past(store, work, self.number)
            }
            (Kind::If | Kind::Until, true) | (Kind::Fi | Kind::From, false) if far == 0 => {
                go_past(store, work, program.partner(self.number))
            }
            (Kind::If | Kind::Until, true) | (Kind::Fi | Kind::From, false) => {
                Err(Refusal::TestFailed)
            }
            (Kind::Fi | Kind::From, true) | (Kind::If | Kind::Until, false) if own != 0 => {
                go_past(store, work, self.number)
            }
            (Kind::Fi | Kind::From, true) | (Kind::If | Kind::Until, false) => {
                Err(Refusal::TestFailed)
            }
            (Kind::Local, true) | (Kind::Delocal, false) => self.open_local(store, work, own),
            (Kind::Local, false) | (Kind::Delocal, true) => self.close_local(store, work, own),
            (Kind::New, true) | (Kind::Delete, false) => self.allocate(store, work),
            (Kind::New, false) | (Kind::Delete, true) => self.release(store, work),
            (Kind::Copy, true) | (Kind::Uncopy, false) => self.duplicate(store, work),
            (Kind::Copy, false) | (Kind::Uncopy, true) => self.erase(store, work),
            (Kind::Swap, _) => self.exchange(store, work),
            (Kind::Call, forward) => self.call(store, work, program, forward),
            (Kind::Uncall, forward) => self.call(store, work, program, !forward),
        }
    }
}

// One step. A refused step alters nothing. The evaluator's answers are taken apart by `let .. else`, as was wanted of it.
pub fn step<S: Store>(store: &mut S, work: &mut Work, program: &Program) -> Result<(), Refusal>
    ensures { Made result work.old (S.book store.old) work.new (S.book store.new) (λ s. step_of (script_of program.now) s) }
{
    let due = line_due(work, program)?;
    let answer = due.own_value(store, work, program);
    let Ok(own) = answer else {
        return answer.and(Ok(()));
    };
    let answer = due.far_value(store, work, program, own);
    let Ok(far) = answer else {
        return answer.and(Ok(()));
    };
    due.act(store, work, program, own, far)
}
