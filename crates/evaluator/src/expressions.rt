// The values of expressions. Terms are taken from first to last; nothing is altered.

ghost use Rattle.std.specs.Prelude.{◌≡◌};
ghost use Rattle.rules.specs.Expression.{operated, taken};
ghost use Rattle.rules.specs.Terms.{sign};
ghost use Rattle.rules.specs.Step.{see as seen, value as value_of};
ghost use Rattle.script.specs.Programs.{script_of};
ghost use Rattle.work.specs.View.{state};
ghost use Rattle.evaluator.specs.Waiting.{Pushed};

use crate::operators::operate;
use crate::places::see;
use crate::stack::Stack;
use rules::{Operator, Refusal, Term, TermKind};
use script::program::Program;
use store::Store;
use work::{Work, line_at};

// An operator takes the two last values, the left side below the right.
#[tactic(auto, using(crate::proofs::Chains::chained), unfolding(rules::specs::Expression::operated))]
fn take_operator(operator: Operator, stack: &mut Stack) -> Result<(), Refusal>
    ensures { Pushed result stack.new (operated (sign operator) stack.old) }
{
    let b = stack.pop()?;
    let a = stack.pop()?;
    let v = operate(operator, a, b)?;
    stack.push(v)
}

#[tactic(auto, using(crate::proofs::Chains::chained), unfolding(rules::specs::Expression::taken))]
fn take_term<S: Store>(store: &S, work: &Work, t: Term, stack: &mut Stack) -> Result<(), Refusal>
    ensures { Pushed result stack.new (taken t (seen (state work.now (S.book store.now)) t.first) (seen (state work.now (S.book store.now)) t.second) stack.old) }
{
    match TermKind::try_from(t.kind)? {
        TermKind::Number => stack.push(t.number),
        TermKind::Word => {
            let v = see(store, work, t.first)?;
            stack.push(v)
        }
        TermKind::Nil => {
            let v = see(store, work, t.first)?;
            stack.push(i32::from(v == 0))
        }
        TermKind::Same => {
            let v = see(store, work, t.first)?;
            let w = see(store, work, t.second)?;
            stack.push(i32::from(v == w))
        }
        TermKind::Operator(operator) => take_operator(operator, stack),
    }
}

// The value of the expression of line l.
pub fn value<S: Store>(store: &S, work: &Work, program: &Program, l: u16) -> Result<i32, Refusal>
    ensures { result ≡ value_of (script_of program.now) (state work.now (S.book store.now)) l }
{
    let line = line_at(program, u32::from(l));
    let mut stack = Stack::new();
    for t in program.expression(line) {
        take_term(store, work, *t, &mut stack)?;
    }
    stack.only()
}
