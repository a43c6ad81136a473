// Runs of a checked program over any store, forward and backward, with a budget. A refused run is rolled back.

#![tactic(auto)]

ghost use Rattle.std.specs.Prelude.{◌≡◌, []};
ghost use Rattle.reversible.specs.Machine.{walk as walk_of, run as run_of};
ghost use Rattle.rules.specs.Book.{is_book};
ghost use Rattle.rules.specs.Step.{flipped};
ghost use Rattle.rules.specs.Run.{machine, numbers};
ghost use Rattle.script.specs.Programs.{script_of};
ghost use Rattle.work.specs.View.{state};
ghost use Rattle.runs.specs.Endings.{facing, told, Restored, Apart};
ghost use Rattle.runs.specs.Walks.{stopped_at, halt, halted, stepped};

#[cfg(test)]
mod tests;

use machine::step;
use rules::Refusal;
use script::program::Program;
use store::Store;
use work::{Work, finished, start, turn, turn_round};

// A run that was refused: why, at which line, and after how many completed steps.
#[derive(Clone, Copy, Debug, PartialEq, Eq)]
pub struct Stopped {
    pub refusal: Refusal,
    pub line: u32,
    pub steps: u32,
}

// The three numbers of an ending, in how many steps it finished or where it stopped: refusal or 0, line, steps.
pub fn numbers(ending: Result<u32, Stopped>) -> (u32, u32, u32)
    ensures { result ≡ numbers (told ending []) }
{
    match ending {
        Ok(steps) => (0, 0, steps),
        Err(stopped) => (u32::from(stopped.refusal), stopped.line, stopped.steps),
    }
}

// Refused before the first line.
impl From<Refusal> for Stopped {
    ghost from_gives = { λ refusal stopped. stopped ≡ record { refusal = refusal; line = 0; steps = 0 } };

    fn from(refusal: Refusal) -> Stopped {
        Stopped {
            refusal,
            line: 0,
            steps: 0,
        }
    }
}

// Refused at the line whose turn it is.
fn stopped_at(work: &Work, refusal: Refusal, steps: u32) -> Stopped
    ensures { result ≡ stopped_at refusal steps (state work.now []) }
{
    Stopped {
        refusal,
        line: turn(work),
        steps,
    }
}

// Steps until the method is finished, the budget is used up or a step is refused. They are counted by hand: a `for` over the budget would
// ask in two places whether the method is finished, in the loop and after it.
fn walk<S: Store>(
    store: &mut S,
    work: &mut Work,
    program: &Program,
    budget: u32,
) -> Result<u32, Stopped>
    ensures { halt result (state work.new (S.book store.new)) ≡ halted 0 (walk_of (machine (script_of program.now)) budget (state work.old (S.book store.old))) }
{
    let mut steps: u32 = 0;
    while !finished(work, program) {
        if steps >= budget {
            return Err(stopped_at(work, Refusal::OutOfBudget, steps));
        }
        if let Err(refusal) = step(store, work, program) {
            return Err(stopped_at(work, refusal, steps));
        }
        steps += 1;
    }
    Ok(steps)
}

fn make_steps<S: Store>(store: &mut S, work: &mut Work, program: &Program, n: u32)
    ensures { state work.new (S.book store.new) ≡ stepped (script_of program.now) n (state work.old (S.book store.old)) }
{
    for _ in 0..n {
        let _ = step(store, work, program);
    }
}

// Back through the steps that were made.
fn unwind<S: Store>(store: &mut S, work: &mut Work, program: &Program, steps: u32)
    ensures { state work.new (S.book store.new) ≡ stepped (script_of program.now) steps (flipped (state work.old (S.book store.old))) }
{
    turn_round(work);
    make_steps(store, work, program, steps);
}

fn has_book<S: Store>(store: &S) -> bool
    ensures { result ≡ is_book (S.book store.now) }
{
    store.size() != 0
}

// Runs method q on the book of the store, in this direction, with this budget. A refused run leaves the book as it was.
// Method, direction and budget are plain parameters, as was wanted of a run.
pub fn run<S: Store>(
    store: &mut S,
    program: &Program,
    q: u32,
    forward: bool,
    budget: u32,
) -> Result<u32, Stopped>
    ensures outcome { told result (S.book store.new) ≡ run_of (machine (script_of program.now)) q (facing forward) (S.book store.old) budget }
    ensures restored { Restored result (S.book store.old) (S.book store.new) }
{
    if !has_book(store) {
        return Err(Stopped::from(Refusal::NoBook));
    }
    let mut work = start(program, q, forward).ok_or(Refusal::NoSuchMethod)?;
    match walk(store, &mut work, program, budget) {
        Ok(steps) => Ok(steps),
        Err(stopped) => {
            unwind(store, &mut work, program, stopped.steps);
            Err(stopped)
        }
    }
}

// Runs method q on two stores, each with a budget of its own. Where both runs finish, the books are equal after exactly when
// they were equal before.
pub fn run_both<A: Store, B: Store>(
    a: &mut A,
    b: &mut B,
    program: &Program,
    q: u32,
    forward: bool,
    x: u32,
    y: u32,
) -> (Result<u32, Stopped>, Result<u32, Stopped>)
    ensures first { told result.0 (A.book a.new) ≡ run_of (machine (script_of program.now)) q (facing forward) (A.book a.old) x }
    ensures second { told result.1 (B.book b.new) ≡ run_of (machine (script_of program.now)) q (facing forward) (B.book b.old) y }
    ensures apart { Apart result.0 result.1 (A.book a.old) (B.book b.old) (A.book a.new) (B.book b.new) }
{
    (
        run(a, program, q, forward, x),
        run(b, program, q, forward, y),
    )
}
