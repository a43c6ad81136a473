// A case on the three kinds of store.

use crate::cases::{Answer, Case};
use runs::{Stopped, numbers, run};
use script::program::Program;
use std::alloc::{AllocError, Global};
use store::{Bytes, Moves, Store, Words};

// What a store gave: the answer, and the first word of the book that is not the expected one.
#[derive(Clone, Copy)]
pub(crate) struct Found {
    pub(crate) answer: Answer,
    pub(crate) stray: Option<u32>,
}

// Every number mark below a layer of moves holds this.
const BELOW: i32 = 1_000_000_007;

fn fill<S: Store>(store: &mut S, book: &[i32]) {
    for (w, value) in (0..).zip(book) {
        let _ = store.write(w, *value);
    }
}

// The first word at which the store does not hold the book.
fn first_stray<S: Store>(store: &S, book: &[i32]) -> Option<u32> {
    (0..)
        .zip(book)
        .find(|(w, value)| store.read(*w).ok() != Some(**value))
        .map(|(w, _)| w)
}

fn answer(ending: Result<u32, Stopped>) -> Answer {
    let (refusal, line, steps) = numbers(ending);
    Answer {
        refusal,
        line,
        steps,
    }
}

// Fills the store, makes the run and compares the book.
fn attempt<S: Store + Drop>(mut store: S, program: &Program, case: &Case) -> Found {
    fill(&mut store, case.before.as_slice());
    let which = case.run;
    let ending = run(
        &mut store,
        program,
        which.method,
        which.forward,
        which.budget,
    );
    Found {
        answer: answer(ending),
        stray: first_stray(&store, case.after.as_slice()),
    }
}

// Each kind of store lies in memory of its own type and size, so the three share no more than `attempt`.
pub(crate) fn on_words(heap: Global, program: &Program, case: &Case) -> Result<Found, AllocError> {
    let mut words = vec![in heap; 0i32; case.before.len()]?;
    Ok(attempt(Words::new(words.as_mut_slice()), program, case))
}

pub(crate) fn on_bytes(heap: Global, program: &Program, case: &Case) -> Result<Found, AllocError> {
    let size = case.before.len().saturating_mul(4);
    let mut bytes = vec![in heap; 0u8; size]?;
    Ok(attempt(Bytes::new(bytes.as_mut_slice()), program, case))
}

// The marks below differ from those of the book, so each mark is moved from the start, and none below may be written.
pub(crate) fn on_moves(heap: Global, program: &Program, case: &Case) -> Result<Found, AllocError> {
    let mut words = vec![in heap; BELOW; case.before.len()]?;
    let layer = Moves::over(Words::new(words.as_mut_slice()));
    let found = attempt(layer, program, case);
    if words.iter().skip(1).take(64).all(|mark| *mark == BELOW) {
        return Ok(found);
    }
    Ok(Found {
        stray: Some(1),
        ..found
    })
}
