// A case of the table: a script, a run, the book before it, and by the rules the answer and the book after it.

use crate::books::{opening, with_words};
use crate::scripts::{Script, cut, read_script};
use std::alloc::Global;
use std::fmt;

// A refusal or 0, a line, and a number of steps.
#[derive(Clone, Copy, PartialEq)]
pub(crate) struct Answer {
    pub(crate) refusal: u32,
    pub(crate) line: u32,
    pub(crate) steps: u32,
}

impl fmt::Display for Answer {
    fn fmt<W: fmt::Write>(&self, f: &mut fmt::Formatter<W>) -> fmt::Result {
        write!(f, "({}, {}, {})", self.refusal, self.line, self.steps)
    }
}

// Which method, which way, with what budget.
#[derive(Clone, Copy)]
pub(crate) struct Run {
    pub(crate) method: u32,
    pub(crate) forward: bool,
    pub(crate) budget: u32,
}

#[derive(Drop)]
pub(crate) struct Case {
    pub(crate) script: Script,
    pub(crate) run: Run,
    pub(crate) before: Vec<i32>,
    pub(crate) answer: Answer,
    pub(crate) after: Vec<i32>,
}

fn three(text: &str) -> (&str, &str, &str) {
    let (first, rest) = cut(text);
    let (second, third) = cut(rest);
    (first, second, third)
}

// The words are this table's own, and a direction is a truth value in the call of a run.
fn direction(text: &str) -> Option<bool> {
    match text {
        "forward" => Some(true),
        "backward" => Some(false),
        _ => None,
    }
}

// `0 forward 100`.
fn read_run(text: &str) -> Option<Run> {
    let (method, way, budget) = three(text);
    Some(Run {
        method: method.parse().ok()?,
        forward: direction(way)?,
        budget: budget.parse().ok()?,
    })
}

// `10 2 1`.
fn read_answer(text: &str) -> Option<Answer> {
    let (refusal, line, steps) = three(text);
    Some(Answer {
        refusal: refusal.parse().ok()?,
        line: line.parse().ok()?,
        steps: steps.parse().ok()?,
    })
}

// `script | run | book before | answer | words that are changed after`.
pub(crate) fn read_case(heap: Global, text: &str) -> Option<Case> {
    let mut fields = text.split('|').map(|field| field.trim());
    let script = read_script(heap, fields.next()?)?;
    let run = read_run(fields.next()?)?;
    let before = opening(heap, fields.next()?)?;
    let answer = read_answer(fields.next()?)?;
    let changes = fields.next().unwrap_or("");
    let after = with_words(before.clone().ok()?, changes)?;
    Some(Case {
        script,
        run,
        before,
        answer,
        after,
    })
}
