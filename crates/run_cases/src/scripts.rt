// A script of the table: statements with `;` between them. Each is a kind, then a method's number or places, then an expression in
// postfix order. `16x local 0` stands for sixteen lines.

use crate::words::{kind, place, term};
use rules::{Kind, Line, Place, Term};
use std::alloc::Global;

#[derive(Drop)]
pub(crate) struct Script {
    pub(crate) lines: Vec<Line>,
    pub(crate) terms: Vec<Term>,
}

// The first word of a text, and what comes after it.
pub(crate) fn cut(text: &str) -> (&str, &str) {
    let (word, rest) = text.split_once(' ').unwrap_or((text, ""));
    (word, rest.trim())
}

// A place, or none for no text.
fn optional(text: &str) -> Option<Place> {
    if text.is_empty() {
        return Some(Place::None);
    }
    place(text)
}

// `begin 0`, `call 1` or `call 1 r1`.
fn of_method(kind: Kind, text: &str) -> Option<Line> {
    let (number, y) = cut(text);
    Some(Line::on(kind, number.parse().ok()?, optional(y)?))
}

// `new r1` or `copy r1 r2`.
fn of_places(kind: Kind, text: &str) -> Option<Line> {
    let (x, y) = cut(text);
    Some(Line::places(kind, place(x)?, optional(y)?))
}

// Adds the terms of an expression, no more than one past what a line can count, so that a longer text is left there.
fn add_terms(terms: &mut Vec<Term>, text: &str) -> Option<()> {
    for word in text.split_whitespace().take(usize::from(u16::MAX) + 1) {
        terms.push(term(word)?).ok()?;
    }
    Some(())
}

// `if m1 0 =`, with the place that it is about given apart.
fn of_expression(kind: Kind, x: Place, text: &str, terms: &mut Vec<Term>) -> Option<Line> {
    let before = terms.len();
    let first = u16::try_from(before).ok()?;
    add_terms(terms, text)?;
    let count = u16::try_from(terms.len().checked_sub(before)?).ok()?;
    Some(Line::with(kind, x, first, count))
}

// `add m1 5`.
fn of_change(kind: Kind, text: &str, terms: &mut Vec<Term>) -> Option<Line> {
    let (first, expression) = cut(text);
    let x = place(first)?;
    of_expression(kind, x, expression, terms)
}

fn line(text: &str, terms: &mut Vec<Term>) -> Option<Line> {
    let (first, rest) = cut(text);
    let kind = kind(first)?;
    match kind {
        Kind::Begin | Kind::End | Kind::Call | Kind::Uncall => of_method(kind, rest),
        Kind::New | Kind::Delete | Kind::Copy | Kind::Uncopy | Kind::Swap => of_places(kind, rest),
        Kind::Add | Kind::Subtract | Kind::Xor => of_change(kind, rest, terms),
        _ => of_expression(kind, Place::None, rest, terms),
    }
}

// How often a statement is to stand, and the statement.
fn repeated(text: &str) -> (u16, &str) {
    let (first, rest) = cut(text);
    match first
        .strip_suffix("x")
        .and_then(|number| number.parse().ok())
    {
        Some(times) => (times, rest),
        None => (1, text),
    }
}

fn add_statement(script: &mut Script, text: &str) -> Option<()> {
    let (times, statement) = repeated(text);
    for _ in 0..times {
        let next = line(statement, &mut script.terms)?;
        script.lines.push(next).ok()?;
    }
    Some(())
}

pub(crate) fn read_script(heap: Global, text: &str) -> Option<Script> {
    let mut script = Script {
        lines: Vec::new(heap),
        terms: Vec::new(heap),
    };
    for statement in text.split(";") {
        add_statement(&mut script, statement.trim())?;
    }
    Some(script)
}
