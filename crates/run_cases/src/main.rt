// Runs the cases of a table, each on a word slice, on a byte slice and on a layer of moves over words, and compares the answer and every
// word of the book with what the table says. The table comes from standard input, a case a line:
// `name | script | run | book before | answer | words that are changed after`.

#![tactic(auto)]

mod books;
mod cases;
mod scripts;
mod trials;
mod words;

use cases::{Answer, Case, read_case};
use script::program::Program;
use std::io;
use trials::{Found, on_bytes, on_moves, on_words};

// How many cases were run, and how many gave something else than the table says; counted as they are told.
#[derive(Clone, Copy)]
struct Tally {
    cases: u32,
    wrong: u32,
}

impl Tally {
    fn count(&mut self, right: bool) {
        self.cases = self.cases.saturating_add(1);
        if !right {
            self.wrong = self.wrong.saturating_add(1);
        }
    }
}

// Whether a store gave what the table says; if not, says what it gave.
fn judge(rt: &HostRuntime, name: &str, kind: &str, want: Answer, found: Found) -> io::Result<bool> {
    let is = found.answer;
    if is != want {
        println!(rt; "WRONG {name} on {kind}: expected {want}, found {is}")?;
        return Ok(false);
    }
    if let Some(w) = found.stray {
        println!(rt; "WRONG {name} on {kind}: word {w} of the book")?;
        return Ok(false);
    }
    Ok(true)
}

// Runs a case on the three kinds of store, and tells whether all gave what the table says.
fn try_case(rt: &HostRuntime, name: &str, case: &Case, program: &Program) -> io::Result<bool> {
    let found = [
        ("words", on_words(rt.alloc(), program, case)?),
        ("bytes", on_bytes(rt.alloc(), program, case)?),
        ("moves", on_moves(rt.alloc(), program, case)?),
    ];
    let mut right = true;
    for (kind, found) in found {
        right &= judge(rt, name, kind, case.answer, found)?;
    }
    Ok(right)
}

// Builds the script of a case and tries it.
fn build_and_try(rt: &HostRuntime, name: &str, case: &Case) -> io::Result<bool> {
    let lines = case.script.lines.as_slice();
    let terms = case.script.terms.as_slice();
    match Program::build(lines, terms) {
        Ok(program) => try_case(rt, name, case, &program),
        Err(fault) => {
            let refusal = u32::from(fault.refusal);
            let line = fault.line;
            println!(rt; "WRONG {name}: the check gives ({refusal}, {line})")?;
            Ok(false)
        }
    }
}

fn tell(rt: &HostRuntime, name: &str, case: &Case) -> io::Result<bool> {
    let right = build_and_try(rt, name, case)?;
    if right {
        let answer = case.answer;
        println!(rt; "ok {name} {answer}")?;
    }
    Ok(right)
}

// A line of the table.
fn entry(rt: &HostRuntime, text: &str) -> io::Result<bool> {
    let (name, rest) = text.split_once('|').unwrap_or((text, ""));
    let name = name.trim();
    match read_case(rt.alloc(), rest) {
        Some(case) => tell(rt, name, &case),
        None => {
            println!(rt; "WRONG {name}: cannot be read")?;
            Ok(false)
        }
    }
}

fn is_entry(text: &str) -> bool {
    !text.is_empty() && !text.starts_with("#")
}

fn all(rt: &HostRuntime, table: &str) -> io::Result<Tally> {
    let mut tally = Tally { cases: 0, wrong: 0 };
    for text in table.lines().filter(|text| is_entry(text)) {
        tally.count(entry(rt, text)?);
    }
    Ok(tally)
}

fn main(rt: HostRuntime) -> io::Result<()> {
    let table = io::read_to_string(rt.alloc(), rt.stdin())?;
    let tally = all(&rt, table.as_str())?;
    println!(rt;
        "{} cases on 3 kinds of store, {} wrong",
        tally.cases, tally.wrong
    )
}
