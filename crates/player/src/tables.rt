// Commands that need no store.

use crate::commands::Command;
use crate::desk::Desk;
use crate::stops::Stop;
use script::checking::{Fault, check, numbers};
use script::turning::turn;
use session::lines_digest;
use std::io::{BufRead, Write};

// Carries out a command on the tables.
pub(crate) fn on_tables<R: BufRead, W: Write>(
    desk: &mut Desk<R, W>,
    command: Command,
) -> Result<(), Stop> {
    if !desk.running {
        return Err(desk.stop("a session to be started"));
    }
    match command {
        Command::Tables => empty(desk),
        Command::Line(line) => desk.lines.push(line)?,
        Command::Term(term) => desk.terms.push(term)?,
        Command::Check => {
            let answer = check(desk.lines.as_slice(), desk.terms.as_slice());
            verdict(desk, "check", answer)?;
        }
        Command::Turn => {
            let answer = turn(desk.lines.as_mut_slice(), desk.terms.as_slice());
            verdict(desk, "turn", answer)?;
        }
        Command::Lines => {
            let count = desk.lines.len();
            let digest = lines_digest(desk.lines.as_slice());
            writeln!(desk.out, "lines {count} {digest:016x}")?;
        }
        _ => return Err(desk.stop(needed(command))),
    }
    Ok(())
}

// What a command needs that the present state lacks.
fn needed(command: Command) -> &'static str {
    match command {
        Command::Session => "the end of the session that runs",
        Command::Book => "a store",
        Command::Close | Command::Load | Command::Apply(_, _) | Command::Back | Command::Look(_) =>
            { "an open screen" }
        _ => "a store that no screen has",
    }
}

fn empty<R: BufRead, W: Write>(desk: &mut Desk<R, W>) {
    desk.lines.clear();
    desk.terms.clear();
}

// Writes what the check found.
fn verdict<R: BufRead, W: Write>(
    desk: &mut Desk<R, W>,
    what: &str,
    answer: Result<(), Fault>,
) -> Result<(), Stop> {
    let (refusal, line) = numbers(answer);
    writeln!(desk.out, "{what} {refusal} {line}")?;
    Ok(())
}

// Starts a session.
pub(crate) fn begin<R: BufRead, W: Write>(desk: &mut Desk<R, W>) -> Result<(), Stop> {
    if desk.running {
        return Err(desk.stop("the end of the session that runs"));
    }
    empty(desk);
    desk.running = true;
    desk.echo()
}

// Ends the session.
pub(crate) fn finish<R: BufRead, W: Write>(desk: &mut Desk<R, W>) -> Result<(), Stop> {
    if !desk.running {
        return Err(desk.stop("a session to be started"));
    }
    desk.running = false;
    writeln!(desk.out, "end")?;
    Ok(())
}
