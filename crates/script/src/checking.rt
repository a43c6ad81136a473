// The check.

ghost use Rattle.std.specs.Prelude.{◌≡◌, ◌^◌, ◌<◌, ◌≤◌, length, position};
ghost use Rattle.rules.specs.Check.{checked};
ghost use Rattle.script.specs.Verdicts.{script_from, verdict, numbers_of, LinesChecked, CallsChecked, Knows, missing};

use crate::judging::{judge, note};
use crate::openers::Openers;
use rules::{Kind, Line, Refusal, Term};

// Why a script is rejected, and at which line; the number of lines where a pair is left open.
#[derive(Clone, Copy, Debug, PartialEq, Eq)]
pub struct Fault {
    pub refusal: Refusal,
    pub line: u16,
}

// The two numbers of a verdict: refusal or 0, and line.
pub fn numbers(answer: Result<(), Fault>) -> (u32, u32)
    ensures { result ≡ numbers_of (verdict answer) }
{
    match answer {
        Ok(()) => (0, 0),
        Err(fault) => (u32::from(fault.refusal), u32::from(fault.line)),
    }
}

pub(crate) const TOO_LONG: Fault = Fault {
    refusal: Refusal::TooLong,
    line: 0,
};

// The fault of line k.
fn fault_at(refusal: Refusal, k: usize) -> Fault
    requires { k < 2 ^ 16 }
    ensures { result ≡ record { refusal = refusal; line = k } }
{
    Fault {
        refusal,
        line: k as u16,
    }
}

// The lines in order, then pairs left open; it gives the methods that are begun, in a table as wide as a method's number.
fn check_lines(lines: &[Line], terms: &[Term]) -> Result<[bool; 256], Fault>
    requires { length lines.now ≤ 256 }
    ensures { LinesChecked result (script_from lines.now terms.now) }
{
    let mut openers = Openers::new();
    let mut begun = [false; 256];
    for (k, line) in lines.iter().enumerate() {
        if let Err(refusal) = judge(&openers, &begun, *line, terms) {
            return Err(fault_at(refusal, k));
        }
        openers.pass(*line);
        note(&mut begun, *line);
    }
    if openers.is_empty() {
        Ok(begun)
    } else {
        Err(fault_at(Refusal::Unpaired, lines.len()))
    }
}

// Whether a line calls a method that is not begun.
fn misses(line: Line, begun: &[bool; 256]) -> bool
    ensures { result ≡ missing line begun.now }
{
    (line.is(Kind::Call) | line.is(Kind::Uncall)) & !begun[usize::from(line.q)]
}

// Where the first call of a method that is not begun stands.
fn find_missing(lines: &[Line], begun: &[bool; 256]) -> Option<usize>
    ensures { result ≡ position (λ l. missing l begun.now) lines.now }
{
    lines.iter().position(|line| misses(*line, begun))
}

// The calls of methods that are not begun.
fn check_calls(lines: &[Line], begun: &[bool; 256]) -> Result<(), Fault>
    requires few { length lines.now ≤ 256 }
    requires begun { Knows begun.now lines.now }
    ensures { CallsChecked result lines.now }
{
    match find_missing(lines, begun) {
        None => Ok(()),
        Some(k) => Err(fault_at(Refusal::WrongMethod, k)),
    }
}

// Lines and terms are two parameters wherever a caller hands in tables, as was wanted of these calls.
// Whether the rules allow a script, and if not, the first fault in the order of the rules and its line.
pub fn check(lines: &[Line], terms: &[Term]) -> Result<(), Fault>
    ensures { verdict result ≡ checked (script_from lines.now terms.now) }
{
    if lines.len() > 256 || terms.len() > 1024 {
        return Err(TOO_LONG);
    }
    let begun = check_lines(lines, terms)?;
    check_calls(lines, &begun)
}
