// Turning a script: it then runs the way back.

ghost use Rattle.std.specs.Prelude.{◌≡◌};
ghost use Rattle.rules.specs.Script.{turned_kind, turned_line, turned};
ghost use Rattle.rules.specs.Check.{checked};
ghost use Rattle.laws.specs.Whole.{Whole};
ghost use Rattle.script.specs.Verdicts.{script_from, verdict, turned_if, TurnsBack};

use crate::checking::{Fault, check};
use rules::{Line, Term};

// Kinds below 14 change their lowest bit. It is told of numbers, as the rule tells it, and holds of those of no kind too.
fn turned_kind(kind: u8) -> u8
    ensures { result ≡ turned_kind kind }
{
    if kind < 14 { kind ^ 1 } else { kind }
}

fn turned_line(line: Line) -> Line
    ensures { result ≡ turned_line line }
{
    Line {
        kind: turned_kind(line.kind),
        ..line
    }
}

// The lines are exchanged end for end, and each is turned.
pub(crate) fn turn_lines(lines: &mut [Line])
    ensures { lines.new ≡ turned lines.old }
{
    for line in lines.iter_mut() {
        *line = turned_line(*line);
    }
    lines.reverse();
}

// Turns the table that it is handed. It refuses what the check refuses, and then leaves the table as it was.
pub fn turn(lines: &mut [Line], terms: &[Term]) -> Result<(), Fault>
    ensures answer { verdict result ≡ checked (script_from lines.old terms.now) }
    ensures table { lines.new ≡ turned_if result lines.old }
    ensures again { TurnsBack result lines.old lines.new terms.now }
    ensures whole { Whole }
{
    check(lines, terms)?;
    turn_lines(lines);
    Ok(())
}
