// The line whose turn it is.

ghost use Rattle.std.specs.Prelude.{[]};
ghost use Rattle.script.specs.Programs.{script_of};
ghost use Rattle.work.specs.View.{state};
ghost use Rattle.machine.specs.Acting.{IsDue};

use rules::{Kind, Line, Refusal};
use script::program::Program;
use work::{Work, line_at, turn};

// A line whose turn it is, its number and its kind.
#[derive(Clone, Copy)]
pub(crate) struct Due {
    pub(crate) number: u16,
    pub(crate) line: Line,
    pub(crate) kind: Kind,
}

pub(crate) fn line_due(work: &Work, program: &Program) -> Result<Due, Refusal>
    ensures { IsDue (script_of program.now) (state work.now []) result }
{
    let at = turn(work);
    let line = line_at(program, at);
    let kind = Kind::try_from(line.kind)?;
    Ok(Due {
        number: at as u16,
        line,
        kind,
    })
}
