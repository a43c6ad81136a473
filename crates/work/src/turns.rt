// Whose turn it is, and whether the method is finished.

ghost use Rattle.std.specs.Prelude.{◌≡◌, [], ◌==◌};
ghost use Rattle.rules.specs.Kinds.{code};
ghost use Rattle.rules.specs.declared.Kind.TheVariants.{End};
ghost use Rattle.rules.specs.Step.{turn_of, met, finished as is_finished};
ghost use Rattle.script.specs.Programs.{script_of};
ghost use Rattle.work.specs.View.{state};

use crate::parts::Work;
use crate::table::line_at;
use rules::{Kind, Line};
use script::program::Program;

// The number of the line whose turn it is.
pub fn turn(work: &Work) -> u32
    ensures { result ≡ turn_of (state work.now []) }
{
    if work.forward {
        work.position
    } else {
        work.position.saturating_sub(1)
    }
}

// Whether a method ends with this line, met in this direction.
fn ends(line: Line, forward: bool) -> bool
    ensures { result ≡ (met forward line.kind == code End) }
{
    line.is(if forward { Kind::End } else { Kind::Begin })
}

// Whether an end is met forward, or a begin backward, with no frame.
pub fn finished(work: &Work, program: &Program) -> bool
    ensures { result ≡ is_finished (script_of program.now) (state work.now []) }
{
    work.frames.is_empty() && ends(line_at(program, turn(work)), work.forward)
}
