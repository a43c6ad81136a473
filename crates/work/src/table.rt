// The lines of a program, and where its methods are entered.

ghost use Rattle.std.specs.Prelude.{◌≡◌};
ghost use Rattle.rules.specs.Script.{line_at};
ghost use Rattle.rules.specs.Step.{entry as entered};
ghost use Rattle.script.specs.Programs.{script_of};

use rules::{Line, NO_LINE};
use script::program::Program;

// Line k, or a line of no kind past the last: the rules' look-up is total, so that a turn at no line is refused as one of no kind.
pub fn line_at(program: &Program, k: u32) -> Line
    ensures { result ≡ line_at (script_of program.now).lines k }
{
    program.line(k as usize).unwrap_or(NO_LINE)
}

// Where method q is entered in this direction: after its begin, or before its end.
pub fn entry(program: &Program, forward: bool, q: u8) -> u32
    ensures { result ≡ entered (script_of program.now) forward q }
{
    if forward {
        u32::from(program.begin(q)) + 1
    } else {
        u32::from(program.end(q))
    }
}
