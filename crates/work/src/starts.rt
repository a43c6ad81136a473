// Where a run starts, and how the machine is turned round.

ghost use Rattle.std.specs.Prelude.{◌≡◌, []};
ghost use Rattle.rules.specs.Step.{flipped};
ghost use Rattle.script.specs.Programs.{script_of};
ghost use Rattle.work.specs.View.{state, Method, Started};

use crate::parts::Work;
use crate::table::entry;
use arrayvec::ArrayVec;
use script::program::Program;

// The number of method q, if there is that method.
fn method(program: &Program, q: u32) -> Option<u8>
    ensures { Method result (script_of program.now) q }
{
    let m = u8::try_from(q).ok()?;
    (usize::from(program.begin(m)) < program.len()).then_some(m)
}

// No frames, no locals and no present record, at a position.
fn fresh(position: u32, forward: bool) -> Work
    ensures { state result [] ≡ record { position = position; forward = forward; present = 0; locals = []; frames = []; book = [] } }
{
    Work {
        position,
        forward,
        present: 0,
        locals: [0; 256],
        opened: 0,
        frames: ArrayVec::new(),
    }
}

// The work state at the start of a run of method q, or nothing if there is no such method.
pub fn start(program: &Program, q: u32, forward: bool) -> Option<Work>
    ensures { Started result (script_of program.now) forward q }
{
    let m = method(program, q)?;
    Some(fresh(entry(program, forward, m), forward))
}

// Turns the machine round.
pub fn turn_round(work: &mut Work)
    ensures { state work.new [] ≡ flipped (state work.old []) }
{
    work.forward = !work.forward;
}
