// Calls and returns.

ghost use Rattle.std.specs.Prelude.{◌≡◌, ◌<◌, [], length, nat_lt};
ghost use Rattle.rules.specs.Script.{line_at};
ghost use Rattle.rules.specs.Step.{callee, holding, across, base};
ghost use Rattle.script.specs.Programs.{script_of};
ghost use Rattle.work.specs.View.{state};
ghost use Rattle.arrayvec.specs.ArrayVec.{array_vec_len};
ghost use Rattle.machine.specs.Steps.{Made};
ghost use Rattle.machine.specs.Acting.{enters, comes_back, framed, under, Top, back_in};

use crate::changes::pass;
use crate::due::Due;
use crate::records::record_named;
use evaluator::{find, find_in, read_at};
use rules::{Frame, Kind, Line, Place, Refusal};
use script::program::Program;
use store::Store;
use work::{Work, entry, line_at};

// The record that a call on y makes the present one.
#[tactic(auto, using(evaluator::proofs::Chains::chained))]
fn called_record<S: Store>(store: &S, work: &Work, y: Place) -> Result<u16, Refusal>
    ensures { result ≡ callee (state work.now (S.book store.now)) y }
{
    if let Place::None = y {
        return Ok(work.present);
    }
    let u = find(work, y)?;
    record_named(store, read_at(store, work, u)).ok_or(Refusal::NoRecord)
}

fn push_frame(work: &mut Work, l: u16, k: u16)
    requires { array_vec_len work.old.frames < 64 }
    ensures { state work.new [] ≡ framed l k (state work.old []) }
{
    work.frames.push(Frame {
        line: l,
        former: work.present,
        count: work.opened as u16,
    });
    work.present = k;
}

fn has_room(work: &Work) -> bool
    ensures { result ≡ nat_lt (length (state work.now []).frames) 64 }
{
    !work.frames.is_full()
}

impl Due {
    // call, and uncall with the direction reversed: into the method that the line calls
    #[tactic(auto, using(evaluator::proofs::Chains::chained), unfolding(crate::specs::Acting::enters))]
    pub(crate) fn call<S: Store>(
        self,
        store: &S,
        work: &mut Work,
        program: &Program,
        forward: bool,
    ) -> Result<(), Refusal>
        ensures { Made result work.old (S.book store.now) work.new (S.book store.now) (λ s. enters (script_of program.now) self s forward) }
    {
        if !has_room(work) {
            return Err(Refusal::TooDeep);
        }
        let k = called_record(store, work, self.line.y)?;
        push_frame(work, self.number, k);
        work.forward = forward;
        work.position = entry(program, forward, self.line.q);
        Ok(())
    }
}

// The frame of the method that runs.
fn top_frame(work: &Work) -> Option<Frame>
    ensures { Top result work.now }
{
    work.frames.last().copied()
}

// The first local of the calling frame.
fn caller_local(work: &Work) -> u16
    ensures { result ≡ base (under work.now) }
{
    match work.frames.as_slice() {
        [.., caller, _] => caller.count,
        _ => 0,
    }
}

// y, if named, found with the caller's record and locals, holds the present record.
#[tactic(auto, using(evaluator::proofs::Chains::chained))]
fn holds<S: Store>(store: &S, work: &Work, former: u16, y: Place) -> Result<(), Refusal>
    ensures { result ≡ holding (back_in former (under work.now) (state work.now (S.book store.now))) y work.now.present }
{
    if let Place::None = y {
        return Ok(());
    }
    let u = find_in(former, caller_local(work), y)?;
    if read_at(store, work, u) != work.present as i32 {
        return Err(Refusal::Changed);
    }
    Ok(())
}

// The same of y of the frame's line.
fn still_holds<S: Store>(store: &S, work: &Work, program: &Program, f: Frame) -> Result<(), Refusal>
    ensures { result ≡ holding (back_in f.former (under work.now) (state work.now (S.book store.now))) (line_at (script_of program.now).lines f.line).y work.now.present }
{
    let call = line_at(program, f.line as u32);
    holds(store, work, f.former, call.y)
}

fn drop_frame(work: &mut Work, former: u16)
    ensures { state work.new [] ≡ back_in former (under work.old) (state work.old []) }
{
    let _ = work.frames.pop();
    work.present = former;
}

// The direction on the other side of a call or uncall line.
fn direction(line: Line, forward: bool) -> bool
    ensures { result ≡ across line.kind forward }
{
    forward != line.is(Kind::Uncall)
}

// end met forward, and begin met backward, with a frame
#[tactic(auto, using(evaluator::proofs::Chains::chained), unfolding(crate::specs::Acting::comes_back))]
pub(crate) fn come_back<S: Store>(
    store: &S,
    work: &mut Work,
    program: &Program,
) -> Result<(), Refusal>
    ensures { Made result work.old (S.book store.now) work.new (S.book store.now) (λ s. comes_back (script_of program.now) s) }
{
    let f = top_frame(work).ok_or(Refusal::Unpaired)?;
    still_holds(store, work, program, f)?;
    drop_frame(work, f.former);
    work.forward = direction(line_at(program, f.line as u32), work.forward);
    pass(work, f.line);
    Ok(())
}
