// The lines that change number places and locals, and the position past a line.

ghost use Rattle.std.specs.Prelude.{◌≡◌, ◌-◌, [], length, take};
ghost use Rattle.rules.specs.Step.{go_to, past, with_locals, write, go};
ghost use Rattle.work.specs.View.{state};
ghost use Rattle.machine.specs.Steps.{Made};
ghost use Rattle.machine.specs.Acting.{changed_by, changes, opens, closes};

use crate::due::Due;
use evaluator::{find, read_at, write_at};
use rules::{Refusal, Spot};
use store::Store;
use work::Work;

// The position goes past line l.
pub(crate) fn pass(work: &mut Work, l: u16)
    ensures { state work.new [] ≡ go_to (past work.old.forward l) (state work.old []) }
{
    work.position = if work.forward { l as u32 + 1 } else { l as u32 };
}

// The step changes nothing but the position.
pub(crate) fn go_past<S: Store>(store: &S, work: &mut Work, l: u16) -> Result<(), Refusal>
    ensures { Made result work.old (S.book store.now) work.new (S.book store.now) (λ s. go l s) }
{
    pass(work, l);
    Ok(())
}

// The spot u takes the word v, and the position goes past line l.
pub(crate) fn settle<S: Store>(store: &mut S, work: &mut Work, l: u16, u: Spot, v: i32)
    ensures { state work.new (S.book store.new) ≡ go_to (past work.old.forward l) (write u v (state work.old (S.book store.old))) }
{
    write_at(store, work, u, v);
    pass(work, l);
}

// The last local closes.
fn drop_local(work: &mut Work)
    ensures { state work.new [] ≡ with_locals (take (length (state work.old []).locals - 1) (state work.old []).locals) (state work.old []) }
{
    work.opened = work.opened.saturating_sub(1);
}

// What a line makes of the word at its place and the value of its expression.
#[derive(Clone, Copy)]
pub(crate) enum Change {
    Raise,
    Lower,
    Mix,
}

impl Change {
    #[tactic(auto, using(std::proofs::lemmas::Int::wraps))]
    fn of(self, v: i32, e: i32) -> i32
        ensures { result ≡ changed_by self v e }
    {
        match self {
            Change::Raise => v.wrapping_add(e),
            Change::Lower => v.wrapping_sub(e),
            Change::Mix => v ^ e,
        }
    }
}

impl Due {
    // add, subtract and xor, met either way
    #[tactic(auto, using(evaluator::proofs::Chains::chained), unfolding(crate::specs::Acting::changes))]
    pub(crate) fn change<S: Store>(
        self,
        store: &mut S,
        work: &mut Work,
        change: Change,
        e: i32,
    ) -> Result<(), Refusal>
        ensures { Made result work.old (S.book store.old) work.new (S.book store.new) (λ s. changes self s change e) }
    {
        let u = find(work, self.line.x)?;
        let v = change.of(read_at(store, work, u), e);
        settle(store, work, self.number, u, v);
        Ok(())
    }

    // local, and delocal met backward
    #[tactic(auto, using(evaluator::proofs::Chains::chained), unfolding(crate::specs::Acting::opens))]
    pub(crate) fn open_local<S: Store>(
        self,
        store: &S,
        work: &mut Work,
        e: i32,
    ) -> Result<(), Refusal>
        ensures { Made result work.old (S.book store.now) work.new (S.book store.now) (λ s. opens self s e) }
    {
        if work.opened >= 256 {
            return Err(Refusal::TooDeep);
        }
        work.locals[work.opened] = e;
        work.opened += 1;
        pass(work, self.number);
        Ok(())
    }

    // delocal, and local met backward
    #[tactic(auto, using(evaluator::proofs::Chains::chained), unfolding(crate::specs::Acting::closes))]
    pub(crate) fn close_local<S: Store>(
        self,
        store: &S,
        work: &mut Work,
        e: i32,
    ) -> Result<(), Refusal>
        ensures { Made result work.old (S.book store.now) work.new (S.book store.now) (λ s. closes self s e) }
    {
        let last = Spot::InLocals(work.opened.saturating_sub(1));
        if read_at(store, work, last) != e {
            return Err(Refusal::TestFailed);
        }
        drop_local(work);
        pass(work, self.number);
        Ok(())
    }
}
