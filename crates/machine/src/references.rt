// The lines that change reference places: new, delete, copy, uncopy and swap.

ghost use Rattle.std.specs.Prelude.{◌≡◌};
ghost use Rattle.rules.specs.Step.{read, write};
ghost use Rattle.work.specs.View.{state};
ghost use Rattle.machine.specs.Steps.{Made};
ghost use Rattle.machine.specs.Acting.{allocates, releases, duplicates, erases, exchanges};

use crate::changes::{pass, settle};
use crate::due::Due;
use crate::records::{is_clear, lies_in, link, record_named, unlink};
use evaluator::{find, read_at, word_at, write_at};
use rules::{Refusal, Spot};
use store::Store;
use work::Work;

// Two spots take each other's words.
fn swap_words<S: Store>(store: &mut S, work: &mut Work, u: Spot, w: Spot)
    ensures { state work.new (S.book store.new) ≡ write w (read (state work.old (S.book store.old)) u) (write u (read (state work.old (S.book store.old)) w) (state work.old (S.book store.old))) }
{
    let a = read_at(store, work, u);
    let b = read_at(store, work, w);
    write_at(store, work, u, b);
    write_at(store, work, w, a);
}

impl Due {
    // new, and delete met backward
    #[tactic(auto, using(evaluator::proofs::Chains::chained), unfolding(crate::specs::Acting::allocates))]
    pub(crate) fn allocate<S: Store>(self, store: &mut S, work: &mut Work) -> Result<(), Refusal>
        ensures { Made result work.old (S.book store.old) work.new (S.book store.new) (λ s. allocates self s) }
    {
        let u = find(work, self.line.x)?;
        if read_at(store, work, u) != 0 {
            return Err(Refusal::NotClear);
        }
        let head = word_at(store, 0);
        if head == 0 {
            return Err(Refusal::NoFree);
        }
        let k = record_named(store, head).ok_or(Refusal::FreeUnfit)?;
        if lies_in(u, k) || !is_clear(store, 7, k) {
            return Err(Refusal::FreeUnfit);
        }
        unlink(store, k);
        settle(store, work, self.number, u, k as i32);
        Ok(())
    }

    // delete, and new met backward
    #[tactic(auto, using(evaluator::proofs::Chains::chained), unfolding(crate::specs::Acting::releases))]
    pub(crate) fn release<S: Store>(self, store: &mut S, work: &mut Work) -> Result<(), Refusal>
        ensures { Made result work.old (S.book store.old) work.new (S.book store.new) (λ s. releases self s) }
    {
        let u = find(work, self.line.x)?;
        let k = record_named(store, read_at(store, work, u)).ok_or(Refusal::NoRecord)?;
        if !is_clear(store, 8, k) {
            return Err(Refusal::NotClear);
        }
        link(store, k);
        settle(store, work, self.number, u, 0);
        Ok(())
    }

    // copy, and uncopy met backward
    #[tactic(auto, using(evaluator::proofs::Chains::chained), unfolding(crate::specs::Acting::duplicates))]
    pub(crate) fn duplicate<S: Store>(self, store: &mut S, work: &mut Work) -> Result<(), Refusal>
        ensures { Made result work.old (S.book store.old) work.new (S.book store.new) (λ s. duplicates self s) }
    {
        let u = find(work, self.line.x)?;
        let w = find(work, self.line.y)?;
        if read_at(store, work, w) != 0 {
            return Err(Refusal::NotClear);
        }
        let v = read_at(store, work, u);
        settle(store, work, self.number, w, v);
        Ok(())
    }

    // uncopy, and copy met backward
    #[tactic(auto, using(evaluator::proofs::Chains::chained), unfolding(crate::specs::Acting::erases))]
    pub(crate) fn erase<S: Store>(self, store: &mut S, work: &mut Work) -> Result<(), Refusal>
        ensures { Made result work.old (S.book store.old) work.new (S.book store.new) (λ s. erases self s) }
    {
        let u = find(work, self.line.x)?;
        let w = find(work, self.line.y)?;
        if read_at(store, work, w) != read_at(store, work, u) {
            return Err(Refusal::NotClear);
        }
        settle(store, work, self.number, w, 0);
        Ok(())
    }

    // swap, met either way
    #[tactic(auto, using(evaluator::proofs::Chains::chained), unfolding(crate::specs::Acting::exchanges))]
    pub(crate) fn exchange<S: Store>(self, store: &mut S, work: &mut Work) -> Result<(), Refusal>
        ensures { Made result work.old (S.book store.old) work.new (S.book store.new) (λ s. exchanges self s) }
    {
        let u = find(work, self.line.x)?;
        let w = find(work, self.line.y)?;
        swap_words(store, work, u, w);
        pass(work, self.number);
        Ok(())
    }
}
