// Calls on any store, proved once from what a store means.

#![tactic(auto)]

ghost use Rattle.std.specs.Prelude.{◌≡◌};
ghost use Rattle.client.specs.Client.{add_answer, added, copy_word_answer, word_copied, copy_answer, copied};

#[cfg(test)]
mod tests;

use rules::Refusal;
use store::{Store, sum};

// Adds to word w, modulo 2^32, and gives the sum. A refusal alters nothing.
pub fn add_to_word<S: Store>(store: &mut S, w: u32, by: i32) -> Result<i32, Refusal>
    ensures answer { result ≡ add_answer (S.book store.old) w by }
    ensures after { S.book store.new ≡ added (S.book store.old) w by }
{
    let total = sum(store.read(w)?, by);
    store.write(w, total)?;
    Ok(total)
}

// Copies word w of one store to another. A refusal alters nothing.
pub fn copy_word<S: Store, T: Store>(from: &S, to: &mut T, w: u32) -> Result<(), Refusal>
    ensures answer { result ≡ copy_word_answer (S.book from.now) (T.book to.old) w }
    ensures after { T.book to.new ≡ word_copied (S.book from.now) (T.book to.old) w }
{
    let v = from.read(w)?;
    to.write(w, v)
}

// Copies a whole book to a store of the same size. A refusal, that one of the two is no book or that the sizes differ, alters nothing.
#[tactic(auto, using(crate::proofs::Copies::copying))]
pub fn copy_book<S: Store, T: Store>(from: &S, to: &mut T) -> Result<(), Refusal>
    ensures answer { result ≡ copy_answer (S.book from.now) (T.book to.old) }
    ensures after { T.book to.new ≡ copied (S.book from.now) (T.book to.old) }
{
    let size = from.size();
    if size == 0 || to.size() == 0 {
        return Err(Refusal::NoBook);
    }
    if size != to.size() {
        return Err(Refusal::NoSuchWord);
    }
    // a store gives its words by number alone
    for w in 0..size {
        copy_word(from, to, w)?;
    }
    Ok(())
}
