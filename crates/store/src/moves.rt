// The moves layer: a store over any other, which keeps what the number marks were moved by and leaves the marks below alone.

ghost use Rattle.std.specs.Prelude.{◌≡◌, ◌-◌, ◌<◌, ◌≤◌, true, length, replicate, pos, ◌-ℤ◌, slice_index_or, slice_set};
ghost use Rattle.rules.specs.Book.{write_of};
ghost use Rattle.rules.specs.Word.{word};
ghost use Rattle.store.specs.Layout.{is_mark, move_of, moved, mark_moved, moves_after, below_after};
ghost use Rattle.store.specs.Held.{moved_held};

use crate::Store;
use crate::arithmetic::{difference, sum};
use rules::Refusal;

const MARKS: usize = 64;

// There is a move for each of the 64 number marks, so the array needs no count.
#[derive(Drop)]
pub struct Moves<S> {
    below: S,
    moves: [i32; MARKS],
}

impl<S: Store> Moves<S> {
    // No move yet: the layer holds what the store below holds.
    #[tactic(auto, using(crate::proofs::Layers::moved_none))]
    pub fn over(below: S) -> Moves<S>
        ensures below { result.below ≡ below }
        ensures moves { result.moves ≡ replicate 64 (pos 0) }
        ensures same { moved result.moves (S.book result.below) ≡ S.book below }
    {
        Moves {
            below,
            moves: [0; MARKS],
        }
    }

    // The store below; the moves are forgotten.
    pub fn into_below(self) -> S
        ensures { result ≡ self.below }
    {
        let Moves { below, moves: _ } = self;
        below
    }

    // The store below, as it stands under the moves.
    pub fn below(&self) -> &S
        ensures { result.now ≡ self.now.below }
    {
        &self.below
    }

    // What word w was moved by: 0 where it is no number mark.
    pub fn move_of(&self, w: u32) -> i32
        ensures { result ≡ move_of self.now.moves w }
    {
        if is_mark(w) { self.moves[slot(w)] } else { 0 }
    }

    // Moves mark w such that v is shown, and leaves the store below alone.
    fn write_mark(&mut self, w: u32, v: i32) -> Result<(), Refusal>
        requires { is_mark w ≡ true }
        ensures answer { result ≡ write_of (S.book self.old.below) w }
        ensures moves { self.new.moves ≡ mark_moved self.old.moves (S.book self.old.below) w v }
        ensures kept { self.new.below ≡ self.old.below }
    {
        let x = self.below.read(w)?;
        self.moves[slot(w)] = difference(v, x);
        Ok(())
    }
}

#[tactic(auto, using(crate::proofs::Layers::layering))]
impl<S: Store> Store for Moves<S> {
    ghost book = { λ s. moved s.moves (S.book s.below) };

    ghost meant = { λ s. moved_held s.moves (S.book s.below) (S.meant s.below) };

    fn size(&self) -> u32 {
        self.below.size()
    }

    fn read(&self, w: u32) -> Result<i32, Refusal> {
        let x = self.below.read(w)?;
        Ok(sum(x, self.move_of(w)))
    }

    // Writing a mark alters its move alone, to what v is above the word below, and the store below stays that very store.
    // Any other word is written below.
    fn write(&mut self, w: u32, v: i32) -> Result<(), Refusal>
        ensures answer { result ≡ write_of (moved self.old.moves (S.book self.old.below)) w }
        ensures after { moved self.new.moves (S.book self.new.below) ≡ slice_set (moved self.old.moves (S.book self.old.below)) w v }
        ensures refused { length (moved self.old.moves (S.book self.old.below)) ≤ w → self.new ≡ self.old }
        ensures moves { self.new.moves ≡ moves_after self.old.moves (S.book self.old.below) w v }
        ensures below { S.book self.new.below ≡ below_after (S.book self.old.below) w v }
        ensures kept { is_mark w ≡ true → self.new.below ≡ self.old.below }
        ensures by { is_mark w ≡ true → w < length (S.book self.old.below) → move_of self.new.moves w ≡ word (v -ℤ slice_index_or (S.book self.old.below) w (pos 0)) }
    {
        if is_mark(w) {
            self.write_mark(w, v)
        } else {
            self.below.write(w, v)
        }
    }
}

// Whether word w is a number mark.
fn is_mark(w: u32) -> bool
    ensures { result ≡ is_mark w }
{
    (1..=64).contains(&w)
}

// Where the move of mark w is kept.
fn slot(w: u32) -> usize
    requires { is_mark w ≡ true }
    ensures { result ≡ w - 1 }
{
    w as usize - 1
}
