// Stores. A store holds one book, which is its meaning, and offers three calls on the words of that book.
// Words and bytes lie in the caller's slice; moves lie over any other store.

#![tactic(auto)]

ghost use Rattle.std.specs.Prelude.{◌≡◌, ◌≤◌, List, length, ℤ, slice_set};
ghost use Rattle.rules.specs.Book.{Held, read_of, write_of};

mod arithmetic;
mod cells;
mod moves;
mod reach;
mod slice;

pub use arithmetic::sum;
pub use moves::Moves;
use rules::Refusal;
pub use slice::{Bytes, Words};

pub trait Store {
    // The book that is held; the empty list is no book.
    ghost book: { Self → List ℤ };

    // That it is a book, or no book.
    ghost meant: { (s : Self) → Held (book s) };

    // How many words the book has.
    fn size(&self) -> u32
        ensures { result ≡ length (book self.now) };

    // Word w, or a refusal: there is no book, or it has no such word.
    fn read(&self, w: u32) -> Result<i32, Refusal>
        ensures { result ≡ read_of (book self.now) w };

    // Makes word w equal to v, and alters no other word. A refusal, as that of a read, leaves the very store that was there,
    // whatever lies in it.
    fn write(&mut self, w: u32, v: i32) -> Result<(), Refusal>
        ensures answer { result ≡ write_of (book self.old) w }
        ensures after { book self.new ≡ slice_set (book self.old) w v }
        ensures refused { length (book self.old) ≤ w → self.new ≡ self.old };
}
