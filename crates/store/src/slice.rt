// The slice store: a book in the cells of the caller's slice.

ghost use Rattle.std.specs.Prelude.{◌≡◌, ◌≤◌, length, slice_set};
ghost use Rattle.rules.specs.Book.{write_of};
ghost use Rattle.store.specs.Layout.{reached_in};

use crate::Store;
use crate::cells::Cell;
use crate::reach::reach;
use rules::Refusal;

// The word store: a book in a slice of words.
pub type Words<'a> = Slice<'a, i32>;

// The byte store: a book in a slice of bytes, four to a word, big-endian, two's complement.
pub type Bytes<'a> = Slice<'a, u8>;

#[derive(Drop)]
pub struct Slice<'a, C> {
    cells: &'a mut [C],
}

impl<'a, C: Cell> Slice<'a, C> {
    // The store that holds the book in this slice. A slice of a length that fits no book is no book.
    pub fn new(cells: &'a mut [C]) -> Slice<'a, C>
        ensures value { result.cells.now ≡ cells.old }
        ensures lends { result.cells.ghost_name ≡ cells.entry.ghost_name }
    {
        Slice { cells }
    }

    // How many words the book has.
    fn count(&self) -> usize
        ensures { result ≡ length (C.book self.now.cells.now) }
    {
        C::count(self.cells)
    }

    // Where word w stands in the book.
    fn place(&self, w: u32) -> Result<usize, Refusal>
        ensures { result ≡ reached_in (length (C.book self.now.cells.now)) w w }
    {
        reach(self.count(), w)
    }
}

impl<'a, C: Cell> Store for Slice<'a, C> {
    ghost book = { λ s. C.book s.cells.now };

    ghost meant = { λ s. C.meant s.cells.now };

    fn size(&self) -> u32 {
        self.count() as u32
    }

    fn read(&self, w: u32) -> Result<i32, Refusal> {
        let at = self.place(w)?;
        Ok(C::word_at(self.cells, at))
    }

    // The store goes on lending the same slice, so that its owner knows what it holds afterwards.
    fn write(&mut self, w: u32, v: i32) -> Result<(), Refusal>
        ensures answer { result ≡ write_of (C.book self.old.cells.now) w }
        ensures after { C.book self.new.cells.now ≡ slice_set (C.book self.old.cells.now) w v }
        ensures refused { length (C.book self.old.cells.now) ≤ w → self.new ≡ self.old }
        ensures lends { self.new.cells.ghost_name ≡ self.old.cells.ghost_name }
    {
        let at = self.place(w)?;
        C::put_word(self.cells, at, v);
        Ok(())
    }
}
