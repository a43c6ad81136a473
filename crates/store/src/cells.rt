// The cells of a slice, and how they make the words of a book.

ghost use Rattle.std.specs.Prelude.{◌≡◌, ◌<◌, List, length, ℤ, pos, slice_index_or, slice_set};
ghost use Rattle.rules.specs.Book.{Held};
ghost use Rattle.store.specs.Layout.{words_book, bytes_book};
ghost use Rattle.store.specs.Held.{words_held, bytes_held};

use crate::reach::{held_in_bytes, held_words};

pub trait Cell {
    // The book that a slice of cells holds; the empty list is no book.
    ghost book: { List Self → List ℤ };

    // That it is a book, or no book.
    ghost meant: { (xs : List Self) → Held (book xs) };

    // How many words the book has.
    fn count(cells: &[Self]) -> usize
        ensures { result ≡ length (book cells.now) };

    // The word at a place of the book.
    fn word_at(cells: &[Self], at: usize) -> i32
        requires { at < length (book cells.now) }
        ensures { result ≡ slice_index_or (book cells.now) at (pos 0) };

    // Makes the word at a place v, and alters no other.
    fn put_word(cells: &mut [Self], at: usize, v: i32)
        requires { at < length (book cells.old) }
        ensures { book cells.new ≡ slice_set (book cells.old) at v };
}

// A word to a cell.
#[tactic(auto, using(crate::proofs::Slices::of_words))]
impl Cell for i32 {
    ghost book = { words_book };

    ghost meant = { words_held };

    fn count(cells: &[i32]) -> usize {
        held_words(cells.len())
    }

    fn word_at(cells: &[i32], at: usize) -> i32 {
        cells[at]
    }

    fn put_word(cells: &mut [i32], at: usize, v: i32) {
        cells[at] = v;
    }
}

// Four bytes to a word, the highest first.
#[tactic(auto, using(crate::proofs::Slices::of_bytes))]
impl Cell for u8 {
    ghost book = { bytes_book };

    ghost meant = { bytes_held };

    fn count(cells: &[u8]) -> usize {
        held_in_bytes(cells.len())
    }

    fn word_at(cells: &[u8], at: usize) -> i32 {
        let (words, _) = cells.as_chunks::<4>();
        i32::from_be_bytes(words[at])
    }

    fn put_word(cells: &mut [u8], at: usize, v: i32) {
        let start = 4 * at;
        cells[start..start + 4].copy_from_slice(&v.to_be_bytes());
    }
}
