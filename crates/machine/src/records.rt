// Records of the book, and the free list.

ghost use Rattle.std.specs.Prelude.{◌≡◌, ◌+◌, ◌≤◌, pos, slice_index_or, slice_set};
ghost use Rattle.rules.specs.Book.{clear, record_at};
ghost use Rattle.rules.specs.Step.{inside};
ghost use Rattle.machine.specs.Records.{Names};

use evaluator::{put_word, record_at, word_at};
use rules::Spot;
use store::Store;

// The record that a word names, if there is one.
pub(crate) fn record_named<S: Store>(store: &S, v: i32) -> Option<u16>
    ensures { Names result (S.book store.now) v }
{
    let records = store.size().saturating_sub(81) / 8;
    if (1..=1000).contains(&v) && v as u32 <= records {
        Some(v as u16)
    } else {
        None
    }
}

// Whether the first n words of record k are 0.
pub(crate) fn is_clear<S: Store>(store: &S, n: u32, k: u16) -> bool
    requires { n ≤ 8 }
    ensures { result ≡ clear (S.book store.now) n k }
{
    (0..n).all(|i| word_at(store, record_at(k) + i) == 0)
}

// Whether a spot lies in record k.
pub(crate) fn lies_in(s: Spot, k: u16) -> bool
    ensures { result ≡ inside s k }
{
    match s {
        Spot::InBook(w) => (record_at(k)..record_at(k) + 8).contains(&w),
        Spot::InLocals(_) => false,
    }
}

// Takes record k, the first free one, off the free list: the head takes its f3, which becomes 0.
pub(crate) fn unlink<S: Store>(store: &mut S, k: u16)
    ensures { S.book store.new ≡ slice_set (slice_set (S.book store.old) 0 (slice_index_or (S.book store.old) (record_at k + 7) (pos 0))) (record_at k + 7) (pos 0) }
{
    let f3 = record_at(k) + 7;
    let next = word_at(store, f3);
    put_word(store, 0, next);
    put_word(store, f3, 0);
}

// Puts record k at the front of the free list: its f3 takes the head, and the head names it.
pub(crate) fn link<S: Store>(store: &mut S, k: u16)
    requires { k ≤ 1000 }
    ensures { S.book store.new ≡ slice_set (slice_set (S.book store.old) (record_at k + 7) (slice_index_or (S.book store.old) 0 (pos 0))) 0 (pos k) }
{
    let head = word_at(store, 0);
    put_word(store, record_at(k) + 7, head);
    put_word(store, 0, k as i32);
}
