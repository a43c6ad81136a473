// Books of the table. The standard book has two free records: the head names record 1, which links to record 2. A text such as
// `records=3 head=2 m1=7 r1=2 f3@2=3` begins with zeros for that many records instead, and then sets words.

use crate::scripts::cut;
use crate::words::place;
use rules::Place;
use std::alloc::Global;

// The places of words are reckoned here by themselves, so that the table tests the engine's.
// The word of a field of record k, as in `n0@1`.
fn field_word(field: &str, record: &str) -> Option<usize> {
    let k = usize::from(record.parse::<u16>().ok()?);
    match place(field)? {
        Place::N(i) => Some(73 + 8 * k + usize::from(i)),
        Place::F(i) => Some(77 + 8 * k + usize::from(i)),
        _ => None,
    }
}

fn mark_word(mark: &str) -> Option<usize> {
    match place(mark)? {
        Place::M(i) => Some(usize::from(i)),
        Place::R(i) => Some(64 + usize::from(i)),
        _ => None,
    }
}

fn word(name: &str) -> Option<usize> {
    if name == "head" {
        return Some(0);
    }
    match name.split_once("@") {
        Some((field, record)) => field_word(field, record),
        None => mark_word(name),
    }
}

fn set_word(book: &mut Vec<i32>, text: &str) -> Option<()> {
    let (name, number) = text.split_once("=")?;
    *book.get_mut(word(name)?)? = number.parse().ok()?;
    Some(())
}

// A book after words are set: `m1=7 f3@1=2`.
pub(crate) fn with_words(mut book: Vec<i32>, text: &str) -> Option<Vec<i32>> {
    for change in text.split_whitespace() {
        set_word(&mut book, change)?;
    }
    Some(book)
}

fn zeros(heap: Global, records: usize) -> Option<Vec<i32>> {
    let size = records.checked_mul(8)?.checked_add(81)?;
    vec![in heap; 0i32; size].ok()
}

fn standard(heap: Global) -> Option<Vec<i32>> {
    with_words(zeros(heap, 2)?, "head=1 f3@1=2")
}

// The book before a run.
pub(crate) fn opening(heap: Global, text: &str) -> Option<Vec<i32>> {
    let (first, rest) = cut(text);
    match first.strip_prefix("records=") {
        Some(records) => {
            let records = usize::from(records.parse::<u16>().ok()?);
            with_words(zeros(heap, records)?, rest)
        }
        None => with_words(standard(heap)?, text),
    }
}
