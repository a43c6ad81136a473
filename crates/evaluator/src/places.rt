// Where places lie, and the words that lie there.

ghost use Rattle.std.specs.Prelude.{◌≡◌, [], pos, slice_index_or, slice_set};
ghost use Rattle.rules.specs.Book.{record_at};
ghost use Rattle.rules.specs.Step.{base, found, find as found_by, read, write, see as seen};
ghost use Rattle.work.specs.View.{state};

use rules::{Place, Refusal, Spot};
use store::Store;
use work::Work;

// The first local of the present frame.
fn first_local(work: &Work) -> u16
    ensures { result ≡ base (state work.now []).frames }
{
    work.frames.last().map_or(0, |frame| frame.count)
}

// The first word of record k.
pub fn record_at(k: u16) -> u32
    ensures { result ≡ record_at k }
{
    73 + 8 * k as u32
}

// Where a place lies while this record is present and this local is the frame's first.
pub fn find_in(present: u16, first: u16, p: Place) -> Result<Spot, Refusal>
    ensures { result ≡ found present first p }
{
    match p {
        Place::None => Err(Refusal::NoRecord),
        Place::M(i) => Ok(Spot::InBook(i as u32)),
        Place::R(i) => Ok(Spot::InBook(64 + i as u32)),
        Place::N(_) | Place::F(_) if present == 0 => Err(Refusal::NoRecord),
        Place::N(i) => Ok(Spot::InBook(record_at(present) + i as u32)),
        Place::F(i) => Ok(Spot::InBook(record_at(present) + (4 + i as u32))),
        Place::V(i) => Ok(Spot::InLocals(first as usize + i as usize)),
    }
}

pub fn find(work: &Work, p: Place) -> Result<Spot, Refusal>
    ensures { result ≡ found_by (state work.now []) p }
{
    find_in(work.present, first_local(work), p)
}

// Word w of the book, 0 if there is none.
pub fn word_at<S: Store>(store: &S, w: u32) -> i32
    ensures { result ≡ slice_index_or (S.book store.now) w (pos 0) }
{
    store.read(w).unwrap_or(0)
}

pub fn put_word<S: Store>(store: &mut S, w: u32, v: i32)
    ensures { S.book store.new ≡ slice_set (S.book store.old) w v }
{
    let _ = store.write(w, v);
}

pub fn read_at<S: Store>(store: &S, work: &Work, s: Spot) -> i32
    ensures { result ≡ read (state work.now (S.book store.now)) s }
{
    match s {
        Spot::InBook(w) => word_at(store, w),
        Spot::InLocals(i) if i < work.opened => work.locals[i],
        Spot::InLocals(_) => 0,
    }
}

pub fn write_at<S: Store>(store: &mut S, work: &mut Work, s: Spot, v: i32)
    ensures { state work.new (S.book store.new) ≡ write s v (state work.old (S.book store.old)) }
{
    match s {
        Spot::InBook(w) => put_word(store, w, v),
        Spot::InLocals(i) if i < work.opened => work.locals[i] = v,
        Spot::InLocals(_) => {}
    }
}

// What a place holds.
#[tactic(auto, using(crate::proofs::Chains::chained))]
pub(crate) fn see<S: Store>(store: &S, work: &Work, p: Place) -> Result<i32, Refusal>
    ensures { result ≡ seen (state work.now (S.book store.now)) p }
{
    let s = find(work, p)?;
    Ok(read_at(store, work, s))
}
