// What the text of a session needs besides the engine: digests, and places by their letters.
// A digest is FNV-1a with 64 bits, over numbers as four bytes each, the highest first.

#![tactic(auto)]

ghost use Rattle.std.specs.Prelude.{◌≡◌};
ghost use Rattle.std.specs.Int.{w32};
ghost use Rattle.std.proofs.Common.{of_z};
ghost use Rattle.rules.specs.Script.{letter, index};
ghost use Rattle.session.specs.Digests.{basis, with_byte, with_number, numbers, with_line, lines_digest};
ghost use Rattle.session.specs.Places.{place_of, Inverse};

use rules::{Line, Place};

// The digest of nothing.
pub fn empty_digest() -> u64
    ensures { result ≡ basis }
{
    0xcbf29ce484222325
}

#[tactic(auto, unfolding(crate::specs::Digests::with_byte))]
fn with_byte(digest: u64, byte: u8) -> u64
    ensures { result ≡ with_byte digest byte }
{
    (digest ^ u64::from(byte)).wrapping_mul(0x100000001b3)
}

// The digest of one number more.
#[tactic(auto, unfolding(crate::specs::Digests::with_number))]
fn with_number(digest: u64, number: u32) -> u64
    ensures { result ≡ with_number digest number }
{
    let [a, b, c, d] = number.to_be_bytes();
    with_byte(with_byte(with_byte(with_byte(digest, a), b), c), d)
}

// The digest of one word more, in two's complement.
pub fn with_word(digest: u64, word: i32) -> u64
    ensures { result ≡ with_number digest (of_z w32 word) }
{
    with_number(digest, word.cast_unsigned())
}

// The sort of a place as the number that goes into a digest; no cast gives it, since a place holds an index.
fn sort(place: Place) -> u8
    ensures { result ≡ letter place }
{
    match place {
        Place::None => 0,
        Place::M(_) => 1,
        Place::R(_) => 2,
        Place::N(_) => 3,
        Place::F(_) => 4,
        Place::V(_) => 5,
    }
}

// The index of a place, 0 of none.
fn index_of(place: Place) -> u8
    ensures { result ≡ index place }
{
    match place {
        Place::None => 0,
        Place::M(i) | Place::R(i) | Place::N(i) | Place::F(i) | Place::V(i) => i,
    }
}

// The numbers of a line: kind, x, y, q, first, count.
fn numbers(line: Line) -> [u32; 8]
    ensures { result ≡ numbers line }
{
    [
        u32::from(line.kind),
        u32::from(sort(line.x)),
        u32::from(index_of(line.x)),
        u32::from(sort(line.y)),
        u32::from(index_of(line.y)),
        u32::from(line.q),
        u32::from(line.first),
        u32::from(line.count),
    ]
}

// The digest of one line more.
fn with_line(digest: u64, line: Line) -> u64
    ensures { result ≡ with_line digest line }
{
    numbers(line).iter().copied().fold(digest, with_number)
}

// The digest of a table of lines.
pub fn lines_digest(lines: &[Line]) -> u64
    ensures { result ≡ lines_digest lines.now }
{
    lines.iter().copied().fold(empty_digest(), with_line)
}

// The place that is written by this letter and this index. No place but none is written otherwise.
#[tactic(auto, using(crate::proofs::Inverses::inverse))]
pub fn place_of(written: u8, i: u8) -> Option<Place>
    ensures value { result ≡ place_of written i }
    ensures inverse { Inverse }
{
    match written {
        b'm' => Some(Place::M(i)),
        b'r' => Some(Place::R(i)),
        b'n' => Some(Place::N(i)),
        b'f' => Some(Place::F(i)),
        b'v' => Some(Place::V(i)),
        _ => None,
    }
}
