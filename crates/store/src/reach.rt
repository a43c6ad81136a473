// How many words a slice holds, and which of them can be reached.

ghost use Rattle.std.specs.Prelude.{◌≡◌};
ghost use Rattle.store.specs.Layout.{held, held_in_bytes, reached_in};

use rules::Refusal;

// A book has 81 words, and 8 more for each of at most 1,000 records.
const LEAST: usize = 81;

const MOST: usize = 8081;

const RECORD: usize = 8;

// How many words n places hold: all, or none where n words are no book.
pub fn held_words(n: usize) -> usize
    ensures { result ≡ held n }
{
    match n {
        LEAST..=MOST if (n - LEAST) % RECORD == 0 => n,
        _ => 0,
    }
}

// How many words n bytes hold.
pub fn held_in_bytes(n: usize) -> usize
    ensures { result ≡ held_in_bytes n }
{
    if n % 4 == 0 { held_words(n / 4) } else { 0 }
}

// Where word w stands among n words, or why it cannot be reached.
pub fn reach(n: usize, w: u32) -> Result<usize, Refusal>
    ensures { result ≡ reached_in n w w }
{
    if n == 0 {
        return Err(Refusal::NoBook);
    }
    let at = w as usize;
    if at < n {
        Ok(at)
    } else {
        Err(Refusal::NoSuchWord)
    }
}
