// The words of a line of text, parted by single blanks.

use rules::Place;
use session::place_of;
use std::str::{FromStr, Split};

// The words that are left to read.
#[derive(Drop)]
pub struct Text<'a> {
    words: Split<'a, char>,
}

// A number that the text writes, and what is expected where it does not.
pub(crate) trait Number: FromStr + Drop {
    const EXPECTED: &'static str;
}

impl Number for u8 {
    const EXPECTED: &'static str = "a number from 0 to 255";
}

impl Number for u16 {
    const EXPECTED: &'static str = "a number from 0 to 65535";
}

impl Number for u32 {
    const EXPECTED: &'static str = "a number from 0 to 4294967295";
}

impl Number for i32 {
    const EXPECTED: &'static str = "a number from -2147483648 to 2147483647";
}

// An error is the text of what was expected: it is printed, and nothing else is done with it.
impl<'a> Text<'a> {
    pub(crate) fn new(line: &'a str) -> Text<'a> {
        Text {
            words: line.split(' '),
        }
    }

    // The next word, if there is one.
    pub(crate) fn next(&mut self) -> Option<&'a str> {
        self.words.next()
    }

    // That no word is left.
    pub(crate) fn finish(&mut self) -> Result<(), &'static str> {
        match self.next() {
            None => Ok(()),
            Some(_) => Err("no more words"),
        }
    }

    pub(crate) fn number<N: Number>(&mut self) -> Result<N, &'static str>
    where
        N::Err: Drop,
    {
        read(self.next(), N::EXPECTED)
    }

    pub(crate) fn place(&mut self) -> Result<Place, &'static str> {
        let expected = "a place, as - or m1";
        match self.next() {
            Some("-") => Ok(Place::None),
            Some(word) => lettered(word).ok_or(expected),
            None => Err(expected),
        }
    }
}

// A number that a word writes.
pub(crate) fn read<F: FromStr + Drop>(
    word: Option<&str>,
    expected: &'static str,
) -> Result<F, &'static str>
where
    F::Err: Drop,
{
    decimal(word.ok_or(expected)?).ok_or(expected)
}

// A number in digits, with no plus in front.
fn decimal<F: FromStr + Drop>(digits: &str) -> Option<F>
where
    F::Err: Drop,
{
    if digits.starts_with('+') {
        return None;
    }
    digits.parse().ok()
}

// The place that a word writes by a letter and an index; `place_of` is what the readers of places share.
fn lettered(word: &str) -> Option<Place> {
    let (letter, digits) = word.split_at_checked(1)?;
    let index = decimal(digits)?;
    place_of(*letter.as_bytes().first()?, index)
}
