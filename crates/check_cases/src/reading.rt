// Reading a case.

use rules::{Line, Place, Term};
use session::place_of;
use std::alloc::{AllocError, Global};

// Two tables, and the verdict that is expected of them: a refusal or 0, and a line.
#[derive(Drop)]
pub struct Case {
    pub verdict: (u32, u32),
    pub lines: Vec<Line>,
    pub terms: Vec<Term>,
}

// `place_of` is what the readers of places share; which words they take differs from text to text.
fn place(word: &str) -> Option<Place> {
    if word == "-" {
        return Some(Place::None);
    }
    let (letter, digits) = word.split_at_checked(1)?;
    place_of(*letter.as_bytes().first()?, digits.parse().ok()?)
}

fn line(text: &str) -> Option<Line> {
    let mut words = text.splitn(6, ' ');
    Some(Line {
        kind: words.next()?.parse().ok()?,
        x: place(words.next()?)?,
        y: place(words.next()?)?,
        q: words.next()?.parse().ok()?,
        first: words.next()?.parse().ok()?,
        count: words.next()?.parse().ok()?,
    })
}

fn term(text: &str) -> Option<Term> {
    let mut words = text.splitn(4, ' ');
    Some(Term {
        kind: words.next()?.parse().ok()?,
        number: words.next()?.parse().ok()?,
        first: place(words.next()?)?,
        second: place(words.next()?)?,
    })
}

// How often an item stands, and the item.
fn repeated(item: &str) -> (u16, &str) {
    match item.split_once('*') {
        Some((times, rest)) => (times.parse().unwrap_or(0), rest),
        None => (1, item),
    }
}

// The items of a table, each as often as it stands.
fn table<T: Copy, F: Fn(&str) -> Option<T>>(
    heap: Global,
    text: &str,
    read: F,
) -> Result<Option<Vec<T>>, AllocError>
    requires { F.IsAlwaysCallable read }
{
    let mut items = Vec::new(heap);
    for part in text.split(';') {
        let (times, words) = repeated(part.trim());
        if words.is_empty() {
            continue;
        }
        let Some(item) = read(words) else {
            return Ok(None);
        };
        for _ in 0..times {
            items.push(item)?;
        }
    }
    Ok(Some(items))
}

// The name of a case, the verdict that is expected, and the texts of the two tables.
fn parts(text: &str) -> Option<(&str, (u32, u32), &str, &str)> {
    let (head, tables) = text.split_once('|')?;
    let (lines, terms) = tables.split_once('|')?;
    let mut words = head.trim().splitn(3, ' ');
    let name = words.next()?;
    let refusal = words.next()?.parse().ok()?;
    let line = words.next()?.parse().ok()?;
    Some((name, (refusal, line), lines, terms))
}

// The name of a case and the case, if the text is one.
pub(crate) fn read_case(heap: Global, text: &str) -> Result<Option<(&str, Case)>, AllocError> {
    let Some((name, verdict, lines, terms)) = parts(text) else {
        return Ok(None);
    };
    let Some(lines) = table(heap, lines, line)? else {
        return Ok(None);
    };
    let Some(terms) = table(heap, terms, term)? else {
        return Ok(None);
    };
    let case = Case {
        verdict,
        lines,
        terms,
    };
    Ok(Some((name, case)))
}
