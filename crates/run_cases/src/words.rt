// The words that a script of the table is written in.

use rules::{Kind, Operator, Place, Term};
use session::place_of;

// `place_of` is what the readers of places share; which words they take differs from text to text.
pub(crate) fn place(text: &str) -> Option<Place> {
    let letter = *text.as_bytes().first()?;
    place_of(letter, text.get(1..)?.parse().ok()?)
}

// An operator, in the words of this table alone. `|` and `||` are written `or` and `either`, since `|` ends a field of the table.
fn operator(text: &str) -> Option<Operator> {
    match text {
        "+" => Some(Operator::Plus),
        "-" => Some(Operator::Minus),
        "^" => Some(Operator::Xor),
        "*" => Some(Operator::Times),
        "/" => Some(Operator::Over),
        "%" => Some(Operator::Remainder),
        "&" => Some(Operator::BitAnd),
        "or" => Some(Operator::BitOr),
        "&&" => Some(Operator::And),
        "either" => Some(Operator::Or),
        "<" => Some(Operator::Less),
        ">" => Some(Operator::Greater),
        "=" => Some(Operator::Equal),
        "!=" => Some(Operator::NotEqual),
        "<=" => Some(Operator::AtMost),
        ">=" => Some(Operator::AtLeast),
        _ => None,
    }
}

// A term that names places: `m1`, `nil:r1` or `same:r1:r2`.
fn naming(text: &str) -> Option<Term> {
    if let Some(x) = text.strip_prefix("nil:") {
        return Some(Term::nil(place(x)?));
    }
    if let Some(both) = text.strip_prefix("same:") {
        let (x, y) = both.split_once(":")?;
        return Some(Term::same(place(x)?, place(y)?));
    }
    Some(Term::word(place(text)?))
}

pub(crate) fn term(text: &str) -> Option<Term> {
    if let Ok(number) = text.parse() {
        return Some(Term::number(number));
    }
    match operator(text) {
        Some(operator) => Some(Term::operator(operator)),
        None => naming(text),
    }
}

// The words are this table's own, and no impl of `FromStr` for a kind can stand outside the crate of kinds.
pub(crate) fn kind(text: &str) -> Option<Kind> {
    match text {
        "begin" => Some(Kind::Begin),
        "end" => Some(Kind::End),
        "if" => Some(Kind::If),
        "fi" => Some(Kind::Fi),
        "from" => Some(Kind::From),
        "until" => Some(Kind::Until),
        "local" => Some(Kind::Local),
        "delocal" => Some(Kind::Delocal),
        "add" => Some(Kind::Add),
        "subtract" => Some(Kind::Subtract),
        "new" => Some(Kind::New),
        "delete" => Some(Kind::Delete),
        "copy" => Some(Kind::Copy),
        "uncopy" => Some(Kind::Uncopy),
        "xor" => Some(Kind::Xor),
        "swap" => Some(Kind::Swap),
        "call" => Some(Kind::Call),
        "uncall" => Some(Kind::Uncall),
        _ => None,
    }
}
