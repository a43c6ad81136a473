// The scripts that are measured.

use rules::{Kind, Line, Operator, Place, Term};

// A test of a pair.
fn test(kind: Kind, first: u16, count: u16) -> Line {
    Line::with(kind, Place::None, first, count)
}

fn mark(i: u8) -> Term {
    Term::word(Place::M(i))
}

// A loop of arithmetic on marks: from m1 = 0; m1 += 1; m2 ^= m1 * m3; m4 += m2; where m1 * m1 & 7 = 1, m5 += m2 - m4 + 5;
// until m1 = rounds.
pub(crate) fn arithmetic() -> [Line; 10] {
    [
        Line::bare(Kind::Begin, 0),
        test(Kind::From, 0, 3),
        Line::with(Kind::Add, Place::M(1), 3, 1),
        Line::with(Kind::Xor, Place::M(2), 4, 3),
        Line::with(Kind::Add, Place::M(4), 7, 1),
        test(Kind::If, 8, 7),
        Line::with(Kind::Add, Place::M(5), 15, 5),
        test(Kind::Fi, 8, 7),
        test(Kind::Until, 20, 3),
        Line::bare(Kind::End, 0),
    ]
}

// The same loop, and after it a test that fails.
pub(crate) fn refused() -> [Line; 12] {
    let [
        begin,
        from,
        count,
        spread,
        sum,
        guard,
        lift,
        guarded,
        until,
        end,
    ] = arithmetic();
    [
        begin,
        from,
        count,
        spread,
        sum,
        guard,
        lift,
        guarded,
        until,
        test(Kind::From, 1, 1),
        test(Kind::Until, 3, 1),
        end,
    ]
}

pub(crate) fn arithmetic_terms(rounds: i32) -> [Term; 23] {
    [
        mark(1),
        Term::number(0),
        Term::operator(Operator::Equal),
        Term::number(1),
        mark(1),
        mark(3),
        Term::operator(Operator::Times),
        mark(2),
        mark(1),
        mark(1),
        Term::operator(Operator::Times),
        Term::number(7),
        Term::operator(Operator::BitAnd),
        Term::number(1),
        Term::operator(Operator::Equal),
        mark(2),
        mark(4),
        Term::operator(Operator::Minus),
        Term::number(5),
        Term::operator(Operator::Plus),
        mark(1),
        Term::number(rounds),
        Term::operator(Operator::Equal),
    ]
}

// A walk over linked records, again and again: each call counts in its record, and goes on to the next one.
pub(crate) fn walk() -> [Line; 13] {
    [
        Line::bare(Kind::Begin, 0),
        test(Kind::From, 0, 3),
        Line::on(Kind::Call, 1, Place::R(1)),
        Line::with(Kind::Add, Place::M(1), 3, 1),
        test(Kind::Until, 4, 3),
        Line::bare(Kind::End, 0),
        Line::bare(Kind::Begin, 1),
        Line::with(Kind::Add, Place::N(0), 3, 1),
        test(Kind::If, 7, 3),
        Line::on(Kind::Call, 1, Place::F(0)),
        test(Kind::Fi, 7, 3),
        Line::with(Kind::Xor, Place::N(1), 10, 1),
        Line::bare(Kind::End, 1),
    ]
}

pub(crate) fn walk_terms(rounds: i32) -> [Term; 11] {
    [
        mark(1),
        Term::number(0),
        Term::operator(Operator::Equal),
        Term::number(1),
        mark(1),
        Term::number(rounds),
        Term::operator(Operator::Equal),
        Term::nil(Place::F(0)),
        Term::number(0),
        Term::operator(Operator::Equal),
        Term::word(Place::N(0)),
    ]
}
