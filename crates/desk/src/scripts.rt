// The desk's scripts.

use rules::{Kind, Line, Operator, Place, Term};

// Method 0 makes two legs, weighs and links them, lifts bund by three ticks four times over, and takes two ticks off gilt where
// bund is then above 100; at the end it takes the weight off the second leg again. Method 1 weighs a leg, method 2 links it, method 3
// lifts bund by seven.
pub(crate) fn lift() -> [Line; 26] {
    [
        Line::bare(Kind::Begin, 0),
        Line::places(Kind::New, Place::R(1), Place::None),
        Line::places(Kind::New, Place::R(2), Place::None),
        Line::on(Kind::Call, 1, Place::R(1)),
        Line::on(Kind::Call, 1, Place::R(2)),
        Line::on(Kind::Call, 2, Place::R(1)),
        Line::with(Kind::Local, Place::None, 1, 1),
        Line::with(Kind::From, Place::None, 2, 3),
        Line::with(Kind::Add, Place::M(1), 5, 1),
        Line::with(Kind::Add, Place::V(0), 6, 1),
        Line::with(Kind::Until, Place::None, 7, 3),
        Line::with(Kind::Delocal, Place::None, 10, 1),
        Line::with(Kind::If, Place::None, 11, 3),
        Line::with(Kind::Subtract, Place::M(2), 14, 1),
        Line::with(Kind::Fi, Place::None, 15, 3),
        Line::on(Kind::Uncall, 1, Place::R(2)),
        Line::bare(Kind::End, 0),
        Line::bare(Kind::Begin, 1),
        Line::with(Kind::Add, Place::N(0), 0, 1),
        Line::bare(Kind::End, 1),
        Line::bare(Kind::Begin, 2),
        Line::places(Kind::Copy, Place::R(2), Place::F(0)),
        Line::bare(Kind::End, 2),
        Line::bare(Kind::Begin, 3),
        Line::with(Kind::Add, Place::M(1), 18, 1),
        Line::bare(Kind::End, 3),
    ]
}

// The expressions of `lift`, and last m1 by itself.
pub(crate) fn terms() -> [Term; 20] {
    [
        Term::number(5),
        Term::number(0),
        Term::word(Place::V(0)),
        Term::number(0),
        Term::operator(Operator::Equal),
        Term::number(3),
        Term::number(1),
        Term::word(Place::V(0)),
        Term::number(4),
        Term::operator(Operator::Equal),
        Term::number(4),
        Term::word(Place::M(1)),
        Term::number(100),
        Term::operator(Operator::Greater),
        Term::number(2),
        Term::word(Place::M(2)),
        Term::number(0),
        Term::operator(Operator::Less),
        Term::number(7),
        Term::word(Place::M(1)),
    ]
}

// A script that adds bund to itself, which cannot be taken back.
pub(crate) fn doubled() -> [Line; 3] {
    [
        Line::bare(Kind::Begin, 0),
        Line::with(Kind::Add, Place::M(1), 19, 1),
        Line::bare(Kind::End, 0),
    ]
}

// More lines than a script may have.
pub(crate) fn endless() -> [Line; 257] {
    [Line::bare(Kind::Begin, 0); 257]
}
