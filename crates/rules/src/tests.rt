// Kinds and refusals as numbers, and lines and terms of each shape.

use crate::{Kind, Line, NoRefusal, Operator, Place, Refusal, Term, TermKind};
use std::alloc::AllocError;

#[test]
fn kinds_as_numbers(rt: HostRuntime) {
    assert_eq!(rt; u8::from(Kind::Begin), 0);
    assert_eq!(rt; u8::from(Kind::Uncall), 17);
    assert_eq!(rt; Kind::try_from(15), Ok(Kind::Swap));
    assert_eq!(rt; Kind::try_from(18), Err(Refusal::Unknown));
    assert_eq!(rt; Kind::try_from(255), Err(Refusal::Unknown));
}

#[test]
fn kinds_of_terms_as_numbers(rt: HostRuntime) {
    assert_eq!(rt; u8::from(TermKind::Same), 3);
    assert_eq!(rt; u8::from(TermKind::Operator(Operator::Plus)), 4);
    assert_eq!(rt; u8::from(Operator::AtLeast), 19);
    assert_eq!(rt; TermKind::try_from(2), Ok(TermKind::Nil));
    assert_eq!(rt;
        TermKind::try_from(16),
        Ok(TermKind::Operator(Operator::Equal))
    );
    assert_eq!(rt; TermKind::try_from(20), Err(Refusal::Malformed));
}

#[test]
fn refusals_as_numbers(rt: HostRuntime) {
    assert_eq!(rt; u32::from(Refusal::TooLong), 1);
    assert_eq!(rt; u32::from(Refusal::SomethingStands), 23);
    assert_eq!(rt; Refusal::try_from(9), Ok(Refusal::NoSuchWord));
    assert_eq!(rt; Refusal::try_from(8), Err(NoRefusal(8)));
    assert_eq!(rt; Refusal::try_from(0), Err(NoRefusal(0)));
}

#[test]
fn lines_of_each_shape(rt: HostRuntime) {
    let call = Line::on(Kind::Call, 3, Place::R(2));
    assert_eq!(rt;
        (call.kind, call.x, call.y, call.q),
        (16, Place::None, Place::R(2), 3)
    );
    let copy = Line::places(Kind::Copy, Place::R(1), Place::F(0));
    assert_eq!(rt;
        (copy.kind, copy.x, copy.y, copy.q),
        (12, Place::R(1), Place::F(0), 0)
    );
    let add = Line::with(Kind::Add, Place::M(1), 5, 2);
    assert_eq!(rt;
        (add.kind, add.x, add.first, add.count),
        (2, Place::M(1), 5, 2)
    );
    assert!(rt; add.is(Kind::Add));
    assert!(rt; !add.is(Kind::Subtract));
}

#[test]
fn terms_of_each_shape(rt: HostRuntime) {
    let seven = Term::number(7);
    assert_eq!(rt;
        (seven.kind, seven.number, seven.first),
        (0, 7, Place::None)
    );
    let word = Term::word(Place::N(2));
    assert_eq!(rt; (word.kind, word.number, word.first), (1, 0, Place::N(2)));
    let nil = Term::nil(Place::F(3));
    assert_eq!(rt;
        (nil.kind, nil.first, nil.second),
        (2, Place::F(3), Place::None)
    );
    let same = Term::same(Place::R(1), Place::R(2));
    assert_eq!(rt;
        (same.kind, same.first, same.second),
        (3, Place::R(1), Place::R(2))
    );
    assert_eq!(rt; Term::operator(Operator::Less).kind, 14);
}

#[test]
fn refusals_in_words(rt: HostRuntime) -> Result<(), AllocError> {
    let told = format!(in rt.alloc(); "{}", Refusal::NoFree)?;
    assert_eq!(rt; told.as_str(), "no free record");
    let told = format!(in rt.alloc(); "{}", NoRefusal(19))?;
    assert_eq!(rt; told.as_str(), "no refusal has this number");
    Ok(())
}
