// Kinds and refusals as numbers, and numbers as kinds and refusals.

ghost use Rattle.std.specs.Prelude.{◌≡◌};
ghost use Rattle.rules.specs.Answer.{number};
ghost use Rattle.rules.specs.Words.{Names};
ghost use Rattle.rules.specs.Kinds.{code, Decodes};
ghost use Rattle.rules.specs.Terms.{sign, term_code, DecodesTerm};

use crate::{Kind, Operator, Refusal, TermKind};

impl TryFrom<u8> for Kind {
    type Error = Refusal;

    ghost try_from_gives = { Decodes };

    fn try_from(number: u8) -> Result<Kind, Refusal> {
        match number {
            0 => Ok(Kind::Begin),
            1 => Ok(Kind::End),
            2 => Ok(Kind::Add),
            3 => Ok(Kind::Subtract),
            4 => Ok(Kind::If),
            5 => Ok(Kind::Fi),
            6 => Ok(Kind::From),
            7 => Ok(Kind::Until),
            8 => Ok(Kind::Local),
            9 => Ok(Kind::Delocal),
            10 => Ok(Kind::New),
            11 => Ok(Kind::Delete),
            12 => Ok(Kind::Copy),
            13 => Ok(Kind::Uncopy),
            14 => Ok(Kind::Xor),
            15 => Ok(Kind::Swap),
            16 => Ok(Kind::Call),
            17 => Ok(Kind::Uncall),
            _ => Err(Refusal::Unknown),
        }
    }
}

impl From<Kind> for u8 {
    ghost from_gives = { λ kind n. n ≡ code kind };

    fn from(kind: Kind) -> u8 {
        kind as u8
    }
}

impl TryFrom<u8> for TermKind {
    type Error = Refusal;

    ghost try_from_gives = { DecodesTerm };

    fn try_from(number: u8) -> Result<TermKind, Refusal> {
        let operator = match number {
            0 => return Ok(TermKind::Number),
            1 => return Ok(TermKind::Word),
            2 => return Ok(TermKind::Nil),
            3 => return Ok(TermKind::Same),
            4 => Operator::Plus,
            5 => Operator::Minus,
            6 => Operator::Xor,
            7 => Operator::Times,
            8 => Operator::Over,
            9 => Operator::Remainder,
            10 => Operator::BitAnd,
            11 => Operator::BitOr,
            12 => Operator::And,
            13 => Operator::Or,
            14 => Operator::Less,
            15 => Operator::Greater,
            16 => Operator::Equal,
            17 => Operator::NotEqual,
            18 => Operator::AtMost,
            19 => Operator::AtLeast,
            _ => return Err(Refusal::Malformed),
        };
        Ok(TermKind::Operator(operator))
    }
}

impl From<Operator> for u8 {
    ghost from_gives = { λ operator n. n ≡ sign operator };

    fn from(operator: Operator) -> u8 {
        operator as u8
    }
}

impl From<TermKind> for u8 {
    ghost from_gives = { λ kind n. n ≡ term_code kind };

    fn from(kind: TermKind) -> u8 {
        match kind {
            TermKind::Number => 0,
            TermKind::Word => 1,
            TermKind::Nil => 2,
            TermKind::Same => 3,
            TermKind::Operator(operator) => u8::from(operator),
        }
    }
}

impl From<Refusal> for u32 {
    ghost from_gives = { λ refusal n. n ≡ number refusal };

    fn from(refusal: Refusal) -> u32 {
        refusal as u32
    }
}

// A number that no refusal has.
#[derive(Clone, Copy, Debug, PartialEq, Eq)]
pub struct NoRefusal(pub u32);

impl TryFrom<u32> for Refusal {
    type Error = NoRefusal;

    ghost try_from_gives = { Names };

    fn try_from(number: u32) -> Result<Refusal, NoRefusal> {
        match number {
            1 => Ok(Refusal::TooLong),
            2 => Ok(Refusal::Unknown),
            3 => Ok(Refusal::Unpaired),
            4 => Ok(Refusal::WrongMethod),
            5 => Ok(Refusal::Malformed),
            6 => Ok(Refusal::SelfNamed),
            7 => Ok(Refusal::NoBook),
            9 => Ok(Refusal::NoSuchWord),
            10 => Ok(Refusal::TestFailed),
            11 => Ok(Refusal::ZeroDivisor),
            12 => Ok(Refusal::NoRecord),
            13 => Ok(Refusal::NotClear),
            14 => Ok(Refusal::NoFree),
            15 => Ok(Refusal::FreeUnfit),
            16 => Ok(Refusal::Changed),
            17 => Ok(Refusal::TooDeep),
            18 => Ok(Refusal::OutOfBudget),
            20 => Ok(Refusal::NoSuchMethod),
            21 => Ok(Refusal::ListFull),
            22 => Ok(Refusal::NothingStands),
            23 => Ok(Refusal::SomethingStands),
            _ => Err(NoRefusal(number)),
        }
    }
}
