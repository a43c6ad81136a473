// The sixteen operators.

ghost use Rattle.std.specs.Prelude.{◌≡◌};
ghost use Rattle.rules.specs.Terms.{sign};
ghost use Rattle.rules.specs.Word.{operate as operated};

use rules::{Operator, Refusal};

// What an operator gives at two words.
#[tactic(auto, using(std::proofs::lemmas::Int::wraps), unfolding(rules::specs::Word::operate))]
pub(crate) fn operate(operator: Operator, a: i32, b: i32) -> Result<i32, Refusal>
    ensures { result ≡ operated (sign operator) a b }
{
    match operator {
        Operator::Plus => Ok(a.wrapping_add(b)),
        Operator::Minus => Ok(a.wrapping_sub(b)),
        Operator::Xor => Ok(a ^ b),
        Operator::Times => Ok(a.wrapping_mul(b)),
        Operator::Over if b == 0 => Err(Refusal::ZeroDivisor),
        Operator::Over => Ok(a.wrapping_div(b)),
        Operator::Remainder if b == 0 => Err(Refusal::ZeroDivisor),
        Operator::Remainder => Ok(a.wrapping_rem(b)),
        Operator::BitAnd => Ok(a & b),
        Operator::BitOr => Ok(a | b),
        Operator::And => Ok(i32::from(a != 0 && b != 0)),
        Operator::Or => Ok(i32::from(a != 0 || b != 0)),
        Operator::Less => Ok(i32::from(a < b)),
        Operator::Greater => Ok(i32::from(a > b)),
        Operator::Equal => Ok(i32::from(a == b)),
        Operator::NotEqual => Ok(i32::from(a != b)),
        Operator::AtMost => Ok(i32::from(a <= b)),
        Operator::AtLeast => Ok(i32::from(a >= b)),
    }
}
