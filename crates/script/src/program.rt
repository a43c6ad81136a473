ghost use Rattle.std.specs.Prelude.{◌≡◌, ℕ, ◌<◌, ◌≤◌, true, length, slice_index, slice_index_or};
ghost use Rattle.rules.specs.Kinds.{code};
ghost use Rattle.rules.specs.Script.{partner, where_is};
ghost use Rattle.rules.specs.Check.{allowed};
ghost use Rattle.script.specs.Methods.{no_method};
ghost use Rattle.rules.specs.declared.Kind.TheVariants.{Begin, End};

use crate::methods::Method;
use arrayvec::ArrayVec;
use rules::{Line, Term};

// An accepted script in fixed memory, with the partner of each line and the begin and the end of each method worked out once,
// so that a jump costs one look-up. The tables are as wide as their indices, so none needs a bound on a method's number, and the partners
// stand apart from the lines, which are seen as the script's.
#[derive(Drop)]
pub struct Program {
    pub(crate) lines: ArrayVec<Line, 256>,
    pub(crate) terms: ArrayVec<Term, 1024>,
    pub(crate) partners: [u16; 256],
    pub(crate) methods: [Method; 256],
    pub ghost few: { length lines.items ≤ 256 },
    pub ghost right: { allowed (record { lines = lines.items; terms = terms.items }) ≡ true },
    ghost paired: { (k : ℕ) → k < 256 → slice_index partners k ≡ partner lines.items k },
    ghost begun: { (q : ℕ) → q < 256 → (slice_index_or methods q no_method).begin ≡ where_is (code Begin) q lines.items },
    ghost ended: { (q : ℕ) → q < 256 → (slice_index_or methods q no_method).end ≡ where_is (code End) q lines.items },
}
