// Sums and differences of words, modulo 2^32.

#![tactic(auto, using(std::proofs::lemmas::Int::wraps))]

ghost use Rattle.std.specs.Prelude.{◌≡◌, ◌+ℤ◌, ◌-ℤ◌};
ghost use Rattle.rules.specs.Word.{word};

pub fn sum(a: i32, b: i32) -> i32
    ensures { result ≡ word (a +ℤ b) }
{
    a.wrapping_add(b)
}

pub fn difference(a: i32, b: i32) -> i32
    ensures { result ≡ word (a -ℤ b) }
{
    a.wrapping_sub(b)
}
