// The whole promise, as one theorem about the rules.

#![tactic(auto)]

ghost use Rattle.laws.specs.Whole.{Whole};

// What is promised of whole runs holds of every accepted script.
pub fn whole_stands() -> u8
    ensures { Whole }
{
    0
}
