// The laws of any machine that steps and can be turned round. Each function's contract is a theorem; its body computes nothing.

#![tactic(auto)]

ghost use Rattle.reversible.specs.Laws.{LawfulRuns, MapsCarry};
ghost use Rattle.reversible.specs.Ledger.{LedgerLaw};

// Every lawful machine keeps the laws of whole runs.
pub fn runs_keep_the_laws<S, B, R>() -> u8
    ensures { LawfulRuns S B R }
{
    0
}

// A map between machines that keeps steps carries whole outcomes: refusals, lines and steps included.
pub fn maps_carry_outcomes<S, B, S2, B2, R>() -> u8
    ensures { MapsCarry S B S2 B2 R }
{
    0
}

// Whatever is called on a newly opened screen, it answers as the ledger does.
pub fn screens_follow_the_ledger<S, B, W, C, R>() -> u8
    ensures { LedgerLaw S B W C R }
{
    0
}
