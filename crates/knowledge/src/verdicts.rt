// Queries whose answers were worked out by hand. The plans A, B and C and the formulas D, Q and T stand in
// docs/RULES.md, section 11.
ghost use Rattle.std.specs.Prelude.{◌≡◌};
ghost use Rattle.knowledge.specs.Truth.Script.{ScriptRuns};
ghost use Rattle.knowledge.specs.Truth.Verdicts.{answers, SetsAsListed, VerdictsTrue};

// The answers to the ten worked queries, each of which is the truth of its query. The sets in them are as they are
// listed, and the example script is a run.
pub fn worked_verdicts() -> [bool; 10]
    ensures value { result ≡ answers }
    ensures truth { VerdictsTrue }
    ensures sets { SetsAsListed }
    ensures script { ScriptRuns }
{
    [
        false, // plan A, facts 1,2,3: [!D]alice knows that 1
        true, // plan A, facts 1,2,3: [!D][!Q][!Q]alice knows that 1
        true, // plan A, facts 1,2: [!D][!Q]alice knows that 1
        false, // plan A, facts 1,2: [!Q][!D]alice knows that 1
        true, // plan A, no facts: [!D]Bot
        false, // plan A, facts 1,2,3: {alice,bob,carol} shared that D
        true, // plan B, fact 1: bob knows that 1
        false, // plan B, facts 1,2: [{bob}!1]alice knows that bob knows that 1
        true, // plan B, fact 2: [{bob}?!1]bob knows that ~1
        false, // plan C, fact 1: [!T]T
    ]
}
