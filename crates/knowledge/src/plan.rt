// Plans: how many facts there are, and what each party sees of them.
mod make;

ghost use Rattle.std.specs.Prelude.{◌≤◌};
ghost use Rattle.knowledge.specs.Seats.{Seen};

use crate::sets::FactSet;

// The limits of a plan.
pub const MOST_FACTS: usize = 40;

pub const MOST_PARTIES: usize = 8;

// A party, by its sight: the facts that it observes.
#[derive(Clone, Copy, PartialEq, Eq, Debug)]
pub struct Party {
    pub sight: FactSet,
}

// A plan. Its parties are numbered from 0 and have the first places of the table; the rest see nothing. The table is an
// array with a count: no call allocates, and a plan is copied whole.
#[derive(Clone, Copy, PartialEq, Eq, Debug)]
pub struct Plan {
    facts: usize,
    count: usize,
    parties: [Party; MOST_PARTIES],
    ghost some_fact: { 1 ≤ facts },
    ghost few_facts: { facts ≤ 40 },
    ghost some_party: { 1 ≤ count },
    ghost few_parties: { count ≤ 8 },
    ghost seen: { Seen facts parties },
}
