// Making and reading plans.
ghost use Rattle.std.specs.Prelude.{◌≡◌, ◌≤◌, length};
ghost use Rattle.knowledge.specs.Plans.{Planned, PlanInWords, sight_of};
ghost use Rattle.knowledge.specs.Seats.{all_within, Seated};

use super::{MOST_FACTS, MOST_PARTIES, Party, Plan};
use crate::fault::{Cause, Fault};
use crate::sets::FactSet;
use std::array;

impl Plan {
    // A plan with this many facts, and a party for each sight.
    #[tactic(auto, using(crate::proofs::Planning::plan_in_words))]
    pub fn new(facts: usize, sights: &[FactSet]) -> Result<Plan, Fault>
        ensures value { Planned facts sights.now result }
        ensures words { PlanInWords }
    {
        if !(1..=MOST_FACTS).contains(&facts) || !all_within(facts, sights) {
            return Err(Fault::in_matter(Cause::Fact));
        }
        let count = sights.len();
        if !(1..=MOST_PARTIES).contains(&count) {
            return Err(Fault::in_matter(Cause::Party));
        }
        Ok(Plan {
            facts,
            count,
            parties: seats(sights),
        })
    }

    // How many facts there are.
    pub fn facts(&self) -> usize
        ensures { result ≡ self.now.facts }
    {
        self.facts
    }

    // How many parties there are.
    pub fn parties(&self) -> usize
        ensures { result ≡ self.now.count }
    {
        self.count
    }

    // What a party sees, or nothing where the plan lacks it.
    pub fn sight(&self, party: usize) -> Option<FactSet>
        ensures { result ≡ sight_of self.now party }
    {
        self.parties[..self.count]
            .get(party)
            .map(|party| party.sight)
    }
}

// Whether no sight has a fact past `last`.
fn all_within(last: usize, sights: &[FactSet]) -> bool
    ensures { result ≡ all_within last sights.now }
{
    sights.iter().all(|sight| sight.is_within(last))
}

// The parties with these sights, and others that see nothing.
fn seats(sights: &[FactSet]) -> [Party; MOST_PARTIES]
    ensures { Seated sights.now result }
{
    let nothing = FactSet::default();
    array::from_fn(|i| Party {
        sight: sights.get(i).copied().unwrap_or(nothing),
    })
}
