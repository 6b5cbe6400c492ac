// Sets of facts and of parties.
ghost use Rattle.std.specs.Prelude.{◌≡◌, ◌+◌, ◌^◌, ◌<◌, nat_lt};
ghost use Rattle.knowledge.specs.Faults.{in_matter};
ghost use Rattle.knowledge.specs.Sets.{has, contains, is_within, is_present, GroupInWords, Collected, FactsCollected, MembersCollected};

use crate::fault::{Cause, Fault};
use crate::plan::{MOST_FACTS, MOST_PARTIES};
use std::fmt;

// A set of numbers from FIRST to LAST: number n is bit n - FIRST.
#[derive(Clone, Copy, PartialEq, Eq, Hash, Default)]
pub struct NumberSet<const FIRST: usize, const LAST: usize> {
    bits: u64,
}

// A set of facts.
pub type FactSet = NumberSet<1, MOST_FACTS>;

// The last party has a name, since the argument of a type cannot be computed.
const LAST_PARTY: usize = MOST_PARTIES - 1;

// A group of parties.
pub type Group = NumberSet<0, LAST_PARTY>;

// Under its name in the rules, so that a set of facts and a group are told apart.
impl<const FIRST: usize, const LAST: usize> fmt::Debug for NumberSet<FIRST, LAST> {
    fn fmt<W: fmt::Write>(&self, f: &mut fmt::Formatter<W>) -> fmt::Result {
        let name = match (FIRST, LAST) {
            (1, MOST_FACTS) => "FactSet",
            (0, LAST_PARTY) => "Group",
            _ => "NumberSet",
        };
        f.debug_struct(name).field("bits", &self.bits).finish()
    }
}

impl<const FIRST: usize, const LAST: usize> NumberSet<FIRST, LAST> {
    // The set of these numbers; refused where one is not from FIRST to LAST.
    #[tactic(auto, using(crate::proofs::Members::collecting))]
    fn collect(numbers: &[usize], cause: Cause) -> Result<Self, Fault>
        requires { LAST < FIRST + 64 }
        ensures { Collected (in_matter cause) numbers.now result }
    {
        let mut set = Self::default();
        for number in numbers {
            if !(FIRST..=LAST).contains(number) {
                return Err(Fault::in_matter(cause));
            }
            set.bits |= 1 << (*number - FIRST);
        }
        Ok(set)
    }

    // Whether the number is in the set.
    pub fn contains(self, number: usize) -> bool
        ensures { result ≡ contains self.entry number }
    {
        number >= FIRST && bit(self.bits, number - FIRST)
    }
}

// Each set has a maker of its own, since the cause of its refusal is its own. No TryFrom: a caller with an array
// would have to make a slice of it first.
impl FactSet {
    // The set of the facts with these numbers; refused where no plan can have one of them.
    pub fn of(facts: &[usize]) -> Result<FactSet, Fault>
        ensures { FactsCollected facts.now result }
    {
        Self::collect(facts, Cause::Fact)
    }

    // Whether no fact of the set is past `last`.
    pub(crate) fn is_within(self, last: usize) -> bool
        ensures { result ≡ is_within last self }
    {
        below(self.bits, last)
    }
}

impl Group {
    // The group of the parties with these numbers; refused where no plan can have one of them.
    pub fn of(members: &[usize]) -> Result<Group, Fault>
        ensures { MembersCollected members.now result }
    {
        Self::collect(members, Cause::Party)
    }

    // Whether there is a member, and each is below the number of parties.
    #[tactic(auto, using(crate::proofs::Bits::present_bits))]
    pub fn is_present(self, parties: usize) -> bool
        ensures value { result ≡ is_present parties self }
        ensures words { GroupInWords }
    {
        self.bits != 0 && below(self.bits, parties)
    }
}

// Whether bit k is set, for every k.
#[tactic(auto, using(crate::proofs::Members::shifts))]
fn bit(bits: u64, k: usize) -> bool
    ensures { result ≡ has bits k }
{
    k < 64 && (bits >> k) % 2 == 1
}

// Whether only bits below k are set, for every k.
#[tactic(auto, using(crate::proofs::Members::shifts))]
fn below(bits: u64, k: usize) -> bool
    ensures { result ≡ nat_lt bits (2 ^ k) }
{
    k >= 64 || bits >> k == 0
}
