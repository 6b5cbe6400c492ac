// A board that could not be made.
ghost use Rattle.std.specs.Prelude.{◌≡◌, Some};
ghost use Rattle.knowledge.specs.Faults.{written};

use knowledge::fault::Fault;
use std::error::Error;
use std::fmt;

// Why, and the caller's memory, as it was.
#[derive(Debug, PartialEq, Eq, Drop)]
pub struct Unmade<M> {
    pub fault: Fault,
    pub memory: M,
}

// The line of the refusal.
impl<M> fmt::Display for Unmade<M> {
    ghost output = { λ unmade. Some (written unmade.fault) };

    fn fmt<W: fmt::Write>(&self, f: &mut fmt::Formatter<W>) -> fmt::Result {
        self.fault.fmt(f)
    }
}

impl<M: fmt::Debug + Drop> Error for Unmade<M> {}

// The refusal alone, for callers that let the memory go.
impl<M: Drop> From<Unmade<M>> for Fault {
    ghost from_gives = { λ unmade fault. fault ≡ unmade.fault };

    fn from(unmade: Unmade<M>) -> Fault {
        unmade.fault
    }
}
