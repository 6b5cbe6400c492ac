// One pass over a formula table: its first fault, or what its last record measures.
ghost use Rattle.std.specs.Prelude.{◌≡◌};
ghost use Rattle.knowledge.specs.Tables.Check.{bad_fact, bad_party, is_modal, bad_child, check, record_checked};
ghost use Rattle.knowledge.specs.Tables.Questions.{Surveyed};
ghost use Rattle.knowledge.specs.Tables.Tables.{family};

use crate::fault::{Cause, Fault};
use crate::measure::Measure;
use crate::table::{Family, Kind, MOST_DEPTH, MOST_RECORDS, Record};

// What a table is checked against: how many facts and parties the plan has, and whether the table is to be a law.
#[derive(Clone, Copy, PartialEq, Eq, Debug)]
pub struct Terms {
    pub facts: usize,
    pub parties: usize,
    pub in_law: bool,
}

impl Terms {
    // Whether a record names a fact that the plan lacks.
    fn bad_fact(self, kind: Kind) -> bool
        ensures { result ≡ bad_fact self.facts kind }
    {
        matches!(kind, Kind::Fact { number } if !(1..=self.facts).contains(&number))
    }

    // Whether a record names a party that the plan lacks, or a group that is empty or has such a member.
    fn bad_party(self, kind: Kind) -> bool
        ensures { result ≡ bad_party self.parties kind }
    {
        match kind {
            Kind::Knows { party, .. } | Kind::KnowsWhether { party, .. } => party >= self.parties,
            Kind::Shared { group, .. }
            | Kind::SharedWhether { group, .. }
            | Kind::Tell { group, .. }
            | Kind::TellWhether { group, .. } => !group.is_present(self.parties),
            _ => false,
        }
    }

    // Refuses the record at a place for its lowest-numbered fault.
    fn check_record(self, place: usize, depth: usize, kind: Kind) -> Result<(), Fault>
        ensures { result ≡ record_checked self place depth kind }
    {
        let cause = if self.bad_fact(kind) {
            Cause::Fact
        } else if self.bad_party(kind) {
            Cause::Party
        } else if depth > MOST_DEPTH {
            Cause::Deep
        } else if self.in_law && kind.is_modal() {
            Cause::Knowledge
        } else if kind.bad_child(place) {
            Cause::Child
        } else {
            return Ok(());
        };
        Err(Fault::in_table(cause, place))
    }

    // Goes through the records in order, to the first faulty one or to the end.
    pub(crate) fn survey(self, table: &[Record]) -> Result<Measure, Fault>
        ensures { Surveyed (check self table.now) table.now result }
    {
        if !(1..=MOST_RECORDS).contains(&table.len()) {
            return Err(Fault::in_table(Cause::Nodes, 0));
        }
        // an array and the place: no call may allocate, and a crate for one local would be the first that this one
        // rests on
        let mut measures = [Measure::default(); MOST_RECORDS];
        let mut last = Measure::default();
        for (place, record) in table.iter().enumerate() {
            last = Measure::of(*record, &measures[..place]);
            self.check_record(place, last.depth, record.kind)?;
            measures[place] = last;
        }
        Ok(last)
    }
}

impl Kind {
    // Whether a record is on knowledge or a notice.
    fn is_modal(self) -> bool
        ensures { result ≡ is_modal (family self) }
    {
        self.family() != Family::Boolean
    }

    // Whether a child is no earlier record.
    fn bad_child(self, place: usize) -> bool
        ensures { result ≡ bad_child place self }
    {
        let (first, second) = self.children();
        first.is_some_and(|a| a >= place) || second.is_some_and(|a| a >= place)
    }
}
