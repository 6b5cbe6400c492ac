// Records and small tables to test with.
use knowledge::fault::Fault;
use knowledge::plan::Plan;
use knowledge::sets::{FactSet, Group};
use knowledge::table::{Connective, Kind, Record};

// Two facts; alice sees the first, bob the second.
pub(crate) fn two_by_two() -> Result<Plan, Fault> {
    Plan::new(2, &[FactSet::of(&[1])?, FactSet::of(&[2])?])
}

// Short names, as a program with a sample has them: a public maker for each kind would say the kind's name again.
pub(crate) fn top() -> Record {
    Kind::Top.into()
}

pub(crate) fn fact(number: usize) -> Record {
    Kind::Fact { number }.into()
}

pub(crate) fn not(body: usize) -> Record {
    Kind::Not { body }.into()
}

pub(crate) fn and(left: usize, right: usize) -> Record {
    Kind::Binary {
        connective: Connective::And,
        left,
        right,
    }
    .into()
}

pub(crate) fn knows(party: usize, body: usize) -> Record {
    Kind::Knows { party, body }.into()
}

// The kinds of one child, built on a record: with a party, then with a group. Those of two have a list of their own,
// since the kinds differ.
pub(crate) fn singles(party: usize, group: Group, body: usize) -> [Record; 5] {
    [
        Kind::Not { body },
        Kind::Knows { party, body },
        Kind::KnowsWhether { party, body },
        Kind::Shared { group, body },
        Kind::SharedWhether { group, body },
    ]
    .map(Record::from)
}

// The kinds of two children, built on two records.
pub(crate) fn doubles(group: Group, notice: usize, body: usize) -> [Record; 5] {
    [
        Kind::Binary {
            connective: Connective::And,
            left: notice,
            right: body,
        },
        Kind::Post { notice, body },
        Kind::PostWhether { notice, body },
        Kind::Tell {
            group,
            notice,
            body,
        },
        Kind::TellWhether {
            group,
            notice,
            body,
        },
    ]
    .map(Record::from)
}

// All of these kinds with a record as a child, and the first record as the other one where there are two.
pub(crate) fn all_kinds(party: usize, group: Group, child: usize) -> [[Record; 5]; 3] {
    [
        singles(party, group, child),
        doubles(group, 0, child),
        doubles(group, child, 0),
    ]
}
