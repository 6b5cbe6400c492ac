// Formula tables. A table is a list of records, and its last record is the formula. Children are places in the list and
// no boxes: the rules give the form, and a caller lends the table.
ghost use Rattle.std.specs.Prelude.{◌≡◌};
ghost use Rattle.knowledge.specs.Tables.Tables.{children, pair, family};

use crate::sets::Group;

// The limits of a table.
pub const MOST_RECORDS: usize = 256;

pub const MOST_DEPTH: usize = 12;

// How two formulas are joined.
#[derive(Clone, Copy, PartialEq, Eq, Debug)]
pub enum Connective {
    And,
    Or,
    Xor,
    Implies,
    Iff,
}

// What a record says. A fact counts from 1 and a party from 0; every other number is a child,
// the place of an earlier record in its table. Any number may stand here: the check refuses.
#[derive(Clone, Copy, PartialEq, Eq, Debug)]
pub enum Kind {
    Top,
    Bottom,
    Fact {
        number: usize,
    },
    Not {
        body: usize,
    },
    Binary {
        connective: Connective,
        left: usize,
        right: usize,
    },
    // a party knows the body
    Knows {
        party: usize,
        body: usize,
    },
    // a party knows the body, or knows that it is not so
    KnowsWhether {
        party: usize,
        body: usize,
    },
    // the body is common knowledge in a group
    Shared {
        group: Group,
        body: usize,
    },
    // the body, or that it is not so, is common knowledge in a group
    SharedWhether {
        group: Group,
        body: usize,
    },
    // once the notice is announced to all, the body holds
    Post {
        notice: usize,
        body: usize,
    },
    // once it is announced to all whether the notice is true, the body holds
    PostWhether {
        notice: usize,
        body: usize,
    },
    // once the notice is told to a group, which nobody else remarks, the body holds
    Tell {
        group: Group,
        notice: usize,
        body: usize,
    },
    // once a group is told whether the notice is true, which nobody else remarks, the body holds
    TellWhether {
        group: Group,
        notice: usize,
        body: usize,
    },
}

// One record of a formula table.
#[derive(Clone, Copy, PartialEq, Eq, Debug)]
pub struct Record {
    pub kind: Kind,
}

impl From<Kind> for Record {
    ghost from_gives = { λ k r. r ≡ record { kind = k } };

    fn from(kind: Kind) -> Record {
        Record { kind }
    }
}

// What sort of operator a kind is: of propositional logic, on knowledge, or a notice of one of the two sorts.
#[derive(Clone, Copy, PartialEq, Eq, Debug)]
pub enum Family {
    Boolean,
    Knowing,
    Posting,
    Telling,
}

impl Kind {
    // The records that it is built on.
    pub(crate) fn children(self) -> (Option<usize>, Option<usize>)
        ensures { result ≡ pair (children self) }
    {
        match self {
            Kind::Top | Kind::Bottom | Kind::Fact { .. } => (None, None),
            Kind::Not { body }
            | Kind::Knows { body, .. }
            | Kind::KnowsWhether { body, .. }
            | Kind::Shared { body, .. }
            | Kind::SharedWhether { body, .. } => (Some(body), None),
            Kind::Binary { left, right, .. } => (Some(left), Some(right)),
            Kind::Post { notice, body }
            | Kind::PostWhether { notice, body }
            | Kind::Tell { notice, body, .. }
            | Kind::TellWhether { notice, body, .. } => (Some(notice), Some(body)),
        }
    }

    // What sort of operator it is.
    pub(crate) fn family(self) -> Family
        ensures { result ≡ family self }
    {
        match self {
            Kind::Top | Kind::Bottom | Kind::Fact { .. } | Kind::Not { .. } | Kind::Binary { .. } =>
                { Family::Boolean }
            Kind::Knows { .. }
            | Kind::KnowsWhether { .. }
            | Kind::Shared { .. }
            | Kind::SharedWhether { .. } => Family::Knowing,
            Kind::Post { .. } | Kind::PostWhether { .. } => Family::Posting,
            Kind::Tell { .. } | Kind::TellWhether { .. } => Family::Telling,
        }
    }
}
