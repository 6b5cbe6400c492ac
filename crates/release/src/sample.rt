// A sample matter: two sealed offers, at least one of which was made. Fact 1 is alice's offer and fact 2 bob's;
// each of the two parties sees its own.
use knowledge::fault::Fault;
use knowledge::plan::Plan;
use knowledge::sets::{FactSet, Group};
use knowledge::table::{Connective, Kind, Record};
use std::array;

pub fn plan() -> Result<Plan, Fault> {
    let alice = FactSet::of(&[1])?;
    let bob = FactSet::of(&[2])?;
    Plan::new(2, &[alice, bob])
}

// Short names for the records of the tables below, each of which is a named table of the sample. The tests of
// `knowledge` have their own: a public function for each kind would say the kind's name again.
fn fact(number: usize) -> Record {
    Kind::Fact { number }.into()
}

fn not(body: usize) -> Record {
    Kind::Not { body }.into()
}

fn knows(party: usize, body: usize) -> Record {
    Kind::Knows { party, body }.into()
}

fn binary(connective: Connective, left: usize, right: usize) -> Record {
    Kind::Binary {
        connective,
        left,
        right,
    }
    .into()
}

// (1|2)
pub fn some_offer() -> [Record; 3] {
    [fact(1), fact(2), binary(Connective::Or, 0, 1)]
}

// alice knows that 2
pub fn alice_knows_second() -> [Record; 2] {
    [fact(2), knows(0, 0)]
}

// (~alice knows that 2&~bob knows that 1)
pub fn nobody_knows() -> [Record; 7] {
    [
        fact(2),
        knows(0, 0),
        not(1),
        fact(1),
        knows(1, 3),
        not(4),
        binary(Connective::And, 2, 5),
    ]
}

// 2
pub fn second() -> [Record; 1] {
    [fact(2)]
}

// [{bob}!1][{alice}?!2](1&2)
pub fn tells_before() -> Result<[Record; 5], Fault> {
    let alice = Group::of(&[0])?;
    let bob = Group::of(&[1])?;
    Ok([
        fact(1),
        fact(2),
        binary(Connective::And, 0, 1),
        Kind::TellWhether {
            group: alice,
            notice: 1,
            body: 2,
        }
        .into(),
        Kind::Tell {
            group: bob,
            notice: 0,
            body: 3,
        }
        .into(),
    ])
}

// {alice,bob} shared whether 1
pub fn shared_first() -> Result<[Record; 2], Fault> {
    let group = Group::of(&[0, 1])?;
    Ok([fact(1), Kind::SharedWhether { group, body: 0 }.into()])
}

// 3, a fact that the plan lacks
pub fn third() -> [Record; 1] {
    [fact(3)]
}

// carol knows that 1, of a party that the plan lacks
pub fn carol_knows_first() -> [Record; 2] {
    [fact(1), knows(2, 0)]
}

// twelve times not over Top, one level too deep; the tests of `knowledge` have the like, and share no code with this
pub fn nested() -> [Record; 13] {
    array::from_fn(|i| if i == 0 { Kind::Top.into() } else { not(i - 1) })
}

// a record that is its own child
pub fn itself() -> [Record; 1] {
    [not(0)]
}
