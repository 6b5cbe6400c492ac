// The check of tables.
use crate::tables::*;
use knowledge::fault::{Cause, Fault, Layer};
use knowledge::sets::Group;
use knowledge::table::{Kind, Record};
use std::array;
use std::test::Fail;

// A refusal at a record, written out: what is expected comes from no code under test.
fn refused(cause: Cause, record: usize) -> Option<Fault> {
    Some(Fault {
        cause,
        layer: Layer::Formula,
        place: record,
    })
}

#[test]
fn lengths(rt: HostRuntime) -> Result<(), Fail> {
    let plan = two_by_two()?;
    assert_eq!(rt; plan.check(&[]).err(), refused(Cause::Nodes, 0));
    assert_eq!(rt; plan.check(&[top()]).err(), None);
    assert_eq!(rt; plan.check(&[top(); 256]).err(), None);
    assert_eq!(rt; plan.check(&[top(); 257]).err(), refused(Cause::Nodes, 0));
    assert_eq!(rt; plan.check(&[fact(0); 257]).err(), refused(Cause::Nodes, 0));
    assert_eq!(rt; plan.check_law(&[]).err(), refused(Cause::Nodes, 0));
    Ok(())
}

#[test]
fn facts(rt: HostRuntime) -> Result<(), Fail> {
    let plan = two_by_two()?;
    let huge = fact(usize::MAX);
    assert_eq!(rt; plan.check(&[fact(1)]).err(), None);
    assert_eq!(rt; plan.check(&[fact(2)]).err(), None);
    assert_eq!(rt; plan.check(&[fact(0)]).err(), refused(Cause::Fact, 0));
    assert_eq!(rt;
        plan.check(&[top(), fact(3)]).err(),
        refused(Cause::Fact, 1)
    );
    assert_eq!(rt;
        plan.check(&[top(), top(), huge]).err(),
        refused(Cause::Fact, 2)
    );
    assert_eq!(rt; plan.check_law(&[fact(3)]).err(), refused(Cause::Fact, 0));
    Ok(())
}

#[test]
fn parties(rt: HostRuntime) -> Result<(), Fail> {
    let plan = two_by_two()?;
    let both = Group::of(&[0, 1])?;
    let absent = Group::of(&[0, 2])?;
    let nobody = Group::of(&[])?;
    for record in singles(1, both, 0).iter().chain(&doubles(both, 0, 0)) {
        assert_eq!(rt; plan.check(&[top(), *record]).err(), None);
    }
    // a negation names no party, nor do a connective and a post
    let no = refused(Cause::Party, 1);
    let alone = [None, no, no, no, no];
    for records in [singles(2, absent, 0), singles(usize::MAX, nobody, 0)] {
        for (record, expected) in records.iter().zip(alone) {
            assert_eq!(rt; plan.check(&[top(), *record]).err(), expected);
        }
    }
    let paired = [None, None, None, no, no];
    for (record, expected) in doubles(nobody, 0, 0).iter().zip(paired) {
        assert_eq!(rt; plan.check(&[top(), *record]).err(), expected);
    }
    Ok(())
}

// A table of so many records that each negate the one before, then the record given, and what more it takes to 13. A
// table of just so many would be another input to the tests.
fn deep(length: usize, last: Record) -> [Record; 13] {
    array::from_fn(|i| {
        if i == length {
            last
        } else if i == 0 || i > length {
            top()
        } else {
            not(i - 1)
        }
    })
}

#[test]
fn depths(rt: HostRuntime) -> Result<(), Fail> {
    let plan = two_by_two()?;
    let both = Group::of(&[0, 1])?;
    for record in singles(0, both, 10) {
        assert_eq!(rt; plan.check(&deep(11, record)).err(), None);
    }
    let too_deep = refused(Cause::Deep, 12);
    for record in all_kinds(0, both, 11).iter().flatten() {
        assert_eq!(rt; plan.check(&deep(12, *record)).err(), too_deep);
    }
    Ok(())
}

#[test]
fn laws(rt: HostRuntime) -> Result<(), Fail> {
    let plan = two_by_two()?;
    let both = Group::of(&[0, 1])?;
    // a negation and a connective may stand in a law
    let no = refused(Cause::Knowledge, 1);
    let expected = [None, no, no, no, no];
    for records in [singles(1, both, 0), doubles(both, 0, 0)] {
        for (record, expected) in records.iter().zip(expected) {
            assert_eq!(rt; plan.check_law(&[top(), *record]).err(), expected);
        }
    }
    // knowledge that the last record is not built on
    assert_eq!(rt; plan.check_law(&[top(), knows(0, 0), top()]).err(), no);
    Ok(())
}

#[test]
fn children(rt: HostRuntime) -> Result<(), Fail> {
    let plan = two_by_two()?;
    let both = Group::of(&[0, 1])?;
    let no = refused(Cause::Child, 1);
    for at in [1, 2, usize::MAX] {
        for record in all_kinds(1, both, at).iter().flatten() {
            assert_eq!(rt; plan.check(&[top(), *record, top()]).err(), no);
        }
    }
    assert_eq!(rt; plan.check(&[not(0)]).err(), refused(Cause::Child, 0));
    Ok(())
}

#[test]
fn two_faults(rt: HostRuntime) -> Result<(), Fail> {
    let plan = two_by_two()?;
    let both = Group::of(&[0, 1])?;
    let nobody = Group::of(&[])?;
    // at one record, the lowest number
    assert_eq!(rt; plan.check(&[knows(2, 0)]).err(), refused(Cause::Party, 0));
    assert_eq!(rt;
        plan.check_law(&[knows(2, 0)]).err(),
        refused(Cause::Party, 0)
    );
    assert_eq!(rt;
        plan.check_law(&[knows(1, 0)]).err(),
        refused(Cause::Knowledge, 0)
    );
    let known = deep(12, knows(1, 11));
    assert_eq!(rt; plan.check_law(&known).err(), refused(Cause::Deep, 12));
    let joined = deep(12, and(11, 12));
    assert_eq!(rt; plan.check(&joined).err(), refused(Cause::Deep, 12));
    let tell = Kind::Tell {
        group: nobody,
        notice: 11,
        body: 12,
    };
    assert_eq!(rt;
        plan.check_law(&deep(12, tell.into())).err(),
        refused(Cause::Party, 12)
    );
    // a bad child does not count for depth
    let joined = deep(11, and(12, 10));
    assert_eq!(rt; plan.check(&joined).err(), refused(Cause::Child, 11));
    // of two records, the first
    assert_eq!(rt;
        plan.check(&[not(0), fact(0)]).err(),
        refused(Cause::Child, 0)
    );
    assert_eq!(rt;
        plan.check(&[fact(3), knows(2, 7)]).err(),
        refused(Cause::Fact, 0)
    );
    let shared = Kind::Shared {
        group: both,
        body: 5,
    };
    let table = [top(), shared.into(), fact(9)];
    assert_eq!(rt; plan.check(&table).err(), refused(Cause::Child, 1));
    Ok(())
}
