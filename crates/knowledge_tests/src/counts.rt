// Depth, tell count and mention of knowledge.
use crate::tables::*;
use knowledge::sets::Group;
use knowledge::table::{Kind, Record};
use std::test::Fail;

#[test]
fn depths_of_tables(rt: HostRuntime) -> Result<(), Fail> {
    let plan = two_by_two()?;
    assert_eq!(rt; plan.check(&[top()])?.depth, 1);
    assert_eq!(rt; plan.check(&[top(), not(0), and(0, 1)])?.depth, 3);
    assert_eq!(rt; plan.check(&[top(), not(0), and(1, 0)])?.depth, 3);
    // a whether form is one level, and only the last record counts
    let whether = Kind::KnowsWhether { party: 0, body: 0 };
    assert_eq!(rt; plan.check(&[top(), whether.into()])?.depth, 2);
    assert_eq!(rt; plan.check(&[top(), not(0), top()])?.depth, 1);
    assert!(rt; plan.check(&[not(0)]).is_err());
    Ok(())
}

#[test]
fn tells_of_tables(rt: HostRuntime) -> Result<(), Fail> {
    let plan = two_by_two()?;
    let group = Group::of(&[1])?;
    let tell = Record::from(Kind::Tell {
        group,
        notice: 0,
        body: 0,
    });
    let after = Record::from(Kind::TellWhether {
        group,
        notice: 0,
        body: 1,
    });
    let inside = Record::from(Kind::Tell {
        group,
        notice: 2,
        body: 0,
    });
    let posted = Record::from(Kind::Post { notice: 1, body: 0 });
    assert_eq!(rt; plan.check(&[top()])?.tells, 0);
    assert_eq!(rt; plan.check(&[top(), tell])?.tells, 1);
    assert_eq!(rt; plan.check(&[top(), tell, after])?.tells, 2);
    // a tell in what is told is settled before the mark
    assert_eq!(rt; plan.check(&[top(), tell, after, inside])?.tells, 2);
    assert_eq!(rt; plan.check(&[top(), tell, after, and(1, 2)])?.tells, 2);
    assert_eq!(rt; plan.check(&[top(), tell, posted])?.tells, 1);
    assert!(rt; plan.check(&[fact(0)]).is_err());
    Ok(())
}

#[test]
fn mentions_of_knowledge(rt: HostRuntime) -> Result<(), Fail> {
    let plan = two_by_two()?;
    let group = Group::of(&[0, 1])?;
    // all kinds of one child but a negation are on knowledge
    let expected = [false, true, true, true, true];
    for (record, expected) in singles(1, group, 0).iter().zip(expected) {
        assert_eq!(rt; plan.check(&[top(), *record])?.knowledge, expected);
        assert_eq!(rt; plan.check(&[top(), *record, not(1)])?.knowledge, expected);
        assert!(rt; !plan.check(&[top(), *record, not(0)])?.knowledge);
    }
    for record in doubles(group, 0, 1).iter().chain(&doubles(group, 1, 0)) {
        assert!(rt; plan.check(&[top(), knows(0, 0), *record])?.knowledge);
    }
    for record in doubles(group, 0, 0) {
        assert!(rt; !plan.check(&[top(), knows(0, 0), record])?.knowledge);
    }
    assert!(rt; plan.check(&[knows(9, 0)]).is_err());
    Ok(())
}
