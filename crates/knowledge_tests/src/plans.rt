// Plans, sets and refusals.
use crate::tables::two_by_two;
use knowledge::fault::{Cause, Fault, Layer};
use knowledge::plan::Plan;
use knowledge::sets::{FactSet, Group};
use std::test::Fail;

// A refusal by a matter, written out: what is expected comes from no code under test.
fn refused(cause: Cause) -> Option<Fault> {
    Some(Fault {
        cause,
        layer: Layer::Matter,
        place: 0,
    })
}

#[test]
fn limits_of_plans(rt: HostRuntime) -> Result<(), Fail> {
    let blind = FactSet::of(&[])?;
    let last = FactSet::of(&[1, 40])?;
    assert_eq!(rt; Plan::new(0, &[blind]).err(), refused(Cause::Fact));
    assert_eq!(rt; Plan::new(1, &[blind]).err(), None);
    assert_eq!(rt; Plan::new(40, &[last]).err(), None);
    assert_eq!(rt; Plan::new(41, &[blind]).err(), refused(Cause::Fact));
    assert_eq!(rt; Plan::new(usize::MAX, &[blind]).err(), refused(Cause::Fact));
    assert_eq!(rt; Plan::new(39, &[last]).err(), refused(Cause::Fact));
    assert_eq!(rt; Plan::new(39, &[blind, last]).err(), refused(Cause::Fact));
    assert_eq!(rt; Plan::new(40, &[]).err(), refused(Cause::Party));
    assert_eq!(rt; Plan::new(40, &[last; 8]).err(), None);
    assert_eq!(rt; Plan::new(40, &[last; 9]).err(), refused(Cause::Party));
    assert_eq!(rt; Plan::new(39, &[last; 9]).err(), refused(Cause::Fact));
    assert_eq!(rt; Plan::new(41, &[]).err(), refused(Cause::Fact));
    Ok(())
}

#[test]
fn parts_of_a_plan(rt: HostRuntime) -> Result<(), Fail> {
    let plan = two_by_two()?;
    assert_eq!(rt; plan.facts(), 2);
    assert_eq!(rt; plan.parties(), 2);
    assert!(rt; plan.sight(0).ok_or("no alice")?.contains(1));
    assert!(rt; !plan.sight(0).ok_or("no alice")?.contains(2));
    assert!(rt; plan.sight(1).ok_or("no bob")?.contains(2));
    assert!(rt; plan.sight(2).is_none());
    assert!(rt; plan.sight(8).is_none());
    assert!(rt; plan.sight(usize::MAX).is_none());
    Ok(())
}

#[test]
fn limits_of_sets(rt: HostRuntime) {
    assert_eq!(rt; FactSet::of(&[1, 40, 40, 2]).err(), None);
    assert_eq!(rt; FactSet::of(&[0]).err(), refused(Cause::Fact));
    assert_eq!(rt; FactSet::of(&[1, 41]).err(), refused(Cause::Fact));
    assert_eq!(rt; FactSet::of(&[usize::MAX]).err(), refused(Cause::Fact));
    assert_eq!(rt; Group::of(&[0, 7, 7]).err(), None);
    assert_eq!(rt; Group::of(&[0, 8]).err(), refused(Cause::Party));
    assert_eq!(rt; Group::of(&[usize::MAX]).err(), refused(Cause::Party));
}

#[test]
fn members_of_sets(rt: HostRuntime) -> Result<(), Fail> {
    let facts = FactSet::of(&[40, 1])?;
    assert!(rt; facts.contains(1) && facts.contains(40));
    assert!(rt; !facts.contains(0) && !facts.contains(2) && !facts.contains(41));
    assert!(rt; !facts.contains(65) && !facts.contains(usize::MAX));
    let group = Group::of(&[0, 7])?;
    assert!(rt; group.contains(0) && group.contains(7));
    assert!(rt; !group.contains(1) && !group.contains(8) && !group.contains(64));
    assert!(rt; group.is_present(8) && group.is_present(64) && group.is_present(usize::MAX));
    assert!(rt; !group.is_present(7) && !group.is_present(0));
    assert!(rt; !Group::of(&[])?.is_present(8));
    Ok(())
}

#[test]
fn refusals_as_printed(rt: HostRuntime) -> Result<(), Fail> {
    let untrue = Fault {
        cause: Cause::Untrue,
        layer: Layer::Matter,
        place: 0,
    };
    assert!(rt; format!(in rt.alloc(); "{untrue}")?.as_str() == "refused 14 M 0");
    let long = Fault {
        cause: Cause::Long,
        layer: Layer::Notice,
        place: 8192,
    };
    assert!(rt; format!(in rt.alloc(); "{long}")?.as_str() == "refused 1 N 8192");
    let memory = Fault {
        cause: Cause::Memory,
        layer: Layer::Plan,
        place: usize::MAX,
    };
    assert!(rt;
        format!(in rt.alloc(); "{memory}")?.as_str() == "refused 22 P 18446744073709551615"
    );
    Ok(())
}

// The rules keep the numbers 19 to 21 for later.
#[test]
fn numbers_of_causes(rt: HostRuntime) {
    let numbered = [
        (Cause::Long, 1),
        (Cause::Byte, 2),
        (Cause::Word, 3),
        (Cause::Fact, 4),
        (Cause::Party, 5),
        (Cause::Nodes, 6),
        (Cause::Deep, 7),
        (Cause::Knowledge, 8),
        (Cause::Child, 9),
        (Cause::Closed, 10),
        (Cause::Width, 11),
        (Cause::Lawless, 12),
        (Cause::Marks, 13),
        (Cause::Untrue, 14),
        (Cause::Sheet, 15),
        (Cause::Place, 16),
        (Cause::Full, 17),
        (Cause::Table, 18),
        (Cause::Memory, 22),
    ];
    for (cause, number) in numbered {
        assert_eq!(rt; u8::from(cause), number);
    }
}

#[test]
fn letters_of_layers(rt: HostRuntime) {
    let lettered = [
        (Layer::Plan, "P"),
        (Layer::Notice, "N"),
        (Layer::Formula, "F"),
        (Layer::Board, "B"),
        (Layer::Matter, "M"),
    ];
    for (layer, letter) in lettered {
        assert_eq!(rt; layer.letter(), letter);
    }
}

#[test]
fn sets_for_debugging(rt: HostRuntime) -> Result<(), Fail> {
    let facts = FactSet::of(&[1, 2])?;
    assert!(rt; format!(in rt.alloc(); "{facts:?}")?.as_str() == "FactSet { bits: 3 }");
    let group = Group::of(&[0, 3])?;
    assert!(rt; format!(in rt.alloc(); "{group:?}")?.as_str() == "Group { bits: 9 }");
    Ok(())
}
