// Lists of calls, made in turn.
use crate::compare::*;
use crate::piles::{Exam, on_piles};
use crate::requests::*;
use board::Board;
use board::perform::perform_all;
use board::request::Request;
use knowledge::fault::Cause::{Place, Sheet};
use knowledge::fault::Fault;
use std::test::Fail;

// Makes calls in turn, which end like this up to the first that is refused.
fn in_turn<B: Board>(
    pair: &mut Pair<B>,
    calls: &[Request],
    wanted: Result<(), Fault>,
) -> Result<(), Difference> {
    ends(perform_all(&mut pair.board, calls), wanted)?;
    ends(pair.tables.perform_all(calls), wanted)?;
    pair.same_sheets()
}

// Lists with a refusal at no call, at the first, and further on.
struct Turns;

impl Exam for Turns {
    fn take<B: Board>(&self, pair: &mut Pair<B>) -> Result<(), Difference> {
        pair.fill()?;
        in_turn(pair, &[], Ok(()))?;
        in_turn(pair, &[flip(0), join(5, 0, 1, 14)], Ok(()))?;
        in_turn(
            pair,
            &[atom(9, 4), blank(8, true), flip(64)],
            refusal(Place, 9),
        )?;
        in_turn(
            pair,
            &[flip(5), flip(6), join(9, 0, 64, 8), blank(8, true)],
            refusal(Sheet, 9),
        )
    }
}

#[test]
fn up_to_the_first_refusal(rt: HostRuntime) -> Result<(), Fail> {
    Ok(on_piles(&Turns, rt.alloc(), &[4])?)
}
