// The edges of each call.
use crate::compare::*;
use crate::piles::{Exam, on_piles};
use crate::requests::*;
use board::Board;
use board::perform::perform;
use board::request::Quantifier::{Exists, ForAll};
use board::request::Request;
use knowledge::fault::Cause::{Place, Sheet};
use knowledge::fault::Fault;
use std::test::Fail;

const MAX: usize = usize::MAX;

// A call, and how it ends.
type Edge = (Request, Result<(), Fault>);

// The last sheet and the first past it, in each part of each call, and a place past the width beside it.
fn at_sheets(width: usize) -> [Edge; 32] {
    [
        (blank(63, true), Ok(())),
        (blank(64, true), refusal(Sheet, 64)),
        (blank(MAX, false), refusal(Sheet, MAX)),
        (atom(63, 0), Ok(())),
        (atom(64, 0), refusal(Sheet, 64)),
        (atom(MAX, 0), refusal(Sheet, MAX)),
        (atom(64, width), refusal(Sheet, 64)),
        (atom(MAX, MAX), refusal(Sheet, MAX)),
        (join(63, 63, 63, 7), Ok(())),
        (join(64, 0, 1, 6), refusal(Sheet, 64)),
        (join(0, 64, 1, 6), refusal(Sheet, 0)),
        (join(1, 0, 64, 6), refusal(Sheet, 1)),
        (join(64, 0, 0, 16), refusal(Sheet, 64)),
        (join(0, 64, 0, 16), refusal(Sheet, 0)),
        (join(1, 0, 64, 255), refusal(Sheet, 1)),
        (join(MAX, 0, 0, 6), refusal(Sheet, MAX)),
        (flip(63), Ok(())),
        (flip(64), refusal(Sheet, 64)),
        (flip(MAX), refusal(Sheet, MAX)),
        (quantify(63, 63, 0, ForAll), Ok(())),
        (quantify(64, 0, 0, ForAll), refusal(Sheet, 64)),
        (quantify(1, 64, 0, ForAll), refusal(Sheet, 1)),
        (quantify(2, 64, width, ForAll), refusal(Sheet, 2)),
        (quantify(63, 2, 0, Exists), Ok(())),
        (quantify(64, 0, width, Exists), refusal(Sheet, 64)),
        (quantify(2, MAX, 0, Exists), refusal(Sheet, 2)),
        (quantify(0, MAX, MAX, Exists), refusal(Sheet, 0)),
        (fix(63, 63, 0, true), Ok(())),
        (fix(64, 0, 0, true), refusal(Sheet, 64)),
        (fix(63, 64, 0, false), refusal(Sheet, 63)),
        (fix(1, 64, width, false), refusal(Sheet, 1)),
        (fix(MAX, MAX, MAX, true), refusal(Sheet, MAX)),
    ]
}

// The last place and the first past it, the last code and the first past it.
fn at_places(width: usize) -> [Edge; 18] {
    let last = width.saturating_sub(1);
    [
        (atom(4, last), Ok(())),
        (atom(4, width), refusal(Place, 4)),
        (atom(63, MAX), refusal(Place, 63)),
        (join(4, 0, 1, 15), Ok(())),
        (join(4, 0, 1, 16), refusal(Place, 4)),
        (join(0, 1, 2, 255), refusal(Place, 0)),
        (quantify(5, 0, last, ForAll), Ok(())),
        (quantify(5, 0, width, ForAll), refusal(Place, 5)),
        (quantify(0, 5, MAX, ForAll), refusal(Place, 0)),
        (quantify(6, 1, last, Exists), Ok(())),
        (quantify(6, 1, width, Exists), refusal(Place, 6)),
        (quantify(1, 6, MAX, Exists), refusal(Place, 1)),
        (fix(7, 2, last, false), Ok(())),
        (fix(7, 2, width, false), refusal(Place, 7)),
        (fix(2, 7, MAX, false), refusal(Place, 2)),
        (fix(8, 2, last, true), Ok(())),
        (fix(8, 2, width, true), refusal(Place, 8)),
        (fix(2, 8, MAX, true), refusal(Place, 2)),
    ]
}

// Each call ends as listed, and changes no sheet but the one that it writes.
fn end_as_listed<B: Board>(pair: &mut Pair<B>, edges: &[Edge]) -> Result<(), Difference> {
    for (request, wanted) in edges {
        ends(perform(&mut pair.board, *request), *wanted)?;
        ends(pair.tables.perform(*request), *wanted)?;
        pair.same_sheets()?;
    }
    Ok(())
}

// Questions about the last sheet and the first past it.
fn questions<B: Board>(board: &B) -> Result<(), Difference> {
    for (sheet, wanted) in [
        (63, Ok(())),
        (64, refusal(Sheet, 64)),
        (MAX, refusal(Sheet, MAX)),
    ] {
        for value in [false, true] {
            ends(board.all(sheet, value), wanted)?;
        }
        ends(board.read(sheet, u64::MAX), wanted)?;
    }
    Ok(())
}

// States with bits from the width up: such bits do not count.
fn past_the_width<B: Board>(pair: &Pair<B>) -> Result<(), Difference> {
    let values = pair.tables.sheet(0);
    let states = values.len() as u64;
    for (state, says) in values.iter().enumerate() {
        // the first such bit, and then all of them
        for more in [states, states.wrapping_neg()] {
            let state = state as u64 | more;
            if pair.board.read(0, state)? != *says {
                return Err(Difference::Read { sheet: 0, state });
            }
        }
    }
    Ok(())
}

// All edges of a board.
struct Edges;

impl Exam for Edges {
    fn take<B: Board>(&self, pair: &mut Pair<B>) -> Result<(), Difference> {
        let width = pair.tables.width();
        pair.fill()?;
        end_as_listed(pair, &at_sheets(width))?;
        end_as_listed(pair, &at_places(width))?;
        questions(&pair.board)?;
        past_the_width(pair)
    }
}

#[test]
fn of_all_calls(rt: HostRuntime) -> Result<(), Fail> {
    Ok(on_piles(&Edges, rt.alloc(), &[1, 12])?)
}
