// Signs: what they say, and what lies below.
use crate::compare::*;
use crate::making::grid;
use crate::requests::*;
use board::Board;
use board::request::Quantifier::{Exists, ForAll};
use board::request::Request;
use grid::Grid;
use knowledge::fault::Cause::Sheet;
use sign::Sign;
use std::test::Fail;

// A flip is refused for the sheet alone.
fn flips<B: Board>(pair: &mut Pair<B>) -> Result<(), Difference> {
    for sheet in 0..64 {
        pair.board.flip(sheet)?;
        pair.same_sheet(sheet, true)?;
    }
    ends(pair.board.flip(64), refusal(Sheet, 64))?;
    ends(pair.board.flip(usize::MAX), refusal(Sheet, usize::MAX))
}

// A sign over a used board says what is below, and then the opposite where it was flipped. The board below stays as
// it was.
fn over_a_board<B: Board + Drop>(mut below: Pair<B>) -> Result<(), Difference> {
    below.same_calls(300)?;
    let mut pair = below.map(Sign::over);
    pair.same_sheets()?;
    flips(&mut pair)?;
    pair.map(Sign::into_below).same_sheets()
}

#[test]
fn over_used_boards(rt: HostRuntime) -> Result<(), Fail> {
    let heap = rt.alloc();
    over_a_board(grid(heap, 4)?)?;
    over_a_board(grid(heap, 4)?.map(Sign::over))?;
    Ok(())
}

// Calls that write sheet 1 where sheets 0 and 1 are marked, and whether sheet 1 is marked afterwards.
fn marking() -> [(Request, bool); 10] {
    [
        (blank(1, true), false),
        (atom(1, 2), false),
        (join(1, 0, 2, 8), false),
        (join(1, 2, 0, 11), false),
        (join(1, 0, 0, 6), false),
        (quantify(1, 0, 3, ForAll), true),
        (quantify(1, 0, 3, Exists), true),
        (quantify(1, 2, 3, ForAll), false),
        (fix(1, 0, 1, true), true),
        (fix(1, 2, 1, true), false),
    ]
}

// Whether sheet 1 is marked shows in the board below: there a marked sheet says the opposite.
fn marks(below: Pair<Grid>, request: Request, marked: bool) -> Result<(), Difference> {
    let mut pair = below.map(Sign::over);
    pair.fill()?;
    pair.both(&[flip(0), flip(1), request])?;
    pair.map(Sign::into_below).same_sheet(1, marked)
}

#[test]
fn marks_afterwards(rt: HostRuntime) -> Result<(), Fail> {
    for (request, marked) in marking() {
        marks(grid(rt.alloc(), 4)?, request, marked)?;
    }
    Ok(())
}
