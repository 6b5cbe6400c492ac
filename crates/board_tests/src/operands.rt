// Calls that read the sheet which they write: what it said before counts.
use crate::compare::*;
use crate::piles::{Exam, on_piles};
use crate::requests::*;
use board::Board;
use board::request::Quantifier::{Exists, ForAll};
use board::request::Request;
use std::test::Fail;

// The sheet written apart, on the left, on the right and on both sides.
fn joins(c: u8) -> [Request; 5] {
    [
        join(3, 0, 1, c),
        join(63, 0, 2, c),
        join(0, 0, 2, c),
        join(2, 0, 2, c),
        join(1, 1, 1, c),
    ]
}

// The sheet written apart, and read.
fn at_place(p: usize) -> [Request; 8] {
    [
        quantify(3, 0, p, ForAll),
        quantify(0, 0, p, ForAll),
        quantify(3, 1, p, Exists),
        quantify(1, 1, p, Exists),
        fix(63, 2, p, false),
        fix(2, 2, p, false),
        fix(63, 2, p, true),
        fix(2, 2, p, true),
    ]
}

// Makes each call on sheets filled anew, and looks at all of them.
fn filled_calls<B: Board>(pair: &mut Pair<B>, calls: &[Request]) -> Result<(), Difference> {
    for request in calls {
        pair.fill()?;
        pair.both(&[*request])?;
        pair.same_sheets()?;
    }
    Ok(())
}

// Calls with each code and each place.
struct Operands;

impl Exam for Operands {
    fn take<B: Board>(&self, pair: &mut Pair<B>) -> Result<(), Difference> {
        for c in 0..16 {
            filled_calls(pair, &joins(c))?;
        }
        for p in 0..pair.tables.width() {
            filled_calls(pair, &at_place(p))?;
        }
        Ok(())
    }
}

#[test]
fn written_and_read(rt: HostRuntime) -> Result<(), Fail> {
    Ok(on_piles(&Operands, rt.alloc(), &[1, 12])?)
}
