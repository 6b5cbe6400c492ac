// Grids, and signs piled on them.
use crate::compare::*;
use crate::making::grid;
use board::Board;
use sign::Sign;
use std::alloc::Global;
use std::test::Fail;

// What any new board can be put through, beside new tables. A trait, since no closure is generic over the board.
pub trait Exam {
    fn take<B: Board>(&self, pair: &mut Pair<B>) -> Result<(), Difference>;
}

// Puts a grid of each width through an exam, a sign over a grid, and a sign over a sign over a grid.
pub fn on_piles<E: Exam>(exam: &E, heap: Global, widths: &[usize]) -> Result<(), Difference> {
    for width in widths {
        exam.take(&mut grid(heap, *width)?)?;
        exam.take(&mut grid(heap, *width)?.map(Sign::over))?;
        exam.take(&mut grid(heap, *width)?.map(Sign::over).map(Sign::over))?;
    }
    Ok(())
}

// A few thousand generated calls.
struct Trial;

impl Exam for Trial {
    fn take<B: Board>(&self, pair: &mut Pair<B>) -> Result<(), Difference> {
        pair.same_calls(4000)
    }
}

#[test]
fn generated_calls(rt: HostRuntime) -> Result<(), Fail> {
    Ok(on_piles(&Trial, rt.alloc(), &[1, 3, 4, 7])?)
}
