// Calls as values, made over any board.
ghost use Rattle.board.specs.Calls.{Written};
ghost use Rattle.board.specs.Turns.{Performed, AllWritten};

use crate::Board;
use crate::request::Request;
use knowledge::fault::Fault;

// Makes the call that a request stands for.
pub fn perform<B: Board>(board: &mut B, request: Request) -> Result<(), Fault>
    ensures { Written B.meaning B.fills board.old request board.new result }
{
    match request {
        Request::Blank { sheet, value } => board.blank(sheet, value),
        Request::Atom { sheet, place } => board.atom(sheet, place),
        Request::Join {
            sheet,
            left,
            right,
            code,
        } => board.join(sheet, left, right, code),
        Request::Flip { sheet } => board.flip(sheet),
        Request::Quantify {
            sheet,
            from,
            place,
            quantifier,
        } => board.quantify(sheet, from, place, quantifier),
        Request::Fix {
            sheet,
            from,
            place,
            value,
        } => board.fix(sheet, from, place, value),
    }
}

// Makes the calls of a list in turn, up to the first that is refused.
#[tactic(auto, using(crate::proofs::Turns::in_turn))]
pub fn perform_all<B: Board>(board: &mut B, requests: &[Request]) -> Result<(), Fault>
    ensures turns { Performed B.meaning B.fills board.old requests.now board.new result }
    ensures all { AllWritten (B.meaning board.old) requests.now (B.meaning board.new) result }
{
    for request in requests {
        perform(board, *request)?;
    }
    Ok(())
}
