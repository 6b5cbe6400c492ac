// The sheets of a grid.
ghost use Rattle.std.specs.Prelude.{◌≡◌, ◌<◌};
ghost use Rattle.board.specs.declared.request.TheConstants.{SHEETS};

use board::request::SHEETS;

// A sheet that is one of the 64.
#[derive(Clone, Copy, PartialEq, Eq, Debug)]
pub(crate) struct Sheet {
    pub(crate) number: usize,
    ghost known: { number < SHEETS },
}

impl Sheet {
    // The sheet of a number that was checked. No TryFrom: a refusal names the sheet that the call writes, which may be
    // another one.
    pub(crate) fn of(number: usize) -> Sheet
        requires { number < SHEETS }
        ensures { result.number ≡ number }
    {
        Sheet { number }
    }
}
