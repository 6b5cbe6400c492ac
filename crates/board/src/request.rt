// The calls of a board that write a sheet.
ghost use Rattle.std.specs.Prelude.{◌≡◌, true, ◌↔◌};
ghost use Rattle.board.specs.Requests.{written, SheetsKnown, PlaceKnown};
ghost use Rattle.board.specs.Calls.{Checked, SheetChecked};

use knowledge::fault::{Cause, Fault};

// Sheets are numbered from 0, below this.
pub const SHEETS: usize = 64;

// Codes of a join are below this. A code is a number and no enum, since every number is taken and those from here up
// are refused.
pub const CODES: u8 = 16;

// For both values of a place, or for at least one.
#[derive(Clone, Copy, PartialEq, Eq, Debug)]
pub enum Quantifier {
    ForAll,
    Exists,
}

// A call that writes, as a value: which sheet is written, and from what.
#[derive(Clone, Copy, PartialEq, Eq, Debug)]
pub enum Request {
    // the same value at every state
    Blank {
        sheet: usize,
        value: bool,
    },
    // the value of a place
    Atom {
        sheet: usize,
        place: usize,
    },
    // bit 2 × (left's value) + (right's value) of the code
    Join {
        sheet: usize,
        left: usize,
        right: usize,
        code: u8,
    },
    // the opposite of what the sheet says
    Flip {
        sheet: usize,
    },
    // what another sheet says for both values of a place, or for at least one
    Quantify {
        sheet: usize,
        from: usize,
        place: usize,
        quantifier: Quantifier,
    },
    // what another sheet says with a place set to a value
    Fix {
        sheet: usize,
        from: usize,
        place: usize,
        value: bool,
    },
}

impl Request {
    // Refuses a sheet that no board has, then a place or a code that a board of the width does not have.
    pub fn check(self, width: usize) -> Result<(), Fault>
        ensures { Checked width self result }
    {
        if !self.sheets_known() {
            return Err(Fault::in_board(Cause::Sheet, self.written()));
        }
        if !self.place_known(width) {
            return Err(Fault::in_board(Cause::Place, self.written()));
        }
        Ok(())
    }

    // The sheet written, which is the first that the call names.
    pub fn written(self) -> usize
        ensures { result ≡ written self }
    {
        match self {
            Request::Blank { sheet, .. }
            | Request::Atom { sheet, .. }
            | Request::Join { sheet, .. }
            | Request::Flip { sheet }
            | Request::Quantify { sheet, .. }
            | Request::Fix { sheet, .. } => sheet,
        }
    }

    // Whether every sheet that the call names is one of the 64.
    fn sheets_known(self) -> bool
        ensures { (result ≡ true) ↔ SheetsKnown self }
    {
        match self {
            Request::Blank { sheet, .. } | Request::Atom { sheet, .. } | Request::Flip { sheet } =>
                sheet < SHEETS,
            Request::Join {
                sheet,
                left,
                right,
                ..
            } => sheet < SHEETS && left < SHEETS && right < SHEETS,
            Request::Quantify { sheet, from, .. } | Request::Fix { sheet, from, .. } => {
                sheet < SHEETS && from < SHEETS
            }
        }
    }

    // Whether the place that the call names is below the width, and the code one of the 16.
    fn place_known(self, width: usize) -> bool
        ensures { (result ≡ true) ↔ PlaceKnown width self }
    {
        match self {
            Request::Blank { .. } | Request::Flip { .. } => true,
            Request::Join { code, .. } => code < CODES,
            Request::Atom { place, .. }
            | Request::Quantify { place, .. }
            | Request::Fix { place, .. } => place < width,
        }
    }
}

// Refuses a sheet that no board has, for a call that names but one.
pub fn check_sheet(sheet: usize) -> Result<(), Fault>
    ensures { SheetChecked sheet result }
{
    if sheet >= SHEETS {
        return Err(Fault::in_board(Cause::Sheet, sheet));
    }
    Ok(())
}
