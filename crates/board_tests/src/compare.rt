// A board held against plain tables.
use crate::generate::Source;
use crate::requests::*;
use crate::tables::{Tables, written};
use board::Board;
use board::perform::perform;
use board::request::Request;
use knowledge::fault::{Cause, Fault, Layer};
use std::alloc::AllocError;

// What is not as it must be.
#[derive(Clone, Copy, Debug)]
pub enum Difference {
    // what a sheet says at a state
    Read {
        sheet: usize,
        state: u64,
    },
    // whether a sheet says a value at every state
    All {
        sheet: usize,
        value: bool,
    },
    // the board's number of places
    Width(usize),
    // how a call ended, and how it must end
    Answer {
        given: Result<(), Fault>,
        wanted: Result<(), Fault>,
    },
    // a call was refused that must be done
    Refusal(Fault),
    // a grid was made outside the limits
    Made {
        length: usize,
        width: usize,
    },
    // a grid that was not made did not hand its memory back as it was
    HandedBack {
        length: usize,
        width: usize,
    },
    // the number of bytes of a grid's memory
    Length(usize),
    // a byte of a grid's memory
    Byte {
        index: usize,
        byte: u8,
    },
    // there was no memory for the test
    NoMemory,
}

impl From<Fault> for Difference {
    fn from(fault: Fault) -> Difference {
        Difference::Refusal(fault)
    }
}

impl From<AllocError> for Difference {
    fn from(_: AllocError) -> Difference {
        Difference::NoMemory
    }
}

// A board, and the tables that it is held against.
#[derive(Drop)]
pub struct Pair<B> {
    pub board: B,
    pub tables: Tables,
}

impl<B> Pair<B> {
    // What is made of the board, beside the same tables.
    pub fn map<C, F: FnOnce(B) -> C>(self, change: F) -> Pair<C>
        requires { F.IsAlwaysCallable change }
    {
        Pair {
            board: change(self.board),
            tables: self.tables,
        }
    }
}

impl<B: Board> Pair<B> {
    // The sheet says the same at every state, or the opposite if it is flipped, by both questions.
    pub fn same_sheet(&self, sheet: usize, flipped: bool) -> Result<(), Difference> {
        for (state, says) in self.tables.sheet(sheet).iter().enumerate() {
            let state = state as u64;
            if self.board.read(sheet, state)? != *says ^ flipped {
                return Err(Difference::Read { sheet, state });
            }
        }
        for value in [false, true] {
            if self.board.all(sheet, value)? != self.tables.all(sheet, value ^ flipped) {
                return Err(Difference::All { sheet, value });
            }
        }
        Ok(())
    }

    // All sheets say the same.
    pub fn same_sheets(&self) -> Result<(), Difference> {
        if self.board.width() != self.tables.width() {
            return Err(Difference::Width(self.board.width()));
        }
        for sheet in 0..64 {
            self.same_sheet(sheet, false)?;
        }
        Ok(())
    }

    // Makes a call on both; the answers and the sheet written are the same.
    fn same_call(&mut self, request: Request) -> Result<(), Difference> {
        let sheet = written(request);
        ends(
            perform(&mut self.board, request),
            self.tables.perform(request),
        )?;
        if sheet < 64 {
            self.same_sheet(sheet, false)?;
        }
        Ok(())
    }

    // Makes so many generated calls on both, and looks at all sheets now and then.
    pub fn same_calls(&mut self, calls: usize) -> Result<(), Difference> {
        for (turn, request) in Source::new(1, self.tables.width()).take(calls).enumerate() {
            if turn % 100 == 0 {
                self.same_sheets()?;
            }
            self.same_call(request)?;
        }
        self.same_sheets()
    }

    // Makes calls on both, which are done.
    pub fn both(&mut self, calls: &[Request]) -> Result<(), Difference> {
        for request in calls {
            perform(&mut self.board, *request)?;
            self.tables.perform(*request)?;
        }
        Ok(())
    }

    // Writes functions that rely on all places into sheets 0, 1 and 2, by way of sheet 3.
    pub fn fill(&mut self) -> Result<(), Difference> {
        self.both(&[blank(0, false), blank(1, false), blank(2, true)])?;
        for p in 0..self.tables.width() {
            self.both(&mixed(p))?;
        }
        Ok(())
    }
}

// Mixes a place into three sheets, in three ways.
fn mixed(p: usize) -> [Request; 4] {
    let codes = [6, 14, 9, 8, 11];
    let k = p % 5;
    [
        atom(3, p),
        join(0, 0, 3, codes[k]),
        join(1, 1, 3, codes[(k + 1) % 5]),
        join(2, 2, 3, codes[(k + 2) % 5]),
    ]
}

// How a call ends that a board refuses for this cause, by the first sheet of the call. Written out: what is expected
// comes from no code under test.
pub fn refusal(cause: Cause, sheet: usize) -> Result<(), Fault> {
    Err(Fault {
        cause,
        layer: Layer::Board,
        place: sheet,
    })
}

// The call ended as it must.
pub fn ends<A: Drop>(
    answer: Result<A, Fault>,
    wanted: Result<(), Fault>,
) -> Result<(), Difference> {
    let given = answer.map(|_| ());
    if given == wanted {
        Ok(())
    } else {
        Err(Difference::Answer { given, wanted })
    }
}
