// Plain truth tables: what a board must answer and say, worked out state by state from the rules. Nothing of the code
// under test is used but its types, and the rules' numbers are written out.
use crate::compare::refusal;
use board::request::{Quantifier, Request};
use knowledge::fault::{Cause, Fault};
use std::alloc::{AllocError, Global};
use std::mem;

// The value of each sheet at each state. Bit p of a state's number is the value of place p there.
#[derive(Drop)]
pub struct Tables {
    width: usize,
    sheets: Vec<Vec<bool>>,
    // what the next call writes, kept apart since it may read the sheet that it writes
    next: Vec<bool>,
}

impl Tables {
    // Tables that say no everywhere, for as many places as a grid can have.
    pub fn new(heap: Global, width: usize) -> Result<Tables, AllocError> {
        let states = 1 << width.min(12);
        let sheets = (0..64)
            .map(|_| vec![in heap; false; states])
            .try_collect(heap)?;
        let next = vec![in heap; false; states]?;
        Ok(Tables {
            width,
            sheets,
            next,
        })
    }

    pub fn width(&self) -> usize {
        self.width
    }

    // What the sheet says at each state.
    pub fn sheet(&self, sheet: usize) -> &[bool] {
        self.sheets
            .get(sheet)
            .map_or(&[], |values| values.as_slice())
    }

    // What the sheet says at the state; no past the states.
    pub fn says(&self, sheet: usize, state: usize) -> bool {
        says(&self.sheets, sheet, state)
    }

    // Whether the sheet says the value at every state.
    pub fn all(&self, sheet: usize, value: bool) -> bool {
        self.sheet(sheet).iter().all(|says| *says == value)
    }

    // Answers a request as a board must that is never full.
    pub fn perform(&mut self, request: Request) -> Result<(), Fault> {
        let sheet = written(request);
        if last_sheet(request) > 63 {
            return refusal(Cause::Sheet, sheet);
        }
        if is_misplaced(request, self.width) {
            return refusal(Cause::Place, sheet);
        }
        for (state, value) in self.next.iter_mut().enumerate() {
            *value = written_at(&self.sheets, request, state);
        }
        if let Some(values) = self.sheets.get_mut(sheet) {
            mem::swap(values, &mut self.next);
        }
        Ok(())
    }

    // Answers requests in turn, up to the first that is refused.
    pub fn perform_all(&mut self, requests: &[Request]) -> Result<(), Fault> {
        for request in requests {
            self.perform(*request)?;
        }
        Ok(())
    }
}

// What the sheet says at the state; no past the states.
fn says(sheets: &[Vec<bool>], sheet: usize, state: usize) -> bool {
    sheets
        .get(sheet)
        .and_then(|values| values.get(state))
        .copied()
        .unwrap_or(false)
}

// What a request writes, at one state.
fn written_at(sheets: &[Vec<bool>], request: Request, state: usize) -> bool {
    match request {
        Request::Blank { value, .. } => value,
        Request::Atom { place, .. } => place_at(state, place),
        Request::Join {
            left,
            right,
            code,
            ..
        } => joined(code, says(sheets, left, state), says(sheets, right, state)),
        Request::Flip { sheet } => !says(sheets, sheet, state),
        Request::Quantify {
            from,
            place,
            quantifier,
            ..
        } => {
            let at_no = says(sheets, from, with_place(state, place, false));
            let at_yes = says(sheets, from, with_place(state, place, true));
            match quantifier {
                Quantifier::ForAll => at_no && at_yes,
                Quantifier::Exists => at_no || at_yes,
            }
        }
        Request::Fix {
            from,
            place,
            value,
            ..
        } => says(sheets, from, with_place(state, place, value)),
    }
}

// The sheet written, which is the first that the call names.
pub fn written(request: Request) -> usize {
    match request {
        Request::Blank { sheet, .. }
        | Request::Atom { sheet, .. }
        | Request::Join { sheet, .. }
        | Request::Flip { sheet }
        | Request::Quantify { sheet, .. }
        | Request::Fix { sheet, .. } => sheet,
    }
}

// The highest sheet that the call names.
fn last_sheet(request: Request) -> usize {
    match request {
        Request::Join {
            sheet,
            left,
            right,
            ..
        } => sheet.max(left).max(right),
        Request::Quantify { sheet, from, .. } | Request::Fix { sheet, from, .. } => sheet.max(from),
        Request::Blank { sheet, .. } | Request::Atom { sheet, .. } | Request::Flip { sheet } =>
            sheet,
    }
}

// Whether the call names a place at or past the width, or a code above 15.
fn is_misplaced(request: Request, width: usize) -> bool {
    match request {
        Request::Atom { place, .. }
        | Request::Quantify { place, .. }
        | Request::Fix { place, .. } => place >= width,
        Request::Join { code, .. } => code > 15,
        Request::Blank { .. } | Request::Flip { .. } => false,
    }
}

// Bit 2 × left + right of the code.
fn joined(code: u8, left: bool, right: bool) -> bool {
    code >> (2 * u8::from(left) + u8::from(right)) & 1 == 1
}

// The bit of a place, of which no board has 64, in a state's number.
fn bit(place: usize) -> usize {
    1 << place.min(63)
}

// The value of a place at a state.
fn place_at(state: usize, place: usize) -> bool {
    state & bit(place) != 0
}

// The state that differs from a state at most in the place, and has the value there.
fn with_place(state: usize, place: usize, value: bool) -> usize {
    if value {
        state | bit(place)
    } else {
        state & !bit(place)
    }
}
