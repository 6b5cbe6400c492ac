// A place of a sheet bound: its two values taken together by a step, in place. The sheets and the place come one by
// one, as in the calls of a board: a struct of them would be made in two functions and taken apart in two. That the
// place is one of the grid's is said of each grid anew, as a type of the place alone could not say it.
// That a step can be called stands in each contract that takes one, as no type says it.
ghost use Rattle.std.specs.Prelude.{◌+◌, ◌*◌, ◌<◌, ◌≤◌, length};
ghost use Rattle.board.specs.declared.request.Request.TheVariants.{Quantify, Fix};
ghost use Rattle.grid.specs.Pieces.{Apart, Paired};
ghost use Rattle.grid.specs.Grids.{Bound, Wrote};

use crate::Grid;
use crate::blocks::BLOCK;
use crate::bytes::{BYTE_PLACES, live_bytes, settle_byte, stride_of};
use crate::sheet::Sheet;
use board::request::Quantifier;

impl Grid {
    // Puts what another sheet says for both values of the place, or for at least one, into the sheet.
    pub(crate) fn quantify_sheet(
        &mut self,
        sheet: Sheet,
        from: Sheet,
        place: usize,
        quantifier: Quantifier,
    )
        requires { place < self.old.width }
        ensures { Wrote self.old (Quantify sheet.number from.number place quantifier) self.new }
    {
        match quantifier {
            Quantifier::ForAll => self.bind(sheet, from, place, |clear, set| clear & set),
            Quantifier::Exists => self.bind(sheet, from, place, |clear, set| clear | set),
        }
    }

    // Puts what another sheet says with the place set to the value into the sheet.
    pub(crate) fn fix_sheet(&mut self, sheet: Sheet, from: Sheet, place: usize, value: bool)
        requires { place < self.old.width }
        ensures { Wrote self.old (Fix sheet.number from.number place value) self.new }
    {
        if value {
            self.bind(sheet, from, place, |_, set| set);
        } else {
            self.bind(sheet, from, place, |clear, _| clear);
        }
    }

    // Puts what the step gives for what another sheet says with the place clear and with it set into the sheet.
    // Not inlined, so that a call that is refused does not pay for the loops.
    #[inline(never)]
    fn bind<F: Fn(u8, u8) -> u8>(&mut self, sheet: Sheet, from: Sheet, place: usize, step: F)
        requires places { place < self.old.width }
        requires callable { F.IsAlwaysCallable step }
        ensures { Bound (F.post step) self.old sheet.number from.number place self.new }
    {
        // the two values of a place stand in one byte or in two, which only the place decides
        if place < BYTE_PLACES {
            self.combine(sheet, from, from, move |byte, _| {
                step(
                    settle_byte(byte, place, false),
                    settle_byte(byte, place, true),
                )
            });
        } else {
            self.bind_rows(sheet, from, place, step);
        }
    }

    // The same for a place whose two values stand in two bytes, a stride apart: a row has a stride of bytes with the
    // place clear, then as many with the place set. An index, and no chunks: the rows read and the rows written may
    // be the same. Rows are counted, and no step_by: so the loop says that there are whole rows.
    fn bind_rows<F: Fn(u8, u8) -> u8>(&mut self, sheet: Sheet, from: Sheet, place: usize, step: F)
        requires places { (place < self.old.width) × (BYTE_PLACES ≤ place) }
        requires callable { F.IsAlwaysCallable step }
        ensures { Bound (F.post step) self.old sheet.number from.number place self.new }
    {
        let stride = stride_of(place);
        let rows = live_bytes(self.width) / (2 * stride);
        let bytes = self.bytes.as_mut_slice();
        for row in 0..rows {
            let start = 2 * stride * row;
            bind_row(
                bytes,
                BLOCK * sheet.number + start,
                BLOCK * from.number + start,
                stride,
                &step,
            );
        }
    }
}

// Puts what the step gives for the two halves of the row that begins at `from` into both halves of the one at `to`.
// An index, and no slices: the two rows may be one, and no byte is gone over twice.
fn bind_row<F: Fn(u8, u8) -> u8>(bytes: &mut [u8], to: usize, from: usize, stride: usize, step: &F)
    requires to { to + 2 * stride ≤ length bytes.old }
    requires from { from + 2 * stride ≤ length bytes.old }
    requires apart { Apart to from (2 * stride) }
    requires callable { F.IsAlwaysCallable step.now }
    ensures { Paired (F.post step.now) bytes.old to from stride stride bytes.new }
{
    for k in 0..stride {
        let byte = step(bytes[from + k], bytes[from + stride + k]);
        bytes[to + k] = byte;
        bytes[to + stride + k] = byte;
    }
}
