// Blocks of 512 bytes, one for each sheet, read and written in place. Only a block's live bytes are gone over: the
// others are 0 and stay so.
ghost use Rattle.std.specs.Prelude.{◌≡◌, ◌+◌, ◌*◌, ◌<◌, ◌≤◌};
ghost use Rattle.board.specs.declared.request.Request.TheVariants.{Blank, Atom, Join, Flip};
ghost use Rattle.board.specs.Calls.{At, Everywhere};
ghost use Rattle.grid.specs.Layout.{meaning_of};
ghost use Rattle.grid.specs.Pieces.{live};
ghost use Rattle.grid.specs.Grids.{meaning, Combined, Wrote};

use crate::bytes::{BYTE_STATES, Cases, atom_byte, bit, blank_byte, live_bits, live_bytes};
use crate::sheet::Sheet;
use crate::{Grid, MEMORY};
use std::ops::Range;

// How many bytes a sheet has.
pub(crate) const BLOCK: usize = 512;

impl Grid {
    // Puts the value at every state of the sheet.
    pub(crate) fn blank_sheet(&mut self, sheet: Sheet, value: bool)
        ensures { Wrote self.old (Blank sheet.number value) self.new }
    {
        let live = self.live(sheet);
        let byte = blank_byte(self.width, value);
        self.bytes[live].fill(byte);
    }

    // Puts the value of the place into the sheet.
    pub(crate) fn atom_sheet(&mut self, sheet: Sheet, place: usize)
        requires { place < self.old.width }
        ensures { Wrote self.old (Atom sheet.number place) self.new }
    {
        let live = self.live(sheet);
        let mask = live_bits(self.width);
        let bytes = &mut self.bytes[live];
        for (k, byte) in bytes.iter_mut().enumerate() {
            *byte = atom_byte(place, k) & mask;
        }
    }

    // Puts bit 2 × (left's value) + (right's value) of the code into the sheet.
    pub(crate) fn join_sheet(&mut self, sheet: Sheet, left: Sheet, right: Sheet, code: u8)
        ensures { Wrote self.old (Join sheet.number left.number right.number code) self.new }
    {
        let cases = Cases::from(code);
        self.combine(
            sheet,
            left,
            right,
            move |left, right| cases.join(left, right),
        );
    }

    // Turns every value of the sheet round.
    pub(crate) fn flip_sheet(&mut self, sheet: Sheet)
        ensures { Wrote self.old (Flip sheet.number) self.new }
    {
        self.combine(sheet, sheet, sheet, |byte, _| !byte);
    }

    // Puts what the step gives for each two live bytes of the left and the right sheet into the sheet.
    // An index, and no slices: the sheet may be the left or the right one, and no byte is gone over twice.
    pub(crate) fn combine<F: Fn(u8, u8) -> u8>(
        &mut self,
        sheet: Sheet,
        left: Sheet,
        right: Sheet,
        step: F,
    )
        requires { F.IsAlwaysCallable step }
        ensures { Combined (F.post step) self.old sheet.number left.number right.number self.new }
    {
        let mask = live_bits(self.width);
        let live = live_bytes(self.width);
        let bytes = self.bytes.as_mut_slice();
        for k in 0..live {
            let byte = step(
                bytes[BLOCK * left.number + k],
                bytes[BLOCK * right.number + k],
            );
            bytes[BLOCK * sheet.number + k] = byte & mask;
        }
    }

    // What the sheet says at the state of a number.
    pub(crate) fn read_sheet(&self, sheet: Sheet, state: u64) -> bool
        ensures { At state ((meaning self.now).sheets sheet.number) result }
    {
        let number = (state % (1 << self.width)) as usize;
        let byte = self.bytes[BLOCK * sheet.number + number / BYTE_STATES];
        bit(byte, (number % BYTE_STATES) as u8)
    }

    // Whether the sheet says the value at every state.
    pub(crate) fn all_sheet(&self, sheet: Sheet, value: bool) -> bool
        ensures { Everywhere value ((meaning self.now).sheets sheet.number) result }
    {
        let live = self.live(sheet);
        let wanted = blank_byte(self.width, value);
        self.bytes[live].iter().all(|byte| *byte == wanted)
    }

    // Where the sheet's live bytes lie.
    fn live(&self, sheet: Sheet) -> Range<usize>
        ensures start { result.start ≡ BLOCK * sheet.number }
        ensures end { result.end ≡ BLOCK * sheet.number + live self.now.width }
        ensures inside { (result.start ≤ result.end) × (result.end ≤ MEMORY) }
    {
        let start = BLOCK * sheet.number;
        start..start + live_bytes(self.width)
    }
}
