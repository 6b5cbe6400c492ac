// The calls of a board, on a grid.
ghost use Rattle.grid.specs.Layout.{meaning_of};
ghost use Rattle.grid.specs.Meanings;

use crate::Grid;
use crate::sheet::Sheet;
use board::Board;
use board::request::{Quantifier, Request, check_sheet};
use knowledge::fault::Fault;

// No call finds a grid full, and any 12 places, which are all that it can have, never fill it.
impl Board for Grid {
    ghost meaning = { λ g. meaning_of g.bytes.items g.width };

    ghost fills = { λ g q. ⊥ };

    ghost sound = { λ b. Meanings.sound b.bytes.items b.width b.some b.narrow };

    fn blank(&mut self, sheet: usize, value: bool) -> Result<(), Fault> {
        Request::Blank { sheet, value }.check(self.width)?;
        self.blank_sheet(Sheet::of(sheet), value);
        Ok(())
    }

    fn atom(&mut self, sheet: usize, place: usize) -> Result<(), Fault> {
        Request::Atom { sheet, place }.check(self.width)?;
        self.atom_sheet(Sheet::of(sheet), place);
        Ok(())
    }

    fn join(&mut self, sheet: usize, left: usize, right: usize, code: u8) -> Result<(), Fault> {
        Request::Join {
            sheet,
            left,
            right,
            code,
        }
        .check(self.width)?;
        self.join_sheet(Sheet::of(sheet), Sheet::of(left), Sheet::of(right), code);
        Ok(())
    }

    fn flip(&mut self, sheet: usize) -> Result<(), Fault> {
        Request::Flip { sheet }.check(self.width)?;
        self.flip_sheet(Sheet::of(sheet));
        Ok(())
    }

    fn quantify(
        &mut self,
        sheet: usize,
        from: usize,
        place: usize,
        quantifier: Quantifier,
    ) -> Result<(), Fault> {
        Request::Quantify {
            sheet,
            from,
            place,
            quantifier,
        }
        .check(self.width)?;
        self.quantify_sheet(Sheet::of(sheet), Sheet::of(from), place, quantifier);
        Ok(())
    }

    fn fix(&mut self, sheet: usize, from: usize, place: usize, value: bool) -> Result<(), Fault> {
        Request::Fix {
            sheet,
            from,
            place,
            value,
        }
        .check(self.width)?;
        self.fix_sheet(Sheet::of(sheet), Sheet::of(from), place, value);
        Ok(())
    }

    fn read(&self, sheet: usize, state: u64) -> Result<bool, Fault> {
        check_sheet(sheet)?;
        Ok(self.read_sheet(Sheet::of(sheet), state))
    }

    fn all(&self, sheet: usize, value: bool) -> Result<bool, Fault> {
        check_sheet(sheet)?;
        Ok(self.all_sheet(Sheet::of(sheet), value))
    }

    fn width(&self) -> usize {
        self.width
    }
}
