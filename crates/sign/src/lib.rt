// A sign: a layer over any board that keeps one mark for each sheet. A marked sheet says the opposite of the one below.
#![tactic(auto)]

mod marks;

ghost use Rattle.std.specs.Prelude.{◌≡◌, ℕ, false, Some};
ghost use Rattle.board.specs.declared.request.Request.{Request};
ghost use Rattle.board.specs.declared.request.Request.TheVariants.{Blank, Atom, Join, Flip, Quantify, Fix};
ghost use Rattle.sign.specs.Marks.{mark_at, meaning_above, handed, new_mark};
ghost use Rattle.sign.specs.Signs.{meaning_of, fills_of, Layered};
ghost use Rattle.sign.specs.Layer.{sound_above};

use board::Board;
use board::perform::perform;
use board::request::{Quantifier, Request, check_sheet};
use knowledge::fault::Fault;
use marks::{Marks, exchange, recode, under};

// The board below, and which sheets are marked.
#[derive(PartialEq, Eq, Debug, Drop)]
pub struct Sign<B> {
    below: B,
    marks: Marks,
}

impl<B: Board> Sign<B> {
    // A sign with no sheet marked: it says what the board says.
    pub fn over(below: B) -> Sign<B>
        ensures holds { (result.below ≡ below) × ((i : ℕ) → mark_at result.marks i ≡ false) }
        ensures says { meaning_of B.meaning result ≡ B.meaning below }
    {
        Sign {
            below,
            marks: Marks::none(),
        }
    }

    // The board below. The marks are given up: under them it says what the sign said.
    pub fn into_below(self) -> B
        ensures holds { result ≡ self.below }
        ensures says { meaning_of B.meaning self ≡ meaning_above self.marks (B.meaning result) }
    {
        let Sign { below, .. } = self;
        below
    }

    // Makes a request below and, once it is done, gives the sheet written its mark. So ends every request that is to be
    // handed down as this one with this mark.
    fn hand_down(&mut self, request: Request, mark: bool) -> Result<(), Fault>
        ensures { (q : Request)
            → handed self.old.marks q ≡ Some request
            → new_mark self.old.marks q ≡ mark
            → Layered B.meaning B.fills self.old q self.new result }
    {
        perform(&mut self.below, request)?;
        self.marks.set(request.written(), mark);
        Ok(())
    }
}

// Each call hands one request down, but for flip, which only turns the mark.
// What a sign promises beyond a board stands beside each call: a trait's member for it would burden every board.
impl<B: Board> Board for Sign<B> {
    ghost meaning = { meaning_of B.Board.meaning };

    ghost fills = { fills_of B.Board.fills };

    ghost sound = { λ b. sound_above b.marks (B.Board.meaning b.below) (B.Board.fills b.below) (B.Board.sound b.below) };

    fn blank(&mut self, sheet: usize, value: bool) -> Result<(), Fault>
        ensures { Layered B.meaning B.fills self.old (Blank sheet value) self.new result }
    {
        self.hand_down(Request::Blank { sheet, value }, false)
    }

    fn atom(&mut self, sheet: usize, place: usize) -> Result<(), Fault>
        ensures { Layered B.meaning B.fills self.old (Atom sheet place) self.new result }
    {
        self.hand_down(Request::Atom { sheet, place }, false)
    }

    fn join(&mut self, sheet: usize, left: usize, right: usize, code: u8) -> Result<(), Fault>
        ensures { Layered B.meaning B.fills self.old (Join sheet left right code) self.new result }
    {
        let code = recode(self.marks.get(left), self.marks.get(right), code);
        let request = Request::Join {
            sheet,
            left,
            right,
            code,
        };
        self.hand_down(request, false)
    }

    fn flip(&mut self, sheet: usize) -> Result<(), Fault>
        ensures { Layered B.meaning B.fills self.old (Flip sheet) self.new result }
    {
        check_sheet(sheet)?;
        let mark = self.marks.get(sheet);
        self.marks.set(sheet, !mark);
        Ok(())
    }

    fn quantify(
        &mut self,
        sheet: usize,
        from: usize,
        place: usize,
        quantifier: Quantifier,
    ) -> Result<(), Fault>
        ensures { Layered B.meaning B.fills self.old (Quantify sheet from place quantifier) self.new result }
    {
        let from_mark = self.marks.get(from);
        let quantifier = exchange(from_mark, quantifier);
        let request = Request::Quantify {
            sheet,
            from,
            place,
            quantifier,
        };
        self.hand_down(request, from_mark)
    }

    fn fix(&mut self, sheet: usize, from: usize, place: usize, value: bool) -> Result<(), Fault>
        ensures { Layered B.meaning B.fills self.old (Fix sheet from place value) self.new result }
    {
        let mark = self.marks.get(from);
        let request = Request::Fix {
            sheet,
            from,
            place,
            value,
        };
        self.hand_down(request, mark)
    }

    fn read(&self, sheet: usize, state: u64) -> Result<bool, Fault> {
        let value = self.below.read(sheet, state)?;
        Ok(under(self.marks.get(sheet), value))
    }

    fn all(&self, sheet: usize, value: bool) -> Result<bool, Fault> {
        self.below.all(sheet, under(self.marks.get(sheet), value))
    }

    fn width(&self) -> usize {
        self.below.width()
    }
}
