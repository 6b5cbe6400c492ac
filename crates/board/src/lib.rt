// A board: a store of 64 Boolean functions, its sheets, over up to 48 variables, its places.
#![tactic(auto)]

pub mod perform;
pub mod request;
pub mod unmade;

ghost use Rattle.std.specs.Prelude.{◌≡◌};
ghost use Rattle.board.specs.declared.request.Request.{Request};
ghost use Rattle.board.specs.declared.request.Request.TheVariants.{Blank, Atom, Join, Flip, Quantify, Fix};
ghost use Rattle.board.specs.Requests.{Meaning};
ghost use Rattle.board.specs.Calls.{Sound, Written, Answered, At, Everywhere};

use knowledge::fault::Fault;
use request::Quantifier;

// Each sheet says yes or no at every state, a setting of the places below the width. A call writes one sheet or none.
// It refuses a sheet above 63, then a place at or past the width or a code above 15, then by the board's filling rule;
// a refusal leaves all as it was.
pub trait Board {
    // The width, the number of places that never fill the board, and the function of each sheet.
    ghost meaning: { Self → Meaning };

    // Which requests find the board full, by what it holds.
    ghost fills: { Self → Request → Type 0 };

    // Puts the value at every state of the sheet.
    fn blank(&mut self, sheet: usize, value: bool) -> Result<(), Fault>
        ensures { Written meaning fills self.old (Blank sheet value) self.new result };

    // Puts the value of the place into the sheet.
    fn atom(&mut self, sheet: usize, place: usize) -> Result<(), Fault>
        ensures { Written meaning fills self.old (Atom sheet place) self.new result };

    // Puts bit 2 × (left's value) + (right's value) of the code into the sheet.
    fn join(&mut self, sheet: usize, left: usize, right: usize, code: u8) -> Result<(), Fault>
        ensures { Written meaning fills self.old (Join sheet left right code) self.new result };

    // Turns every value of the sheet round.
    fn flip(&mut self, sheet: usize) -> Result<(), Fault>
        ensures { Written meaning fills self.old (Flip sheet) self.new result };

    // Puts what another sheet says for both values of the place, or for at least one, into the sheet.
    fn quantify(
        &mut self,
        sheet: usize,
        from: usize,
        place: usize,
        quantifier: Quantifier,
    ) -> Result<(), Fault>
        ensures { Written meaning fills self.old (Quantify sheet from place quantifier) self.new result };

    // Puts what another sheet says with the place set to the value into the sheet.
    fn fix(&mut self, sheet: usize, from: usize, place: usize, value: bool) -> Result<(), Fault>
        ensures { Written meaning fills self.old (Fix sheet from place value) self.new result };

    // What the sheet says at the state whose place p is bit p of the number; bits from the width up do not count.
    fn read(&self, sheet: usize, state: u64) -> Result<bool, Fault>
        ensures { Answered (meaning self.now) sheet (At state) result };

    // Whether the sheet says the value at every state.
    fn all(&self, sheet: usize, value: bool) -> Result<bool, Fault>
        ensures { Answered (meaning self.now) sheet (Everywhere value) result };

    // The number of places.
    fn width(&self) -> usize
        ensures { result ≡ (meaning self.now).width };

    // What every board keeps.
    ghost sound: { (b : Self) → Sound (meaning b) (fills b) };
}
