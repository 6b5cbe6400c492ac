// A refusal names its cause, the layer that found it, and a place there.
ghost use Rattle.std.specs.Prelude.{◌≡◌, Some};
ghost use Rattle.knowledge.specs.Faults.{number, letter, written, in_matter, in_table, in_board};

use std::error::Error;
use std::fmt;

// Why a call was refused, by the numbers of the rules; 19 to 21 are kept for later.
#[derive(Clone, Copy, PartialEq, Eq, Hash, Debug)]
pub enum Cause {
    Long = 1,
    Byte = 2,
    Word = 3,
    Fact = 4,
    Party = 5,
    Nodes = 6,
    Deep = 7,
    Knowledge = 8,
    Child = 9,
    Closed = 10,
    Width = 11,
    Lawless = 12,
    Marks = 13,
    Untrue = 14,
    Sheet = 15,
    Place = 16,
    Full = 17,
    Table = 18,
    Memory = 22,
}

// The number by which the rules list a cause.
impl From<Cause> for u8 {
    ghost from_gives = { λ c n. n ≡ number c };

    fn from(cause: Cause) -> u8 {
        cause as u8
    }
}

// What was at fault, which says what the place counts.
#[derive(Clone, Copy, PartialEq, Eq, Hash, Debug)]
pub enum Layer {
    // a plan text, by its bytes
    Plan,
    // a notice text, by its bytes
    Notice,
    // a formula table, by its records
    Formula,
    // a board, by the first sheet of the call
    Board,
    // a matter: always place 0
    Matter,
}

impl Layer {
    // The letter by which a refusal names the layer.
    pub fn letter(self) -> &'static str
        ensures { result.now ≡ letter self }
    {
        match self {
            Layer::Plan => "P",
            Layer::Notice => "N",
            Layer::Formula => "F",
            Layer::Board => "B",
            Layer::Matter => "M",
        }
    }
}

impl fmt::Display for Layer {
    ghost output = { λ l. Some (letter l) };

    fn fmt<W: fmt::Write>(&self, f: &mut fmt::Formatter<W>) -> fmt::Result {
        f.write_str(self.letter())
    }
}

// A refusal.
#[derive(Clone, Copy, PartialEq, Eq, Hash, Debug)]
pub struct Fault {
    pub cause: Cause,
    pub layer: Layer,
    pub place: usize,
}

// A name for each layer that refuses: one maker for all would be the struct itself.
impl Fault {
    // A refusal by a matter.
    pub fn in_matter(cause: Cause) -> Fault
        ensures { result ≡ in_matter cause }
    {
        Fault {
            cause,
            layer: Layer::Matter,
            place: 0,
        }
    }

    // A refusal at a record of a formula table.
    pub fn in_table(cause: Cause, record: usize) -> Fault
        ensures { result ≡ in_table cause «record» }
    {
        Fault {
            cause,
            layer: Layer::Formula,
            place: record,
        }
    }

    // A refusal by a board, at the first sheet of the call.
    pub fn in_board(cause: Cause, sheet: usize) -> Fault
        ensures { result ≡ in_board cause sheet }
    {
        Fault {
            cause,
            layer: Layer::Board,
            place: sheet,
        }
    }
}

// The line that tells a refusal, as `refused 14 M 0`.
impl fmt::Display for Fault {
    ghost output = { λ f. Some (written f) };

    fn fmt<W: fmt::Write>(&self, f: &mut fmt::Formatter<W>) -> fmt::Result {
        let number = u8::from(self.cause);
        write!(f, "refused {number} {} {}", self.layer, self.place)
    }
}

impl Error for Fault {}
