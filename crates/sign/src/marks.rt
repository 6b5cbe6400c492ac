// The marks of 64 sheets, and what is asked of the sheets below in place of those under the marks.
ghost use Rattle.std.specs.Prelude.{◌≡◌, ℕ, ◌<◌, false, not};
ghost use Rattle.board.specs.declared.request.Request.TheVariants.{Flip};
ghost use Rattle.board.specs.Requests.{Meaning, after};
ghost use Rattle.sign.specs.Marks.{mark_at, with_mark, signed, meaning_above, exchanged, recoded, RecodedJoins};

use board::request::{CODES, Quantifier, SHEETS};

// Which of the 64 sheets are marked.
#[derive(Clone, Copy, PartialEq, Eq, Debug)]
pub(crate) struct Marks {
    pub(crate) by_sheet: [bool; SHEETS],
}

impl Marks {
    // No sheet marked: all say what they say below. A derived default would leave both facts to be proved by its user.
    pub(crate) fn none() -> Marks
        ensures none { (i : ℕ) → mark_at result i ≡ false }
        ensures same { (m : Meaning) → meaning_above result m ≡ m }
    {
        Marks {
            by_sheet: [false; SHEETS],
        }
    }

    // The mark of a sheet; a sheet above 63 has none.
    pub(crate) fn get(&self, sheet: usize) -> bool
        ensures { result ≡ mark_at self.now sheet }
    {
        self.by_sheet.get(sheet).copied().unwrap_or(false)
    }

    // Gives a sheet a mark; the opposite of the one that it had flips the sheet.
    // Callers have found the sheet to be one of the 64, so a test here would be a second one.
    pub(crate) fn set(&mut self, sheet: usize, mark: bool)
        requires { sheet < SHEETS }
        ensures given { self.new ≡ with_mark self.old sheet mark }
        ensures flips { mark ≡ not (mark_at self.old sheet)
            → (m : Meaning) → meaning_above self.new m ≡ after (meaning_above self.old m) (Flip sheet) }
    {
        self.by_sheet[sheet] = mark;
    }
}

// A value under a mark.
pub(crate) fn under(mark: bool, value: bool) -> bool
    ensures { result ≡ signed mark value }
{
    value != mark
}

// The quantifier that is asked for below: under a mark the two change places.
pub(crate) fn exchange(mark: bool, quantifier: Quantifier) -> Quantifier
    ensures { result ≡ exchanged mark quantifier }
{
    match (mark, quantifier) {
        (false, _) => quantifier,
        (true, Quantifier::ForAll) => Quantifier::Exists,
        (true, Quantifier::Exists) => Quantifier::ForAll,
    }
}

// The code that joins two sheets below as the code joins them under their marks; one that no join has is left for the
// board below to refuse.
#[tactic(auto, using(crate::proofs::Exchanges::recodes))]
pub(crate) fn recode(left_mark: bool, right_mark: bool, code: u8) -> u8
    ensures is { result ≡ recoded left_mark right_mark code }
    ensures joins { RecodedJoins }
{
    if code >= CODES {
        return code;
    }
    // the pairs of bits are for the two values of left, the bits of a pair for those of right
    let code = if left_mark {
        (code & 0b0011) << 2 | code >> 2
    } else {
        code
    };
    if right_mark {
        (code & 0b0101) << 1 | (code >> 1) & 0b0101
    } else {
        code
    }
}
