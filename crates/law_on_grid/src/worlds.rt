// The worlds of the sample matter, on a board.
ghost use Rattle.std.specs.Prelude.{◌≡◌};
ghost use Rattle.law_on_grid.specs.Worlds.{law_calls, WritesLaw};

use board::request::Request;

// The code of a join that says yes where at least one of two sheets does: a number, as the rules have it.
const OR: u8 = 14;

// The calls that write the law, some offer was made, into sheet 0: fact p is place p - 1.
pub fn law_calls() -> [Request; 3]
    ensures calls { result ≡ law_calls }
    ensures worlds { WritesLaw law_calls }
{
    [
        Request::Atom { sheet: 1, place: 0 },
        Request::Atom { sheet: 2, place: 1 },
        Request::Join {
            sheet: 0,
            left: 1,
            right: 2,
            code: OR,
        },
    ]
}
