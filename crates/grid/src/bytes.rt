// Whole bytes: eight states at a time.
ghost use Rattle.std.specs.Prelude.{◌≡◌, ℕ, ◌+◌, ◌-◌, ◌*◌, ◌/◌, ◌^◌, ◌<◌, ◌≤◌, ◌&&◌, if◌then◌else◌, nat_lt};
ghost use Rattle.knowledge.specs.Sets.{has};
ghost use Rattle.board.specs.Requests.{joined};
ghost use Rattle.grid.specs.Pieces.{live, placed, whole_byte, cases_of};

use crate::MOST_PLACES;
use crate::blocks::BLOCK;

// How many states a byte holds.
pub(crate) const BYTE_STATES: usize = 8;

// They are the states of this many places: one below it is a pattern in each byte, any other a bit of the byte's
// number.
pub(crate) const BYTE_PLACES: usize = 3;

// What a join's code says of each pair of values: 255 for yes, 0 for no.
#[derive(Clone, Copy, PartialEq, Eq, Debug)]
pub(crate) struct Cases {
    both: u8,
    left: u8,
    right: u8,
    neither: u8,
}

impl From<u8> for Cases {
    ghost from_gives = { λ code cases. cases ≡ cases_of code };

    fn from(code: u8) -> Cases {
        Cases {
            both: whole_byte(bit(code, 3)),
            left: whole_byte(bit(code, 2)),
            right: whole_byte(bit(code, 1)),
            neither: whole_byte(bit(code, 0)),
        }
    }
}

impl Cases {
    // What the cases say of the pair of bits at each of the eight states.
    pub(crate) fn join(self, left: u8, right: u8) -> u8
        ensures { (code t : ℕ) → self ≡ cases_of code → t < 8 → has result t ≡ joined code (has left t) (has right t) }
    {
        left & right & self.both
            | left & !right & self.left
            | !left & right & self.right
            | !left & !right & self.neither
    }
}

// Whether a bit of a byte is set. The test of a set's bits in `knowledge` takes any number, and this one only those
// of a byte, so that it has no branch.
pub(crate) fn bit(byte: u8, number: u8) -> bool
    requires { number < 8 }
    ensures { result ≡ has byte number }
{
    (byte >> number) % 2 == 1
}

// The byte whose eight bits are the value.
fn whole_byte(value: bool) -> u8
    ensures { result ≡ whole_byte value }
{
    if value { 255 } else { 0 }
}

// How many bytes the states of a width take.
pub(crate) fn live_bytes(width: usize) -> usize
    requires { width ≤ MOST_PLACES }
    ensures value { result ≡ live width }
    ensures small { result ≤ BLOCK }
{
    (1usize << width).div_ceil(BYTE_STATES)
}

// How far apart two bytes are that differ in a place past the first three.
pub(crate) fn stride_of(place: usize) -> usize
    requires { (BYTE_PLACES ≤ place) × (place < MOST_PLACES) }
    ensures value { result ≡ 2 ^ (place - 3) }
    ensures some { 1 ≤ result }
    ensures small { result ≤ 256 }
{
    1 << (place - BYTE_PLACES)
}

// The bits of a byte that stand for states of a width. A table shows them; a formula would shift and cut at eight.
pub(crate) fn live_bits(width: usize) -> u8
    ensures { (t : ℕ) → t < 8 → has result t ≡ nat_lt t (2 ^ width) }
{
    match width {
        0 => 0b0000_0001,
        1 => 0b0000_0011,
        2 => 0b0000_1111,
        _ => 0b1111_1111,
    }
}

// The byte that says the value at each of its states of a width.
pub(crate) fn blank_byte(width: usize, value: bool) -> u8
    ensures { (t : ℕ) → t < 8 → has result t ≡ (value && nat_lt t (2 ^ width)) }
{
    whole_byte(value) & live_bits(width)
}

// The eight states with one of the first three places set to a value: each bit is that of the state which its own
// becomes.
pub(crate) fn settle_byte(byte: u8, place: usize, value: bool) -> u8
    ensures { (t : ℕ) → place < 3 → t < 8 → has result t ≡ has byte (placed place t value) }
{
    // The states with the place clear, and how far above each stands the one with it set.
    let (clear_states, apart) = match place {
        0 => (0b0101_0101, 1u8),
        1 => (0b0011_0011, 2),
        _ => (0b0000_1111, 4),
    };
    let lowered = if value { byte >> apart } else { byte };
    let clear = lowered & clear_states;
    clear | clear << apart
}

// The value of a place at the eight states of byte k of a block.
pub(crate) fn atom_byte(place: usize, k: usize) -> u8
    requires { place < MOST_PLACES }
    ensures { (t : ℕ) → t < 8 → has result t ≡ has (8 * k + t) place }
{
    match place {
        0 => 0b1010_1010,
        1 => 0b1100_1100,
        2 => 0b1111_0000,
        _ => whole_byte((k >> (place - BYTE_PLACES)) % 2 == 1),
    }
}
