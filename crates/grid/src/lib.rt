// A board of truth tables.
#![tactic(auto)]

mod binds;
mod blocks;
mod bytes;
pub mod calls;
mod sheet;

ghost use Rattle.std.specs.Prelude.{◌≡◌, ℕ, ◌≤◌, length, Ok, Err, slice_index};
ghost use Rattle.knowledge.specs.declared.fault.Cause.TheVariants.{Table};
ghost use Rattle.knowledge.specs.Faults.{in_board};
ghost use Rattle.grid.specs.Layout.{Clean, LaidOut, Made, WithinLimits, meaning_of, unwritten};

use board::unmade::Unmade;
use knowledge::fault::{Cause, Fault};

// How many bytes a grid takes.
pub const MEMORY: usize = 32768;

// How many places a grid has at most.
pub const MOST_PLACES: usize = 12;

// A board of 1 to 12 places in 32,768 bytes: sheet i is the i-th block of 512, and state j is bit j mod 8 of the
// block's byte j div 8. Bits past the states are 0.
#[derive(PartialEq, Eq, Debug, Drop)]
pub struct Grid {
    bytes: Vec<u8>,
    width: usize,
    ghost whole: { length bytes.items ≡ 32768 },
    ghost some: { 1 ≤ width },
    ghost narrow: { width ≤ 12 },
    ghost clean: { Clean bytes.items width },
}

impl Grid {
    // A grid in the caller's memory that says no everywhere; refused for a memory or a width outside the limits.
    pub fn new(memory: Vec<u8>, width: usize) -> Result<Grid, Unmade<Vec<u8>>>
        ensures { elim result [
          | Ok g ↦ Made memory.items width g.bytes.items g.width
          | Err u ↦ (WithinLimits memory.items width → ⊥) × (u.fault ≡ in_board Table 0) × (u.memory ≡ memory)
        ] }
    {
        if memory.len() != MEMORY || !(1..=MOST_PLACES).contains(&width) {
            let fault = Fault::in_board(Cause::Table, 0);
            return Err(Unmade { fault, memory });
        }
        Ok(Grid::cleared(memory, width))
    }

    // A grid in a memory and of a width within the limits, which says no everywhere.
    fn cleared(mut memory: Vec<u8>, width: usize) -> Grid
        requires { WithinLimits memory.items width }
        ensures means { meaning_of result.bytes.items result.width ≡ unwritten width }
        ensures zeros { (k : ℕ) → slice_index result.bytes.items k ≡ 0 }
    {
        memory.fill(0);
        Grid {
            bytes: memory,
            width,
        }
    }

    // The bytes, as they lie.
    pub fn bytes(&self) -> &[u8]
        ensures { LaidOut (meaning_of self.now.bytes.items self.now.width) result.now }
    {
        &self.bytes
    }

    // The memory, with the bytes as they lie.
    pub fn into_memory(self) -> Vec<u8>
        ensures { LaidOut (meaning_of self.bytes.items self.width) result.items }
    {
        self.bytes
    }
}
