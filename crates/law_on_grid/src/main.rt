// Writes the law of the sample matter on a board, and says of each set of facts whether it is a world.
#![tactic(auto)]

mod worlds;

use board::Board;
use board::perform::perform_all;
use grid::{Grid, MEMORY, MOST_PLACES};
use std::alloc::Global;
use worlds::law_calls;

// The sets of facts, and the state of each: fact p is bit p - 1.
const FACT_SETS: [(&str, u64); 4] = [("none", 0b00), ("1", 0b01), ("2", 0b10), ("1,2", 0b11)];

fn main(rt: HostRuntime) -> anyhow::Result<()> {
    worlds_of_law(&rt, rt.alloc())
}

// Writes the law on a grid, and says of each set of facts whether it is a world.
fn worlds_of_law(rt: &impl Print, heap: Global) -> anyhow::Result<()> {
    let memory = vec![in heap; 0u8; MEMORY]?;
    let mut grid = Grid::new(memory, MOST_PLACES)?;
    perform_all(&mut grid, &law_calls())?;
    for (facts, state) in FACT_SETS {
        let world = if grid.read(0, state)? { "a" } else { "no" };
        println!(rt; "FACTS {facts}: {world} world")?;
    }
    Ok(())
}
