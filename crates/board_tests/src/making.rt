// Grids made and ended, and how they lie in memory.
use crate::compare::*;
use crate::tables::Tables;
use board::unmade::Unmade;
use grid::Grid;
use knowledge::fault::Cause::Table;
use knowledge::fault::Fault;
use std::alloc::{AllocError, Global};
use std::test::Fail;

// Memory that was used before: no byte is 0, and none is like its neighbours.
fn used(heap: Global, length: usize) -> Result<Vec<u8>, AllocError> {
    (0..length).map(used_byte).collect(heap)
}

fn used_byte(k: usize) -> u8 {
    (k % 251) as u8 + 3
}

// A new grid in used memory, beside new tables.
pub fn grid(heap: Global, width: usize) -> Result<Pair<Grid>, Difference> {
    let tables = Tables::new(heap, width)?;
    let board = Grid::new(used(heap, 32768)?, width).map_err(Fault::from)?;
    Ok(Pair { board, tables })
}

// The making is refused, and hands the memory back as it was.
fn refused(heap: Global, length: usize, width: usize) -> Result<(), Difference> {
    let Err(Unmade { fault, memory }) = Grid::new(used(heap, length)?, width) else {
        return Err(Difference::Made { length, width });
    };
    if memory != used(heap, length)? {
        return Err(Difference::HandedBack { length, width });
    }
    ends(Err::<(), _>(fault), refusal(Table, 0))
}

#[test]
fn outside_the_limits(rt: HostRuntime) -> Result<(), Fail> {
    for width in [0, 13, usize::MAX] {
        refused(rt.alloc(), 32768, width)?;
    }
    for length in [0, 32767, 32769] {
        for width in [0, 1, 12, 13] {
            refused(rt.alloc(), length, width)?;
        }
    }
    Ok(())
}

// Byte k of a grid by the rule: sheet i is the i-th block of 512 bytes, and state j is bit j mod 8 of the block's byte
// j div 8; bits past the states are 0.
fn byte_by_rule(tables: &Tables, k: usize) -> u8 {
    (0..8)
        .filter(|bit| tables.says(k / 512, k % 512 * 8 + bit))
        .fold(0, |byte, bit| byte | 1 << bit)
}

fn lies_by_rule(bytes: &[u8], tables: &Tables) -> Result<(), Difference> {
    if bytes.len() != 32768 {
        return Err(Difference::Length(bytes.len()));
    }
    for (index, byte) in bytes.iter().enumerate() {
        if *byte != byte_by_rule(tables, index) {
            return Err(Difference::Byte { index, byte: *byte });
        }
    }
    Ok(())
}

// Of grids as of their memory: the calls leave most sheets alone, so these are as they were made.
#[test]
fn layout(rt: HostRuntime) -> Result<(), Fail> {
    for width in 1..13 {
        let mut pair = grid(rt.alloc(), width)?;
        pair.same_calls(150)?;
        lies_by_rule(pair.board.bytes(), &pair.tables)?;
        let Pair { board, tables } = pair;
        lies_by_rule(board.into_memory().as_slice(), &tables)?;
    }
    Ok(())
}
