//! Making the table.

ghost use Rattle.std.specs.Prelude.{◌≡◌, ◌<◌, ◌≤◌, length, IfOk, OnOk, EachIndex, slice_index};
ghost use Rattle.helix_automata.specs.Shape.{IsWellFormed};
ghost use Rattle.helix_words.specs.Inner.Blocks.{SetsBits, AreClear, Closes, IsTableOf};

use crate::column::{accepting_states, are_equal, column_before};
use crate::table::{Block, Table};
use helix_automata::Dfa;
use helix_base::{List, Memory};
use std::alloc::Global;

/// A block without a bit.
fn clear_block(alloc: Global, states: usize) -> Result<Vec<u64>, Memory>
    ensures long { IfOk result (λ block. length block.items ≡ states) }
    ensures clear { IfOk result (λ block. AreClear block.items) }
{
    let mut block = Vec::with_capacity(alloc, states)?;
    for _ in 0..states {
        block.push(0)?;
    }
    Ok(block)
}

/// Sets the bit at a place for each state with a flag.
fn set_bits(block: &mut [u64], place: u32, flags: &[bool])
    requires place { place < 64 }
    requires flags { length flags.now ≡ length block.old }
    ensures { SetsBits place flags.now block.old block.new }
{
    for (state, flag) in flags.iter().enumerate() {
        if *flag {
            block[state] |= 1 << place;
        }
    }
}

/// Puts a full block to the others, and begins the next one.
fn close(
    alloc: Global,
    blocks: &mut List<Block>,
    block: &mut Vec<u64>,
    count: u32,
) -> Result<(), Memory>
    ensures { OnOk result (Closes count blocks.old blocks.new block.old.items block.new.items) }
{
    if count % 64 != 63 {
        return Ok(());
    }
    let next = clear_block(alloc, block.len())?;
    let full = std::mem::replace(block, next);
    blocks.push(Block::from_vec(full))
}

/// The table of an automaton for lengths up to a bound.
pub fn table_of(alloc: Global, dfa: &Dfa, longest: u32) -> Result<Table, Memory>
    requires longest { longest ≤ 1000 }
    requires form { IsWellFormed dfa.now }
    ensures { IfOk result (IsTableOf dfa.now longest) }
{
    let mut blocks = List::new(alloc);
    let mut block = clear_block(alloc, dfa.states() as usize)?;
    let mut column = accepting_states(alloc, dfa)?;
    for count in 0..longest {
        set_bits(block.as_mut_slice(), count % 64, column.as_slice());
        let before = column_before(alloc, dfa, column.as_slice())?;
        if are_equal(before.as_slice(), column.as_slice()) {
            blocks.push(Block::from_vec(block))?;
            return Ok(Table {
                blocks,
                stable: count,
            });
        }
        close(alloc, &mut blocks, &mut block, count)?;
        column = before;
    }
    set_bits(block.as_mut_slice(), longest % 64, column.as_slice());
    blocks.push(Block::from_vec(block))?;
    Ok(Table {
        blocks,
        stable: longest,
    })
}
