// The states of blocks in order, searched and changed.
ghost use Rattle.std.specs.Prelude.{◌≡◌, ◌<◌, ◌≤◌, length, take, All, IfOk};
ghost use Rattle.frame_pool.specs.Blocks.{free_blocks, with_lent, with_held, held_of};
ghost use Rattle.frame_pool.specs.Layout.{behind};

use crate::BlockState;
use std::alloc::{AllocError, Global};
use xm_num::{Block, BlockList, Enclave};

// The `n` lowest free blocks, or all where fewer are free. None below block `low` is free.
pub fn first_free(
    alloc: Global,
    states: &[BlockState],
    low: u16,
    n: u16,
) -> Result<BlockList, AllocError>
    requires most { length states.now ≤ 4096 }
    requires lowest { All (λ block. low ≤ block.0) (free_blocks states.now) }
    ensures blocks { IfOk result (λ blocks. blocks ≡ take n (free_blocks states.now)) }
    ensures within { IfOk result (λ blocks. All (λ block. block.0 < length states.now) blocks) }
{
    let mut blocks = BlockList::new(alloc);
    for number in low..states.len() as u16 {
        if blocks.len() == n as usize {
            return Ok(blocks);
        }
        if states[number as usize] == BlockState::Free {
            blocks.push(Block(number))?;
        }
    }
    Ok(blocks)
}

// Marks these blocks as lent.
pub fn lend_states(states: &mut [BlockState], blocks: &[Block], to: Enclave)
    requires { All (λ block. block.0 < length states.old) blocks.now }
    ensures { states.new ≡ with_lent blocks.now to states.old }
{
    for block in blocks {
        states[block.0 as usize] = BlockState::Lent(to);
    }
}

// Below which block none is free once these, the lowest free ones from block `low` on, are lent.
pub fn low_behind(blocks: &[Block], low: u16) -> u16
    requires { All (λ block. block.0 < 4096) blocks.now }
    ensures { result ≡ behind blocks.now low }
{
    match blocks.last() {
        Some(last) => last.0 + 1,
        None => low,
    }
}

// Marks what is lent to `of` as held.
pub fn hold_states(states: &mut [BlockState], of: Enclave)
    ensures { states.new ≡ with_held of states.old }
{
    for state in states.iter_mut() {
        *state = held(*state, of);
    }
}

// A block's state once what is lent to `of` is held.
fn held(state: BlockState, of: Enclave) -> BlockState
    ensures { result ≡ held_of of state }
{
    match state {
        BlockState::Lent(owner) if owner == of => BlockState::Held(owner),
        _ => state,
    }
}
