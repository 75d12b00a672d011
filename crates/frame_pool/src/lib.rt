//! The pool: the blocks of frames that the host lends to enclaves.
//!
//! A block is free, lent to an enclave, or held for an enclave that died. Lending takes the lowest free blocks. The
//! pool counts its free blocks and knows below which block none is free, so that lending doesn't begin at block 0.
#![tactic(auto)]

ghost use Rattle.std.specs.Prelude.{◌≡◌, ◌<◌, ◌≤◌, ◌↔◌, length, take, slice_get, replicate, All, IfOk, OnOk, OnErr, IsErrOf};
ghost use Rattle.frame_pool.specs.Blocks.{free_blocks, with_lent, with_held, with_freed};

mod states;

use states::{first_free, hold_states, lend_states, low_behind};
use std::alloc::{AllocError, Global};
use std::marker::Model;
use thiserror::Error;
use xm_num::{Block, BlockList, Enclave};

/// What a block of the pool is used for.
#[derive(Clone, Copy, Debug, PartialEq, Eq)]
pub enum BlockState {
    /// It can be lent.
    Free,
    /// A living enclave has it.
    Lent(Enclave),
    /// An enclave had it that died, and other enclaves may still use its frames.
    Held(Enclave),
}

/// Why blocks weren't lent.
#[derive(Clone, Copy, Debug, PartialEq, Eq, Error)]
pub enum PoolFault {
    /// Fewer are free.
    #[error("too few free blocks")]
    NoBlocks,
    /// Memory was wanting.
    #[error("out of memory")]
    Memory,
}

/// The blocks of the machine, 1 to 4,096, numbered from 0.
///
/// Contracts see it as the list of its blocks' states.
#[derive(Drop)]
pub struct Pool {
    alloc: Global,
    states: Vec<BlockState>,
    // How many are free.
    free: u16,
    // No block below this one is free.
    low: u16,
}

impl Model for Pool {
    ghost use Rattle.std.specs.Prelude.{List};
    ghost use Rattle.frame_pool.specs.declared.BlockState.{BlockState};
    ghost use Rattle.frame_pool.specs.Layout.{IsPool};

    ghost Value = { List BlockState };

    ghost view = { λ p. p.states.items };

    ghost invariant = { λ p. IsPool p.states.items p.free p.low };
}

impl Pool {
    /// A pool of so many blocks, which are all free.
    pub fn new(alloc: Global, blocks: u16) -> Result<Pool, AllocError>
        requires some { 1 ≤ blocks }
        requires most { blocks ≤ 4096 }
        ensures all_free { IfOk result (λ pool. pool ≡ replicate blocks BlockState.Free) }
    {
        Ok(Pool {
            alloc,
            states: vec![in alloc; BlockState::Free; blocks as usize]?,
            free: blocks,
            low: 0,
        })
    }

    /// Lends the `n` lowest free blocks, and gives them in ascending order. After an error the pool is as it was.
    pub fn lend(&mut self, n: u16, to: Enclave) -> Result<BlockList, PoolFault>
        ensures blocks { IfOk result (λ blocks. blocks ≡ take n (free_blocks self.old)) }
        ensures count { IfOk result (λ blocks. length blocks ≡ n) }
        ensures within { IfOk result (λ blocks. All (λ block. block.0 < length self.old) blocks) }
        ensures range { IfOk result (λ blocks. All (λ block. block.0 < 4096) blocks) }
        ensures after { OnOk result (self.new ≡ with_lent (take n (free_blocks self.old)) to self.old) }
        ensures short { IsErrOf result PoolFault.NoBlocks ↔ (length (free_blocks self.old) < n) }
        ensures err { OnErr result (self.new ≡ self.old) }
    {
        if self.free < n {
            return Err(PoolFault::NoBlocks);
        }
        let found = first_free(self.alloc, &self.states, self.low, n);
        let blocks = found.map_err(|_| PoolFault::Memory)?;
        lend_states(&mut self.states, blocks.as_slice(), to);
        self.free -= n;
        self.low = low_behind(blocks.as_slice(), self.low);
        Ok(blocks)
    }

    /// How many blocks there are.
    pub fn blocks(&self) -> u16
        ensures count { result ≡ length self.now }
        ensures range { (1 ≤ result) × (result ≤ 4096) }
    {
        self.states.len() as u16
    }

    /// How many blocks are free.
    pub fn free_count(&self) -> u16
        ensures count { result ≡ length (free_blocks self.now) }
        ensures range { result ≤ length self.now }
    {
        self.free
    }

    /// Holds every block that is lent to `of`, which has died. It takes no memory.
    pub fn hold(&mut self, of: Enclave)
        ensures held { self.new ≡ with_held of self.old }
    {
        hold_states(&mut self.states, of);
    }

    /// Frees every block that is held for `of`. It takes no memory.
    pub fn free_held(&mut self, of: Enclave)
        ensures freed { self.new ≡ with_freed of self.old }
    {
        for i in 0..self.states.len() {
            if self.states[i] == BlockState::Held(of) {
                self.states[i] = BlockState::Free;
                self.free += 1;
                self.low = self.low.min(i as u16);
            }
        }
    }

    /// What the block is used for, where the pool has it.
    pub fn state(&self, block: Block) -> Option<BlockState>
        ensures state { result ≡ slice_get self.now block.0 }
    {
        self.states.get(block.0 as usize).copied()
    }
}
