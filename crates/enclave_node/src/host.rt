// What the host keeps for the machine: the pool, and the parent of each enclave.
ghost use Rattle.std.specs.Prelude.{◌≡◌, ◌<◌, ◌≤◌, ◌↔◌, ◌++◌, length, take, IfOk, OnOk, IsErrOf};
ghost use Rattle.frame_pool.specs.Blocks.{free_blocks};
ghost use Rattle.enclave_rules.specs.Pages.{AreBlocks};
ghost use Rattle.enclave_rules.specs.Host.{with_birth};
ghost use Rattle.enclave_rules.specs.Steps as steps;
ghost use Rattle.enclave_node.specs.Births.{born_host};

use frame_pool::{BlockState, Pool, PoolFault};
use std::alloc::{AllocError, Global};
use std::marker::Model;
use xemem_language::{Line, Lines};
use xm_num::{Block, BlockList, Enclave, EnclaveList};

const HOST: Enclave = Enclave(0);

/// The pool of the machine's blocks, and the parent of each enclave by its number. The host's parent is written 0.
#[derive(Drop)]
pub struct HostPart {
    pool: Pool,
    parents: EnclaveList,
}

impl Model for HostPart {
    ghost use Rattle.enclave_rules.specs.Host.{HostView};

    ghost Value = { HostView };

    ghost view = { λ h. record { states = h.pool; parents = h.parents } };
}

// The line that tells a block's state.
fn state_line(block: Block, state: BlockState) -> Line
    ensures { result ≡ steps.state_line block.0 state }
{
    match state {
        BlockState::Free => Line::BlockFree { block },
        BlockState::Lent(enclave) => Line::BlockLent { block, enclave },
        BlockState::Held(enclave) => Line::BlockHeld { block, enclave },
    }
}

// Tells the state of each block.
fn show_pool(pool: &Pool, out: &mut Lines) -> Result<(), AllocError>
    ensures { OnOk result (out.new ≡ out.old ++ steps.state_lines 0 pool.now) }
{
    for number in 0..pool.blocks() {
        let block = Block(number);
        let state = pool.state(block).unwrap();
        out.push(state_line(block, state))?;
    }
    Ok(())
}

impl HostPart {
    /// A pool of so many blocks, 1 to 4,096, of which the host gets the first `n`.
    pub fn new(alloc: Global, pool: u16, n: u16) -> Result<(HostPart, BlockList), PoolFault>
        requires some { 1 ≤ pool }
        requires most { pool ≤ 4096 }
        ensures part { IfOk result (λ made. made.0 ≡ born_host pool n) }
        ensures blocks { IfOk result (λ made. made.1 ≡ steps.first_blocks n) }
        ensures ascend { IfOk result (λ made. AreBlocks made.1) }
        ensures short { IsErrOf result PoolFault.NoBlocks ↔ (pool < n) }
    {
        if pool < n {
            return Err(PoolFault::NoBlocks);
        }
        let Ok(pool) = Pool::new(alloc, pool) else {
            return Err(PoolFault::Memory);
        };
        let mut part = HostPart {
            pool,
            parents: EnclaveList::new(alloc),
        };
        match part.lend(HOST, HOST, n) {
            Ok(blocks) => Ok((part, blocks)),
            Err(fault) => Err(fault),
        }
    }

    /// Lends the `n` lowest free blocks to an enclave that is born, and records its parent. Where too few are free,
    /// nothing changes.
    pub fn lend(&mut self, child: Enclave, parent: Enclave, n: u16) -> Result<BlockList, PoolFault>
        ensures blocks { IfOk result (λ blocks. blocks ≡ take n (free_blocks self.old.states)) }
        ensures ascend { IfOk result (λ blocks. AreBlocks blocks) }
        ensures after { OnOk result (self.new ≡ with_birth child parent (take n (free_blocks self.old.states)) self.old) }
        ensures short { IsErrOf result PoolFault.NoBlocks ↔ (length (free_blocks self.old.states) < n) }
        ensures same { IsErrOf result PoolFault.NoBlocks → self.new ≡ self.old }
    {
        let blocks = self.pool.lend(n, child)?;
        match self.parents.push(parent) {
            Ok(()) => Ok(blocks),
            Err(AllocError) => Err(PoolFault::Memory),
        }
    }

    /// Tells the state of each block.
    pub fn show(&self, out: &mut Lines) -> Result<(), AllocError>
        ensures { OnOk result (out.new ≡ out.old ++ steps.state_lines 0 self.now.states) }
    {
        show_pool(&self.pool, out)
    }
}
