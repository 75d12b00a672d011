// `frame_pool`: pools that lend, hold and free.
use frame_pool::{BlockState, Pool, PoolFault};
use std::alloc::{AllocError, Global};
use xm_num::{Block, Enclave};

#[derive(Drop)]
enum Step {
    // A pool of so many blocks.
    New(u16),
    // Lends so many blocks to an enclave, and gives these.
    Lend(u16, Enclave, Result<&'static [Block], PoolFault>),
    // Lends so many blocks to an enclave, and gives those from block 0 on.
    LendFirst(u16, Enclave),
    // So often lends the whole pool block by block, and gets it back.
    Turns(u16),
    Hold(Enclave),
    FreeHeld(Enclave),
    // How many blocks are free, what one block is used for, and what all are.
    FreeCount(u16),
    State(Block, Option<BlockState>),
    All(&'static [BlockState]),
}

fn answers(alloc: Global, pool: &mut Pool, step: &Step) -> bool {
    match step {
        Step::New(blocks) => renewed(alloc, pool, *blocks),
        Step::Lend(count, to, want) => lends(pool, *count, *to, *want),
        Step::LendFirst(count, to) => lends_first(pool, *count, *to),
        Step::Turns(turns) => turns_round(pool, *turns),
        Step::Hold(of) => {
            pool.hold(*of);
            true
        }
        Step::FreeHeld(of) => {
            pool.free_held(*of);
            true
        }
        Step::FreeCount(want) => pool.free_count() == *want,
        Step::State(block, want) => pool.state(*block) == *want,
        Step::All(want) => all_are(pool, want),
    }
}

fn renewed(alloc: Global, pool: &mut Pool, blocks: u16) -> bool {
    if blocks < 1 || blocks > 4096 {
        return false;
    }
    match Pool::new(alloc, blocks) {
        Ok(new) => {
            *pool = new;
            true
        }
        Err(_) => false,
    }
}

fn lends(pool: &mut Pool, count: u16, to: Enclave, want: Result<&[Block], PoolFault>) -> bool {
    match pool.lend(count, to) {
        Ok(blocks) => want == Ok(blocks.as_slice()),
        Err(fault) => want == Err(fault),
    }
}

fn lends_first(pool: &mut Pool, count: u16, to: Enclave) -> bool {
    let Ok(blocks) = pool.lend(count, to) else {
        return false;
    };
    for number in 0..count {
        if blocks.get(number as usize) != Some(Block(number)) {
            return false;
        }
    }
    blocks.len() == count as usize
}

fn turns_round(pool: &mut Pool, turns: u16) -> bool {
    for turn in 0..turns {
        if !lends_each(pool, Enclave(turn)) {
            return false;
        }
        pool.hold(Enclave(turn));
        pool.free_held(Enclave(turn));
    }
    true
}

// Lends each block of the pool to the enclave, from block 0 on.
fn lends_each(pool: &mut Pool, to: Enclave) -> bool {
    for number in 0..pool.blocks() {
        if !lends(pool, 1, to, Ok(&[Block(number)])) {
            return false;
        }
    }
    pool.free_count() == 0
}

// Whether the blocks have these states, and there is none past them.
fn all_are(pool: &Pool, want: &[BlockState]) -> bool {
    for number in 0..pool.blocks() {
        if pool.state(Block(number)) != want.get(number as usize).copied() {
            return false;
        }
    }
    pool.blocks() as usize == want.len() && pool.state(Block(pool.blocks())).is_none()
}

const ONE: Enclave = Enclave(1);

const TWO: Enclave = Enclave(2);

// The lowest blocks are lent first.
const LENT: &[Step] = &[
    Step::New(6),
    Step::FreeCount(6),
    Step::Lend(2, ONE, Ok(&[Block(0), Block(1)])),
    Step::Lend(3, TWO, Ok(&[Block(2), Block(3), Block(4)])),
    Step::FreeCount(1),
    Step::All(&[
        BlockState::Lent(ONE),
        BlockState::Lent(ONE),
        BlockState::Lent(TWO),
        BlockState::Lent(TWO),
        BlockState::Lent(TWO),
        BlockState::Free,
    ]),
];

// No blocks are lent exactly where too few are free.
const TOO_FEW: &[Step] = &[
    Step::New(4),
    Step::Lend(1, ONE, Ok(&[Block(0)])),
    Step::Lend(4, TWO, Err(PoolFault::NoBlocks)),
    Step::FreeCount(3),
    Step::Lend(5, TWO, Err(PoolFault::NoBlocks)),
    Step::FreeCount(3),
    Step::Lend(65535, TWO, Err(PoolFault::NoBlocks)),
    Step::FreeCount(3),
    Step::Lend(3, TWO, Ok(&[Block(1), Block(2), Block(3)])),
    Step::Lend(1, Enclave(3), Err(PoolFault::NoBlocks)),
    Step::Lend(0, Enclave(3), Ok(&[])),
];

// Freed blocks are lent again.
const FREED: &[Step] = &[
    Step::New(6),
    Step::Lend(1, ONE, Ok(&[Block(0)])),
    Step::Lend(2, TWO, Ok(&[Block(1), Block(2)])),
    Step::Lend(1, ONE, Ok(&[Block(3)])),
    Step::FreeHeld(ONE),
    Step::All(&[
        BlockState::Lent(ONE),
        BlockState::Lent(TWO),
        BlockState::Lent(TWO),
        BlockState::Lent(ONE),
        BlockState::Free,
        BlockState::Free,
    ]),
    Step::Hold(ONE),
    Step::All(&[
        BlockState::Held(ONE),
        BlockState::Lent(TWO),
        BlockState::Lent(TWO),
        BlockState::Held(ONE),
        BlockState::Free,
        BlockState::Free,
    ]),
    Step::FreeCount(2),
    Step::Lend(3, Enclave(3), Err(PoolFault::NoBlocks)),
    Step::FreeHeld(ONE),
    Step::FreeHeld(TWO),
    Step::FreeCount(4),
    Step::Lend(3, Enclave(3), Ok(&[Block(0), Block(3), Block(4)])),
    Step::FreeCount(1),
    Step::Lend(1, TWO, Ok(&[Block(5)])),
];

// No block past the pool has a state.
const PAST: &[Step] = &[
    Step::New(2),
    Step::State(Block(0), Some(BlockState::Free)),
    Step::State(Block(1), Some(BlockState::Free)),
    Step::State(Block(2), None),
    Step::State(Block(4096), None),
    Step::State(Block(65535), None),
];

// Whole pools are lent, block by block and at once.
const WHOLE: &[Step] = &[
    Step::New(4096),
    Step::Turns(20),
    Step::LendFirst(4096, Enclave(0)),
    Step::FreeCount(0),
];

#[test]
fn blocks_of_a_pool(rt: HostRuntime) -> Result<(), AllocError> {
    let mut pool = Pool::new(rt.alloc(), 1)?;
    let tables = [
        ("lent", LENT),
        ("too few", TOO_FEW),
        ("freed", FREED),
        ("past", PAST),
        ("whole", WHOLE),
    ];
    for (name, steps) in tables {
        for (row, step) in steps.iter().enumerate() {
            assert!(rt; answers(rt.alloc(), &mut pool, step), "{name}, row {row}");
        }
    }
    Ok(())
}
