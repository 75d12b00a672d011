// How nodes are born, and what the host lends.
ghost use Rattle.std.specs.Prelude.{◌≡◌, ◌∷◌, [], IfOk};

use crate::printed::wrote;
use enclave_node::{Call, Node, Show};
use frame_pool::PoolFault;
use global_model::Lines;
use page_table::{AddressSpace, PageTable};
use std::alloc::{AllocError, Global};
use std::process::Abort;
use xm_num::{Block, Enclave, EnclaveList, Frame, Kind, Neighbour, Pid, Vpn, Want};

const HOST: Enclave = Enclave(0);

fn the_host_is_born<A: AddressSpace>(rt: &impl Abort, alloc: Global) -> Result<(), AllocError> {
    let mut out = Lines::new(alloc);
    let Ok(node) = Node::<A>::boot_host(alloc, 3, 2, true, &mut out) else {
        panic!(rt; "the host isn't born");
    };
    let born = wrote(alloc, &mut out, "born 0 host 0 ns 0 1\nadmitted 0\n");
    let found = (node.appended(), node.heard().len());
    let frame = node.guest_frame(Enclave(1), Frame(0));
    let shown = node.show(Show::Pool, &mut out);
    let pool = wrote(
        alloc,
        &mut out,
        "block 0 lent 0\nblock 1 lent 0\nblock 2 free\n",
    );
    let after = node.appended();
    node.close();
    assert!(rt; born? && pool? && shown.is_ok());
    assert_eq!(rt; found, (9, 0));
    assert_eq!(rt; frame, None);
    assert_eq!(rt; after, 9);
    match Node::<A>::boot_host(alloc, 3, 4, true, &mut out) {
        Ok(node) => {
            node.close();
            panic!(rt; "too few blocks");
        }
        Err(fault) => assert_eq!(rt; fault, PoolFault::NoBlocks),
    }
    assert_eq!(rt; out.len(), 0);
    Ok(())
}

fn the_lowest_blocks_are_lent<A: AddressSpace>(
    rt: &impl Abort,
    alloc: Global,
) -> Result<(), AllocError> {
    let mut out = Lines::new(alloc);
    let Ok(mut node) = Node::<A>::boot_host(alloc, 4, 1, true, &mut out) else {
        panic!(rt; "the host isn't born");
    };
    let Ok(blocks) = node.lend(Enclave(1), HOST, 2) else {
        panic!(rt; "two blocks are free");
    };
    assert_eq!(rt; blocks.as_slice(), [Block(1), Block(2)].as_slice());
    match node.lend(Enclave(2), Enclave(1), 2) {
        Err(PoolFault::NoBlocks) => (),
        _ => panic!(rt; "one block is free"),
    }
    let Ok(blocks) = node.lend(Enclave(2), Enclave(1), 1) else {
        panic!(rt; "one block is free");
    };
    assert_eq!(rt; blocks.as_slice(), [Block(3)].as_slice());
    out = Lines::new(alloc);
    let shown = node.show(Show::Pool, &mut out);
    let words = node.appended();
    node.close();
    let pool = "block 0 lent 0\nblock 1 lent 1\nblock 2 lent 1\nblock 3 lent 2\n";
    assert!(rt; shown.is_ok() && wrote(alloc, &mut out, pool)?);
    assert_eq!(rt; words, 8);
    Ok(())
}

fn some_heard(alloc: Global) -> Result<EnclaveList, AllocError>
    ensures { IfOk result (λ heard. heard ≡ record { 0 = 2 } ∷ record { 0 = 7 } ∷ []) }
{
    let mut heard = EnclaveList::new(alloc);
    heard.push(Enclave(2))?;
    heard.push(Enclave(7))?;
    Ok(heard)
}

// Two records that tell the way, an admit, and a byte more.
const TOLD: &[u8] =
    b"\x10\0\0\0\x01\x02\x01\0\xff\xff\0\0\0\0\0\0\x10\0\0\0\x01\x02\x02\0\xff\xff\0\0\0\0\0\0\x10\0\0\0\x01\x04\x01\0\x03\0\0\0\0\0\0\0\x10";

// A process of it gets pages of both blocks.
fn has_two_blocks<A: AddressSpace>(alloc: Global, node: &mut Node<A>) -> Result<bool, AllocError> {
    let mut out = Lines::new(alloc);
    let pid = node.start(100, 200, &mut out)?;
    node.call(pid, &Call::Alloc { at: Vpn(1), n: 65 }, &mut out)?;
    let first = node.touch(Pid(1), 4096, Want::Read);
    let last = node.touch(Pid(1), 266_240, Want::Read);
    Ok(first == Ok((Vpn(1), Frame(320))) && last == Ok((Vpn(65), Frame(448))))
}

// A child of enclave 1 with two blocks learns the way and is admitted.
#[tactic(auto, unfolding(xm_num::specs::Rows::at, xm_num::specs::Rows::put, xm_num::specs::Rows::less))]
fn a_child_registers<A: AddressSpace>(rt: &impl Abort, alloc: Global) -> Result<(), AllocError> {
    let mut out = Lines::new(alloc);
    let (me, parent, kind) = (Enclave(3), Enclave(1), Kind::Cokernel);
    let heard = some_heard(alloc)?;
    let blocks = [Block(5), Block(7)];
    let Ok(mut node) = Node::<A>::boot(alloc, me, kind, parent, &blocks, false, &heard, &mut out)
    else {
        panic!(rt; "the child isn't born");
    };
    let born = wrote(
        alloc,
        &mut out,
        "born 3 cokernel 1 - 5 7\ntold 3 2\ntold 3 7\nsent 3 1 query 3 65535 0\n",
    );
    let count = node.heard().len();
    let fed = node.feed(Neighbour::Up, TOLD, &mut out);
    let learned = wrote(
        alloc,
        &mut out,
        "got 1 3\nway 3 1\nsent 3 1 register 3 65535 0\ngot 1 3\ndrop 3\ngot 1 3\nadmitted 3\n",
    );
    let shown = node.show(Show::Routes, &mut out);
    let way = wrote(alloc, &mut out, "at 3 way 1\n");
    let has = has_two_blocks(alloc, &mut node);
    node.close();
    assert!(rt; born? && learned? && way? && has?);
    assert!(rt; fed.is_ok() && shown.is_ok() && count == 2);
    Ok(())
}

#[test]
fn nodes_are_born(rt: HostRuntime) -> Result<(), AllocError> {
    the_host_is_born::<PageTable>(&rt, rt.alloc())?;
    the_lowest_blocks_are_lent::<PageTable>(&rt, rt.alloc())?;
    a_child_registers::<PageTable>(&rt, rt.alloc())
}
