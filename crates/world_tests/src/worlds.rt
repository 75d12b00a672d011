// What a world tells besides its journal: its deliveries, and what its nodes and channels are.
ghost use Rattle.std.specs.Prelude.{◌≡◌};
ghost use Rattle.node_world.specs.World.{WorldView};
ghost use Rattle.node_world.specs.declared.world.Progress.TheVariants as progresses;

use crate::runs::word_list;
use node_world::World;
use scenario_run::{Status, xemem_main};
use std::alloc::{AllocError, Global};
use xm_edge::{MemSink, MemSource};
use xm_num::{Cause, Enclave, Frame, Pid, Vpn, Want};

// How many words the node of an enclave has written, where it lives.
fn words(world: &World, enclave: u16) -> Option<u64>
    requires { world.now.progress ≡ progresses.Going }
{
    world.node(Enclave(enclave)).map(|node| node.appended())
}

// What a node says of an address in page 17 of its first process.
fn touched(world: &World, enclave: u16) -> Option<Result<(Vpn, Frame), Cause>>
    requires { world.now.progress ≡ progresses.Going }
{
    world
        .node(Enclave(enclave))
        .map(|node| node.touch(Pid(1), 69632, Want::Write))
}

// How many bytes wait from one enclave to the other, where they are neighbours.
fn waiting(world: &World, from: u16, to: u16) -> Option<u32>
    requires { world.now.progress ≡ progresses.Going }
{
    world
        .link(Enclave(from), Enclave(to))
        .map(|link| link.waiting())
}

// All that: the deliveries; the words of the enclaves 0, 1 and 2; what waits from 1 to 0, from 0 to 1, and over channels that
// aren't there; and what 1 and 0 say of the address.
fn shown(alloc: Global, world: &World) -> Result<String, AllocError>
    requires { world.now.progress ≡ progresses.Going }
{
    let made = world.deliveries();
    let (host, child, unborn) = (words(world, 0), words(world, 1), words(world, 2));
    let (up, down, none) = (
        waiting(world, 1, 0),
        waiting(world, 0, 1),
        waiting(world, 1, 2),
    );
    let (far, own, other) = (
        waiting(world, 2, 0),
        waiting(world, 0, 0),
        waiting(world, 1, 1),
    );
    let (at_child, at_host) = (touched(world, 1), touched(world, 0));
    format!(in alloc;
        "{made}, {host:?} {child:?} {unborn:?}, {up:?} {down:?} {none:?} {far:?} {own:?} {other:?}, {at_child:?} {at_host:?}"
    )
}

// The same after a scenario that is run to its end.
fn told(alloc: Global, scenario: &str) -> Result<String, AllocError> {
    let words = word_list(alloc, &["run"])?;
    let bytes = Vec::from_slice(alloc, scenario.as_bytes())?;
    let mut source = MemSource::new(bytes, Vec::new(alloc));
    let mut sink = MemSink::new(alloc, 65_536, Vec::new(alloc))?;
    let mut world = World::new(alloc)?;
    let status = xemem_main(alloc, &words, &mut source, &mut sink, &mut world);
    let text = match status {
        Status::Ok => shown(alloc, &world),
        _ => String::from_str(alloc, "another end"),
    };
    world.close();
    text
}

#[test]
fn worlds_tell_what_their_journals_say(rt: HostRuntime) -> Result<(), AllocError> {
    for (scenario, want) in ROWS {
        let found = told(rt.alloc(), scenario)?;
        assert_eq!(rt; found.as_str(), want, "after {scenario}");
    }
    Ok(())
}

// A scenario, and what its world tells.
const ROWS: [(&str, &str); 20] = [
    (
        "",
        "0, None None None, None None None None None None, None None",
    ),
    (
        "pool 2",
        "0, None None None, None None None None None None, None None",
    ),
    (
        "pool 2\nhost 1 ns",
        "0, Some(8) None None, None None None None None None, None Some(Err(NoProcess))",
    ),
    // No host was born.
    (
        "pool 1\nhost 2 ns\nshow pool\nproc 0 100 200\nsettle 10",
        "0, None None None, None None None None None None, None None",
    ),
    (
        "pool 2\nhost 1 ns\nboot cokernel under 0 blocks 1",
        "0, Some(8) Some(13) None, Some(16) Some(0) None None None None, Some(Err(NoProcess)) Some(Err(NoProcess))",
    ),
    (
        "pool 2\nhost 1 ns\nboot cokernel under 0 blocks 1\nproc 1 100 200\nalloc 1 1 16 2",
        "0, Some(8) Some(24) None, Some(16) Some(0) None None None None, Some(Ok((Vpn(17), Frame(65)))) Some(Err(NoProcess))",
    ),
    // The child asks, and learns the way.
    (
        "pool 2\nhost 1 ns\nboot cokernel under 0 blocks 1\ndeliver 1 0 16\ndeliver 0 1 16",
        "2, Some(18) Some(26) None, Some(16) Some(0) None None None None, Some(Err(NoProcess)) Some(Err(NoProcess))",
    ),
    (
        "pool 2\nhost 1 ns\nboot cokernel under 0 blocks 1\ndeliver 1 0 16\ndeliver 0 1 16\ndeliver 1 0 17\ndeliver 0 1 4294967295",
        "4, Some(36) Some(31) None, Some(0) Some(0) None None None None, Some(Err(NoProcess)) Some(Err(NoProcess))",
    ),
    // A query comes in three pieces. Where nothing waits, no delivery is made.
    (
        "pool 2\nhost 1 ns\nboot cokernel under 0 blocks 1\nshow link 1 0",
        "0, Some(8) Some(13) None, Some(16) Some(0) None None None None, Some(Err(NoProcess)) Some(Err(NoProcess))",
    ),
    (
        "pool 2\nhost 1 ns\nboot cokernel under 0 blocks 1\ndeliver 1 0 11\ndeliver 1 0 4",
        "2, Some(8) Some(13) None, Some(1) Some(0) None None None None, Some(Err(NoProcess)) Some(Err(NoProcess))",
    ),
    (
        "pool 2\nhost 1 ns\nboot cokernel under 0 blocks 1\ndeliver 1 0 11\ndeliver 1 0 4\ndeliver 1 0 1\ndeliver 1 0 1",
        "3, Some(18) Some(13) None, Some(0) Some(16) None None None None, Some(Err(NoProcess)) Some(Err(NoProcess))",
    ),
    (
        "pool 4\nhost 1 ns\nboot cokernel under 0 blocks 1\nshow link 1 0\ndeliver 1 0 15",
        "1, Some(8) Some(13) None, Some(1) Some(0) None None None None, Some(Err(NoProcess)) Some(Err(NoProcess))",
    ),
    (
        "pool 4\nhost 1 ns\nboot cokernel under 0 blocks 1\nshow link 1 0\ndeliver 1 0 15\ndeliver 1 0 1\ndeliver 1 0 1",
        "2, Some(18) Some(13) None, Some(0) Some(16) None None None None, Some(Err(NoProcess)) Some(Err(NoProcess))",
    ),
    (
        "pool 4\nhost 1 ns\ndeliver 0 0 1\ndeliver 1 0 1\nsettle 9",
        "0, Some(8) None None, None None None None None None, None Some(Err(NoProcess))",
    ),
    // A child that is refused, and the next one.
    (
        "pool 2\nhost 1 ns\nboot cokernel under 0 blocks 2",
        "0, Some(8) None None, None None None None None None, None Some(Err(NoProcess))",
    ),
    (
        "pool 2\nhost 1 ns\nboot cokernel under 0 blocks 2\nboot cokernel under 0 blocks 1",
        "0, Some(8) Some(13) None, Some(16) Some(0) None None None None, Some(Err(NoProcess)) Some(Err(NoProcess))",
    ),
    // A refusal of an allocation is the child's; the others are no enclave's.
    (
        "pool 2\nhost 1 ns\nboot cokernel under 0 blocks 1\ntouch 0 1 65536 w\ndeliver 0 0 1\ndeliver 2 0 1\nproc 1 100 200\nalloc 1 1 16 65\ntouch 1 1 65536 w",
        "0, Some(8) Some(20) None, Some(16) Some(0) None None None None, Some(Err(NotMapped)) Some(Err(NoProcess))",
    ),
    // Settles.
    (
        "pool 2\nhost 1 ns\nboot cokernel under 0 blocks 1\ndeliver 1 0 15\ndeliver 1 0 1\ndeliver 1 0 1\nsettle 10\nsettle 0",
        "5, Some(36) Some(31) None, Some(0) Some(0) None None None None, Some(Err(NoProcess)) Some(Err(NoProcess))",
    ),
    (
        "pool 2\nhost 1 ns\nboot cokernel under 0 blocks 1\nsettle 0\ndeliver 1 0 3\nsettle 3",
        "4, Some(36) Some(26) None, Some(0) Some(16) None None None None, Some(Err(NoProcess)) Some(Err(NoProcess))",
    ),
    (
        "pool 2\nhost 1 ns\nboot cokernel under 0 blocks 1\nsettle 0\ndeliver 1 0 3\nsettle 3\nsettle 1\nsettle 4294967295",
        "5, Some(36) Some(31) None, Some(0) Some(0) None None None None, Some(Err(NoProcess)) Some(Err(NoProcess))",
    ),
];
