// How nodes are born.
ghost use Rattle.std.specs.Prelude.{◌≡◌, ◌<◌, ◌≤◌, ◌≢◌, ◌↔◌, [], ◌++◌, IfOk, OnOk, OnErr, IsErrOf};
ghost use Rattle.xemem_wire.specs.Decoding.{nothing_taken};
ghost use Rattle.xm_num.specs.Rows.{put};
ghost use Rattle.enclave_rules.specs.Pages.{AreBlocks};
ghost use Rattle.enclave_rules.specs.Core.{AreDeaths};
ghost use Rattle.enclave_rules.specs.Steps as steps;
ghost use Rattle.enclave_node.specs.Births.{host_told, child_told};
ghost use Rattle.enclave_node.specs.Nodes as spec;

use super::Node;
use crate::births::{child_birth, host_birth, tell_child, tell_host};
use crate::feeds::{Feed, Feeds};
use crate::state::{Birth, State};
use frame_pool::PoolFault;
use page_table::AddressSpace;
use std::alloc::{AllocError, Global};
use xemem_language::Lines;
use xm_num::{Block, Enclave, EnclaveList, Kind};

// The decoders of a child as it is born: that of its parent's channel alone.
fn child_feeds(alloc: Global, parent: Enclave) -> Result<Feeds, AllocError>
    ensures { IfOk result (λ feeds. feeds ≡ put [] parent.0 nothing_taken) }
{
    let mut feeds = Feeds::new(alloc);
    feeds.put(parent, Feed::new(alloc)?)?;
    Ok(feeds)
}

// Builds up the lines of the host's birth.
fn host_lines(alloc: Global, birth: &Birth) -> Result<Lines, AllocError>
    ensures { IfOk result (λ lines. lines ≡ host_told birth.now) }
{
    let mut lines = Lines::new(alloc);
    tell_host(alloc, birth, &mut lines)?;
    Ok(lines)
}

// Builds up the lines of a child's birth.
fn child_lines(alloc: Global, birth: &Birth) -> Result<Lines, AllocError>
    ensures { IfOk result (λ lines. lines ≡ child_told birth.now) }
{
    let mut lines = Lines::new(alloc);
    tell_child(alloc, birth, &mut lines)?;
    Ok(lines)
}

impl<A: AddressSpace> Node<A> {
    // The node of an enclave that is born so, once its lines are appended.
    fn made(
        alloc: Global,
        birth: Birth,
        feeds: Feeds,
        fresh: Lines,
        out: &mut Lines,
    ) -> Result<Node<A>, AllocError>
        requires blocks { AreBlocks birth.blocks }
        requires heard { AreDeaths birth.heard }
        ensures node { IfOk result (λ node. node ≡ spec.born_node birth feeds fresh) }
        ensures lines { OnOk result (out.new ≡ out.old ++ fresh) }
        ensures err { OnErr result (out.new ≡ out.old) }
    {
        let mut fresh = fresh;
        let appended = fresh.words();
        let state = State::born(alloc, birth)?;
        match out.append(&mut fresh) {
            Ok(()) => Ok(Node {
                alloc,
                state,
                feeds,
                fresh,
                appended,
                failed: false,
            }),
            Err(AllocError) => {
                state.close();
                Err(AllocError)
            }
        }
    }

    /// Makes the host, with the first `n` blocks of a pool of so many, 1 to 4,096. It may hold the name server.
    pub fn boot_host(
        alloc: Global,
        pool: u16,
        n: u16,
        holder: bool,
        out: &mut Lines,
    ) -> Result<Node<A>, PoolFault>
        requires some { 1 ≤ pool }
        requires most { pool ≤ 4096 }
        ensures made { IfOk result (λ node. node ≡ spec.new_host pool n holder) }
        ensures lines { OnOk result (out.new ≡ out.old ++ steps.host_lines (steps.first_blocks n) holder) }
        ensures short { IsErrOf result PoolFault.NoBlocks ↔ (pool < n) }
        ensures err { OnErr result (out.new ≡ out.old) }
    {
        let birth = host_birth(alloc, pool, n, holder)?;
        let Ok(fresh) = host_lines(alloc, &birth) else {
            return Err(PoolFault::Memory);
        };
        match Node::made(alloc, birth, Feeds::new(alloc), fresh, out) {
            Ok(node) => Ok(node),
            Err(AllocError) => Err(PoolFault::Memory),
        }
    }

    /// Makes a child of an enclave, with these blocks. It is born knowing the deaths of which its parent heard, and may
    /// hold the name server.
    pub fn boot(
        alloc: Global,
        me: Enclave,
        kind: Kind,
        parent: Enclave,
        blocks: &[Block],
        holder: bool,
        heard: &EnclaveList,
        out: &mut Lines,
    ) -> Result<Node<A>, AllocError>
        requires kind { kind ≡ Kind.Cokernel }
        requires me { (1 ≤ me.0) × (me.0 ≤ 255) }
        requires parent { parent.0 ≤ 255 }
        requires other { parent.0 ≢ me.0 }
        requires blocks { AreBlocks blocks.now }
        requires heard { AreDeaths heard.now }
        ensures made { IfOk result (λ node. node ≡ spec.new_node me kind parent blocks.now holder heard.now) }
        ensures lines { OnOk result (out.new ≡ out.old ++ steps.birth_lines me kind parent blocks.now holder heard.now) }
        ensures err { OnErr result (out.new ≡ out.old) }
    {
        let birth = child_birth(alloc, me, kind, parent, blocks, holder, heard)?;
        let feeds = child_feeds(alloc, parent)?;
        let fresh = child_lines(alloc, &birth)?;
        Node::made(alloc, birth, feeds, fresh, out)
    }
}
