// A node whose channels from the enclaves 1, 2, 5, 6 and 7 are open, to be fed by rows.
ghost use Rattle.std.specs.Prelude.{◌≡◌, ◌≢◌, ◌≤◌, ℕ, None, [], IsSome};
ghost use Rattle.xm_num.specs.Rows.{at, put};
ghost use Rattle.xemem_wire.specs.Decoding.{nothing_taken};

use crate::printed::wrote;
use enclave_node::{Node, NodeFault, Show};
use global_model::Lines;
use page_table::PageTable;
use std::alloc::{AllocError, Global};
use std::marker::Model;
use std::process::Abort;
use xemem_wire::Decoder;
use xm_num::laws::rows;
use xm_num::{Enclave, EnclaveList, Kind, Neighbour};

pub struct Bench {
    alloc: Global,
    node: Node<PageTable>,
    out: Lines,
}

impl Model for Bench {
    ghost use Rattle.enclave_node.specs.Nodes.{NodeView};
    ghost use Rattle.world_tests.specs.Bench.{IsOpen};

    ghost Value = { NodeView };

    ghost view = { λ b. b.node };

    ghost invariant = { λ b. IsOpen b.node };
}

// Adds a child, whose channel is open then. The other channels and children stay.
fn adopt(rt: &impl Abort, node: &mut Node<PageTable>, child: u16, out: &mut Lines)
    requires child { (1 ≤ child) × (child ≤ 255) }
    requires other { child ≢ node.old.view.me.0 }
    requires new_child { at node.old.view.core.children child ≡ None }
    requires new_feed { at node.old.feeds child ≡ None }
    ensures me { node.new.view.me ≡ node.old.view.me }
    ensures children { (k : ℕ) → k ≢ child → at node.new.view.core.children k ≡ at node.old.view.core.children k }
    ensures feeds { (k : ℕ) → k ≢ child → at node.new.feeds k ≡ at node.old.feeds k }
    ensures is_open { IsSome (at node.new.feeds child) }
{
    rows::<Decoder>();
    rows::<Kind>();
    match node.adopt(Enclave(child), Kind::Cokernel, &[], out) {
        Ok(()) => {}
        Err(AllocError) => panic!(rt; "memory is wanting"),
    }
}

// Feeds a piece to an open channel. The others stay open.
fn feed(
    rt: &impl Abort,
    node: &mut Node<PageTable>,
    from: u16,
    piece: &[u8],
    out: &mut Lines,
) -> Option<NodeFault>
    requires { IsSome (at node.old.feeds from) }
    ensures { (k : ℕ) → IsSome (at node.old.feeds k) → IsSome (at node.new.feeds k) }
{
    rows::<Decoder>();
    match node.feed(Neighbour::Down(Enclave(from)), piece, out) {
        Ok(()) => None,
        Err(NodeFault::Memory) => panic!(rt; "memory is wanting"),
        Err(fault) => Some(fault),
    }
}

impl Bench {
    // Enclave 4 under enclave 2, with the children 1, 5, 6 and 7.
    #[tactic(auto, unfolding(xm_num::specs::Rows::at, xm_num::specs::Rows::put, xm_num::specs::Rows::less))]
    fn of(rt: &impl Abort, alloc: Global, node: Node<PageTable>) -> Bench
        requires me { node.view.me.0 ≡ 4 }
        requires children { node.view.core.children ≡ [] }
        requires feeds { node.feeds ≡ put [] 2 nothing_taken }
    {
        let mut node = node;
        let mut out = Lines::new(alloc);
        adopt(rt, &mut node, 1, &mut out);
        adopt(rt, &mut node, 5, &mut out);
        adopt(rt, &mut node, 6, &mut out);
        adopt(rt, &mut node, 7, &mut out);
        Bench {
            alloc,
            node,
            out: Lines::new(alloc),
        }
    }

    // One that doesn't hold the name server.
    pub fn of_child(rt: &impl Abort, alloc: Global) -> Bench {
        let heard = EnclaveList::new(alloc);
        let mut out = Lines::new(alloc);
        let me = Enclave(4);
        match Node::boot(
            alloc,
            me,
            Kind::Cokernel,
            Enclave(2),
            &[],
            false,
            &heard,
            &mut out,
        ) {
            Ok(node) => Bench::of(rt, alloc, node),
            Err(AllocError) => panic!(rt; "memory is wanting"),
        }
    }

    // One that does.
    pub fn of_holder(rt: &impl Abort, alloc: Global) -> Bench {
        let heard = EnclaveList::new(alloc);
        let mut out = Lines::new(alloc);
        let me = Enclave(4);
        match Node::boot(
            alloc,
            me,
            Kind::Cokernel,
            Enclave(2),
            &[],
            true,
            &heard,
            &mut out,
        ) {
            Ok(node) => Bench::of(rt, alloc, node),
            Err(AllocError) => panic!(rt; "memory is wanting"),
        }
    }

    // Feeds a piece, where the channel is one of the open ones.
    pub fn feed(&mut self, rt: &impl Abort, from: u16, piece: &[u8]) -> Option<NodeFault> {
        match from {
            1 => feed(rt, &mut self.node, 1, piece, &mut self.out),
            2 => feed(rt, &mut self.node, 2, piece, &mut self.out),
            5 => feed(rt, &mut self.node, 5, piece, &mut self.out),
            6 => feed(rt, &mut self.node, 6, piece, &mut self.out),
            7 => feed(rt, &mut self.node, 7, piece, &mut self.out),
            _ => panic!(rt; "there is no such channel"),
        }
    }

    // Shows the routes.
    pub fn show(&mut self) -> Result<(), AllocError> {
        self.node.show(Show::Routes, &mut self.out)
    }

    // Whether these are all lines since this was asked.
    pub fn wrote(&mut self, want: &str) -> Result<bool, AllocError> {
        wrote(self.alloc, &mut self.out, want)
    }

    // How many words the node has written.
    pub fn words(&self) -> u64 {
        self.node.appended()
    }

    // Ends a child's channel, and the node. Gives the line that is written.
    pub fn end(self, child: u16) -> Result<Lines, AllocError> {
        let Bench {
            alloc,
            mut node,
            out: _,
        } = self;
        let mut out = Lines::new(alloc);
        let done = match child {
            1 => node.ended(Enclave(1), &mut out),
            _ => node.ended(Enclave(5), &mut out),
        };
        node.close();
        done?;
        Ok(out)
    }
}
