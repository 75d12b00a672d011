// An enclave with the ends of its channels.
ghost use Rattle.std.specs.Prelude.{◌≡◌, ℕ, ◌+◌, ◌<◌, ◌≤◌, ◌≢◌, ◌⊎◌, ◌↔◌, true, false, None, Some, [], ◌∷◌, ◌++◌, length, take, IsSome, IfOk, OnOk, OnErr, IsErr, IsErrOf};
ghost use Rattle.xm_num.specs.Rows.{at, less};
ghost use Rattle.frame_pool.specs.Blocks.{free_blocks};
ghost use Rattle.enclave_rules.specs.Pages.{AreBlocks};
ghost use Rattle.enclave_rules.specs.Core.{AreDeaths};
ghost use Rattle.enclave_rules.specs.Hand.{Nothing, Calls};
ghost use Rattle.enclave_rules.specs.Steps as steps;
ghost use Rattle.xemem_language.specs.Spelling.{words_in};
ghost use Rattle.enclave_node.specs.Nodes as spec;
ghost use Rattle.enclave_node.specs.Answers.{handled};
ghost use Rattle.xemem_language.specs.Calls.{IsCallInRange};
ghost use Rattle.enclave_rules.specs.Calls.{call_lines, HasShown, show_lines};

mod boot;

use crate::feeds::{Feed, Feeds};
use crate::state::State;
use crate::{Call, Show};
use frame_pool::PoolFault;
use page_table::AddressSpace;
use std::alloc::{AllocError, Global};
use std::marker::Model;
use std::mem;
use thiserror::Error;
use xemem_language::{Line, Lines};
use xemem_wire::{BadField, WireFault};
use xm_num::{
    Block, BlockList, Cause, Enclave, EnclaveList, Frame, Kind, Neighbour, Pid, Vpn, Want,
};

/// Why bytes weren't handled.
#[derive(Clone, Copy, Debug, PartialEq, Eq, Error)]
pub enum NodeFault {
    /// The channel's first bad field, by its place in the channel's stream. The whole records before it were handled, and
    /// the node can still be used.
    #[error("bad field at byte {place}")]
    BadRecord { fault: WireFault, place: u64 },
    /// Memory was wanting. The node has failed: each later call answers the same.
    #[error("out of memory")]
    Memory,
}

/// An enclave of the machine: what it knows, and the ends of its channels. It decides from its own state and its arguments
/// alone. It can't be let go: `close` ends it.
pub struct Node<A: AddressSpace> {
    alloc: Global,
    state: State<A>,
    feeds: Feeds,
    // Where the lines of a call are built up, so that its room serves the next call too.
    fresh: Lines,
    appended: u64,
    failed: bool,
}

impl<A: AddressSpace> Model for Node<A> {
    ghost use Rattle.enclave_node.specs.Nodes.{NodeView};

    ghost Value = { NodeView };

    ghost view = { λ n. record { view = n.state; feeds = n.feeds; appended = n.appended; failed = n.failed } };
}

impl<A: AddressSpace> Node<A> {
    // Lends the list for a step's lines, which `finish` takes back.
    fn fresh(&mut self) -> Lines
        ensures empty { result ≡ [] }
        ensures same { self.new ≡ self.old }
    {
        let mut fresh = mem::replace(&mut self.fresh, Lines::new(self.alloc));
        fresh.truncate(0);
        fresh
    }

    // Ends a step: appends its lines, and counts their words. Where memory was wanting, the node has failed.
    fn finish<T>(
        &mut self,
        done: Result<T, AllocError>,
        fresh: Lines,
        out: &mut Lines,
    ) -> Result<T, AllocError>
    where
        T: Drop,
        ensures done { IfOk result (λ value. done ≡ Ok value) }
        ensures lines { OnOk result (out.new ≡ out.old ++ fresh) }
        ensures after { OnOk result (self.new ≡ record self.old { appended = spec.raised self.old.appended (words_in fresh) }) }
        ensures err_lines { OnErr result (out.new ≡ out.old) }
        ensures fails { OnErr result (self.new.failed ≡ true) }
    {
        let mut fresh = fresh;
        let words = fresh.words();
        if let Ok(value) = done {
            if out.append(&mut fresh).is_ok() {
                self.fresh = fresh;
                self.appended = self.appended.saturating_add(words);
                return Ok(value);
            }
        }
        self.failed = true;
        Err(AllocError)
    }

    /// Starts a process. A number past the last one of 32 bits counts as want of memory.
    pub fn start(&mut self, uid: u32, gid: u32, out: &mut Lines) -> Result<Pid, AllocError>
        ensures pid { IfOk result (λ pid. pid.0 ≡ self.old.view.memory.started + 1) }
        ensures lines { OnOk result (out.new ≡ out.old ++ steps.start_lines self.old.view uid gid) }
        ensures after { OnOk result (self.new ≡ spec.wrote Nothing self.old (steps.start_lines self.old.view uid gid)) }
        ensures err_lines { OnErr result (out.new ≡ out.old) }
        ensures fails { OnErr result (self.new.failed ≡ true) }
        ensures stays { self.old.failed ≡ true → IsErr result }
    {
        if self.failed {
            return Err(AllocError);
        }
        let mut fresh = self.fresh();
        let done = self.state.start(uid, gid, &mut fresh);
        self.finish(done, fresh, out)
    }

    /// Makes one call of a process. A refusal is a line.
    pub fn call(&mut self, pid: Pid, call: &Call, out: &mut Lines) -> Result<(), AllocError>
        requires { IsCallInRange call.now }
        ensures lines { OnOk result (out.new ≡ out.old ++ call_lines self.old.view pid call.now) }
        ensures after { OnOk result (self.new ≡ spec.wrote (Calls (record { enclave = self.old.view.me; pid = pid; call = call.now })) self.old (call_lines self.old.view pid call.now)) }
        ensures err_lines { OnErr result (out.new ≡ out.old) }
        ensures fails { OnErr result (self.new.failed ≡ true) }
        ensures stays { self.old.failed ≡ true → IsErr result }
    {
        if self.failed {
            return Err(AllocError);
        }
        let mut fresh = self.fresh();
        let done = self.state.call(pid, call, &mut fresh);
        self.finish(done, fresh, out)
    }

    /// The host lends the `n` lowest free blocks to an enclave that is born, and records its parent. The enclave is the
    /// next one after those that were recorded. Where too few blocks are free, nothing changes.
    pub fn lend(&mut self, child: Enclave, parent: Enclave, n: u16) -> Result<BlockList, PoolFault>
        requires host { self.old.view.me.0 ≡ 0 }
        requires next { child.0 ≡ length self.old.view.host.parents }
        requires recorded { parent.0 < length self.old.view.host.parents }
        ensures blocks { IfOk result (λ blocks. blocks ≡ take n (free_blocks self.old.view.host.states)) }
        ensures ascend { IfOk result (λ blocks. AreBlocks blocks) }
        ensures after { OnOk result (self.new ≡ spec.lent self.old child parent (take n (free_blocks self.old.view.host.states))) }
        ensures short { IsErrOf result PoolFault.NoBlocks ↔ ((self.old.failed ≡ false) × (length (free_blocks self.old.view.host.states) < n)) }
        ensures same { IsErrOf result PoolFault.NoBlocks → self.new ≡ self.old }
        ensures fails { IsErrOf result PoolFault.Memory → self.new.failed ≡ true }
        ensures stays { self.old.failed ≡ true → IsErrOf result PoolFault.Memory }
    {
        if self.failed {
            return Err(PoolFault::Memory);
        }
        match self.state.lend(child, parent, n) {
            Ok(blocks) => Ok(blocks),
            Err(PoolFault::NoBlocks) => Err(PoolFault::NoBlocks),
            Err(PoolFault::Memory) => {
                self.failed = true;
                Err(PoolFault::Memory)
            }
        }
    }

    // Adds a child with its channel.
    fn add_child(&mut self, child: Enclave, kind: Kind, out: &mut Lines) -> Result<(), AllocError>
        ensures lines { OnOk result (out.new ≡ out.old ++ steps.adopt_lines self.old.view child) }
        ensures after { OnOk result (self.new ≡ spec.adopted self.old child kind) }
    {
        let feed = Feed::new(self.alloc)?;
        self.feeds.put(child, feed)?;
        self.state.adopt(child, kind, out)
    }

    /// Adds a child with its channel. The blocks of a co-kernel are its own matter.
    pub fn adopt(
        &mut self,
        child: Enclave,
        kind: Kind,
        blocks: &[Block],
        out: &mut Lines,
    ) -> Result<(), AllocError>
        requires kind { kind ≡ Kind.Cokernel }
        requires child { (1 ≤ child.0) × (child.0 ≤ 255) }
        requires other { child.0 ≢ self.old.view.me.0 }
        requires new_child { at self.old.view.core.children child.0 ≡ None }
        requires new_feed { at self.old.feeds child.0 ≡ None }
        ensures lines { OnOk result (out.new ≡ out.old ++ steps.adopt_lines self.old.view child) }
        ensures after { OnOk result (self.new ≡ spec.wrote Nothing (spec.adopted self.old child kind) (steps.adopt_lines self.old.view child)) }
        ensures err_lines { OnErr result (out.new ≡ out.old) }
        ensures fails { OnErr result (self.new.failed ≡ true) }
        ensures stays { self.old.failed ≡ true → IsErr result }
    {
        let _ = blocks;
        if self.failed {
            return Err(AllocError);
        }
        let mut fresh = self.fresh();
        let done = self.add_child(child, kind, &mut fresh);
        self.finish(done, fresh, out)
    }

    // The number of a neighbour.
    fn number_of(&self, from: Neighbour) -> Enclave
        ensures { result ≡ spec.neighbour_number self.now.view from }
    {
        match from {
            Neighbour::Up => self.state.parent(),
            Neighbour::Down(child) => child,
        }
    }

    // Takes a piece of a channel, handles the records that are whole then, and gives the stream's bad field.
    fn take_piece(
        &mut self,
        from: Enclave,
        piece: &[u8],
        out: &mut Lines,
    ) -> Result<Option<BadField>, AllocError>
        requires open_end { IsSome (at self.old.feeds from.0) }
        ensures lines { OnOk result (out.new ≡ out.old ++ spec.fed_lines self.old from piece.now) }
        ensures after { OnOk result (self.new ≡ spec.took self.old from piece.now) }
        ensures bad { IfOk result (λ bad. bad ≡ (spec.fed self.old from piece.now).bad) }
    {
        let mut feed = Feed::new(self.alloc)?;
        self.feeds.swap(from, &mut feed);
        let bad = feed.take(piece)?;
        self.state.take_all(from, &mut feed, out)?;
        self.feeds.swap(from, &mut feed);
        Ok(bad)
    }

    /// Takes the next bytes of a channel, and handles each record that is whole then. More than 2^62 bytes of one channel in
    /// all, and as many in one piece, count as want of memory.
    pub fn feed(&mut self, from: Neighbour, piece: &[u8], out: &mut Lines) -> Result<(), NodeFault>
        requires open_end { IsSome (at self.old.feeds (spec.neighbour_number self.old.view from).0) }
        ensures lines { handled result ≡ true → out.new ≡ out.old ++ spec.fed_lines self.old (spec.neighbour_number self.old.view from) piece.now }
        ensures after { handled result ≡ true → self.new ≡ spec.after_feed self.old (spec.neighbour_number self.old.view from) piece.now }
        ensures fine { OnOk result ((spec.fed self.old (spec.neighbour_number self.old.view from) piece.now).bad ≡ None) }
        ensures bad { (fault : WireFault) (place : ℕ) → IsErrOf result (NodeFault.BadRecord fault place) →
            (spec.fed self.old (spec.neighbour_number self.old.view from) piece.now).bad ≡ Some (record { fault = fault; place = place }) }
        ensures err_lines { IsErrOf result NodeFault.Memory → out.new ≡ out.old }
        ensures fails { IsErrOf result NodeFault.Memory → self.new.failed ≡ true }
        ensures stays { self.old.failed ≡ true → IsErrOf result NodeFault.Memory }
    {
        if self.failed {
            return Err(NodeFault::Memory);
        }
        let from = self.number_of(from);
        let mut fresh = self.fresh();
        let done = self.take_piece(from, piece, &mut fresh);
        match self.finish(done, fresh, out) {
            Ok(None) => Ok(()),
            Ok(Some(BadField { fault, place })) => Err(NodeFault::BadRecord { fault, place }),
            Err(AllocError) => Err(NodeFault::Memory),
        }
    }

    // Closes a child's channel, and drops the bytes of a torn record.
    fn close_channel(&mut self, child: Enclave, out: &mut Lines) -> Result<(), AllocError>
        requires { IsSome (at self.old.feeds child.0) }
        ensures lines { OnOk result (out.new ≡ out.old ++ spec.end_line self.old child ∷ []) }
        ensures after { OnOk result (self.new ≡ record self.old { feeds = less self.old.feeds child.0 }) }
    {
        let feed = self.feeds.take(child).unwrap();
        out.push(Line::End {
            from: child,
            to: self.state.me(),
            torn: feed.torn(),
        })
    }

    /// Takes a child's end mark: its channel closes.
    pub fn ended(&mut self, child: Enclave, out: &mut Lines) -> Result<(), AllocError>
        requires { IsSome (at self.old.feeds child.0) }
        ensures lines { OnOk result (out.new ≡ out.old ++ spec.end_line self.old child ∷ []) }
        ensures after { OnOk result (self.new ≡ spec.after_end self.old child) }
        ensures err_lines { OnErr result (out.new ≡ out.old) }
        ensures fails { OnErr result (self.new.failed ≡ true) }
        ensures stays { self.old.failed ≡ true → IsErr result }
    {
        if self.failed {
            return Err(AllocError);
        }
        let mut fresh = self.fresh();
        let done = self.close_channel(child, &mut fresh);
        self.finish(done, fresh, out)
    }

    /// The page of an address of a process and its frame. It is NoProcess, NotMapped or Denied where there is none that
    /// may be used so.
    pub fn touch(&self, pid: Pid, addr: u64, want: Want) -> Result<(Vpn, Frame), Cause>
        ensures { result ≡ steps.touch_answer self.now.view pid addr want }
    {
        self.state.touch(pid, addr, want)
    }

    /// The machine frame of a virtual machine's frame. Virtual machines aren't built yet, so there is none.
    pub fn guest_frame(&self, guest: Enclave, frame: Frame) -> Option<Frame>
        ensures { result ≡ None }
    {
        let _ = (guest, frame);
        None
    }

    /// Appends the lines that show a part of the node.
    pub fn show(&self, what: Show, out: &mut Lines) -> Result<(), AllocError>
        requires { HasShown self.now.view what }
        ensures lines { OnOk result (out.new ≡ out.old ++ show_lines self.now.view what) }
        ensures err_lines { OnErr result (out.new ≡ out.old) }
        ensures stays { self.now.failed ≡ true → IsErr result }
    {
        if self.failed {
            return Err(AllocError);
        }
        let mut fresh = Lines::new(self.alloc);
        match what {
            Show::Routes => self.state.show_routes(&mut fresh)?,
            Show::Pool => self.state.show_pool(&mut fresh)?,
            Show::Names => self.state.show_names(&mut fresh)?,
        }
        out.append(&mut fresh)
    }

    /// The deaths that the node heard of, ascending.
    pub fn heard(&self) -> &EnclaveList
        ensures heard { result.now ≡ self.now.view.core.heard }
        ensures ascend { AreDeaths result.now }
    {
        self.state.heard()
    }

    /// How many words all lines have that the node appended, those of `show` aside. The count stands still at the end of
    /// its type.
    pub fn appended(&self) -> u64
        ensures { result ≡ self.now.appended }
    {
        self.appended
    }

    /// Ends the node.
    pub fn close(self) {
        let Node {
            alloc: _,
            state,
            feeds: _,
            fresh: _,
            appended: _,
            failed: _,
        } = self;
        state.close();
    }
}
