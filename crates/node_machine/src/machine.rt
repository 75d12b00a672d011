// The machine: its enclaves and the channels between them. It carries bytes and looks into no enclave.
ghost use Rattle.std.specs.Prelude.{◌≡◌, ◌≢◌, ◌+◌, ◌-◌, ◌≤◌, ◌<◌, ◌∷◌, ◌++◌, [], length, false, if◌then◌else◌, option_copied, IsTrue, IsSome, OnOk, IfOk};
ghost use Rattle.xm_num.specs.declared.Kind.TheVariants as kinds;
ghost use Rattle.xemem_wire.specs.Spelling.{AreValid, is_valid};
ghost use Rattle.xemem_language.specs.declared.line.Line.TheVariants as lines;
ghost use Rattle.xemem_language.specs.declared.call.Show.TheVariants as shows;
ghost use Rattle.xemem_language.specs.Calls.{IsCallInRange, IsShowable};
ghost use Rattle.xm_num.specs.Rows.{at};
ghost use Rattle.enclave_rules.specs.Pages.{AreBlocks};
ghost use Rattle.enclave_node.specs.Nodes.{feed_at, neighbour_number};
ghost use Rattle.node_machine.specs.Links.{IsLinkFlowing, sent_in};
ghost use Rattle.node_machine.specs.Machine as spec;
ghost use Rattle.node_machine.specs.Ready.{IsReady, CanStep};

use crate::channels::Channels;
use crate::delivery::{refuse, show};
use crate::laws::laws;
use crate::pair::{Hop, new_pair};
use byte_link::Link;
use enclave_node::{Node, NodeFault};
use frame_pool::PoolFault;
use page_table::PageTable;
use std::alloc::{AllocError, Global};
use std::marker::Model;
use std::mem;
use xemem_language::{Command, Line, Lines, NodeShow, ProcessCall, Record, Show, call_of, show_of};
use xm_num::{BlockList, Cause, Enclave, Kind, Neighbour, Pid, Want};

// The most enclaves of a run, and the most processes.
const MOST_ENCLAVES: usize = 256;

const MOST_PROCESSES: u32 = 1024;

/// The enclaves, of which the first is the host, and for each child its channels, the first for enclave 1.
pub struct Machine {
    alloc: Global,
    pool: u16,
    server: bool,
    // Which enclave was born with the name server, where one was.
    holder: Enclave,
    starts: u32,
    nodes: Vec<Node<PageTable>>,
    channels: Channels,
    // Where the bytes of a record or of a delivery are put, and the lines of a step: their room serves the next too.
    bytes: Vec<u8>,
    fresh: Lines,
}

// Who holds the name server once an enclave is born, with it or not.
fn holder_after(holder: Enclave, child: Enclave, ns: bool) -> Enclave
    ensures { result ≡ (if ns then child else holder) }
{
    if ns { child } else { holder }
}

impl Model for Machine {
    ghost use Rattle.node_machine.specs.Machine.{MachineView};

    ghost Value = { MachineView };

    ghost view = { λ m. record { pool = m.pool; server = m.server; holder = m.holder; starts = m.starts; nodes = m.nodes.items; pairs = m.channels } };
}

impl Machine {
    /// No pool and no host.
    pub fn new(alloc: Global) -> Machine
        ensures { result ≡ spec.no_machine }
    {
        Machine {
            alloc,
            pool: 0,
            server: false,
            holder: Enclave(0),
            starts: 0,
            nodes: Vec::new(alloc),
            channels: Channels::new(alloc),
            bytes: Vec::new(alloc),
            fresh: Lines::new(alloc),
        }
    }

    // Lends the list for a step's lines.
    fn fresh(&mut self) -> Lines
        ensures empty { result ≡ [] }
        ensures same { self.new ≡ self.old }
    {
        let mut fresh = mem::replace(&mut self.fresh, Lines::new(self.alloc));
        fresh.truncate(0);
        fresh
    }

    /// Takes a list whose room then serves the next step.
    pub fn reuse(&mut self, lines: Lines)
        ensures { self.new ≡ self.old }
    {
        self.fresh = lines;
    }

    /// Carries out a command, and gives the lines behind its `do` line. For want of memory the machine isn't to be used
    /// again. A settle is no step of the machine: each of its deliveries is.
    pub fn step(&mut self, command: &Command) -> Result<Lines, AllocError>
        requires ready { IsReady self.old }
        requires can { CanStep self.old command.now }
        requires valid { AreValid (sent_in (spec.lines_by self.old command.now)) }
        ensures lines { IfOk result (λ journal. journal ≡ spec.lines_by self.old command.now) }
        ensures after { OnOk result (self.new ≡ spec.after_command self.old command.now) }
    {
        let mut fresh = self.fresh();
        self.act(command, &mut fresh)?;
        self.carry(fresh.as_slice())?;
        Ok(fresh)
    }

    /// The next delivery of a settle: the rest of the first record in the first channel in which something waits.
    pub fn next_delivery(&self) -> Option<Command>
        ensures { result ≡ spec.next_delivery self.now }
    {
        let hop = self.channels.first()?;
        Some(Command::Deliver {
            from: self.channels.sender(hop),
            to: self.channels.receiver(hop),
            count: self.channels.to_boundary(hop),
        })
    }

    // Carries out a command, and appends the lines behind its `do` line.
    fn act(&mut self, command: &Command, out: &mut Lines) -> Result<(), AllocError>
        requires ready { IsReady self.old }
        requires can { CanStep self.old command.now }
        ensures lines { OnOk result (out.new ≡ out.old ++ spec.lines_by self.old command.now) }
        ensures after { OnOk result (self.new ≡ spec.acted self.old command.now) }
    {
        if let Some(asked) = call_of(command) {
            return self.call(&asked, out);
        }
        if let Some(asked) = show_of(command) {
            return self.show(&asked, out);
        }
        match *command {
            Command::Pool { blocks } => self.set_pool(blocks),
            Command::Host { blocks, ns } => self.boot_host(blocks, ns, out),
            Command::Boot {
                kind,
                parent,
                blocks,
                ns,
            } => self.boot(kind, parent, blocks, ns, out),
            Command::Proc { enclave, uid, gid } => self.start(enclave, uid, gid, out),
            Command::Touch {
                enclave,
                pid,
                addr,
                want,
            } => self.touch(enclave, pid, addr, want, out),
            Command::Deliver { from, to, count } => self.deliver(from, to, count, out),
            Command::ShowLink { from, to } => self.show_link(from, to, out),
            Command::ShowNames => self.show_names(out),
            _ => unreachable!(),
        }
    }

    // Whether the enclave lives, which it does where it has a node.
    fn has_node(&self, e: Enclave) -> bool
        ensures has { result ≡ spec.has_node self.now.nodes e.0 }
        ensures within { IsTrue result → e.0 < length self.now.nodes }
    {
        (e.0 as usize) < self.nodes.len()
    }

    // Which channel goes from one enclave to another.
    fn hop(&self, from: Enclave, to: Enclave) -> Hop
        ensures hop { result ≡ spec.hop_in self.now from to }
        ensures within { spec.IsIn self.now.pairs result }
    {
        let known = self.has_node(to) && (from.0 as usize) < self.nodes.len();
        self.channels.hop(known, from, to)
    }

    fn set_pool(&mut self, blocks: u16) -> Result<(), AllocError>
        ensures after { OnOk result (self.new ≡ record self.old { pool = blocks }) }
    {
        self.pool = blocks;
        Ok(())
    }

    fn boot_host(&mut self, blocks: u16, ns: bool, out: &mut Lines) -> Result<(), AllocError>
        requires fresh { length self.old.nodes ≡ 0 }
        requires some { 1 ≤ self.old.pool }
        requires most { self.old.pool ≤ 4096 }
        ensures lines { OnOk result (out.new ≡ out.old ++ spec.host_by self.old blocks ns) }
        ensures after { OnOk result (self.new ≡ spec.after_host self.old blocks ns) }
    {
        self.nodes.reserve(1)?;
        match Node::boot_host(self.alloc, self.pool, blocks, ns, out) {
            Ok(host) => {
                self.nodes.push(host).unwrap();
                self.server = ns;
                self.holder = holder_after(self.holder, Enclave(0), ns);
                Ok(())
            }
            Err(PoolFault::NoBlocks) => refuse(Cause::NoBlocks, out),
            Err(PoolFault::Memory) => Err(AllocError),
        }
    }

    fn boot(
        &mut self,
        kind: Kind,
        parent: Enclave,
        blocks: u16,
        ns: bool,
        out: &mut Lines,
    ) -> Result<(), AllocError>
        requires ready { IsReady self.old }
        requires kind { kind ≡ kinds.Cokernel }
        requires some { 1 ≤ blocks }
        ensures lines { OnOk result (out.new ≡ out.old ++ spec.at_node self.old parent (spec.boot_by self.old kind parent blocks ns)) }
        ensures after { OnOk result (self.new ≡ spec.after_boot self.old kind parent blocks ns) }
    {
        if !self.has_node(parent) {
            return refuse(Cause::NoEnclave, out);
        }
        if self.nodes.len() >= MOST_ENCLAVES {
            return refuse(Cause::TooMany, out);
        }
        if ns && self.server {
            return refuse(Cause::NameServerTaken, out);
        }
        let child = Enclave(self.nodes.len() as u16);
        match self.nodes[0].lend(child, parent, blocks) {
            Ok(lent) => self.bear(child, kind, parent, &lent, ns, out),
            Err(PoolFault::NoBlocks) => refuse(Cause::NoBlocks, out),
            Err(PoolFault::Memory) => Err(AllocError),
        }
    }

    // The child is born with the blocks that were lent to it, and its parent takes it.
    fn bear(
        &mut self,
        child: Enclave,
        kind: Kind,
        parent: Enclave,
        blocks: &BlockList,
        ns: bool,
        out: &mut Lines,
    ) -> Result<(), AllocError>
        requires next { child.0 ≡ length self.old.nodes }
        requires fits { child.0 ≤ 255 }
        requires pairs { length self.old.pairs < 256 }
        requires born { parent.0 < length self.old.nodes }
        requires kind { kind ≡ kinds.Cokernel }
        requires some { 1 ≤ length blocks.now }
        requires blocks { AreBlocks blocks.now }
        requires me { (spec.node_at self.old.nodes parent.0).view.me.0 ≡ parent.0 }
        requires going { (spec.node_at self.old.nodes parent.0).failed ≡ false }
        requires stranger { spec.IsStranger (spec.node_at self.old.nodes parent.0) child }
        ensures lines { OnOk result (out.new ≡ out.old ++ spec.borne_lines self.old child kind parent blocks.now ns) }
        ensures after { OnOk result (self.new ≡ spec.after_birth self.old child kind parent blocks.now ns) }
    {
        self.nodes.reserve(1)?;
        let pair = new_pair(self.alloc, parent)?;
        let at = parent.0 as usize;
        let node = Node::boot(
            self.alloc,
            child,
            kind,
            parent,
            blocks.as_slice(),
            ns,
            self.nodes[at].heard(),
            out,
        )?;
        self.nodes.push(node).unwrap();
        self.channels.add(pair)?;
        self.server |= ns;
        self.holder = holder_after(self.holder, child, ns);
        self.nodes[at].adopt(child, kind, blocks.as_slice(), out)
    }

    fn start(
        &mut self,
        enclave: Enclave,
        uid: u32,
        gid: u32,
        out: &mut Lines,
    ) -> Result<(), AllocError>
        ensures lines { OnOk result (out.new ≡ out.old ++ spec.at_node self.old enclave (spec.start_by self.old enclave uid gid)) }
        ensures after { OnOk result (self.new ≡ spec.after_start self.old enclave uid gid) }
    {
        if !self.has_node(enclave) {
            return refuse(Cause::NoEnclave, out);
        }
        let at = enclave.0 as usize;
        if self.starts >= MOST_PROCESSES {
            return refuse(Cause::TooMany, out);
        }
        self.starts += 1;
        self.nodes[at].start(uid, gid, out)?;
        Ok(())
    }

    // A call of a process, which its node carries out.
    fn call(&mut self, asked: &ProcessCall, out: &mut Lines) -> Result<(), AllocError>
        requires ready { IsReady self.old }
        requires range { IsCallInRange asked.now.call }
        ensures lines { OnOk result (out.new ≡ out.old ++ spec.at_node self.old asked.now.enclave (spec.call_by self.old asked.now)) }
        ensures after { OnOk result (self.new ≡ spec.after_call self.old asked.now) }
    {
        if !self.has_node(asked.enclave) {
            return refuse(Cause::NoEnclave, out);
        }
        let at = asked.enclave.0 as usize;
        self.nodes[at].call(asked.pid, &asked.call, out)
    }

    fn touch(
        &self,
        enclave: Enclave,
        pid: Pid,
        addr: u64,
        want: Want,
        out: &mut Lines,
    ) -> Result<(), AllocError>
        requires ready { IsReady self.now }
        ensures { OnOk result (out.new ≡ out.old ++ spec.at_node self.now enclave (spec.touch_by self.now enclave pid addr want)) }
    {
        if !self.has_node(enclave) {
            return refuse(Cause::NoEnclave, out);
        }
        let at = enclave.0 as usize;
        match self.nodes[at].touch(pid, addr, want) {
            Ok((page, frame)) => out.push(Line::Touched {
                enclave,
                pid,
                page,
                frame,
            }),
            Err(cause) => refuse(cause, out),
        }
    }

    fn deliver(
        &mut self,
        from: Enclave,
        to: Enclave,
        count: u32,
        out: &mut Lines,
    ) -> Result<(), AllocError>
        requires ready { IsReady self.old }
        ensures lines { OnOk result (out.new ≡ out.old ++ spec.deliver_by self.old from to count (spec.hop_in self.old from to)) }
        ensures after { OnOk result (self.new ≡ spec.after_deliver self.old from to count (spec.hop_in self.old from to)) }
    {
        match self.hop(from, to) {
            Hop::NoEnclave => refuse(Cause::NoEnclave, out),
            Hop::NoLink => refuse(Cause::NoLink, out),
            Hop::Up(i) => self.take(Hop::Up(i), Neighbour::Down(from), from, to, count, out),
            Hop::Down(i) => self.take(Hop::Down(i), Neighbour::Up, from, to, count, out),
        }
    }

    // Takes at most `count` waiting bytes out of the channel from an enclave to its neighbour, whose node handles the
    // records that are whole then.
    fn take(
        &mut self,
        hop: Hop,
        side: Neighbour,
        from: Enclave,
        to: Enclave,
        count: u32,
        out: &mut Lines,
    ) -> Result<(), AllocError>
        requires within { spec.IsIn self.old.pairs hop }
        requires born { to.0 < length self.old.nodes }
        requires flows { IsLinkFlowing (spec.link_of self.old.pairs hop) (feed_at (spec.node_at self.old.nodes to.0).feeds from) }
        requires open_end { IsSome (at (spec.node_at self.old.nodes to.0).feeds from.0) }
        requires side { neighbour_number (spec.node_at self.old.nodes to.0).view side ≡ from }
        ensures lines { OnOk result (out.new ≡ out.old ++ spec.lines_over self.old from to count hop) }
        ensures after { OnOk result (self.new ≡ spec.over_machine self.old from to count hop) }
    {
        laws();
        let waiting = self.channels.waiting(hop);
        if waiting == 0 {
            return out.push(Line::Idle { from, to });
        }
        let count = count.min(waiting);
        self.channels.take(hop, count, &mut self.bytes)?;
        out.push(Line::Took { from, to, count })?;
        match self.nodes[to.0 as usize].feed(side, &self.bytes, out) {
            Ok(()) => Ok(()),
            Err(NodeFault::Memory) => Err(AllocError),
            Err(NodeFault::BadRecord { .. }) => unreachable!(),
        }
    }

    fn show_link(&self, from: Enclave, to: Enclave, out: &mut Lines) -> Result<(), AllocError>
        ensures { OnOk result (out.new ≡ out.old ++ spec.shown_by self.now from to (spec.hop_in self.now from to)) }
    {
        let hop = self.hop(from, to);
        match hop {
            Hop::NoEnclave => refuse(Cause::NoEnclave, out),
            _ => match self.channels.link(hop) {
                Some(link) => show(self.alloc, link, from, to, out),
                None => refuse(Cause::NoLink, out),
            },
        }
    }

    // What is shown of a node.
    fn show(&self, asked: &NodeShow, out: &mut Lines) -> Result<(), AllocError>
        requires ready { IsReady self.now }
        requires host { IsShowable asked.now }
        requires other { asked.now.show ≢ shows.Names }
        ensures { OnOk result (out.new ≡ out.old ++ spec.at_node self.now asked.now.enclave (spec.node_shown self.now asked.now)) }
    {
        if !self.has_node(asked.enclave) {
            return refuse(Cause::NoEnclave, out);
        }
        let at = asked.enclave.0 as usize;
        self.nodes[at].show(asked.show, out)
    }

    // The names, of the enclave that was born with the name server.
    fn show_names(&self, out: &mut Lines) -> Result<(), AllocError>
        requires ready { IsReady self.now }
        ensures { OnOk result (out.new ≡ out.old ++ spec.names_shown self.now) }
    {
        if !self.server {
            return refuse(Cause::NotReady, out);
        }
        self.nodes[self.holder.0 as usize].show(Show::Names, out)
    }

    // Gives the records that the lines send to their channels, in order.
    fn carry(&mut self, lines: &[Line]) -> Result<(), AllocError>
        requires valid { AreValid (sent_in lines.now) }
        ensures { OnOk result (self.new ≡ spec.with_carried self.old lines.now) }
    {
        for line in lines {
            if let Line::Sent { from, to, rec } = line {
                self.send(*from, *to, rec)?;
            }
        }
        Ok(())
    }

    fn send(&mut self, from: Enclave, to: Enclave, rec: &Record) -> Result<(), AllocError>
        requires valid { IsTrue (is_valid rec.now) }
        ensures sent { OnOk result (self.new ≡ record self.old { pairs = spec.carried_over self.old.pairs (spec.hop_in self.old from to) rec.now }) }
    {
        let hop = self.hop(from, to);
        self.channels.send(hop, rec, &mut self.bytes)
    }

    /// The node of a living enclave.
    pub fn node(&self, e: Enclave) -> Option<&Node<PageTable>>
        ensures { option_copied result ≡ spec.node_of self.now.nodes e.0 }
    {
        self.nodes.get(e.0 as usize)
    }

    /// The channel from an enclave to its neighbour, where they are neighbours.
    pub fn link(&self, from: Enclave, to: Enclave) -> Option<&Link>
        ensures { option_copied result ≡ spec.link_between self.now from to }
    {
        self.channels.link(self.hop(from, to))
    }

    /// Ends every enclave.
    pub fn close(self) {
        let Machine {
            alloc: _,
            pool: _,
            server: _,
            holder: _,
            starts: _,
            mut nodes,
            channels: _,
            bytes: _,
            fresh: _,
        } = self;
        while let Some(node) = nodes.pop() {
            node.close();
        }
        nodes.destroy_empty();
    }
}
