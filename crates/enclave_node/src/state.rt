// All that an enclave knows, and what it does with a record or a call. It decides from that and its arguments alone.
ghost use Rattle.std.specs.Prelude.{◌≡◌, ◌<◌, ◌↔◌, ◌++◌, length, take, IfOk, OnOk, IsErrOf};
ghost use Rattle.frame_pool.specs.Blocks.{free_blocks};
ghost use Rattle.enclave_rules.specs.Pages.{AreBlocks};
ghost use Rattle.enclave_rules.specs.Core.{AreDeaths, with_child};
ghost use Rattle.enclave_rules.specs.Host.{with_birth};
ghost use Rattle.enclave_rules.specs.Hand.{Nothing};
ghost use Rattle.enclave_rules.specs.View.{own_lines};
ghost use Rattle.enclave_rules.specs.Sending as sending;
ghost use Rattle.enclave_rules.specs.Steps as steps;
ghost use Rattle.enclave_node.specs.Births.{born_view};

mod calls;
mod gets;
mod naming;
mod records;
mod ways;

use crate::children::Children;
use crate::host::HostPart;
use crate::memory::Memory;
use frame_pool::PoolFault;
use name_server::Names;
use page_table::AddressSpace;
use route_learn::Routes;
use std::alloc::{AllocError, Global};
use std::marker::Model;
use xemem_language::{Body, Lines, Record};
use xm_num::{BlockList, Enclave, EnclaveList, Kind};

/// What an enclave is born with.
#[derive(Drop)]
pub struct Birth {
    pub me: Enclave,
    pub kind: Kind,
    /// The host's parent is written 0.
    pub parent: Enclave,
    pub blocks: BlockList,
    pub holder: bool,
    pub heard: EnclaveList,
    pub host: Option<HostPart>,
}

/// The state of an enclave. It can't be let go: `close` ends it.
pub struct State<A: AddressSpace> {
    alloc: Global,
    me: Enclave,
    kind: Kind,
    parent: Enclave,
    admitted: bool,
    heard: EnclaveList,
    routes: Routes,
    memory: Memory<A>,
    // Empty but at the holder of the name server.
    names: Names,
    children: Children,
    host: Option<HostPart>,
}

impl<A: AddressSpace> Model for State<A> {
    ghost use Rattle.enclave_rules.specs.View.{View};
    ghost use Rattle.std.specs.Prelude.{option_map};
    ghost use Rattle.enclave_node.specs.Births.{host_view};
    ghost use Rattle.enclave_rules.specs.Core.{AreDeaths};
    ghost use Rattle.enclave_node.specs.Sides.{enclave_of, rows_by_number};

    ghost Value = { View };

    ghost view = { λ s. record {
      me = s.me;
      core = record {
        kind = s.kind;
        parent = s.parent;
        blocks = s.memory.blocks;
        holder = s.routes.holder;
        admitted = s.admitted;
        heard = s.heard;
        children = s.children;
      };
      ways = record {
        way = option_map (enclave_of s.parent) s.routes.way;
        askers = rows_by_number s.parent s.routes.askers;
        backs = rows_by_number s.parent s.routes.back;
        routes = rows_by_number s.parent s.routes.routes;
      };
      memory = s.memory.memory;
      exports = s.memory.exports;
      grants = s.memory.grants;
      names = s.names;
      host = host_view s.host;
    } };

    ghost invariant = { λ s. AreDeaths s.heard };
}

// A record of an enclave that names no destination.
fn plain(me: Enclave, body: Body) -> Record
    ensures { result ≡ record { origin = me; dest = None; call = 0; body = body } }
{
    Record {
        origin: me,
        dest: None,
        call: 0,
        body,
    }
}

/// The record by which an enclave asks a neighbour for the way to the name server.
pub fn query(me: Enclave) -> Record
    ensures { result ≡ steps.query_of me }
{
    plain(me, Body::Query)
}

impl<A: AddressSpace> State<A> {
    /// The state of an enclave as it is born. The holder of the name server is admitted at its birth.
    pub fn born(alloc: Global, birth: Birth) -> Result<State<A>, AllocError>
        requires blocks { AreBlocks birth.blocks }
        requires heard { AreDeaths birth.heard }
        ensures { IfOk result (λ state. state ≡ born_view birth) }
    {
        let routes = Routes::new(alloc, birth.holder)?;
        let names = Names::new(alloc)?;
        Ok(State {
            alloc,
            me: birth.me,
            kind: birth.kind,
            parent: birth.parent,
            admitted: birth.holder,
            heard: birth.heard,
            routes,
            memory: Memory::new(alloc, birth.blocks)?,
            names,
            children: Children::new(alloc),
            host: birth.host,
        })
    }

    /// The enclave's number.
    pub fn me(&self) -> Enclave
        ensures { result ≡ self.now.me }
    {
        self.me
    }

    /// The number of its parent, or 0 at the host.
    pub fn parent(&self) -> Enclave
        ensures { result ≡ self.now.core.parent }
    {
        self.parent
    }

    /// The deaths that it heard of, ascending.
    pub fn heard(&self) -> &EnclaveList
        ensures heard { result.now ≡ self.now.core.heard }
        ensures ascend { AreDeaths result.now }
    {
        &self.heard
    }

    fn knows_way(&self) -> bool
        ensures { result ≡ sending.knows_way self.now }
    {
        self.is_holder() || self.way().is_some()
    }

    /// The host lends the `n` lowest free blocks to an enclave that is born, and records its parent. Where too few are
    /// free, nothing changes.
    pub fn lend(&mut self, child: Enclave, parent: Enclave, n: u16) -> Result<BlockList, PoolFault>
        requires { parent.0 < length self.old.host.parents }
        ensures blocks { IfOk result (λ blocks. blocks ≡ take n (free_blocks self.old.host.states)) }
        ensures ascend { IfOk result (λ blocks. AreBlocks blocks) }
        ensures after { OnOk result (self.new ≡ record self.old { host = with_birth child parent (take n (free_blocks self.old.host.states)) self.old.host }) }
        ensures short { IsErrOf result PoolFault.NoBlocks ↔ (length (free_blocks self.old.host.states) < n) }
        ensures same { IsErrOf result PoolFault.NoBlocks → self.new ≡ self.old }
    {
        match &mut self.host {
            Some(part) => part.lend(child, parent, n),
            None => unreachable!(),
        }
    }

    /// The enclave has a child more. A parent that doesn't know the way asks it.
    pub fn adopt(&mut self, child: Enclave, kind: Kind, out: &mut Lines) -> Result<(), AllocError>
        ensures lines { OnOk result (out.new ≡ out.old ++ steps.adopt_lines self.old child) }
        ensures after { OnOk result (self.new ≡ own_lines Nothing (record self.old { core = with_child child kind self.old.core }) (steps.adopt_lines self.old child)) }
    {
        self.children.insert(child, kind)?;
        if self.knows_way() {
            return Ok(());
        }
        self.send(None, Some(child), query(self.me), out)
    }

    /// Tells the state of each block, at the host.
    pub fn show_pool(&self, out: &mut Lines) -> Result<(), AllocError>
        ensures { OnOk result (out.new ≡ out.old ++ steps.state_lines 0 self.now.host.states) }
    {
        match &self.host {
            Some(part) => part.show(out),
            None => Ok(()),
        }
    }

    /// Ends the enclave's processes.
    pub fn close(self) {
        let State {
            alloc: _,
            me: _,
            kind: _,
            parent: _,
            admitted: _,
            heard: _,
            routes: _,
            memory,
            names: _,
            children: _,
            host: _,
        } = self;
        memory.close();
    }
}
