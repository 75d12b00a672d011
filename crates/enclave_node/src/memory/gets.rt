// Gets: those that wait, the permits that they got, and the grants of the enclave's own segments.
ghost use Rattle.std.specs.Prelude.{◌≡◌, ◌+◌, ◌↔◌, false, true, nat_abs, length, option_map, is_some, None, Some, IsTrue, IsSome, IfOk, OnOk, OnErr, IsErrOf};
ghost use Rattle.xm_num.specs.Rows.{at};
ghost use Rattle.holder_table.specs.Holding.{held};
ghost use Rattle.attach_map.specs.Attaching.{awaits_permit, gets_from, held_by, looks_up, permit_at};
ghost use Rattle.exporter_pins.specs.Holdings.{is_denied, live_export};
ghost use Rattle.enclave_rules.specs.Memory as memory;
ghost use Rattle.enclave_rules.specs.Permits as permits;
ghost use Rattle.enclave_rules.specs.Segments as segments;
ghost use Rattle.enclave_node.specs.Gets as spec;

use super::Memory;
use attach_map::{Pending, Permit, Waiting};
use exporter_pins::GrantFault;
use page_table::AddressSpace;
use std::alloc::AllocError;
use xm_num::laws::row_laws;
use xm_num::{Access, Apid, CallNo, Enclave, Pid, Segid};

// Whether it is a get of that segment which waits for the name server.
fn looks_for(what: &Pending, segid: Segid) -> bool
    ensures { result ≡ permits.looks_for segid what.now }
{
    match *what {
        Pending::Make => false,
        Pending::Lookup {
            segid: other,
            access: _,
        } => other == segid,
        Pending::GetFrom { .. } => false,
    }
}

// Whether it is a get which waits for that owner.
fn waits_for(what: &Pending, owner: Enclave) -> bool
    ensures { result ≡ gets_from owner what.now }
{
    match *what {
        Pending::Make => false,
        Pending::Lookup { .. } => false,
        Pending::GetFrom {
            owner: other,
            segid: _,
            access: _,
        } => other == owner,
    }
}

impl<A: AddressSpace> Memory<A> {
    /// Issues a get, which waits for that. A number past the last one of 32 bits counts as want of memory.
    pub fn get(&mut self, pid: Pid, what: Pending) -> Result<CallNo, AllocError>
        requires lives { IsSome (at self.old.memory.processes pid.0) }
        requires idle { memory.is_busy self.old.memory pid.0 ≡ false }
        requires get { segments.is_make what ≡ false }
        ensures call { IfOk result (λ call. call.0 ≡ self.old.memory.issued + 1) }
        ensures ok { OnOk result (self.new ≡ spec.with_get pid what self.old) }
        ensures err { OnErr result (self.new ≡ self.old) }
    {
        row_laws::<Waiting>();
        if self.attacher.issued() == u32::MAX {
            return Err(AllocError);
        }
        self.attacher.issue(pid, what)
    }

    /// The get of that number, where it waits for the name server to tell who has that segment, and its process lives.
    pub fn seeker(&self, call: CallNo, segid: Segid) -> Option<Waiting>
        ensures { result ≡ permits.seeker self.now.memory call.0 segid }
    {
        let waiting = self.attacher.waiting(call)?;
        if waiting.living && looks_for(&waiting.what, segid) {
            Some(waiting)
        } else {
            None
        }
    }

    /// The get of that number, where it waits for that owner, and its process lives.
    pub fn getter(&self, call: CallNo, owner: Enclave) -> Option<Waiting>
        ensures { result ≡ permits.getter self.now.memory call.0 owner }
    {
        let waiting = self.attacher.waiting(call)?;
        if waiting.living && waits_for(&waiting.what, owner) {
            Some(waiting)
        } else {
            None
        }
    }

    /// A get that waits for the name server waits for that owner from now on.
    pub fn find(&mut self, call: CallNo, owner: Enclave)
        requires { IsTrue (looks_up (at self.old.memory.waiting call.0)) }
        ensures { self.new ≡ spec.with_found call.0 owner self.old }
    {
        row_laws::<Waiting>();
        self.attacher.found(call, owner);
    }

    /// Ends a waiting call without effect.
    pub fn end_call(&mut self, call: CallNo)
        requires { IsSome (at self.old.memory.waiting call.0) }
        ensures { self.new ≡ spec.with_ended call.0 self.old }
    {
        row_laws::<Waiting>();
        self.attacher.settle_reply(call);
    }

    /// Ends a get that waits for an owner: its process holds the permit, of so many pages.
    pub fn take_permit(&mut self, call: CallNo, pages: u32) -> Result<(), AllocError>
        requires { IsTrue (awaits_permit (at self.old.memory.waiting call.0)) }
        ensures ok { OnOk result (self.new ≡ spec.with_permit_taken call.0 pages self.old) }
        ensures err { OnErr result (self.new ≡ self.old) }
    {
        row_laws::<Waiting>();
        self.attacher.granted(call, pages)
    }

    /// The permit of that name, where the process holds it.
    pub fn permit(&self, pid: Pid, apid: Apid) -> Option<Permit>
        ensures { result ≡ held_by pid.0 (permit_at self.now.memory.permits apid.0) }
    {
        self.attacher.permit_of(pid, apid)
    }

    /// Drops a permit that is held.
    pub fn release(&mut self, apid: Apid)
        requires { IsSome (permit_at self.old.memory.permits apid.0) }
        ensures { self.new ≡ spec.with_released (nat_abs apid.0) self.old }
    {
        self.attacher.release(apid);
    }

    /// Grants the get of that number of an enclave, where the segment is live and its user may have the access, and gives the
    /// segment's pages. The get has no grant.
    pub fn grant(
        &mut self,
        to: Enclave,
        call: CallNo,
        segid: Segid,
        uid: u32,
        gid: u32,
        access: Access,
    ) -> Result<u32, GrantFault>
        requires { held self.old.grants to.0 call.0 ≡ None }
        ensures pages { IfOk result (λ pages. option_map (λ row. length row.1.frames) (live_export self.old.exports (nat_abs segid.0)) ≡ Some pages) }
        ensures after { OnOk result (self.new ≡ spec.with_grant_of to call segid self.old) }
        ensures none { IsErrOf result GrantFault.NoSegment ↔ (live_export self.old.exports (nat_abs segid.0) ≡ None) }
        ensures denied { IsErrOf result GrantFault.Denied ↔ (is_denied self.old.exports (nat_abs segid.0) uid gid access ≡ true) }
        ensures err { OnErr result (self.new ≡ self.old) }
    {
        self.exporter.grant(to, call, segid, uid, gid, access)
    }

    /// Takes a grant back.
    pub fn ungrant(&mut self, to: Enclave, call: CallNo)
        ensures { self.new ≡ spec.without_grant_of to call self.old }
    {
        let _ = self.exporter.ungrant(to, call);
    }

    /// Whether the get of that number of an enclave has a grant.
    pub fn has_grant(&self, to: Enclave, call: CallNo) -> bool
        ensures { result ≡ is_some (held self.now.grants to.0 call.0) }
    {
        self.exporter.has_grant(to, call)
    }
}
