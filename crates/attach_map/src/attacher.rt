// The processes, the waiting calls and the permits of an enclave.
ghost use Rattle.std.specs.Prelude.{◌≡◌, ◌+◌, ◌-◌, ◌<◌, ◌≤◌, ◌^◌, ◌↔◌, ℕ, nat_abs, length, [], option_map, None, Some, IsTrue, IsSome, IfSome, IfOk, OnOk, OnErr, IsErrOf};
ghost use Rattle.xm_num.specs.Rows as rows;
ghost use Rattle.page_table.specs.Spaces.{owned, AreOwn};
ghost use Rattle.attach_map.specs.Attaching as spec;
ghost use Rattle.xm_num.specs.RowLaws.{RowLaws};
ghost use Rattle.attach_map.specs.declared.Waiting.{Waiting};
ghost use Rattle.attach_map.specs.declared.Holder.TheVariants as holders;
ghost use Rattle.attach_map.specs.Seats.{Seat};
ghost use Rattle.attach_map.specs.Attaching.{PermitState};
ghost use Rattle.attach_map.specs.Numbers.{AreNumbered};

use crate::calls::Calls;
use crate::permits::{Held, Permits, permit_for};
use crate::process::Process;
use crate::processes::Processes;
use crate::{Holder, Pending, Permit, Waiting};
use page_table::{AddressSpace, MapFault};
use std::alloc::{AllocError, Global};
use std::marker::Model;
use xm_num::laws::row_laws;
use xm_num::{Apid, CallNo, Enclave, Frame, Pid, Vpn};

/// The processes of an enclave, their spaces, the calls that wait and the permits that are held. It can't be let go: `close` ends it.
pub struct Attacher<A: AddressSpace> {
    alloc: Global,
    started: u32,
    processes: Processes<A>,
    issued: u32,
    calls: Calls,
    permits: Permits,
}

impl<A: AddressSpace> Model for Attacher<A> {
    ghost use Rattle.attach_map.specs.Attaching.{AttacherState};
    ghost use Rattle.attach_map.specs.Seats.{seen};
    ghost use Rattle.attach_map.specs.Numbers.{IsSeated, AreHeld};

    ghost Value = { AttacherState };

    ghost view = { λ a. record { started = a.started; processes = seen a.processes; issued = a.issued; waiting = a.calls; permits = a.permits } };

    ghost invariant = { λ a. IsSeated a.started a.processes a.issued a.calls × AreHeld a.processes a.issued a.calls a.permits };
}

// The laws of the rows that are kept.
fn table_laws<A: AddressSpace>()
    ensures seats { RowLaws Seat }
    ensures calls { RowLaws Waiting }
    ensures permits { RowLaws PermitState }
{
    row_laws::<Process<A>>();
    row_laws::<Waiting>();
    row_laws::<Held>();
}

impl<A: AddressSpace> Attacher<A> {
    /// No process was started, no call issued, and no permit is held.
    pub fn new(alloc: Global) -> Result<Attacher<A>, AllocError>
        ensures { IfOk result (λ attacher. attacher ≡ spec.nothing_started) }
    {
        Ok(Attacher {
            alloc,
            started: 0,
            processes: Processes::new(alloc),
            issued: 0,
            calls: Calls::new(alloc),
            permits: Permits::new(alloc),
        })
    }

    /// How many processes were started.
    pub fn started(&self) -> u32
        ensures number { result ≡ self.now.started }
        ensures numbered { AreNumbered self.now }
    {
        table_laws::<A>();
        self.started
    }

    /// How many calls were issued.
    pub fn issued(&self) -> u32
        ensures number { result ≡ self.now.issued }
        ensures numbered { AreNumbered self.now }
    {
        table_laws::<A>();
        self.issued
    }

    /// Starts a process, of the next number. For want of memory there is none, and no number is drawn.
    pub fn start(&mut self, uid: u32, gid: u32) -> Result<Pid, AllocError>
        requires { self.old.started < 2 ^ 32 - 1 }
        ensures pid { IfOk result (λ pid. pid.0 ≡ self.old.started + 1) }
        ensures ok { OnOk result (self.new ≡ spec.process_started self.old uid gid) }
        ensures err { OnErr result (self.new ≡ self.old) }
    {
        table_laws::<A>();
        let pid = self.started + 1;
        let process = Process::new(self.alloc, uid, gid)?;
        self.processes.push(pid, process)?;
        self.started = pid;
        Ok(Pid(pid))
    }

    /// The user and the group of a living process.
    pub fn user(&self, pid: Pid) -> Option<(u32, u32)>
        ensures { result ≡ option_map (λ process. (process.uid, process.gid)) (rows.at self.now.processes pid.0) }
    {
        let process = self.processes.get(pid.0)?;
        Some(process.user())
    }

    /// The waiting call of a living process.
    pub fn busy(&self, pid: Pid) -> Option<CallNo>
        ensures { option_map (λ call. call.0) result ≡ spec.waiting_call_of self.now.waiting pid.0 }
    {
        table_laws::<A>();
        let process = self.processes.get(pid.0)?;
        process.call()
    }

    /// The space of a living process, no right of which is out.
    pub fn space(&self, pid: Pid) -> Option<&A>
        ensures pages { option_map (λ space. A.pages space.now) result ≡ option_map (λ process. process.pages) (rows.at self.now.processes pid.0) }
        ensures none_out { IfSome result (λ space. A.out space.now ≡ []) }
    {
        let process = self.processes.get(pid.0)?;
        Some(process.space())
    }

    /// Maps own pages of a living process from `at` on, one to each frame, or none of them.
    pub fn own(&mut self, pid: Pid, at: Vpn, frames: &[Frame]) -> Result<(), MapFault>
        requires lives { IsSome (rows.at self.old.processes pid.0) }
        requires low { 1 ≤ at.0 }
        requires high { at.0 + length frames.now ≤ 2 ^ 24 }
        ensures ok { OnOk result (self.new ≡ spec.with_pages_in self.old pid.0 (rows.put_all (spec.pages_in self.old pid.0) at.0 (owned frames.now))) }
        ensures err { OnErr result (self.new ≡ self.old) }
        ensures taken { (v : Vpn) → IsErrOf result (MapFault.Taken v) ↔ (rows.lowest_in (spec.pages_in self.old pid.0) at.0 (at.0 + length frames.now) ≡ Some v.0) }
    {
        table_laws::<A>();
        self.processes.own(pid.0, at, frames)
    }

    /// Unmaps `n` own pages of a living process from `at` on.
    pub fn disown(&mut self, pid: Pid, at: Vpn, n: u32)
        requires lives { IsSome (rows.at self.old.processes pid.0) }
        requires own { AreOwn (spec.pages_in self.old pid.0) at.0 n }
        ensures { self.new ≡ spec.with_pages_in self.old pid.0 (rows.less_all (spec.pages_in self.old pid.0) at.0 n) }
    {
        table_laws::<A>();
        self.processes.disown(pid.0, at, n);
    }

    /// Issues a call of a living process that has none, of the next number. For want of memory there is none, and no
    /// number is drawn.
    pub fn issue(&mut self, pid: Pid, what: Pending) -> Result<CallNo, AllocError>
        requires lives { IsSome (rows.at self.old.processes pid.0) }
        requires idle { spec.waiting_call_of self.old.waiting pid.0 ≡ None }
        requires few { self.old.issued < 2 ^ 32 - 1 }
        ensures call { IfOk result (λ call. call.0 ≡ self.old.issued + 1) }
        ensures ok { OnOk result (self.new ≡ spec.call_issued self.old pid what) }
        ensures err { OnErr result (self.new ≡ self.old) }
    {
        table_laws::<A>();
        let call = CallNo(self.issued + 1);
        let waiting = Waiting {
            call,
            pid,
            living: true,
            what,
        };
        self.calls.push(call.0, waiting)?;
        self.processes.wait(pid.0, Some(call));
        self.issued = call.0;
        Ok(call)
    }

    /// The waiting call of that number.
    pub fn waiting(&self, call: CallNo) -> Option<Waiting>
        ensures { result ≡ rows.at self.now.waiting call.0 }
    {
        self.calls.get(call.0)
    }

    /// The least call from a number on that waits for a permit of that owner.
    pub fn next_waiting(&self, owner: Enclave, from: CallNo) -> Option<CallNo>
        ensures { option_map (λ call. call.0) result ≡ spec.next_get self.now.waiting owner from.0 }
    {
        self.calls.next_get(owner, from.0)
    }

    /// The owner of the segment is known that a call looks up: the call then waits for its permit.
    pub fn found(&mut self, call: CallNo, owner: Enclave)
        requires { IsTrue (spec.looks_up (rows.at self.old.waiting call.0)) }
        ensures { self.new ≡ spec.owner_found self.old call.0 owner }
    {
        table_laws::<A>();
        self.calls.found(call.0, owner);
    }

    /// Ends a waiting call without effect. Its process, where it lives, waits no more.
    pub fn settle_reply(&mut self, call: CallNo)
        requires { IsSome (rows.at self.old.waiting call.0) }
        ensures { self.new ≡ spec.call_settled self.old call.0 }
    {
        table_laws::<A>();
        let Some(waiting) = self.calls.get(call.0) else {
            unreachable!();
        };
        self.calls.remove(call.0);
        if waiting.living {
            self.processes.wait(waiting.pid.0, None);
        }
    }

    /// Grants a permit of so many pages to the living process whose call waits for it, under the call's number. The call
    /// waits no more. For want of memory nothing changes.
    pub fn granted(&mut self, call: CallNo, pages: u32) -> Result<(), AllocError>
        requires { IsTrue (spec.awaits_permit (rows.at self.old.waiting call.0)) }
        ensures ok { OnOk result (self.new ≡ spec.permit_granted self.old call.0 pages) }
        ensures err { OnErr result (self.new ≡ self.old) }
    {
        table_laws::<A>();
        let Some(waiting) = self.calls.get(call.0) else {
            unreachable!();
        };
        let Some(permit) = permit_for(waiting.what, pages) else {
            unreachable!();
        };
        self.permits.insert(call.0, waiting.pid, permit)?;
        self.calls.remove(call.0);
        self.processes.wait(waiting.pid.0, None);
        Ok(())
    }

    /// The permit of that name, where the process holds it.
    pub fn permit_of(&self, pid: Pid, apid: Apid) -> Option<Permit>
        ensures { result ≡ spec.held_by pid.0 (spec.permit_at self.now.permits apid.0) }
    {
        self.permits.held(pid, apid)
    }

    /// The least permit of a process, or from an owner, or the one of that name. There is none exactly where no such
    /// permit is held.
    pub fn lowest_permit(&self, of: Holder) -> Option<Apid>
        ensures least { result ≡ option_map spec.apid_numbered (spec.lowest_permit self.now.permits of) }
        ensures held { IfSome result (λ apid. IsSome (spec.permit_at self.now.permits apid.0)) }
    {
        self.permits.lowest(of)
    }

    /// Drops a permit that is held.
    pub fn release(&mut self, apid: Apid)
        requires { IsSome (spec.permit_at self.old.permits apid.0) }
        ensures { self.new ≡ spec.permit_released self.old (nat_abs apid.0) }
    {
        table_laws::<A>();
        self.permits.remove(apid);
    }

    /// Ends a living process that holds no permit, and its pages with it. Its call waits on, for no one.
    pub fn exit(&mut self, pid: Pid)
        requires lives { IsSome (rows.at self.old.processes pid.0) }
        requires free { spec.lowest_permit self.old.permits (holders.Process pid) ≡ None }
        ensures { self.new ≡ spec.process_ended self.old pid.0 }
    {
        table_laws::<A>();
        let waiting = self.busy(pid);
        self.processes.end(pid.0);
        if let Some(call) = waiting {
            self.calls.orphan(call.0);
        }
    }

    /// Ends all processes.
    pub fn close(self) {
        let Attacher {
            alloc: _,
            started: _,
            processes,
            issued: _,
            calls: _,
            permits: _,
        } = self;
        processes.close();
    }
}
