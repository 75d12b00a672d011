// A process: its user and group, its space, and the call that it waits for.
ghost use Rattle.std.specs.Prelude.{◌≡◌, ◌+◌, ◌≤◌, ◌↔◌, ◌^◌, [], length, IfOk, OnOk, OnErr, IsErrOf};
ghost use Rattle.xm_num.specs.Rows.{lowest_in};
ghost use Rattle.page_table.specs.Spaces.{AreOwn};
ghost use Rattle.attach_map.specs.Attaching.{fresh_process};
ghost use Rattle.attach_map.specs.Seats.{with_own_pages, without_owned, with_seat_call};

use page_table::{AddressSpace, MapFault};
use std::alloc::{AllocError, Global};
use std::marker::Model;
use xm_num::{CallNo, Frame, Vpn};

// A process that lives. It can't be let go: `close` ends it.
pub struct Process<A: AddressSpace> {
    uid: u32,
    gid: u32,
    space: A,
    call: Option<CallNo>,
}

impl<A: AddressSpace> Model for Process<A> {
    ghost use Rattle.std.specs.Prelude.{◌≡◌, []};
    ghost use Rattle.attach_map.specs.Seats.{Seat};

    ghost Value = { Seat };

    ghost view = { λ p. record { process = record { uid = p.uid; gid = p.gid; pages = A.pages p.space }; call = p.call } };

    ghost invariant = { λ p. A.out p.space ≡ [] };
}

impl<A: AddressSpace> Process<A> {
    // A process with nothing mapped, which waits for no call.
    pub fn new(alloc: Global, uid: u32, gid: u32) -> Result<Process<A>, AllocError>
        ensures { IfOk result (λ process. process ≡ record { process = fresh_process uid gid; call = None }) }
    {
        Ok(Process {
            uid,
            gid,
            space: A::new(alloc)?,
            call: None,
        })
    }

    // Its user and group.
    pub fn user(&self) -> (u32, u32)
        ensures { result ≡ (self.now.process.uid, self.now.process.gid) }
    {
        (self.uid, self.gid)
    }

    // The call that it waits for.
    pub fn call(&self) -> Option<CallNo>
        ensures { result ≡ self.now.call }
    {
        self.call
    }

    // Its space.
    pub fn space(&self) -> &A
        ensures pages { A.pages result.now ≡ self.now.process.pages }
        ensures none_out { A.out result.now ≡ [] }
    {
        &self.space
    }

    // Sets the call that it waits for.
    pub fn wait(&mut self, call: Option<CallNo>)
        ensures { self.new ≡ with_seat_call call self.old }
    {
        self.call = call;
    }

    // Maps own pages from `at` on, one to each frame, or none of them.
    pub fn own(&mut self, at: Vpn, frames: &[Frame]) -> Result<(), MapFault>
        requires low { 1 ≤ at.0 }
        requires high { at.0 + length frames.now ≤ 2 ^ 24 }
        ensures ok { OnOk result (self.new ≡ with_own_pages at.0 frames.now self.old) }
        ensures err { OnErr result (self.new ≡ self.old) }
        ensures taken { (v : Vpn) → IsErrOf result (MapFault.Taken v) ↔ (lowest_in self.old.process.pages at.0 (at.0 + length frames.now) ≡ Some v.0) }
    {
        self.space.own(at, frames)
    }

    // Unmaps `n` own pages from `at` on.
    pub fn disown(&mut self, at: Vpn, n: u32)
        requires { AreOwn self.old.process.pages at.0 n }
        ensures { self.new ≡ without_owned at.0 n self.old }
    {
        self.space.disown(at, n);
    }

    // Ends the process, and its pages with it.
    pub fn close(self) {
        let Process {
            uid: _,
            gid: _,
            space,
            call: _,
        } = self;
        space.close();
    }
}
