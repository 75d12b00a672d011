// Gets: what an owner makes of them, what a caller makes of the reply, and how permits end.
ghost use Rattle.std.specs.Prelude.{◌≡◌, [], ◌∷◌, ◌++◌, IsSome, OnOk};
ghost use Rattle.xm_num.specs.Rows.{at};
ghost use Rattle.enclave_rules.specs.Hand.{Hand};
ghost use Rattle.enclave_rules.specs.View.{own_lines};
ghost use Rattle.enclave_rules.specs.Gets as gets;

use super::State;
use exporter_pins::GrantFault;
use page_table::AddressSpace;
use std::alloc::AllocError;
use xemem_language::{Body, Line, Lines, Record};
use xm_num::{Access, Apid, CallNo, Cause, Enclave, Segid};

impl<A: AddressSpace> State<A> {
    /// Answers a get by its permit, where it waits for that owner.
    pub fn take_permit(
        &mut self,
        call: CallNo,
        owner: Enclave,
        pages: u32,
        out: &mut Lines,
    ) -> Result<(), AllocError>
        ensures lines { OnOk result (out.new ≡ out.old ++ gets.granted_lines self.old call.0 owner pages) }
        ensures after { OnOk result ((hand : Hand) → self.new ≡ own_lines hand self.old (gets.granted_lines self.old call.0 owner pages)) }
    {
        let Some(waiting) = self.memory.getter(call, owner) else {
            return self.drop_record(out);
        };
        self.memory.take_permit(call, pages)?;
        out.push(Line::AnswerApid {
            enclave: self.me,
            pid: waiting.pid,
            call,
            apid: Apid(i64::from(call.0)),
            pages,
        })
    }

    /// Answers a get by a refusal, where it waits for that owner.
    pub fn take_refusal(
        &mut self,
        call: CallNo,
        owner: Enclave,
        cause: Cause,
        out: &mut Lines,
    ) -> Result<(), AllocError>
        ensures lines { OnOk result (out.new ≡ out.old ++ gets.refused_lines self.old call.0 owner cause) }
        ensures after { OnOk result ((hand : Hand) → self.new ≡ own_lines hand self.old (gets.refused_lines self.old call.0 owner cause)) }
    {
        let Some(waiting) = self.memory.getter(call, owner) else {
            return self.drop_record(out);
        };
        self.memory.end_call(call);
        out.push(Line::AnswerRefused {
            enclave: self.me,
            pid: waiting.pid,
            call,
            cause,
        })
    }

    // Tells the caller that its get is granted.
    fn tell_granted(
        &mut self,
        caller: Enclave,
        call: CallNo,
        pages: u32,
        out: &mut Lines,
    ) -> Result<(), AllocError>
        ensures lines { OnOk result (out.new ≡ out.old ++ gets.granting_lines self.old caller call.0 pages) }
        ensures after { OnOk result ((hand : Hand) → self.new ≡ own_lines hand self.old (gets.granting_lines self.old caller call.0 pages)) }
    {
        if caller == self.me {
            return self.take_permit(call, self.me, pages, out);
        }
        let rec = Record {
            origin: self.me,
            dest: Some(caller),
            call: call.0,
            body: Body::Granted { pages },
        };
        self.send_made(self.way_to(caller), rec, out)
    }

    // Tells the caller why its get isn't granted.
    fn tell_refused(
        &mut self,
        caller: Enclave,
        call: CallNo,
        cause: Cause,
        out: &mut Lines,
    ) -> Result<(), AllocError>
        ensures lines { OnOk result (out.new ≡ out.old ++ gets.refusing_lines self.old caller call.0 cause) }
        ensures after { OnOk result ((hand : Hand) → self.new ≡ own_lines hand self.old (gets.refusing_lines self.old caller call.0 cause)) }
    {
        if caller == self.me {
            return self.take_refusal(call, self.me, cause, out);
        }
        let rec = Record {
            origin: self.me,
            dest: Some(caller),
            call: call.0,
            body: Body::GetRefused {
                cause: cause.number(),
            },
        };
        self.send_made(self.way_to(caller), rec, out)
    }

    // Refuses a get.
    fn deny(
        &mut self,
        caller: Enclave,
        call: CallNo,
        cause: Cause,
        out: &mut Lines,
    ) -> Result<(), AllocError>
        ensures lines { OnOk result (out.new ≡ out.old ++ gets.deny_lines self.old caller call.0 cause) }
        ensures after { OnOk result ((hand : Hand) → self.new ≡ own_lines hand self.old (gets.deny_lines self.old caller call.0 cause)) }
    {
        out.push(Line::Deny {
            at: self.me,
            enclave: caller,
            call,
            cause,
        })?;
        self.tell_refused(caller, call, cause, out)
    }

    /// Grants a get of a segment of the enclave, or refuses it.
    pub fn grant(
        &mut self,
        caller: Enclave,
        call: CallNo,
        segid: Segid,
        access: Access,
        uid: u32,
        gid: u32,
        out: &mut Lines,
    ) -> Result<(), AllocError>
        ensures lines { OnOk result ((hand : Hand) → out.new ≡ out.old ++ gets.get_lines hand self.old caller call.0 segid access uid gid) }
        ensures after { OnOk result ((hand : Hand) → self.new ≡ own_lines hand self.old (gets.get_lines hand self.old caller call.0 segid access uid gid)) }
    {
        if self.memory.has_grant(caller, call) {
            return self.drop_record(out);
        }
        match self.memory.grant(caller, call, segid, uid, gid, access) {
            Ok(pages) => {
                out.push(Line::Grant {
                    owner: self.me,
                    enclave: caller,
                    call,
                    segid,
                    access,
                })?;
                self.tell_granted(caller, call, pages, out)
            }
            Err(GrantFault::NoSegment) => self.deny(caller, call, Cause::NoSegment, out),
            Err(GrantFault::Denied) => self.deny(caller, call, Cause::Denied, out),
            Err(GrantFault::Memory) => Err(AllocError),
        }
    }

    /// Takes a grant back, where it stands.
    pub fn ungrant(
        &mut self,
        caller: Enclave,
        call: CallNo,
        out: &mut Lines,
    ) -> Result<(), AllocError>
        ensures lines { OnOk result (out.new ≡ out.old ++ gets.ungrant_lines self.old caller call.0) }
        ensures after { OnOk result ((hand : Hand) → self.new ≡ own_lines hand self.old (gets.ungrant_lines self.old caller call.0)) }
    {
        if !self.memory.has_grant(caller, call) {
            return self.drop_record(out);
        }
        self.memory.ungrant(caller, call);
        out.push(Line::Ungrant {
            owner: self.me,
            enclave: caller,
            call,
        })
    }

    /// Ends a permit of that owner, which is held under that number.
    pub fn release(
        &mut self,
        owner: Enclave,
        call: CallNo,
        out: &mut Lines,
    ) -> Result<(), AllocError>
        requires { IsSome (at self.old.memory.permits call.0) }
        ensures lines { OnOk result ((hand : Hand) → out.new ≡ out.old ++ gets.release_acts hand self.old owner call.0) }
        ensures after { OnOk result ((hand : Hand) → self.new ≡ own_lines hand self.old (gets.release_acts hand self.old owner call.0)) }
    {
        self.memory.release(Apid(i64::from(call.0)));
        out.push(Line::Release {
            enclave: self.me,
            call,
        })?;
        if owner == self.me {
            return self.ungrant(self.me, call, out);
        }
        let rec = Record {
            origin: self.me,
            dest: Some(owner),
            call: call.0,
            body: Body::Release {
                apid: Apid(i64::from(call.0)),
            },
        };
        self.send_made(self.way_to(owner), rec, out)
    }
}
