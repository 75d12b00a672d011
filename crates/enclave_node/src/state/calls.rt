// The calls of processes.
ghost use Rattle.std.specs.Prelude.{◌≡◌, ℕ, ◌+◌, ◌/◌, ◌≤◌, ◌^◌, ◌++◌, false, option_map, None, Some, IsSome, IfOk, IfErr, OnOk};
ghost use Rattle.xm_num.specs.Rows.{at};
ghost use Rattle.xemem_language.specs.Ranges.{IsWithin};
ghost use Rattle.xemem_language.specs.Calls.{IsCallInRange};
ghost use Rattle.xemem_language.specs.declared.call.Call.TheVariants as calls;
ghost use Rattle.enclave_rules.specs.Hand.{Hand, Nothing};
ghost use Rattle.enclave_rules.specs.View.{own_lines};
ghost use Rattle.exporter_pins.specs.Holdings.{live_export};
ghost use Rattle.enclave_rules.specs.Exports.{segid_number};
ghost use Rattle.enclave_rules.specs.Memory.{is_busy};
ghost use Rattle.enclave_rules.specs.Segments as segments;
ghost use Rattle.enclave_rules.specs.Steps as steps;
ghost use Rattle.enclave_rules.specs.Calls.{at_hand, make_lines, remove_lines, call_lines};
ghost use Rattle.enclave_node.specs.Layout.{HasRoom};
ghost use Rattle.enclave_node.specs.Making as spec;

use super::State;
use crate::Call;
use crate::spaces::{is_taken, touch};
use exporter_pins::ExportFault;
use page_table::AddressSpace;
use std::alloc::AllocError;
use xemem_language::{Line, Lines};
use xm_num::{CallNo, Cause, Frame, Pid, Segid, Vpn, Want};

const PAGE_BYTES: u64 = 4096;

// How many pages a space has, its page 0 counted.
const PAGES: u32 = 16_777_216;

const LAST_PAGE: u64 = 16_777_215;

// The most pages of a segment.
const MOST_PAGES: u64 = 4096;

fn refuse(cause: Cause, out: &mut Lines) -> Result<(), AllocError>
    ensures { OnOk result (out.new ≡ out.old ++ steps.refusal cause) }
{
    out.push(Line::Refused { cause })
}

// A call's region: its first page and how many it has, or the first condition of a make that it doesn't meet.
fn region(addr: u64, size: u64) -> Result<(Vpn, u32), Cause>
    ensures fits { OnOk result (segments.region_refusal addr size ≡ None) }
    ensures region { IfOk result (λ region. (region.0.0 ≡ addr / 4096) × (region.1 ≡ size / 4096)) }
    ensures size { IfOk result (λ region. (1 ≤ region.1) × (region.1 ≤ 4096)) }
    ensures high { IfOk result (λ region. region.0.0 + region.1 ≤ 2 ^ 24) }
    ensures refused { IfErr result (λ cause. segments.region_refusal addr size ≡ Some cause) }
{
    if addr % PAGE_BYTES != 0 || size % PAGE_BYTES != 0 {
        return Err(Cause::BadAlign);
    }
    if size == 0 {
        return Err(Cause::BadRange);
    }
    let first = addr / PAGE_BYTES;
    let pages = size / PAGE_BYTES;
    if pages > MOST_PAGES {
        return Err(Cause::TooLarge);
    }
    if first == 0 || first + (pages - 1) > LAST_PAGE {
        return Err(Cause::BadRange);
    }
    Ok((Vpn(first as u32), pages as u32))
}

impl<A: AddressSpace> State<A> {
    /// Starts a process. A number past the last one of 32 bits counts as want of memory.
    pub fn start(&mut self, uid: u32, gid: u32, out: &mut Lines) -> Result<Pid, AllocError>
        ensures pid { IfOk result (λ pid. pid.0 ≡ self.old.memory.started + 1) }
        ensures lines { OnOk result (out.new ≡ out.old ++ steps.start_lines self.old uid gid) }
        ensures after { OnOk result (self.new ≡ own_lines Nothing self.old (steps.start_lines self.old uid gid)) }
    {
        let pid = self.memory.start(uid, gid)?;
        out.push(Line::Proc {
            enclave: self.me,
            pid,
            uid,
            gid,
        })?;
        Ok(pid)
    }

    /// The page of an address of a process and its frame, or why the page can't be used so.
    pub fn touch(&self, pid: Pid, addr: u64, want: Want) -> Result<(Vpn, Frame), Cause>
        ensures { result ≡ steps.touch_answer self.now pid addr want }
    {
        match self.memory.space(pid) {
            Some(space) => touch(space, addr, want),
            None => Err(Cause::NoProcess),
        }
    }

    /// Makes a call.
    pub fn call(&mut self, pid: Pid, call: &Call, out: &mut Lines) -> Result<(), AllocError>
        requires { IsCallInRange call.now }
        ensures lines { OnOk result (out.new ≡ out.old ++ call_lines self.old pid call.now) }
        ensures after { OnOk result (self.new ≡ own_lines (at_hand self.old pid call.now) self.old (call_lines self.old pid call.now)) }
    {
        match call {
            Call::Alloc { at, n } => self.alloc(pid, *at, *n, out),
            Call::Make { addr, size, mode } => self.make(pid, *addr, *size, *mode, out),
            Call::Remove { segid } => self.remove(pid, *segid, out),
        }
    }

    // Maps the lowest unused frames from a page on, or refuses.
    fn alloc(&mut self, pid: Pid, at: Vpn, n: u32, out: &mut Lines) -> Result<(), AllocError>
        requires page { IsWithin 1 16777215 at.0 }
        requires count { IsWithin 1 4096 n }
        ensures lines { OnOk result (out.new ≡ out.old ++ steps.alloc_lines self.old pid at n) }
        ensures after { OnOk result ((hand : Hand) → self.new ≡ own_lines hand self.old (steps.alloc_lines self.old pid at n)) }
    {
        let Some(space) = self.memory.space(pid) else {
            return refuse(Cause::NoProcess, out);
        };
        if self.memory.is_busy(pid) {
            return refuse(Cause::Busy, out);
        }
        if at.0 + n > PAGES {
            return refuse(Cause::BadRange, out);
        }
        if is_taken(space, at, n) {
            return refuse(Cause::Taken, out);
        }
        self.give(pid, at, n, out)
    }

    // Maps the lowest unused frames from a page on, where there are enough. For want of memory none is handed out.
    fn give(&mut self, pid: Pid, at: Vpn, n: u32, out: &mut Lines) -> Result<(), AllocError>
        requires low { 1 ≤ at.0 }
        requires high { at.0 + n ≤ 2 ^ 24 }
        requires room { HasRoom self.old.memory pid.0 at.0 n }
        ensures lines { OnOk result (out.new ≡ out.old ++ spec.given_lines self.old pid at n) }
        ensures after { OnOk result ((hand : Hand) → self.new ≡ own_lines hand self.old (spec.given_lines self.old pid at n)) }
    {
        match self.memory.give(pid, at, n) {
            Ok(frames) => out.push(Line::Alloc {
                enclave: self.me,
                pid,
                at,
                frames,
            }),
            Err(ExportFault::NoFrames) => refuse(Cause::NoFrames, out),
            Err(ExportFault::Memory) => Err(AllocError),
        }
    }

    // Why a process that lives can't make a call now.
    fn unready(&self, pid: Pid) -> Option<Cause>
        ensures { result ≡ segments.unready self.now pid }
    {
        if !self.admitted {
            return Some(Cause::NotReady);
        }
        if self.memory.is_busy(pid) {
            return Some(Cause::Busy);
        }
        None
    }

    // Issues a make and asks for its name, or refuses.
    fn make(
        &mut self,
        pid: Pid,
        addr: u64,
        size: u64,
        mode: u16,
        out: &mut Lines,
    ) -> Result<(), AllocError>
        ensures lines { OnOk result (out.new ≡ out.old ++ make_lines self.old pid addr size mode) }
        ensures after { OnOk result (self.new ≡ own_lines (at_hand self.old pid (calls.Make addr size mode)) self.old (make_lines self.old pid addr size mode)) }
    {
        if self.memory.space(pid).is_none() {
            return refuse(Cause::NoProcess, out);
        }
        if let Some(cause) = self.unready(pid) {
            return refuse(cause, out);
        }
        match region(addr, size) {
            Ok((first, n)) => self.make_pages(pid, first, n, mode, out),
            Err(cause) => refuse(cause, out),
        }
    }

    // Issues a make of pages of a process and asks for its name, or refuses where not all of them are own ones.
    fn make_pages(
        &mut self,
        pid: Pid,
        first: Vpn,
        n: u32,
        mode: u16,
        out: &mut Lines,
    ) -> Result<(), AllocError>
        requires lives { IsSome (at self.old.memory.processes pid.0) }
        requires idle { is_busy self.old.memory pid.0 ≡ false }
        requires most { n ≤ 4096 }
        requires high { first.0 + n ≤ 2 ^ 24 }
        ensures lines { (addr size : ℕ) → addr / 4096 ≡ first.0 → size / 4096 ≡ n → OnOk result (out.new ≡ out.old ++ spec.made_of self.old pid addr size mode) }
        ensures after { (addr size : ℕ) → addr / 4096 ≡ first.0 → size / 4096 ≡ n → OnOk result (self.new ≡ own_lines (at_hand self.old pid (calls.Make addr size mode)) self.old (spec.made_of self.old pid addr size mode)) }
    {
        let Some(call) = self.memory.make(pid, first, n, mode)? else {
            return refuse(Cause::NotMapped, out);
        };
        out.push(Line::Issue {
            enclave: self.me,
            pid,
            call,
        })?;
        self.ask_name(call, out)
    }

    // Ends a segment of a process, or refuses.
    fn remove(&mut self, pid: Pid, segid: Segid, out: &mut Lines) -> Result<(), AllocError>
        ensures lines { OnOk result (out.new ≡ out.old ++ remove_lines self.old pid segid) }
        ensures after { OnOk result ((hand : Hand) → self.new ≡ own_lines hand self.old (remove_lines self.old pid segid)) }
    {
        if self.memory.space(pid).is_none() {
            return refuse(Cause::NoProcess, out);
        }
        if let Some(cause) = self.unready(pid) {
            return refuse(cause, out);
        }
        let Some(segment) = self.memory.segment(segid) else {
            return refuse(Cause::NoSegment, out);
        };
        if segment.pid.0 != pid.0 {
            return refuse(Cause::NotOwner, out);
        }
        self.end_segment(segid, segment.call, out)
    }

    // Ends a live segment, which a make of that number exported.
    fn end_segment(&mut self, segid: Segid, call: CallNo, out: &mut Lines) -> Result<(), AllocError>
        requires { option_map (λ row. row.0) (live_export self.old.exports (segid_number segid)) ≡ Some call.0 }
        ensures lines { OnOk result (out.new ≡ out.old ++ segments.remove_acts self.old segid) }
        ensures after { OnOk result ((hand : Hand) → self.new ≡ own_lines hand self.old (segments.remove_acts self.old segid)) }
    {
        self.memory.end_segment(segid, call);
        out.push(Line::Remove {
            enclave: self.me,
            segid,
        })?;
        self.tell_removed(call, segid, out)
    }
}
