// The processes of an enclave and the frames of its blocks: what is handed out, exported and given back.
ghost use Rattle.std.specs.Prelude.{◌≡◌, ◌+◌, ◌<◌, ◌≤◌, ◌^◌, ◌↔◌, ◌++◌, false, None, length, take, option_map, is_some, if◌then◌else◌, Some, IsSome, IfSome, IfOk, OnOk, OnErr, IsErrOf, All};
ghost use Rattle.xm_num.specs.Rows.{at, put_all};
ghost use Rattle.page_table.specs.Spaces.{owned};
ghost use Rattle.attach_map.specs.Attaching.{pages_in, with_pages_in, call_issued};
ghost use Rattle.exporter_pins.specs.Holdings.{live_export, segment_of};
ghost use Rattle.enclave_rules.specs.Pages.{AreBlocks};
ghost use Rattle.enclave_rules.specs.Exports.{segid_number, is_segid};
ghost use Rattle.enclave_rules.specs.Memory as memory;
ghost use Rattle.enclave_rules.specs.Segments as segments;
ghost use Rattle.enclave_node.specs.Estates as spec;
ghost use Rattle.enclave_node.specs.Layout.{HasRoom};

mod gets;

use crate::frames::all_frames;
use crate::spaces::own_frames;
use attach_map::{Attacher, Pending, Waiting};
use exporter_pins::{ExportFault, Exporter, Segment, export_laws};
use page_table::{AddressSpace, MapFault};
use std::alloc::{AllocError, Global};
use std::marker::Model;
use xm_num::laws::{row_laws, rows};
use xm_num::{BlockList, CallNo, Frame, FrameList, Page, Pid, Segid, Vpn};

/// The processes of an enclave with their pages and calls, and the frames and exports of its blocks. It can't be let go:
/// `close` ends it.
pub struct Memory<A: AddressSpace> {
    alloc: Global,
    blocks: BlockList,
    attacher: Attacher<A>,
    exporter: Exporter,
}

impl<A: AddressSpace> Model for Memory<A> {
    ghost use Rattle.enclave_node.specs.Estates.{Estate};
    ghost use Rattle.enclave_node.specs.Layout.{AreTied};

    ghost Value = { Estate };

    ghost view = { λ m. record { blocks = m.blocks; memory = m.attacher; exports = m.exporter.exports; grants = m.exporter.grants } };

    ghost invariant = { λ m. AreTied m.blocks m.exporter m.attacher };
}

// Gives frames of a process back.
fn free_all(exporter: &mut Exporter, pid: Pid, frames: &[Frame])
    requires { spec.HasAll exporter.old.owners pid.0 frames.now }
    ensures { exporter.new ≡ spec.freed frames.now exporter.old }
{
    for frame in frames {
        exporter.free(pid, *frame);
    }
}

// Maps own pages of a process to frames that it was given. For want of memory it gives them back.
fn own_or_free<A: AddressSpace>(
    attacher: &mut Attacher<A>,
    exporter: &mut Exporter,
    pid: Pid,
    at: Vpn,
    frames: &[Frame],
) -> Result<(), AllocError>
    requires low { 1 ≤ at.0 }
    requires high { at.0 + length frames.now ≤ 2 ^ 24 }
    requires room { HasRoom attacher.old pid.0 at.0 (length frames.now) }
    requires given { spec.HasAll exporter.old.owners pid.0 frames.now }
    ensures ok { OnOk result (attacher.new ≡ with_pages_in attacher.old pid.0 (put_all (pages_in attacher.old pid.0) at.0 (owned frames.now))) }
    ensures ok_exporter { OnOk result (exporter.new ≡ exporter.old) }
    ensures err { OnErr result (attacher.new ≡ attacher.old) }
    ensures err_exporter { OnErr result (exporter.new ≡ spec.freed frames.now exporter.old) }
{
    rows::<Page>();
    match attacher.own(pid, at, frames) {
        Ok(()) => Ok(()),
        Err(MapFault::Memory) => {
            free_all(exporter, pid, frames);
            Err(AllocError)
        }
        Err(MapFault::Taken(_)) => unreachable!(),
    }
}

// Issues a make that exports these frames of its process. For want of memory nothing changes.
fn issue_make<A: AddressSpace>(
    attacher: &mut Attacher<A>,
    exporter: &mut Exporter,
    pid: Pid,
    mode: u16,
    frames: &[Frame],
) -> Result<CallNo, AllocError>
    requires lives { IsSome (at attacher.old.processes pid.0) }
    requires idle { memory.is_busy attacher.old pid.0 ≡ false }
    requires new_call { at exporter.old.exports (attacher.old.issued + 1) ≡ None }
    requires most { length frames.now ≤ 4096 }
    requires own { All (λ frame. at exporter.old.owners frame.0 ≡ Some pid.0) frames.now }
    ensures call { IfOk result (λ call. call.0 ≡ attacher.old.issued + 1) }
    ensures ok { OnOk result (attacher.new ≡ call_issued attacher.old pid Pending.Make) }
    ensures ok_exporter { OnOk result (exporter.new ≡ spec.with_asked_for attacher.old pid.0 mode frames.now exporter.old) }
    ensures err { OnErr result (attacher.new ≡ attacher.old) }
    ensures err_exporter { OnErr result (exporter.new ≡ exporter.old) }
{
    let (uid, gid) = attacher.user(pid).unwrap();
    if attacher.issued() == u32::MAX {
        return Err(AllocError);
    }
    let call = CallNo(attacher.issued() + 1);
    exporter.export(call, pid, uid, gid, mode, frames)?;
    if let Err(error) = attacher.issue(pid, Pending::Make) {
        exporter.withdraw(call);
        return Err(error);
    }
    Ok(call)
}

/// Whether the number isn't negative. No other is a segid.
pub fn is_segid(segid: Segid) -> bool
    ensures { result ≡ is_segid segid }
{
    segid.0 >= 0
}

// Whether the call is a make of a living process.
fn is_waiting_make(waiting: &Waiting) -> bool
    ensures { result ≡ segments.is_waiting_make waiting.now }
{
    match waiting.what {
        Pending::Make => waiting.living,
        Pending::Lookup { .. } => false,
        Pending::GetFrom { .. } => false,
    }
}

impl<A: AddressSpace> Memory<A> {
    /// The frames of these blocks, all unused, and no process.
    pub fn new(alloc: Global, blocks: BlockList) -> Result<Memory<A>, AllocError>
        requires { AreBlocks blocks }
        ensures { IfOk result (λ memory. memory ≡ spec.new_estate blocks) }
    {
        let frames = all_frames(alloc, blocks.as_slice())?;
        let exporter = Exporter::new(alloc, frames.as_slice())?;
        Ok(Memory {
            alloc,
            blocks,
            attacher: Attacher::new(alloc)?,
            exporter,
        })
    }

    /// Starts a process. A number past the last one of 32 bits counts as want of memory.
    pub fn start(&mut self, uid: u32, gid: u32) -> Result<Pid, AllocError>
        ensures pid { IfOk result (λ pid. pid.0 ≡ self.old.memory.started + 1) }
        ensures ok { OnOk result (self.new ≡ spec.with_start uid gid self.old) }
        ensures err { OnErr result (self.new ≡ self.old) }
    {
        if self.attacher.started() == u32::MAX {
            return Err(AllocError);
        }
        self.attacher.start(uid, gid)
    }

    /// The space of a living process.
    pub fn space(&self, pid: Pid) -> Option<&A>
        ensures { option_map (λ space. A.pages space.now) result ≡ option_map (λ process. process.pages) (at self.now.memory.processes pid.0) }
    {
        self.attacher.space(pid)
    }

    /// Whether a call of the process waits.
    pub fn is_busy(&self, pid: Pid) -> bool
        ensures { result ≡ memory.is_busy self.now.memory pid.0 }
    {
        self.attacher.busy(pid).is_some()
    }

    /// Maps the lowest unused frames of the blocks as own pages of a process from a page on. Where too few are unused, or
    /// for want of memory, nothing changes.
    pub fn give(&mut self, pid: Pid, at: Vpn, n: u32) -> Result<FrameList, ExportFault>
        requires low { 1 ≤ at.0 }
        requires high { at.0 + n ≤ 2 ^ 24 }
        requires room { HasRoom self.old.memory pid.0 at.0 n }
        ensures frames { IfOk result (λ frames. frames ≡ take n (spec.unused_of self.old)) }
        ensures after { OnOk result (self.new ≡ spec.with_lowest pid.0 at.0 n self.old) }
        ensures short { IsErrOf result ExportFault.NoFrames ↔ (length (spec.unused_of self.old) < n) }
        ensures err { OnErr result (self.new ≡ self.old) }
    {
        rows::<Page>();
        row_laws::<Page>();
        row_laws::<u32>();
        let frames = match self.exporter.alloc(pid, n) {
            Ok(frames) => frames,
            Err(fault) => return Err(fault),
        };
        match own_or_free(
            &mut self.attacher,
            &mut self.exporter,
            pid,
            at,
            frames.as_slice(),
        ) {
            Ok(()) => Ok(frames),
            Err(AllocError) => Err(ExportFault::Memory),
        }
    }

    /// Issues a make of `n` own pages of a process from a page on, or answers that not all of them are own ones. A number past
    /// the last one of 32 bits counts as want of memory.
    pub fn make(
        &mut self,
        pid: Pid,
        first: Vpn,
        n: u32,
        mode: u16,
    ) -> Result<Option<CallNo>, AllocError>
        requires lives { IsSome (at self.old.memory.processes pid.0) }
        requires idle { memory.is_busy self.old.memory pid.0 ≡ false }
        requires most { n ≤ 4096 }
        requires high { first.0 + n ≤ 2 ^ 24 }
        ensures mapped { IfOk result (λ call. is_some call ≡ spec.owns_pages self.old.memory pid.0 first.0 n) }
        ensures call { IfOk result (λ call. IfSome call (λ k. k.0 ≡ self.old.memory.issued + 1)) }
        ensures after { IfOk result (λ call. self.new ≡ (if is_some call then spec.with_make pid first.0 n mode self.old else self.old)) }
    {
        row_laws::<Waiting>();
        export_laws();
        let space = self.attacher.space(pid).unwrap();
        let Some(frames) = own_frames(self.alloc, space, first, n)? else {
            return Ok(None);
        };
        let call = issue_make(
            &mut self.attacher,
            &mut self.exporter,
            pid,
            mode,
            frames.as_slice(),
        )?;
        Ok(Some(call))
    }

    /// Makes the export of a make live under a segid, and ends the make, where it waits for that. Answers its process.
    pub fn take_segid(&mut self, call: CallNo, segid: Segid) -> Option<Pid>
        ensures pid { result ≡ spec.taker self.old call.0 segid }
        ensures after { self.new ≡ (if is_some (spec.taker self.old call.0 segid) then spec.with_named_make call (segid_number segid) self.old else self.old) }
    {
        row_laws::<Waiting>();
        export_laws();
        let waiting = self.attacher.waiting(call)?;
        if !is_segid(segid)
            || !is_waiting_make(&waiting)
            || self.exporter.segment(segid).is_some()
        {
            return None;
        }
        self.exporter.settle_name(call, segid);
        self.attacher.settle_reply(call);
        Some(waiting.pid)
    }

    /// The live segment of a segid.
    pub fn segment(&self, segid: Segid) -> Option<Segment>
        ensures { result ≡ option_map segment_of (live_export self.now.exports (segid_number segid)) }
    {
        self.exporter.segment(segid)
    }

    /// Ends the live segment of a segid, which a make of that number exported.
    pub fn end_segment(&mut self, segid: Segid, call: CallNo)
        requires { option_map (λ row. row.0) (live_export self.old.exports (segid_number segid)) ≡ Some call.0 }
        ensures { self.new ≡ spec.with_segment_ended (segid_number segid) self.old }
    {
        export_laws();
        self.exporter.withdraw(call);
    }

    /// Ends the processes.
    pub fn close(self) {
        let Memory {
            alloc: _,
            blocks: _,
            attacher,
            exporter: _,
        } = self;
        attacher.close();
    }
}
