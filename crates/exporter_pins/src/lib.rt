//! The exporter: which frames of an enclave are free, which its processes have, which are exported, and who was granted what.
//!
//! A frame is free where no process has it and no export. An export is asked for first, and live once its name is known;
//! a frame that its process gives up meanwhile comes free only once no export has it. A grant names a segment, and stands
//! until it is taken back, also where the segment has ended before.
#![tactic(auto)]

ghost use Rattle.std.specs.Prelude.{◌≡◌, ℕ, ◌<◌, ◌≤◌, ◌-◌, ◌^◌, ◌↔◌, pos, nat_abs, true, false, length, take, min, All, Some, None, option_map, is_some, IfSome, IfNone, IfOk, OnOk, OnErr, IsErrOf};
ghost use Rattle.xm_num.specs.Rows.{at};
ghost use Rattle.xm_num.specs.RowLaws.{RowLaws};
ghost use Rattle.holder_table.specs.Holding as holding;
ghost use Rattle.exporter_pins.specs.Holdings as spec;
ghost use Rattle.exporter_pins.specs.Holdings.{Export};

mod exported;
mod frames;
mod free;
mod names;
mod owners;
mod queue;
mod row;
mod rows;

use exported::ExportTable;
use frames::FrameTable;
use holder_table::Holders;
use row::{ExportRow, number};
use std::alloc::{AllocError, Global};
use std::marker::Model;
use thiserror::Error;
use xm_num::laws::row_laws;
use xm_num::{Access, CallNo, Enclave, Frame, FrameList, Pid, Segid};

/// Why frames weren't given.
#[derive(Clone, Copy, Debug, PartialEq, Eq, Error)]
pub enum ExportFault {
    /// Fewer are free.
    #[error("too few free frames")]
    NoFrames,
    /// Memory was wanting.
    #[error("out of memory")]
    Memory,
}

/// Why a get isn't granted.
#[derive(Clone, Copy, Debug, PartialEq, Eq, Error)]
pub enum GrantFault {
    /// No live segment has that name.
    #[error("no such segment")]
    NoSegment,
    /// The user may not have the access.
    #[error("access denied")]
    Denied,
    /// Memory was wanting.
    #[error("out of memory")]
    Memory,
}

/// A live segment: the call that asked for it, the process that made it, and how many pages it has.
#[derive(Clone, Copy, Debug, PartialEq, Eq)]
pub struct Segment {
    pub call: CallNo,
    pub pid: Pid,
    pub pages: u32,
}

/// The frames of an enclave, its exports, and the grants of these.
///
/// Contracts see it as a `Holdings`. A look-up of a frame, a call or a grant takes time logarithmic in those that are
/// kept, one of a name about a step, and a change of `n` frames `n` times a logarithm.
#[derive(Drop)]
pub struct Exporter {
    alloc: Global,
    frames: FrameTable,
    exports: ExportTable,
    grants: Holders<()>,
}

impl Model for Exporter {
    ghost use Rattle.exporter_pins.specs.Holdings.{Holdings};
    ghost use Rattle.exporter_pins.specs.Layout.{AreCounted};

    ghost Value = { Holdings };

    ghost view = { λ e. record { frames = e.frames.frames; owners = e.frames.owners; exports = e.exports; grants = e.grants } };

    ghost invariant = { λ e. AreCounted e.frames.covers e.exports };
}

/// Laws of exports as rows, for the crates above.
pub fn export_laws()
    ensures { RowLaws Export }
{
    row_laws::<ExportRow>();
}

// A list of these frames.
fn listed(alloc: Global, frames: &[Frame]) -> Result<FrameList, AllocError>
    ensures { IfOk result (λ list. list ≡ frames.now) }
{
    let mut list = FrameList::new(alloc);
    for frame in frames {
        list.push(*frame)?;
    }
    Ok(list)
}

impl Exporter {
    /// All frames are free. They ascend.
    pub fn new(alloc: Global, frames: &[Frame]) -> Result<Exporter, AllocError>
        requires { spec.AreAscendingFrames frames.now }
        ensures { IfOk result (λ exporter. exporter ≡ spec.no_holdings frames.now) }
    {
        row_laws::<u64>();
        Ok(Exporter {
            alloc,
            frames: FrameTable::new(alloc, frames)?,
            exports: ExportTable::new(alloc),
            grants: Holders::new(alloc),
        })
    }

    /// Gives the `n` lowest free frames to the process. After an error nothing has changed.
    pub fn alloc(&mut self, pid: Pid, n: u32) -> Result<FrameList, ExportFault>
        ensures list { IfOk result (λ list. list ≡ take n (spec.free_frames self.old)) }
        ensures after { OnOk result (self.new ≡ spec.with_owned pid.0 (take n (spec.free_frames self.old)) self.old) }
        ensures short { IsErrOf result ExportFault.NoFrames ↔ (length (spec.free_frames self.old) < n) }
        ensures err { OnErr result (self.new ≡ self.old) }
    {
        self.frames.take(pid, n)
    }

    /// Takes from the process a frame that it has.
    pub fn free(&mut self, pid: Pid, frame: Frame)
        requires { at self.old.owners frame.0 ≡ Some pid.0 }
        ensures { self.new ≡ spec.without_owner frame.0 self.old }
    {
        self.frames.free(pid, frame);
    }

    /// Takes all its frames from the process, in time that goes with how many it has, times a logarithm.
    pub fn free_process(&mut self, pid: Pid)
        ensures { self.new ≡ spec.without_process pid.0 self.old }
    {
        self.frames.free_process(pid);
    }

    /// Adds an export that is asked for, of frames of the process. The call is new. For want of memory nothing changes.
    pub fn export(
        &mut self,
        call: CallNo,
        pid: Pid,
        uid: u32,
        gid: u32,
        mode: u16,
        frames: &[Frame],
    ) -> Result<(), AllocError>
        requires fresh { at self.old.exports call.0 ≡ None }
        requires most { length frames.now ≤ 4096 }
        requires owned { All (λ frame. at self.old.owners frame.0 ≡ Some pid.0) frames.now }
        ensures after { OnOk result (self.new ≡ spec.with_export call.0 (spec.asked_export pid.0 uid gid mode frames.now) self.old) }
        ensures err { OnErr result (self.new ≡ self.old) }
    {
        let list = listed(self.alloc, frames)?;
        self.frames.cover(frames)?;
        let row = ExportRow::asked(pid, uid, gid, mode, list);
        if let Err(error) = self.exports.insert(call, row) {
            self.frames.uncover(frames);
            return Err(error);
        }
        Ok(())
    }

    /// Makes an export live that is asked for, by a name that no live export has and that isn't below 0. It takes no
    /// memory.
    pub fn settle_name(&mut self, call: CallNo, segid: Segid)
        requires asked { spec.is_asked (at self.old.exports call.0) ≡ true }
        requires unused { spec.live_export self.old.exports (nat_abs segid.0) ≡ None }
        requires natural { segid.0 ≡ pos (nat_abs segid.0) }
        ensures { self.new ≡ spec.with_segid call.0 (nat_abs segid.0) self.old }
    {
        self.exports.settle(call, segid);
    }

    /// Ends an export, live or not, where the call has one. Its frames come free that no process and no other export has.
    pub fn withdraw(&mut self, call: CallNo)
        ensures { self.new ≡ spec.without_export call.0 self.old }
    {
        if let Some(row) = self.exports.remove(call) {
            self.frames.uncover(row.frames());
        }
    }

    /// The live segment of that name.
    pub fn segment(&self, segid: Segid) -> Option<Segment>
        ensures { result ≡ option_map spec.segment_of (spec.live_export self.now.exports (nat_abs segid.0)) }
    {
        self.exports.segment(segid.0.unsigned_abs())
    }

    /// The least name of the live segments of a process, in time that goes with how many exports it asked for, times a
    /// logarithm.
    pub fn lowest_segment(&self, pid: Pid) -> Option<Segid>
        ensures least { IfSome result (λ segid. spec.IsLeastLive self.now.exports pid.0 (nat_abs segid.0)) }
        ensures none { IfNone result ((n : ℕ) → spec.has_live self.now.exports pid.0 n ≡ false) }
        ensures natural { IfSome result (λ segid. segid.0 ≡ pos (nat_abs segid.0)) }
    {
        self.exports.lowest(pid)
    }

    /// Grants the get of that number of an enclave, where the segment is live and its user may have the access, and gives the
    /// segment's pages. The get has no grant. After an error nothing has changed.
    pub fn grant(
        &mut self,
        to: Enclave,
        call: CallNo,
        segid: Segid,
        uid: u32,
        gid: u32,
        access: Access,
    ) -> Result<u32, GrantFault>
        requires { holding.held self.old.grants to.0 call.0 ≡ None }
        ensures pages { IfOk result (λ pages. option_map (λ row. length row.1.frames) (spec.live_export self.old.exports (nat_abs segid.0)) ≡ Some pages) }
        ensures after { OnOk result (self.new ≡ spec.with_grant to call segid self.old) }
        ensures none { IsErrOf result GrantFault.NoSegment ↔ (spec.live_export self.old.exports (nat_abs segid.0) ≡ None) }
        ensures denied { IsErrOf result GrantFault.Denied ↔ (spec.is_denied self.old.exports (nat_abs segid.0) uid gid access ≡ true) }
        ensures err { OnErr result (self.new ≡ self.old) }
    {
        let Some((pages, permitted)) = self.exports.permit(number(segid), uid, gid, access) else {
            return Err(GrantFault::NoSegment);
        };
        if !permitted {
            return Err(GrantFault::Denied);
        }
        self.grants
            .insert(to, call, segid, ())
            .map_err(|_| GrantFault::Memory)?;
        Ok(pages)
    }

    /// Takes a grant back, and tells whether it was there.
    pub fn ungrant(&mut self, to: Enclave, call: CallNo) -> bool
        ensures was { result ≡ is_some (holding.held self.old.grants to.0 call.0) }
        ensures after { self.new ≡ spec.without_grant to call self.old }
    {
        self.grants.remove(to, call)
    }

    /// Whether the get of that number of an enclave has a grant.
    pub fn has_grant(&self, to: Enclave, call: CallNo) -> bool
        ensures { result ≡ is_some (holding.held self.now.grants to.0 call.0) }
    {
        self.grants.has(to, call)
    }

    /// Whether some grant names the segid, whose segment may have ended.
    pub fn is_granted(&self, segid: Segid) -> bool
        ensures { result ≡ holding.is_named self.now.grants segid.0 }
    {
        self.grants.is_named(segid)
    }

    /// The least enclave not below `from` with a grant that names the segid, whose segment may have ended.
    pub fn next_holder(&self, segid: Segid, from: u16) -> Option<Enclave>
        ensures next { IfSome result (λ e. holding.IsNextHolder self.now.grants segid.0 from e.0) }
        ensures none { IfNone result ((e : ℕ) → from ≤ e → holding.is_holder self.now.grants segid.0 e ≡ false) }
    {
        self.grants.next_holder(segid, Enclave(from))
    }

    /// The least number of the gets of an enclave that have a grant.
    pub fn lowest_grant(&self, to: Enclave) -> Option<CallNo>
        ensures least { IfSome result (λ call. holding.IsLeastCall self.now.grants to.0 call.0) }
        ensures none { IfNone result ((c : ℕ) → holding.held self.now.grants to.0 c ≡ None) }
    {
        self.grants.lowest(to)
    }

    /// Takes all grants of an enclave back, in time that goes with how many it has, times a logarithm.
    pub fn forget_enclave(&mut self, gone: Enclave)
        ensures { self.new ≡ spec.without_holder gone self.old }
    {
        self.grants.forget_enclave(gone);
    }

    /// Whether some export has the frame.
    pub fn holds(&self, frame: Frame) -> bool
        ensures { result ≡ spec.is_covered self.now.exports frame.0 }
    {
        self.frames.is_covered(frame)
    }

    /// How many frames are free, at most as many as the type counts.
    pub fn free_count(&self) -> u32
        ensures { result ≡ min (length (spec.free_frames self.now)) (2 ^ 32 - 1) }
    {
        self.frames.free_count().min(4_294_967_295) as u32
    }
}
