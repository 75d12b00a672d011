// The frames: which are free, which process has each, and how many exports have each.
ghost use Rattle.std.specs.Prelude.{◌≡◌, ℕ, ◌+◌, ◌<◌, ◌≤◌, ◌^◌, ◌==◌, ◌&&◌, ◌↔◌, [], ◌∷◌, ◌++◌, ◌||◌, true, false, length, take, drop, slice_get, min, All, IsSome, IfOk, OnOk, OnErr, IsErrOf, None, Some, if◌then◌else◌};
ghost use Rattle.xm_num.specs.Rows as rows;
ghost use Rattle.exporter_pins.specs.Holdings.{AreAscendingFrames, has_frame, own_all, owned_by_others};
ghost use Rattle.exporter_pins.specs.Layout.{free_in, cover_at, has_cover, times, frame_times, is_owner};

use crate::ExportFault;
use crate::free::FreeFrames;
use crate::owners::Owners;
use crate::rows::Rows;
use std::alloc::{AllocError, Global};
use std::marker::Model;
use xm_num::laws::row_laws;
use xm_num::{Frame, FrameList, Pid};

// The frames of an enclave, seen as a `FrameUse`.
#[derive(Drop)]
pub struct FrameTable {
    alloc: Global,
    owners: Owners,
    // How many exports have each frame that some have.
    covers: Rows<u64>,
    free: FreeFrames,
}

impl Model for FrameTable {
    ghost use Rattle.exporter_pins.specs.Layout.{FrameUse, IsIndexed};

    ghost Value = { FrameUse };

    ghost view = { λ t. record { frames = t.owners.frames; owners = t.owners.rows; covers = t.covers } };

    ghost invariant = { λ t. IsIndexed (record { frames = t.owners.frames; owners = t.owners.rows; covers = t.covers }) t.free };
}

// How many exports have the frame.
fn cover(covers: &Rows<u64>, number: u32) -> u64
    ensures { result ≡ cover_at covers.now number }
{
    covers.get(number).unwrap_or(0)
}

impl FrameTable {
    // The frames, all of them free.
    pub fn new(alloc: Global, frames: &[Frame]) -> Result<FrameTable, AllocError>
        requires { AreAscendingFrames frames.now }
        ensures { IfOk result (λ table. table ≡ record { frames = frames.now; owners = []; covers = [] }) }
    {
        row_laws::<u32>();
        Ok(FrameTable {
            alloc,
            owners: Owners::new(alloc, frames)?,
            covers: Rows::new(alloc),
            free: FreeFrames::new(alloc, frames)?,
        })
    }

    // How many frames are free.
    pub fn free_count(&self) -> usize
        ensures count { result ≡ length (free_in self.now) }
        ensures ascending { rows.IsAscending self.now.owners }
    {
        self.free.len()
    }

    // Whether the process has the frame.
    fn has(&self, pid: Pid, frame: Frame) -> bool
        ensures { result ≡ is_owner pid.0 (rows.at self.now.owners frame.0) }
    {
        match self.owners.get(frame.0) {
            Some(owner) => owner == pid.0,
            None => false,
        }
    }

    // Whether some export has the frame.
    pub fn is_covered(&self, frame: Frame) -> bool
        ensures { result ≡ has_cover self.now.covers frame.0 }
    {
        cover(&self.covers, frame.0) != 0
    }

    // Gives the lowest free frame to the process. Where none is free, or for want of memory, nothing changes.
    fn take_lowest(&mut self, pid: Pid) -> Result<Frame, AllocError>
        ensures first { IfOk result (λ frame. free_in self.old ≡ frame ∷ free_in self.new) }
        ensures owners { IfOk result (λ frame. self.new.owners ≡ rows.put self.old.owners frame.0 pid.0) }
        ensures fresh { IfOk result (λ frame. rows.at self.old.owners frame.0 ≡ None) }
        ensures frames { self.new.frames ≡ self.old.frames }
        ensures covers { self.new.covers ≡ self.old.covers }
        ensures err { OnErr result (self.new ≡ self.old) }
        ensures ascending { rows.IsAscending self.old.owners }
    {
        row_laws::<u32>();
        let Some(number) = self.free.pop() else {
            return Err(AllocError);
        };
        if let Err(error) = self.owners.insert(number, pid.0) {
            self.free.push(number);
            return Err(error);
        }
        Ok(Frame(number))
    }

    // Takes the frame from its process.
    pub fn free(&mut self, pid: Pid, frame: Frame)
        requires { rows.at self.old.owners frame.0 ≡ Some pid.0 }
        ensures owners { self.new.owners ≡ rows.less self.old.owners frame.0 }
        ensures frames { self.new.frames ≡ self.old.frames }
        ensures covers { self.new.covers ≡ self.old.covers }
        ensures ascending { rows.IsAscending self.new.owners }
        ensures was_ascending { rows.IsAscending self.old.owners }
    {
        row_laws::<u32>();
        self.owners.remove(frame.0, pid.0);
        if cover(&self.covers, frame.0) == 0 {
            self.free.push(frame.0);
        }
    }

    // One export more has the frame, which a process has. For want of memory nothing changes.
    fn cover_one(&mut self, frame: Frame) -> Result<(), AllocError>
        requires { IsSome (rows.at self.old.owners frame.0) }
        ensures ok { OnOk result ((k : ℕ) → cover_at self.new.covers k ≡ (if frame.0 == k then 1 else 0) + cover_at self.old.covers k) }
        ensures err { OnErr result (self.new ≡ self.old) }
        ensures frames { self.new.frames ≡ self.old.frames }
        ensures owners { self.new.owners ≡ self.old.owners }
    {
        row_laws::<u64>();
        let count = cover(&self.covers, frame.0);
        let Some(more) = count.checked_add(1) else {
            return Err(AllocError);
        };
        self.covers.insert(frame.0, more)
    }

    // One export less has the frame.
    fn uncover_one(&mut self, frame: Frame)
        requires { 0 < cover_at self.old.covers frame.0 }
        ensures covers { (k : ℕ) → cover_at self.old.covers k ≡ (if frame.0 == k then 1 else 0) + cover_at self.new.covers k }
        ensures frames { self.new.frames ≡ self.old.frames }
        ensures owners { self.new.owners ≡ self.old.owners }
    {
        row_laws::<u64>();
        let count = cover(&self.covers, frame.0);
        if count > 1 {
            self.covers.replace(frame.0, count - 1);
            return;
        }
        self.covers.remove(frame.0);
        if self.owners.get(frame.0).is_none() {
            self.free.push(frame.0);
        }
    }

    // One export less has each of these frames.
    pub fn uncover(&mut self, frames: &[Frame])
        requires { (k : ℕ) → frame_times frames.now k ≤ cover_at self.old.covers k }
        ensures covers { (k : ℕ) → cover_at self.old.covers k ≡ frame_times frames.now k + cover_at self.new.covers k }
        ensures frames { self.new.frames ≡ self.old.frames }
        ensures owners { self.new.owners ≡ self.old.owners }
    {
        for frame in frames {
            self.uncover_one(*frame);
        }
    }

    // One export more has each of these frames, all of which some process has. For want of memory none has one more.
    pub fn cover(&mut self, frames: &[Frame]) -> Result<(), AllocError>
        requires { (k : ℕ) → has_frame frames.now k ≡ true → IsSome (rows.at self.old.owners k) }
        ensures ok { OnOk result ((k : ℕ) → cover_at self.new.covers k ≡ frame_times frames.now k + cover_at self.old.covers k) }
        ensures err { OnErr result ((k : ℕ) → cover_at self.new.covers k ≡ cover_at self.old.covers k) }
        ensures frames { self.new.frames ≡ self.old.frames }
        ensures owners { self.new.owners ≡ self.old.owners }
    {
        for (i, frame) in frames.iter().enumerate() {
            if let Err(error) = self.cover_one(*frame) {
                self.uncover(&frames[..i]);
                return Err(error);
            }
        }
        Ok(())
    }

    // Takes those of these frames from the process that it has.
    fn give_back(&mut self, pid: Pid, frames: &[Frame])
        ensures owners { (k : ℕ) → rows.at self.new.owners k ≡ (if has_frame frames.now k && is_owner pid.0 (rows.at self.old.owners k) then None else rows.at self.old.owners k) }
        ensures frames { self.new.frames ≡ self.old.frames }
        ensures covers { self.new.covers ≡ self.old.covers }
        ensures ascending { rows.IsAscending self.new.owners }
    {
        row_laws::<u32>();
        let _ = &self.alloc;
        for frame in frames {
            if self.has(pid, *frame) {
                self.free(pid, *frame);
            }
        }
    }

    // Gives the lowest free frame to the process, and lists it. Where none is free, or for want of memory, nothing changes.
    fn take_one(&mut self, pid: Pid, list: &mut FrameList) -> Result<Frame, AllocError>
        ensures first { IfOk result (λ frame. free_in self.old ≡ frame ∷ free_in self.new) }
        ensures list { IfOk result (λ frame. list.new ≡ list.old ++ frame ∷ []) }
        ensures owners { IfOk result (λ frame. self.new.owners ≡ rows.put self.old.owners frame.0 pid.0) }
        ensures fresh { IfOk result (λ frame. rows.at self.old.owners frame.0 ≡ None) }
        ensures frames { self.new.frames ≡ self.old.frames }
        ensures covers { self.new.covers ≡ self.old.covers }
        ensures err { OnErr result (self.new ≡ self.old) }
        ensures err_list { OnErr result (list.new ≡ list.old) }
    {
        row_laws::<u32>();
        let frame = self.take_lowest(pid)?;
        if let Err(error) = list.push(frame) {
            self.free(pid, frame);
            return Err(error);
        }
        Ok(frame)
    }

    // Gives the `n` lowest free frames to the process. After an error nothing has changed.
    pub fn take(&mut self, pid: Pid, n: u32) -> Result<FrameList, ExportFault>
        ensures list { IfOk result (λ list. list ≡ take n (free_in self.old)) }
        ensures owners { IfOk result (λ list. self.new.owners ≡ own_all self.old.owners pid.0 list) }
        ensures short { IsErrOf result ExportFault.NoFrames ↔ (length (free_in self.old) < n) }
        ensures err { OnErr result (self.new ≡ self.old) }
        ensures frames { self.new.frames ≡ self.old.frames }
        ensures covers { self.new.covers ≡ self.old.covers }
    {
        row_laws::<u32>();
        if self.free.len() < n as usize {
            return Err(ExportFault::NoFrames);
        }
        let mut list = FrameList::new(self.alloc);
        for turn in 0..n {
            let Ok(_) = self.take_one(pid, &mut list) else {
                self.give_back(pid, list.as_slice());
                return Err(ExportFault::Memory);
            };
        }
        Ok(list)
    }

    // Takes all its frames from the process.
    pub fn free_process(&mut self, pid: Pid)
        ensures owners { self.new.owners ≡ owned_by_others pid.0 self.old.owners }
        ensures frames { self.new.frames ≡ self.old.frames }
        ensures covers { self.new.covers ≡ self.old.covers }
    {
        row_laws::<u32>();
        while let Some(number) = self.owners.next_of(pid.0) {
            self.free(pid, Frame(number));
        }
    }
}
