//! The frames of a virtual machine, which is a guest: it has names of its own for them, and its monitor knows what they name.
//!
//! A guest names its frames from 0 on: first its own memory, block by block, and then what its monitor admits for it. That
//! gets fresh guest frames, which are drawn upwards and never used again.
#![tactic(auto)]

ghost use Rattle.std.specs.Prelude.{◌≡◌, ◌+◌, ◌-◌, ◌<◌, ◌≤◌, ◌^◌, length, None, is_some, option_map, IfOk, OnOk, OnErr};
ghost use Rattle.xm_num.specs.Rows.{at};
ghost use Rattle.guest_map.specs.Guests as spec;

mod entry;
mod lasts;
pub mod laws;
mod list;

use entry::EntryRow;
use lasts::Lasts;
use list::listed;
use number_pairs::Pairs;
use std::alloc::{AllocError, Global};
use std::collections::BTreeMap;
use std::marker::Model;
use xm_num::laws::row_laws;
use xm_num::{Block, BlockList, CallNo, Enclave, Frame};

/// What a guest names the frames of the machine.
///
/// Contracts see it as a `GuestState`. A look-up takes time logarithmic in the entries. To admit or to drop one takes that,
/// and time that goes with its frames.
#[derive(Drop)]
pub struct GuestMap {
    alloc: Global,
    blocks: BlockList,
    next_fresh: u32,
    // The entries by their calls.
    admitted: BTreeMap<u32, EntryRow>,
    // Their calls by their last guest frames. An entry that has a guest frame is the first that ends from there on.
    lasts: Lasts,
    // The calls of each owner.
    by_owner: Pairs,
}

impl Model for GuestMap {
    ghost use Rattle.guest_map.specs.Guests.{GuestState};
    ghost use Rattle.guest_map.specs.Index.{IsKept};

    ghost Value = { GuestState };

    ghost view = { λ m. record { blocks = m.blocks; next_fresh = m.next_fresh; entries = m.admitted.entries } };

    ghost invariant = { λ m. IsKept (record { blocks = m.blocks; next_fresh = m.next_fresh; entries = m.admitted.entries }) m.lasts m.by_owner };
}

// The frame that a guest frame of own memory names.
fn own_frame(blocks: &BlockList, guest: u32) -> Option<Frame>
    ensures { result ≡ spec.own_machine blocks.now guest }
{
    let block = blocks.get((guest / 64) as usize)?;
    Some(Frame(u32::from(block.0) * 64 + guest % 64))
}

#[tactic(auto, unfolding(xm_num::specs::Rows::at, xm_num::specs::Rows::put, xm_num::specs::Rows::less))]
impl GuestMap {
    /// A guest of these blocks, for which nothing is admitted.
    pub fn boot(alloc: Global, blocks: &[Block]) -> Result<GuestMap, AllocError>
        requires { length blocks.now ≤ 4096 }
        ensures { IfOk result (λ map. map ≡ spec.own_memory blocks.now) }
    {
        row_laws::<EntryRow>();
        row_laws::<u32>();
        Ok(GuestMap {
            alloc,
            blocks: listed(alloc, blocks)?,
            next_fresh: 64 * blocks.len() as u32,
            admitted: BTreeMap::new(alloc),
            lasts: Lasts::new(alloc),
            by_owner: Pairs::new(alloc),
        })
    }

    /// How many fresh guest frames are left.
    pub fn room(&self) -> u32
        ensures left { self.now.next_fresh + result ≡ 2 ^ 32 - 1 }
        ensures guest { spec.IsGuest self.now }
    {
        u32::MAX - self.next_fresh
    }

    // Keeps what a call admitted, and draws its guest frames. For want of memory nothing changes.
    fn keep(&mut self, call: u32, entry: EntryRow) -> Result<(), AllocError>
        requires fresh { at self.old.entries call ≡ None }
        requires next { entry.first ≡ self.old.next_fresh }
        ensures after { OnOk result (self.new ≡ spec.with_entry call entry.owner entry.frames self.old) }
        ensures err { OnErr result (self.new ≡ self.old) }
    {
        row_laws::<EntryRow>();
        row_laws::<u32>();
        let (owner, last, end) = (entry.owner(), entry.last(), entry.end());
        self.by_owner.insert(owner, call)?;
        if let Err(error) = self.lasts.insert(last, call) {
            self.by_owner.remove(owner, call);
            return Err(error);
        }
        if let Err(error) = self.admitted.insert(call, entry) {
            self.lasts.remove(last);
            self.by_owner.remove(owner, call);
            return Err(error.into());
        }
        self.next_fresh = end;
        Ok(())
    }

    /// Admits frames of the owner's for a call, and gives the guest frame that names the first of them. The others are named
    /// by those behind it. After an error nothing has changed.
    pub fn admit(
        &mut self,
        owner: Enclave,
        call: CallNo,
        frames: &[Frame],
    ) -> Result<Frame, AllocError>
        requires fresh { at self.old.entries call.0 ≡ None }
        requires room { self.old.next_fresh + length frames.now < 2 ^ 32 }
        ensures first { IfOk result (λ first. first.0 ≡ self.old.next_fresh) }
        ensures after { OnOk result (self.new ≡ spec.with_entry call.0 owner frames.now self.old) }
        ensures err { OnErr result (self.new ≡ self.old) }
    {
        let first = self.next_fresh;
        let entry = EntryRow::new(self.alloc, owner, first, frames)?;
        self.keep(call.0, entry)?;
        Ok(Frame(first))
    }

    /// Whether something is admitted for the call.
    pub fn has(&self, call: CallNo) -> bool
        ensures { result ≡ is_some (at self.now.entries call.0) }
    {
        self.admitted.contains_key(&call.0)
    }

    /// Drops what was admitted for the call, and tells whether something was.
    pub fn drop_key(&mut self, call: CallNo) -> bool
        ensures was { result ≡ is_some (at self.old.entries call.0) }
        ensures after { self.new ≡ spec.without_entry call.0 self.old }
    {
        row_laws::<EntryRow>();
        row_laws::<u32>();
        let Some(entry) = self.admitted.remove(&call.0) else {
            return false;
        };
        self.lasts.remove(entry.last());
        self.by_owner.remove(entry.owner(), call.0);
        true
    }

    /// The least call for which something is admitted.
    pub fn lowest(&self) -> Option<CallNo>
        ensures { result ≡ option_map spec.call_numbered (spec.lowest_call self.now) }
    {
        let (call, _) = self.admitted.first_key_value()?;
        Some(CallNo(*call))
    }

    /// The least call for which something of the owner's is admitted.
    pub fn lowest_of(&self, owner: Enclave) -> Option<CallNo>
        ensures call { result ≡ option_map spec.call_numbered (spec.lowest_call_of owner self.now) }
        ensures guest { spec.IsGuest self.now }
    {
        row_laws::<EntryRow>();
        let call = self.by_owner.next(u32::from(owner.0), None)?;
        Some(CallNo(call))
    }

    /// Drops what was admitted of the owner's, in time that goes with what it has, times a logarithm.
    pub fn drop_owner(&mut self, owner: Enclave)
        ensures { self.new ≡ spec.without_owner owner self.old }
    {
        row_laws::<EntryRow>();
        while let Some(call) = self.lowest_of(owner) {
            let _ = self.drop_key(call);
        }
    }

    // The frame that an admitted guest frame names.
    fn admitted_frame(&self, guest: u32) -> Option<Frame>
        ensures { result ≡ spec.admitted_machine self.now.entries guest }
    {
        row_laws::<EntryRow>();
        row_laws::<u32>();
        let (_, call) = self.lasts.next_from(guest)?;
        self.admitted.get(&call)?.machine(guest)
    }

    /// The frame of the machine that a guest frame names. There is none exactly where it is neither own nor admitted.
    pub fn to_machine(&self, guest: Frame) -> Option<Frame>
        ensures frame { result ≡ spec.to_machine self.now guest.0 }
        ensures guest { spec.IsGuest self.now }
    {
        match own_frame(&self.blocks, guest.0) {
            Some(frame) => Some(frame),
            None => self.admitted_frame(guest.0),
        }
    }
}
