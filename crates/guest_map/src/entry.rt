// One entry: what a call admitted.
ghost use Rattle.std.specs.Prelude.{◌≡◌, ◌+◌, ◌<◌, ◌^◌, length, IfOk};
ghost use Rattle.guest_map.specs.Guests.{entry_machine};
ghost use Rattle.guest_map.specs.Index.{last_of};

use crate::list::listed;
use std::alloc::{AllocError, Global};
use std::marker::Model;
use xm_num::{Enclave, Frame, FrameList};

// Whose frames, the guest frame that names the first, and the frames of the machine.
#[derive(Drop)]
pub struct EntryRow {
    owner: Enclave,
    first: u32,
    frames: FrameList,
}

impl Model for EntryRow {
    ghost use Rattle.std.specs.Prelude.{◌+◌, ◌<◌, ◌^◌, length};
    ghost use Rattle.guest_map.specs.Guests.{Entry};

    ghost Value = { Entry };

    ghost view = { λ e. record { owner = e.owner; first = e.first; frames = e.frames } };

    ghost invariant = { λ e. e.first + length e.frames < 2 ^ 32 };
}

impl EntryRow {
    // What is admitted of the owner's frames from that guest frame on.
    pub fn new(
        alloc: Global,
        owner: Enclave,
        first: u32,
        frames: &[Frame],
    ) -> Result<EntryRow, AllocError>
        requires { first + length frames.now < 2 ^ 32 }
        ensures { IfOk result (λ entry. entry ≡ record { owner = owner; first = first; frames = frames.now }) }
    {
        Ok(EntryRow {
            owner,
            first,
            frames: listed(alloc, frames)?,
        })
    }

    // The number of its owner.
    pub fn owner(&self) -> u32
        ensures { result ≡ self.now.owner.0 }
    {
        u32::from(self.owner.0)
    }

    // Its last guest frame, where it has some.
    pub fn last(&self) -> Option<u32>
        ensures { result ≡ last_of self.now }
    {
        let count = self.frames.len() as u32;
        if count == 0 {
            return None;
        }
        Some(self.first + count - 1)
    }

    // The guest frame behind its last one.
    pub fn end(&self) -> u32
        ensures { result ≡ self.now.first + length self.now.frames }
    {
        self.first + self.frames.len() as u32
    }

    // The frame that a guest frame of it names.
    pub fn machine(&self, guest: u32) -> Option<Frame>
        ensures { result ≡ entry_machine self.now guest }
    {
        if guest < self.first {
            return None;
        }
        self.frames.get((guest - self.first) as usize)
    }
}
