// The free frames, of which the lowest comes first.
ghost use Rattle.std.specs.Prelude.{◌≡◌, ℕ, ◌+◌, ◌<◌, ◌≤◌, ◌==◌, ◌↔◌, map, length, IsSome, IfSome, IfNone, IfOk, All, if◌then◌else◌};
ghost use Rattle.exporter_pins.specs.Holdings.{AreAscendingFrames};
ghost use Rattle.exporter_pins.specs.Layout.{times, numbers, is_at_most};

use crate::queue::LowestFirst;
use std::alloc::{AllocError, Global};
use std::marker::Model;
use xm_num::Frame;

// Free frames by their numbers: those that came back, and the last ones of all frames, which were never taken out. There is
// room for all to come back.
#[derive(Drop)]
pub struct FreeFrames {
    back: LowestFirst,
    frames: Vec<Frame>,
    // How many of the frames were taken out once.
    taken: usize,
}

impl Model for FreeFrames {
    ghost use Rattle.std.specs.Prelude.{◌++◌, ◌≤◌, drop, length};
    ghost use Rattle.exporter_pins.specs.Layout.{Queue, numbers};
    ghost use Rattle.exporter_pins.specs.Holdings.{AreAscendingFrames};

    ghost Value = { Queue };

    ghost view = { λ f. record { items = f.back.items ++ numbers (drop f.taken f.frames.items); room = f.back.room } };

    ghost invariant = { λ f. AreAscendingFrames (drop f.taken f.frames.items) × (f.taken ≤ length f.frames.items) };
}

// Whether there is a lowest number, and it is at most that one.
fn is_at_most(lowest: Option<u32>, number: u32) -> bool
    ensures { result ≡ is_at_most lowest number }
{
    match lowest {
        Some(lowest) => lowest <= number,
        None => false,
    }
}

impl FreeFrames {
    // All these frames.
    pub fn new(alloc: Global, frames: &[Frame]) -> Result<FreeFrames, AllocError>
        requires { AreAscendingFrames frames.now }
        ensures items { IfOk result (λ queue. queue.items ≡ numbers frames.now) }
        ensures room { IfOk result (λ queue. length frames.now ≤ queue.room) }
    {
        Ok(FreeFrames {
            back: LowestFirst::with_room(alloc, frames.len())?,
            frames: Vec::from_slice(alloc, frames)?,
            taken: 0,
        })
    }

    // How many there are.
    pub fn len(&self) -> usize
        ensures { result ≡ length self.now.items }
    {
        let all: &[Frame] = &self.frames;
        self.back.len() + (all.len() - self.taken)
    }

    // Adds a frame, for which there is room.
    pub fn push(&mut self, item: u32)
        requires { length self.old.items < self.old.room }
        ensures len { length self.new.items ≡ length self.old.items + 1 }
        ensures times { (k : ℕ) → times self.new.items k ≡ (if item == k then 1 else 0) + times self.old.items k }
        ensures room { self.old.room ≤ self.new.room }
    {
        self.back.push(item);
    }

    // Takes out the lowest frame.
    pub fn pop(&mut self) -> Option<u32>
        ensures none { IfNone result (self.new ≡ self.old) }
        ensures some { IsSome result ↔ (0 < length self.old.items) }
        ensures len { IfSome result (λ item. length self.new.items + 1 ≡ length self.old.items) }
        ensures times { IfSome result (λ item. (k : ℕ) → times self.old.items k ≡ (if item == k then 1 else 0) + times self.new.items k) }
        ensures lowest { IfSome result (λ item. All (λ x. item ≤ x) self.old.items) }
        ensures room { self.new.room ≡ self.old.room }
    {
        let Some(frame) = self.frames.get(self.taken).copied() else {
            return self.back.pop();
        };
        if is_at_most(self.back.lowest(), frame.0) {
            return self.back.pop();
        }
        self.taken += 1;
        Some(frame.0)
    }
}
