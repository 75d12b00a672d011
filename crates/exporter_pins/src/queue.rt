// Numbers of which the lowest comes first.
ghost use Rattle.std.specs.Prelude.{◌≡◌, ℕ, ◌+◌, ◌<◌, ◌≤◌, ◌==◌, ◌↔◌, ◌^◌, [], length, IsSome, IfSome, IfNone, IfOk, All, if◌then◌else◌};
ghost use Rattle.exporter_pins.specs.Layout.{times};

use std::alloc::{AllocError, Global};
use std::cmp::Reverse;
use std::collections::BinaryHeap;
use std::marker::Model;

// A heap with room for a number of items that was fixed at first, so that an item is added without memory.
#[derive(Drop)]
pub struct LowestFirst {
    heap: BinaryHeap<Reverse<u32>>,
}

impl Model for LowestFirst {
    ghost use Rattle.std.specs.Prelude.{List, map};
    ghost use Rattle.std.specs.Ordering.{nat_cmp};
    ghost use Rattle.std.specs.BinaryHeap.{heap_items, heap_capacity, IsHeap};
    ghost use Rattle.exporter_pins.specs.Layout.{Queue};

    ghost Value = { Queue };

    ghost view = { λ q. record { items = map (λ x. x.0) (heap_items q.heap); room = heap_capacity q.heap } };

    ghost invariant = { λ q. IsHeap (λ x y. nat_cmp y.0 x.0) (heap_items q.heap) };
}

impl LowestFirst {
    // No items, and room for so many.
    pub fn with_room(alloc: Global, room: usize) -> Result<LowestFirst, AllocError>
        ensures items { IfOk result (λ queue. queue.items ≡ []) }
        ensures room { IfOk result (λ queue. room ≤ queue.room) }
    {
        Ok(LowestFirst {
            heap: BinaryHeap::with_capacity(alloc, room)?,
        })
    }

    // How many items there are.
    pub fn len(&self) -> usize
        ensures count { result ≡ length self.now.items }
        ensures small { result < 2 ^ 63 }
    {
        self.heap.as_slice().len()
    }

    // Adds an item, for which there is room.
    pub fn push(&mut self, item: u32)
        requires { length self.old.items < self.old.room }
        ensures len { length self.new.items ≡ length self.old.items + 1 }
        ensures times { (k : ℕ) → times self.new.items k ≡ (if item == k then 1 else 0) + times self.old.items k }
        ensures room { self.old.room ≤ self.new.room }
    {
        let _ = self.heap.push(Reverse(item));
    }

    // The lowest item.
    pub fn lowest(&self) -> Option<u32>
        ensures here { IfSome result (λ item. 0 < times self.now.items item) }
        ensures least { IfSome result (λ item. All (λ x. item ≤ x) self.now.items) }
        ensures none { IfNone result (self.now.items ≡ []) }
    {
        let Reverse(item) = self.heap.peek()?;
        Some(*item)
    }

    // Takes out the lowest item.
    pub fn pop(&mut self) -> Option<u32>
        ensures none { IfNone result (self.new ≡ self.old) }
        ensures some { IsSome result ↔ (0 < length self.old.items) }
        ensures len { IfSome result (λ item. length self.new.items + 1 ≡ length self.old.items) }
        ensures times { IfSome result (λ item. (k : ℕ) → times self.old.items k ≡ (if item == k then 1 else 0) + times self.new.items k) }
        ensures lowest { IfSome result (λ item. All (λ x. item ≤ x) self.old.items) }
        ensures room { self.new.room ≡ self.old.room }
    {
        let Reverse(item) = self.heap.pop()?;
        Some(item)
    }
}
