// Lists that grow at their end, and that contracts see as lists.
ghost use Rattle.std.specs.Prelude.{◌≡◌, ◌<◌, ◌^◌, [], ◌∷◌, ◌++◌, length, slice_get, OnOk, OnErr};

use crate::{Block, Enclave, Frame};
use std::alloc::{AllocError, Global};
use std::marker::Model;

/// A list of plain values, such as frames.
#[derive(Drop)]
pub struct ItemList<T> {
    items: Vec<T>,
}

/// A list of frames.
pub type FrameList = ItemList<Frame>;

/// A list of blocks.
pub type BlockList = ItemList<Block>;

/// A list of enclaves.
pub type EnclaveList = ItemList<Enclave>;

impl<T> Model for ItemList<T> {
    ghost use Rattle.std.specs.Prelude.{List};

    ghost Value = { List T };

    ghost view = { λ l. l.items.items };
}

impl<T: Copy> ItemList<T> {
    /// The empty list. It takes no memory.
    pub fn new(alloc: Global) -> Self
        ensures { result ≡ [] }
    {
        ItemList {
            items: Vec::new(alloc),
        }
    }

    /// Adds an item at the end. For want of memory the list stays as it was.
    pub fn push(&mut self, item: T) -> Result<(), AllocError>
        ensures ok { OnOk result (self.new ≡ self.old ++ item ∷ []) }
        ensures err { OnErr result (self.new ≡ self.old) }
    {
        self.items.push(item)?;
        Ok(())
    }

    /// How many items there are.
    pub fn len(&self) -> usize
        ensures count { result ≡ length self.now }
        ensures small { result < 2 ^ 63 }
    {
        self.items.len()
    }

    /// The item at that place, from 0, where there is one.
    pub fn get(&self, i: usize) -> Option<T>
        ensures { result ≡ slice_get self.now i }
    {
        self.items.get(i).copied()
    }

    /// All items in order.
    pub fn as_slice(&self) -> &[T]
        ensures { result.now ≡ self.now }
    {
        &self.items
    }
}
