// Bytes that come and go by whole slices.
ghost use Rattle.std.specs.Prelude.{◌≡◌, ◌≤◌, ◌↔◌, [], ◌++◌, length, take, drop, slice_get, vec_len, IsTrue, OnOk, OnErr};

use std::alloc::{AllocError, Global};
use std::marker::Model;

// The bytes that wait, oldest first.
//
// Those that have left stay in front, and a take lets them go once they are half of all: so a byte is moved a constant
// number of times.
#[derive(Drop)]
pub struct Bytes {
    bytes: Vec<u8>,
    // How many at the front have left.
    gone: usize,
}

impl Model for Bytes {
    ghost use Rattle.std.specs.Prelude.{ℕ, ◌≤◌, List, drop, vec_len};

    ghost Value = { List ℕ };

    ghost view = { λ b. drop b.gone b.bytes.items };

    ghost invariant = { λ b. b.gone ≤ vec_len b.bytes };
}

// Drops the first `n` bytes.
fn drop_front(bytes: &mut Vec<u8>, n: usize)
    requires { n ≤ vec_len bytes.old }
    ensures { bytes.new.items ≡ drop n bytes.old.items }
{
    let left = bytes.len() - n;
    bytes.copy_within(n.., 0);
    bytes.truncate(left);
}

impl Bytes {
    // It takes no memory yet.
    pub fn new(alloc: Global) -> Bytes
        ensures { result ≡ [] }
    {
        Bytes {
            bytes: Vec::new(alloc),
            gone: 0,
        }
    }

    fn as_slice(&self) -> &[u8]
        ensures { result.now ≡ self.now }
    {
        &self.bytes[self.gone..]
    }

    pub fn len(&self) -> usize
        ensures { result ≡ length self.now }
    {
        self.as_slice().len()
    }

    pub fn is_empty(&self) -> bool
        ensures { IsTrue result ↔ (self.now ≡ []) }
    {
        self.as_slice().is_empty()
    }

    pub fn get(&self, i: usize) -> Option<u8>
        ensures { result ≡ slice_get self.now i }
    {
        self.as_slice().get(i).copied()
    }

    // For want of memory the bytes stay as they were.
    pub fn append(&mut self, bytes: &[u8]) -> Result<(), AllocError>
        ensures ok { OnOk result (self.new ≡ self.old ++ bytes.now) }
        ensures err { OnErr result (self.new ≡ self.old) }
    {
        self.bytes.extend_from_slice(bytes)
    }

    // Moves the first `count` bytes into the front of `into`.
    pub fn take_front(&mut self, into: &mut [u8], count: usize)
        requires waits { count ≤ length self.old }
        requires room { count ≤ length into.old }
        ensures moved { into.new ≡ take count self.old ++ drop count into.old }
        ensures rest { self.new ≡ drop count self.old }
    {
        into[..count].copy_from_slice(&self.as_slice()[..count]);
        self.gone += count;
        self.make_room();
    }

    // Lets the bytes that have left go once they are half of all.
    fn make_room(&mut self)
        ensures { self.new ≡ self.old }
    {
        if self.gone < self.bytes.len() - self.gone {
            return;
        }
        drop_front(&mut self.bytes, self.gone);
        self.gone = 0;
    }

    // Leaves the first `n` bytes.
    pub fn truncate(&mut self, n: usize)
        requires { n ≤ length self.old }
        ensures { self.new ≡ take n self.old }
    {
        self.bytes.truncate(self.gone + n);
    }
}
