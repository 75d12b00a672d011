//! A byte link: records go in at one end, and their bytes leave at the other, in order.
//!
//! The channel from an enclave to its neighbour is one link. It knows where its records end, so that a receiver can
//! take whole records or any part of them. When the sender dies, the last bytes are cut off, and the end mark follows
//! what still waits.
#![tactic(auto)]

ghost use Rattle.std.specs.Prelude.{◌≡◌, ◌+◌, ◌-◌, ◌^◌, ◌<◌, ◌≤◌, ◌↔◌, false, [], ◌++◌, length, take, drop, min, slice_get, IfOk, OnOk, OnErr, IsTrue};
ghost use Rattle.byte_link.specs.Channel.{fresh, waiting_bytes, boundary_of, sent, taken, ended_less, mark_taken, IsAtEnd};

mod bytes;
mod laws;
mod queues;

use bytes::Bytes;
pub use laws::{
    boundaries_end_records, bytes_follow_calls, bytes_leave_in_order, pieces_follow_calls,
};
use queues::forget_front;
use std::alloc::{AllocError, Global};
use std::collections::VecDeque;
use std::marker::Model;

/// The channel from an enclave to its neighbour: the bytes that wait, oldest first, and where their records end.
///
/// Contracts see it as a `Channel`: a list of pieces, each what waits of one record, and the two bits of the end mark.
#[derive(Drop)]
pub struct Link {
    bytes: Bytes,
    // How much of each record wasn't taken, oldest first. A cut shortens only `bytes`.
    lengths: VecDeque<u32>,
    ended: bool,
    end_taken: bool,
}

impl Model for Link {
    ghost use Rattle.byte_link.specs.Channel.{Channel};
    ghost use Rattle.byte_link.specs.Layout.{shown, IsLaid};

    ghost Value = { Channel };

    ghost view = { λ l. shown l.lengths.items l.bytes l.ended l.end_taken };

    ghost invariant = { λ l. IsLaid l.lengths.items l.bytes l.ended };
}

impl Link {
    /// An empty link that hasn't ended. It takes no memory yet.
    pub fn new(alloc: Global) -> Result<Link, AllocError>
        ensures { IfOk result (λ link. link ≡ fresh) }
    {
        Ok(Link {
            bytes: Bytes::new(alloc),
            lengths: VecDeque::new(alloc),
            ended: false,
            end_taken: false,
        })
    }

    /// Appends the bytes of one record. For want of memory the link stays as it was.
    pub fn send(&mut self, bytes: &[u8]) -> Result<(), AllocError>
        requires filled { 0 < length bytes.now }
        requires not_ended { self.old.ended ≡ false }
        requires fits { length (waiting_bytes self.old) + length bytes.now < 2 ^ 32 }
        ensures ok { OnOk result (self.new ≡ sent self.old bytes.now) }
        ensures err { OnErr result (self.new ≡ self.old) }
    {
        self.lengths.reserve(1)?;
        self.bytes.append(bytes)?;
        self.lengths.push_back_reserved(bytes.len() as u32);
        Ok(())
    }

    /// Moves the oldest bytes out into the front of `into`, as many as wait and find room, and gives their number.
    pub fn take(&mut self, into: &mut [u8]) -> usize
        ensures count { result ≡ min (length into.old) (length (waiting_bytes self.old)) }
        ensures out { into.new ≡ take result (waiting_bytes self.old) ++ drop result into.old }
        ensures rest { self.new ≡ taken self.old result }
    {
        let count = into.len().min(self.bytes.len());
        self.bytes.take_front(into, count);
        forget_front(&mut self.lengths, count as u32);
        count
    }

    /// The number of bytes that wait.
    pub fn waiting(&self) -> u32
        ensures { result ≡ length (waiting_bytes self.now) }
    {
        self.bytes.len() as u32
    }

    /// The number of bytes to the end of the first record that isn't wholly taken, or all that wait where that record
    /// was cut. It is 0 where nothing waits.
    pub fn to_boundary(&self) -> u32
        ensures value { result ≡ boundary_of self.now }
        ensures within { result ≤ length (waiting_bytes self.now) }
        ensures none { (result ≡ 0) ↔ (waiting_bytes self.now ≡ []) }
    {
        match self.lengths.front() {
            Some(length) => (*length).min(self.bytes.len() as u32),
            None => 0,
        }
    }

    /// Cuts off the newest bytes, `cut` or all that wait, sets the end mark and gives the number cut.
    pub fn end(&mut self, cut: u32) -> u32
        requires { self.old.ended ≡ false }
        ensures count { result ≡ min cut (length (waiting_bytes self.old)) }
        ensures rest { self.new ≡ ended_less self.old result }
    {
        let waiting = self.bytes.len();
        let count = cut.min(waiting as u32);
        self.bytes.truncate(waiting - count as usize);
        self.ended = true;
        count
    }

    /// Whether the end mark is set.
    pub fn has_ended(&self) -> bool
        ensures { result ≡ self.now.ended }
    {
        self.ended
    }

    /// Whether the end mark comes next: it is set, nothing waits before it, and it isn't taken.
    pub fn at_end(&self) -> bool
        ensures { IsTrue result ↔ IsAtEnd self.now }
    {
        self.ended && self.bytes.is_empty() && !self.end_taken
    }

    /// Takes the end mark. Nothing leaves the link after it.
    pub fn take_end(&mut self)
        requires { IsAtEnd self.old }
        ensures { self.new ≡ mark_taken self.old }
    {
        self.end_taken = true;
    }

    /// Waiting byte `i`, from 0 for the oldest.
    pub fn byte(&self, i: u32) -> Option<u8>
        ensures { result ≡ slice_get (waiting_bytes self.now) i }
    {
        self.bytes.get(i as usize)
    }
}
