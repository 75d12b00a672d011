// The channels of all children, and those in which something waits.
ghost use Rattle.std.specs.Prelude.{◌≡◌, ◌≤◌, ◌<◌, ◌∷◌, ◌++◌, [], length, take, true, false, option_copied, IsTrue, OnOk, IfOk, IfSome};
ghost use Rattle.byte_link.specs.Channel.{waiting_bytes, boundary_of, sent, taken};
ghost use Rattle.xemem_wire.specs.Spelling.{is_valid, spelling_of};
ghost use Rattle.node_machine.specs.Index as index;
ghost use Rattle.node_machine.specs.Machine as spec;

use crate::delivery::{send_over, take_bytes};
use crate::laws::laws;
use crate::pair::{Hop, Pair, hop_of};
use byte_link::Link;
use std::alloc::{AllocError, Global};
use std::collections::BTreeSet;
use std::marker::Model;
use xemem_language::Record;
use xm_num::Enclave;

/// The channels of each child, the first for enclave 1. Those in which something waits are kept in their order, so that the
/// first of them is found without a look at the others.
#[derive(Drop)]
pub struct Channels {
    pairs: Vec<Pair>,
    // The numbers of the channels in which something waits.
    waiting: BTreeSet<u32>,
}

// The number of the channel up from the child at a place.
fn up_number(child: usize) -> u32
    requires { child < 256 }
    ensures { result ≡ index.up_number child }
{
    child as u32 * 2
}

// The number of the channel down to the child at a place.
fn down_number(child: usize) -> u32
    requires { child < 256 }
    ensures { result ≡ index.down_number child }
{
    child as u32 * 2 + 1
}

impl Model for Channels {
    ghost use Rattle.std.specs.Prelude.{List};
    ghost use Rattle.node_machine.specs.declared.pair.Pair.{Pair};
    ghost use Rattle.node_machine.specs.Index.{IsIndex};

    ghost Value = { List Pair };

    ghost view = { λ c. c.pairs.items };

    ghost invariant = { λ c. IsIndex c.waiting.keys c.pairs.items };
}

// Sends a record over a link, whose number the set then has. It is spelled in `room` first.
fn send_noted(
    link: &mut Link,
    waiting: &mut BTreeSet<u32>,
    number: u32,
    rec: &Record,
    room: &mut Vec<u8>,
) -> Result<(), AllocError>
    requires valid { IsTrue (is_valid rec.now) }
    requires open_end { link.old.ended ≡ false }
    requires noted { index.IsNoted waiting.old.keys number link.old }
    ensures sent { OnOk result (link.new ≡ sent link.old (spelling_of rec.now)) }
    ensures noted { index.IsNoted waiting.new.keys number link.new }
    ensures others { index.SameBut number waiting.old.keys waiting.new.keys }
{
    laws();
    let Ok(fresh) = waiting.insert(number) else {
        return Err(AllocError);
    };
    let result = send_over(link, rec, room);
    if result.is_err() && fresh {
        waiting.remove(&number);
    }
    result
}

// Takes bytes out of a link. The set lets its number go once nothing waits there.
fn take_noted(
    link: &mut Link,
    waiting: &mut BTreeSet<u32>,
    number: u32,
    count: u32,
    into: &mut Vec<u8>,
) -> Result<(), AllocError>
    requires within { count ≤ length (waiting_bytes link.old) }
    requires noted { index.IsNoted waiting.old.keys number link.old }
    ensures bytes { OnOk result (into.new.items ≡ take count (waiting_bytes link.old)) }
    ensures rest { OnOk result (link.new ≡ taken link.old count) }
    ensures noted { index.IsNoted waiting.new.keys number link.new }
    ensures others { index.SameBut number waiting.old.keys waiting.new.keys }
{
    laws();
    take_bytes(link, count, into)?;
    if link.waiting() == 0 {
        waiting.remove(&number);
    }
    Ok(())
}

impl Channels {
    /// No channel.
    pub fn new(alloc: Global) -> Channels
        ensures { result ≡ [] }
    {
        Channels {
            pairs: Vec::new(alloc),
            waiting: BTreeSet::new(alloc),
        }
    }

    /// Adds the channels of the next child, in which nothing waits.
    pub fn add(&mut self, pair: Pair) -> Result<(), AllocError>
        requires few { length self.old < 256 }
        requires up { spec.is_idle pair.up ≡ true }
        requires down { spec.is_idle pair.down ≡ true }
        ensures { OnOk result (self.new ≡ self.old ++ pair ∷ []) }
    {
        self.pairs.push(pair)?;
        Ok(())
    }

    /// Which channel goes from one enclave to another, where these are known: the receiver lives, and the sender was born.
    pub fn hop(&self, known: bool, from: Enclave, to: Enclave) -> Hop
        ensures hop { result ≡ spec.hop_of self.now known from to }
        ensures within { spec.IsIn self.now result }
    {
        hop_of(&self.pairs, known, from, to)
    }

    /// The channel itself.
    pub fn link(&self, hop: Hop) -> Option<&Link>
        requires { spec.IsIn self.now hop }
        ensures { option_copied result ≡ spec.link_by self.now hop }
    {
        match hop {
            Hop::NoEnclave | Hop::NoLink => None,
            Hop::Up(i) => Some(&self.pairs[i].up),
            Hop::Down(i) => Some(&self.pairs[i].down),
        }
    }

    /// The number of bytes that wait in a channel.
    pub fn waiting(&self, hop: Hop) -> u32
        requires { spec.IsIn self.now hop }
        ensures { result ≡ length (waiting_bytes (spec.link_of self.now hop)) }
    {
        match hop {
            Hop::NoEnclave | Hop::NoLink => 0,
            Hop::Up(i) => self.pairs[i].up.waiting(),
            Hop::Down(i) => self.pairs[i].down.waiting(),
        }
    }

    /// The number of bytes to the end of the first record in a channel that isn't wholly taken, or 0 where nothing waits.
    pub fn to_boundary(&self, hop: Hop) -> u32
        requires { spec.IsIn self.now hop }
        ensures { result ≡ boundary_of (spec.link_of self.now hop) }
    {
        match hop {
            Hop::NoEnclave | Hop::NoLink => 0,
            Hop::Up(i) => self.pairs[i].up.to_boundary(),
            Hop::Down(i) => self.pairs[i].down.to_boundary(),
        }
    }

    /// The enclave at the channel's beginning.
    pub fn sender(&self, hop: Hop) -> Enclave
        requires { spec.IsIn self.now hop }
        ensures { result ≡ spec.sender_of self.now hop }
    {
        match hop {
            Hop::NoEnclave | Hop::NoLink => Enclave(0),
            Hop::Up(i) => Enclave(i as u16 + 1),
            Hop::Down(i) => self.pairs[i].parent,
        }
    }

    /// The enclave at the channel's end.
    pub fn receiver(&self, hop: Hop) -> Enclave
        requires { spec.IsIn self.now hop }
        ensures { result ≡ spec.receiver_of self.now hop }
    {
        match hop {
            Hop::NoEnclave | Hop::NoLink => Enclave(0),
            Hop::Up(i) => self.pairs[i].parent,
            Hop::Down(i) => Enclave(i as u16 + 1),
        }
    }

    /// The first channel in which something waits: by the place of the child, up before down.
    pub fn first(&self) -> Option<Hop>
        ensures first { result ≡ spec.first_hop self.now }
        ensures within { IfSome result (λ hop. spec.IsIn self.now hop) }
    {
        let number = *self.waiting.first()?;
        let child = (number / 2) as usize;
        if number % 2 == 0 {
            Some(Hop::Up(child))
        } else {
            Some(Hop::Down(child))
        }
    }

    /// Sends a record over a channel. Nothing goes over one that has ended. The record is spelled in `room` first, whose bytes
    /// are lost. For want of memory the channels are as before.
    pub fn send(&mut self, hop: Hop, rec: &Record, room: &mut Vec<u8>) -> Result<(), AllocError>
        requires within { spec.IsIn self.old hop }
        requires valid { IsTrue (is_valid rec.now) }
        ensures sent { OnOk result (self.new ≡ spec.carried_over self.old hop rec.now) }
    {
        match hop {
            Hop::NoEnclave | Hop::NoLink => Ok(()),
            Hop::Up(i) => {
                let link = &mut self.pairs[i].up;
                if link.has_ended() {
                    return Ok(());
                }
                send_noted(link, &mut self.waiting, up_number(i), rec, room)
            }
            Hop::Down(i) => {
                let link = &mut self.pairs[i].down;
                if link.has_ended() {
                    return Ok(());
                }
                send_noted(link, &mut self.waiting, down_number(i), rec, room)
            }
        }
    }

    /// Takes the first `count` bytes out of a channel, in which they wait. `into` has these alone then. For want of memory the
    /// channels are as before.
    pub fn take(&mut self, hop: Hop, count: u32, into: &mut Vec<u8>) -> Result<(), AllocError>
        requires within { spec.IsIn self.old hop }
        requires waits { count ≤ length (waiting_bytes (spec.link_of self.old hop)) }
        ensures bytes { OnOk result (into.new.items ≡ take count (waiting_bytes (spec.link_of self.old hop))) }
        ensures rest { OnOk result (self.new ≡ spec.with_link self.old hop (taken (spec.link_of self.old hop) count)) }
    {
        match hop {
            Hop::NoEnclave | Hop::NoLink => {
                into.clear();
                Ok(())
            }
            Hop::Up(i) => {
                let link = &mut self.pairs[i].up;
                take_noted(link, &mut self.waiting, up_number(i), count, into)
            }
            Hop::Down(i) => {
                let link = &mut self.pairs[i].down;
                take_noted(link, &mut self.waiting, down_number(i), count, into)
            }
        }
    }
}
