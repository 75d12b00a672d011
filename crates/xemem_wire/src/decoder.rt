// A decoder for a stream of records that comes in any pieces.
ghost use Rattle.std.specs.Prelude.{◌≡◌, ◌+◌, ◌^◌, ◌<◌, ◌≤◌, length, drop, slice_get, vec_len, IsSome, IfSome, IsErrOf, IfErr, IfOk, OnOk, OnErr, None, Some};
ghost use Rattle.xemem_wire.specs.Kept.{Takes};

use crate::judge::{fault_in, u32_at};
use crate::read::{record_in, rest_start, short_length};
use crate::{BadField, FeedFault, Record};
use std::alloc::{AllocError, Global};
use std::marker::Model;

/// Takes a stream of records in any pieces and gives the whole records in order. At the first bad field it stops.
///
/// The bytes of records that weren't given yet stay as they came. Those of given records go when they are half of all,
/// so a byte is moved a constant number of times. What has come of a record is judged anew with each piece until the
/// record is whole, over the few fields that its kind has.
#[derive(Drop)]
pub struct Decoder {
    bytes: Vec<u8>,
    given: usize,
    whole: usize,
    before: u64,
    bad: Option<BadField>,
}

impl Model for Decoder {
    ghost use Rattle.std.specs.Prelude.{drop};
    ghost use Rattle.xemem_wire.specs.Decoding.{Decoding};
    ghost use Rattle.xemem_wire.specs.Kept.{decoded, KeepsBytes};

    ghost Value = { Decoding };

    ghost view = { λ d. decoded (drop d.given d.bytes.items) d.before d.bad };

    ghost invariant = { λ d. KeepsBytes d.bytes.items d.given d.whole d.bad };
}

/// Drops the first `n` bytes.
fn drop_front(bytes: &mut Vec<u8>, n: usize)
    requires { n ≤ vec_len bytes.old }
    ensures { bytes.new.items ≡ drop n bytes.old.items }
{
    let left = bytes.len() - n;
    bytes.copy_within(n.., 0);
    bytes.truncate(left);
}

/// Takes a piece behind the bytes, and finds where the rest begins that comes after the last whole record. A rest with a
/// bad field is dropped. For want of memory the bytes stay as they were.
fn take_piece(
    bytes: &mut Vec<u8>,
    whole: usize,
    piece: &[u8],
) -> Result<(usize, Option<BadField>), AllocError>
    requires { whole ≤ vec_len bytes.old }
    ensures ok { IfOk result (λ found. Takes bytes.old.items piece.now bytes.new.items whole found.0 found.1) }
    ensures place { IfOk result (λ found. IfSome found.1 (λ bad. bad.place < 16404)) }
    ensures err { OnErr result (bytes.new.items ≡ bytes.old.items) }
{
    bytes.extend_from_slice(piece)?;
    let start = rest_start(bytes, whole);
    let bad = fault_in(&bytes[start..]);
    if bad.is_some() {
        bytes.truncate(start);
    }
    Ok((start, bad))
}

impl Decoder {
    ghost use Rattle.xemem_wire.specs.Decoding.{nothing_taken, after_piece, Leaves};

    /// A decoder at the beginning of a stream.
    pub fn new(alloc: Global) -> Result<Decoder, AllocError>
        ensures { IfOk result (λ decoder. decoder ≡ nothing_taken) }
    {
        Ok(Decoder {
            bytes: Vec::new(alloc),
            given: 0,
            whole: 0,
            before: 0,
            bad: None,
        })
    }

    /// Lets the bytes of given records go once they are half of all.
    fn make_room(&mut self)
        ensures { self.new ≡ self.old }
    {
        if self.given < self.bytes.len() - self.given {
            return;
        }
        drop_front(&mut self.bytes, self.given);
        self.whole -= self.given;
        self.given = 0;
    }

    /// Takes the next piece of the stream. A bad field is told by its place in the whole stream; the whole records before
    /// it can still be read, and each later call tells it again and takes nothing.
    pub fn feed(&mut self, piece: &[u8]) -> Result<(), FeedFault>
        requires { self.old.before + length self.old.rest + length piece.now ≤ 2 ^ 63 }
        ensures taken { OnOk result (self.new ≡ after_piece self.old piece.now) }
        ensures fine { OnOk result (self.new.bad ≡ None) }
        ensures refused { IfErr result (λ fault. Leaves fault self.old piece.now self.new) }
        ensures count { self.new.before + length self.new.rest ≤ self.old.before + length self.old.rest + length piece.now }
        ensures again { IfSome self.old.bad (λ bad. (self.new ≡ self.old) × IsErrOf result (FeedFault.Bad bad.fault bad.place)) }
    {
        if let Some(bad) = self.bad {
            return Err(FeedFault::Bad {
                fault: bad.fault,
                place: bad.place,
            });
        }
        self.make_room();
        let (start, bad) = match take_piece(&mut self.bytes, self.whole, piece) {
            Ok(found) => found,
            Err(AllocError) => return Err(FeedFault::Memory),
        };
        self.before += (start - self.whole) as u64;
        self.whole = start;
        let Some(bad) = bad else {
            return Ok(());
        };
        let place = self.before + bad.place;
        self.bad = Some(BadField {
            fault: bad.fault,
            place,
        });
        Err(FeedFault::Bad {
            fault: bad.fault,
            place,
        })
    }

    /// Gives the next whole record.
    pub fn next(&mut self) -> Result<Option<Record>, AllocError>
        ensures first { IfOk result (λ given. given ≡ slice_get self.old.records 0) }
        ensures later { OnOk result (self.new ≡ record self.old { records = drop 1 self.old.records }) }
        ensures err { OnErr result (self.new ≡ self.old) }
    {
        if self.given == self.whole {
            return Ok(None);
        }
        let front = &self.bytes[self.given..];
        let rec = record_in(front);
        self.given += u32_at(front, 0) as usize;
        Ok(Some(rec))
    }

    /// How many bytes came after the last whole record, less than a longest record has. After a bad field there are none.
    pub fn torn(&self) -> u32
        ensures torn { result ≡ length self.now.rest }
        ensures short { result < 16404 }
        ensures stopped { IsSome self.now.bad → result ≡ 0 }
    {
        short_length(&self.bytes[self.whole..])
    }
}
