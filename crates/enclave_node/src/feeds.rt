// The decoders at the ends of an enclave's channels.
ghost use Rattle.std.specs.Prelude.{◌≡◌, [], length, drop, slice_get, None, Some, IsSome, IfSome, IfOk, OnOk};
ghost use Rattle.std.specs.Prelude.{◌≤◌};
ghost use Rattle.xm_num.specs.Rows.{at, put, less};
ghost use Rattle.xemem_wire.specs.Decoding.{Decoding, nothing_taken, after_piece};

use std::alloc::{AllocError, Global};
use std::collections::BTreeMap;
use std::marker::Model;
use std::mem;
use xemem_language::Record;
use xemem_wire::{BadField, Decoder, FeedFault};
use xm_num::Enclave;
use xm_num::laws::rows;

// The most bytes that a channel takes in all, so that a place in its stream has a number.
const MOST_FED: u64 = 1 << 62;

/// The decoder of a channel.
#[derive(Drop)]
pub struct Feed {
    decoder: Decoder,
    // How many bytes it was fed, with those that it didn't take after a bad field.
    fed: u64,
}

impl Model for Feed {
    ghost use Rattle.std.specs.Prelude.{◌+◌, ◌≤◌, length};
    ghost use Rattle.xemem_wire.specs.Decoding.{Decoding};

    ghost Value = { Decoding };

    ghost view = { λ f. f.decoder };

    ghost invariant = { λ f. f.decoder.before + length f.decoder.rest ≤ f.fed };
}

impl Feed {
    /// The decoder of a channel over which nothing came.
    pub fn new(alloc: Global) -> Result<Feed, AllocError>
        ensures { IfOk result (λ feed. feed ≡ nothing_taken) }
    {
        Ok(Feed {
            decoder: Decoder::new(alloc)?,
            fed: 0,
        })
    }

    /// Takes the next piece, and gives the stream's bad field, where it has one. More than 2^62 bytes in all, and
    /// as many in one piece, count as want of memory.
    pub fn take(&mut self, piece: &[u8]) -> Result<Option<BadField>, AllocError>
        ensures taken { OnOk result (self.new ≡ after_piece self.old piece.now) }
        ensures bad { IfOk result (λ bad. bad ≡ self.new.bad) }
    {
        let more = piece.len() as u64;
        if self.fed > MOST_FED || more > MOST_FED {
            return Err(AllocError);
        }
        self.fed += more;
        match self.decoder.feed(piece) {
            Ok(()) => Ok(None),
            Err(FeedFault::Bad { fault, place }) => Ok(Some(BadField { fault, place })),
            Err(FeedFault::Memory) => Err(AllocError),
        }
    }

    /// Gives the next whole record.
    pub fn next(&mut self) -> Result<Option<Record>, AllocError>
        ensures first { IfOk result (λ given. given ≡ slice_get self.old.records 0) }
        ensures later { OnOk result (self.new ≡ record self.old { records = drop 1 self.old.records }) }
    {
        self.decoder.next()
    }

    /// How many bytes came of a record that isn't whole.
    pub fn torn(&self) -> u32
        ensures { result ≡ length self.now.rest }
    {
        self.decoder.torn()
    }
}

/// The decoders of an enclave's open channels, by the neighbours' numbers. None holds a whole record that wasn't given.
#[derive(Drop)]
pub struct Feeds {
    rows: BTreeMap<u16, Feed>,
}

impl Model for Feeds {
    ghost use Rattle.std.specs.Prelude.{ℕ, List};
    ghost use Rattle.xemem_wire.specs.Decoding.{Decoding};
    ghost use Rattle.enclave_node.specs.Layout.{AreFeeds};

    ghost Value = { List (ℕ × Decoding) };

    ghost view = { λ f. f.rows.entries };

    ghost invariant = { λ f. AreFeeds f.rows.entries };
}

#[tactic(auto, unfolding(xm_num::specs::Rows::at, xm_num::specs::Rows::put, xm_num::specs::Rows::less))]
impl Feeds {
    /// No channel is open.
    pub fn new(alloc: Global) -> Feeds
        ensures { result ≡ [] }
    {
        Feeds {
            rows: BTreeMap::new(alloc),
        }
    }

    /// Takes out the decoder of a channel, where it is open. All its whole records were given.
    pub fn take(&mut self, from: Enclave) -> Option<Feed>
        ensures found { result ≡ at self.old from.0 }
        ensures left { self.new ≡ less self.old from.0 }
        ensures given { IfSome result (λ feed. feed.records ≡ []) }
    {
        rows::<Feed>();
        self.rows.remove(&from.0)
    }

    /// Changes the decoder of an open channel for another. All whole records of both were given.
    pub fn swap(&mut self, from: Enclave, feed: &mut Feed)
        requires open_end { IsSome (at self.old from.0) }
        requires given { feed.old.records ≡ [] }
        ensures out { at self.old from.0 ≡ Some feed.new }
        ensures given { feed.new.records ≡ [] }
        ensures into { self.new ≡ put self.old from.0 feed.old }
        ensures open_end { IsSome (at self.new from.0) }
        ensures again { (other : Decoding) → put self.new from.0 other ≡ put self.old from.0 other }
    {
        rows::<Feed>();
        match self.rows.get_mut(&from.0) {
            Some(slot) => mem::swap(slot, feed),
            None => unreachable!(),
        }
    }

    /// Puts in the decoder of a channel, all of whose whole records were given.
    pub fn put(&mut self, from: Enclave, feed: Feed) -> Result<(), AllocError>
        requires { feed.records ≡ [] }
        ensures { OnOk result (self.new ≡ put self.old from.0 feed) }
    {
        rows::<Feed>();
        self.rows.insert(from.0, feed)?;
        Ok(())
    }
}
