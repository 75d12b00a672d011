//! The names of a name server: which segids were drawn, and which enclave owns what each of them names.
//!
//! Segids are drawn from 1 upwards, each once. A name is a segid with its owner, until it is unnamed.
#![tactic(auto)]

ghost use Rattle.std.specs.Prelude.{◌≡◌, ◌+◌, ◌^◌, ◌<◌, ◌≤◌, None, Some, option_map, IfSome, IfOk, OnOk, OnErr};
ghost use Rattle.xm_num.specs.Rows as rows;
ghost use Rattle.name_server.specs.Names as spec;

pub mod laws;
mod tables;

use std::alloc::{AllocError, Global};
use std::marker::Model;
use tables::{Index, Pairs};
use xm_num::laws::row_laws;
use xm_num::{Enclave, Segid};

// The number of a segid. One below 0 is never drawn, and 0 isn't either.
fn number_of(segid: Segid) -> u64
    ensures { result ≡ spec.drawn_number segid }
{
    if segid.0 < 0 { 0 } else { segid.0 as u64 }
}

// The segid with that number.
fn segid_of(number: u64) -> Segid
    requires { number ≤ 2 ^ 32 }
    ensures { result ≡ spec.segid_numbered number }
{
    Segid(number as i64)
}

/// The names that were drawn, and their owners.
///
/// Contracts see it as a `NamesState`: how many segids were drawn, and the owners by their segids as rows. A change or
/// a look-up takes time logarithmic in the names.
#[derive(Drop)]
pub struct Names {
    drawn: u64,
    pairs: Pairs,
    // The same pairs, found by their owners.
    index: Index,
}

impl Model for Names {
    ghost use Rattle.name_server.specs.Names.{NamesState};
    ghost use Rattle.name_server.specs.Index.{AreKept};

    ghost Value = { NamesState };

    ghost view = { λ n. record { drawn = n.drawn; pairs = n.pairs } };

    ghost invariant = { λ n. AreKept (record { drawn = n.drawn; pairs = n.pairs }) n.index };
}

impl Names {
    /// No names.
    pub fn new(alloc: Global) -> Result<Names, AllocError>
        ensures { IfOk result (λ names. names ≡ spec.no_names) }
    {
        row_laws::<Enclave>();
        Ok(Names {
            drawn: 0,
            pairs: Pairs::new(alloc),
            index: Index::new(alloc),
        })
    }

    /// Draws the next segid for the owner. For want of memory none is drawn.
    pub fn name(&mut self, owner: Enclave) -> Result<Segid, AllocError>
        requires { self.old.drawn < 2 ^ 32 }
        ensures segid { IfOk result (λ segid. segid ≡ spec.segid_numbered (self.old.drawn + 1)) }
        ensures after { OnOk result (self.new ≡ spec.with_name owner self.old) }
        ensures fresh { rows.at self.old.pairs (self.old.drawn + 1) ≡ None }
        ensures err { OnErr result (self.new ≡ self.old) }
    {
        row_laws::<Enclave>();
        let number = self.drawn + 1;
        self.index.insert(owner, number)?;
        if let Err(error) = self.pairs.insert(number, owner) {
            self.index.remove(owner, number);
            return Err(error);
        }
        self.drawn = number;
        Ok(segid_of(number))
    }

    /// Takes the segid's name away where it is one of the owner, and tells whether it was. It takes no memory, and the
    /// segid isn't drawn again.
    pub fn unname(&mut self, segid: Segid, owner: Enclave) -> bool
        ensures was { result ≡ spec.has_name self.old (spec.drawn_number segid) owner }
        ensures after { self.new ≡ spec.without_pair (spec.drawn_number segid) owner self.old }
    {
        row_laws::<Enclave>();
        let number = number_of(segid);
        match self.pairs.get(number) {
            Some(found) if found == owner => {
                self.pairs.remove(number);
                self.index.remove(owner, number);
                true
            }
            _ => false,
        }
    }

    /// The owner of what the segid names, where it is a name.
    pub fn owner_of(&self, segid: Segid) -> Option<Enclave>
        ensures { result ≡ rows.at self.now.pairs (spec.drawn_number segid) }
    {
        self.pairs.get(number_of(segid))
    }

    /// The owner's least segid, where it has a name.
    pub fn lowest_of(&self, owner: Enclave) -> Option<Segid>
        ensures { result ≡ option_map spec.segid_numbered (spec.lowest_name self.now owner) }
    {
        row_laws::<Enclave>();
        let number = self.index.lowest_of(owner)?;
        Some(segid_of(number))
    }

    /// The least segid that is a name and isn't below `from`, and its owner.
    pub fn next_name(&self, from: Segid) -> Option<(Segid, Enclave)>
        ensures next { option_map (λ pair. pair.0) result ≡ option_map spec.segid_numbered (rows.next_from self.now.pairs (spec.drawn_number from)) }
        ensures owner { IfSome result (λ pair. rows.at self.now.pairs (spec.drawn_number pair.0) ≡ Some pair.1) }
    {
        row_laws::<Enclave>();
        let (number, owner) = self.pairs.next_from(number_of(from))?;
        Some((segid_of(number), owner))
    }

    /// How many segids were drawn.
    pub fn drawn(&self) -> u64
        ensures count { result ≡ self.now.drawn }
        ensures most { result ≤ 2 ^ 32 }
        ensures names { spec.AreNames self.now }
    {
        self.drawn
    }
}
