//! Who holds something of an exporter's segments: rows by their names, in order.
//!
//! A row's name is an enclave and a number of that enclave's calls. It has the segid of which something is held, and
//! whatever else its user keeps there.
#![tactic(auto)]

ghost use Rattle.std.specs.Prelude.{◌≡◌, ◌≤◌, ℕ, false, [], None, is_some, IfSome, IfNone, OnOk, OnErr};
ghost use Rattle.std.specs.BTreeMap.Range.{IsLeBy};
ghost use Rattle.holder_table.specs.Holding.{IsAscending, IsLeastCall, IsNextHolder, IsNextRow, held, is_holder, name_order, with_held, without_enclave, without_held};
ghost use Rattle.holder_table.specs.Holding as spec;

mod index;
pub mod laws;

use index::Index;
use std::alloc::{AllocError, Global};
use std::collections::BTreeMap;
use std::marker::Model;
use xm_num::{CallNo, Enclave, Segid};

/// What a row has beside its name.
#[derive(Clone, Copy, Debug, PartialEq, Eq)]
pub struct Held<V> {
    /// Of which segment something is held.
    pub segid: Segid,
    /// What else is known of it.
    pub value: V,
}

/// The rows of all who hold something.
///
/// Contracts see them as the list of rows in the order of their names. A change or a look-up takes time logarithmic in
/// them, and to forget an enclave as much for each of its rows.
#[derive(Drop)]
pub struct Holders<V> {
    rows: BTreeMap<(u16, u32), Held<V>>,
    // The same names, found by their segids.
    index: Index,
}

impl<V> Model for Holders<V> {
    ghost use Rattle.holder_table.specs.Holding.{Holding};
    ghost use Rattle.holder_table.specs.Index.{AreKept};

    ghost Value = { Holding V };

    ghost view = { λ h. h.rows.entries };

    ghost invariant = { λ h. AreKept h.rows.entries h.index };
}

impl<V: Copy> Holders<V> {
    /// Nobody holds anything.
    pub fn new(alloc: Global) -> Holders<V>
        ensures { result ≡ [] }
    {
        Holders {
            rows: BTreeMap::new(alloc),
            index: Index::new(alloc),
        }
    }

    /// Adds a row under a name that has none. For want of memory the rows stay as they were.
    pub fn insert(
        &mut self,
        to: Enclave,
        call: CallNo,
        segid: Segid,
        value: V,
    ) -> Result<(), AllocError>
        requires { held self.old to.0 call.0 ≡ None }
        ensures ok { OnOk result (self.new ≡ with_held self.old to.0 call.0 (record { segid = segid; value = value })) }
        ensures err { OnErr result (self.new ≡ self.old) }
        ensures was_ascending { IsAscending self.old }
    {
        self.index.insert(segid, to, call)?;
        if let Err(error) = self.rows.insert((to.0, call.0), Held { segid, value }) {
            self.index.remove(segid, to, call);
            return Err(error.into());
        }
        Ok(())
    }

    /// What the enclave holds by the call.
    pub fn get(&self, to: Enclave, call: CallNo) -> Option<Held<V>>
        ensures value { result ≡ held self.now to.0 call.0 }
        ensures ascending { IsAscending self.now }
    {
        self.rows.get(&(to.0, call.0)).copied()
    }

    /// Whether the enclave holds something by the call.
    pub fn has(&self, to: Enclave, call: CallNo) -> bool
        ensures { result ≡ is_some (held self.now to.0 call.0) }
    {
        self.rows.contains_key(&(to.0, call.0))
    }

    /// Takes a row out, and tells whether it was there. It takes no memory.
    pub fn remove(&mut self, to: Enclave, call: CallNo) -> bool
        ensures was { result ≡ is_some (held self.old to.0 call.0) }
        ensures rows { self.new ≡ without_held self.old to.0 call.0 }
        ensures was_ascending { IsAscending self.old }
    {
        let Some(held) = self.rows.remove(&(to.0, call.0)) else {
            return false;
        };
        self.index.remove(held.segid, to, call);
        true
    }

    /// The least enclave not below `from` that holds something of the segid.
    pub fn next_holder(&self, segid: Segid, from: Enclave) -> Option<Enclave>
        ensures least { IfSome result (λ to. IsNextHolder self.now segid.0 from.0 to.0) }
        ensures none { IfNone result ((e : ℕ) → from.0 ≤ e → is_holder self.now segid.0 e ≡ false) }
        ensures ascending { IsAscending self.now }
    {
        self.index.next(segid, from)
    }

    /// Whether something is held of the segid.
    pub fn is_named(&self, segid: Segid) -> bool
        ensures { result ≡ spec.is_named self.now segid.0 }
    {
        self.next_holder(segid, Enclave(0)).is_some()
    }

    /// The least call by which the enclave holds something.
    pub fn lowest(&self, to: Enclave) -> Option<CallNo>
        ensures least { IfSome result (λ call. IsLeastCall self.now to.0 call.0) }
        ensures none { IfNone result ((c : ℕ) → held self.now to.0 c ≡ None) }
        ensures ascending { IsAscending self.now }
    {
        let (enclave, call, _) = self.next(to, CallNo(0))?;
        if enclave != to {
            return None;
        }
        Some(call)
    }

    /// The least row whose name isn't below this one, by enclaves and then by calls.
    pub fn next(&self, to: Enclave, from: CallNo) -> Option<(Enclave, CallNo, Held<V>)>
        ensures least { IfSome result (λ row. IsNextRow self.now (to.0, from.0) (row.0.0, row.1.0) row.2) }
        ensures none { IfNone result ((e c : ℕ) → IsLeBy name_order (to.0, from.0) (e, c) → held self.now e c ≡ None) }
        ensures ascending { IsAscending self.now }
    {
        let (name, held) = self.rows.range((to.0, from.0)..).next()?;
        let (enclave, call) = *name;
        Some((Enclave(enclave), CallNo(call), *held))
    }

    /// Drops all rows of an enclave. It takes no memory.
    pub fn forget_enclave(&mut self, gone: Enclave)
        ensures rows { self.new ≡ without_enclave self.old gone.0 }
        ensures was_ascending { IsAscending self.old }
    {
        while let Some(call) = self.lowest(gone) {
            let _ = self.remove(gone, call);
        }
    }
}
