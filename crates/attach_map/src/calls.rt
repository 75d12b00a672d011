// The waiting calls by their numbers.
ghost use Rattle.std.specs.Prelude.{◌≡◌, [], nat_lt, option_map, IsTrue, IsSome, OnOk, OnErr};
ghost use Rattle.xm_num.specs.Rows as rows;
ghost use Rattle.attach_map.specs.Attaching.{gets_from, next_get, looks_up, to_owner, with_owner, orphaned};
ghost use Rattle.attach_map.specs.Seats.{IsLast, ChangesAt};

use crate::{Pending, Waiting};
use indexmap::IndexMap;
use std::alloc::{AllocError, Global};
use std::marker::Model;
use xm_num::laws::row_laws;
use xm_num::{CallNo, Enclave};

// Waiting calls in the order of their numbers.
#[derive(Drop)]
pub struct Calls {
    map: IndexMap<u32, Waiting>,
}

impl Model for Calls {
    ghost use Rattle.std.specs.Prelude.{ℕ, List};
    ghost use Rattle.xm_num.specs.Rows.{IsAscending};
    ghost use Rattle.attach_map.specs.declared.Waiting.{Waiting};

    ghost Value = { List (ℕ × Waiting) };

    ghost view = { λ c. c.map.entries };

    ghost invariant = { λ c. IsAscending c.map.entries };
}

// Whether a permit of that owner is wanted.
fn gets_from_owner(owner: Enclave, what: Pending) -> bool
    ensures { result ≡ gets_from owner what }
{
    match what {
        Pending::Make => false,
        Pending::Lookup { .. } => false,
        Pending::GetFrom { owner: from, .. } => from.0 == owner.0,
    }
}

// What waits once the owner of a segment is known.
fn to_owner_of(owner: Enclave, what: Pending) -> Pending
    ensures { result ≡ to_owner owner what }
{
    match what {
        Pending::Lookup { segid, access } => Pending::GetFrom {
            owner,
            segid,
            access,
        },
        Pending::Make | Pending::GetFrom { .. } => what,
    }
}

impl Calls {
    // No call.
    pub fn new(alloc: Global) -> Calls
        ensures { result ≡ [] }
    {
        Calls {
            map: IndexMap::new(alloc),
        }
    }

    // The call of that number.
    pub fn get(&self, call: u32) -> Option<Waiting>
        ensures value { result ≡ rows.at self.now call }
        ensures ascending { rows.IsAscending self.now }
    {
        self.map.get(&call).copied()
    }

    // Puts a call behind the others. For want of memory they stay as they were.
    pub fn push(&mut self, call: u32, waiting: Waiting) -> Result<(), AllocError>
        requires { IsLast self.old call }
        ensures ok { OnOk result (self.new ≡ rows.put self.old call waiting) }
        ensures err { OnErr result (self.new ≡ self.old) }
    {
        row_laws::<Waiting>();
        self.map.insert(call, waiting)?;
        Ok(())
    }

    // The process of a call is no more.
    pub fn orphan(&mut self, call: u32)
        requires { IsSome (rows.at self.old call) }
        ensures { ChangesAt orphaned self.old call self.new }
    {
        row_laws::<Waiting>();
        match self.map.get_mut(&call) {
            Some(waiting) => waiting.living = false,
            None => unreachable!(),
        }
    }

    // The owner is known of the segment that a call looks up.
    pub fn found(&mut self, call: u32, owner: Enclave)
        requires { IsTrue (looks_up (rows.at self.old call)) }
        ensures { ChangesAt (with_owner owner) self.old call self.new }
    {
        row_laws::<Waiting>();
        match self.map.get_mut(&call) {
            Some(waiting) => waiting.what = to_owner_of(owner, waiting.what),
            None => unreachable!(),
        }
    }

    // Takes a call out.
    pub fn remove(&mut self, call: u32)
        ensures { self.new ≡ rows.less self.old call }
    {
        row_laws::<Waiting>();
        let _ = self.map.shift_remove(&call);
    }

    // The least call from a number on that waits for a permit of that owner.
    pub fn next_get(&self, owner: Enclave, from: u32) -> Option<CallNo>
        ensures { option_map (λ call. call.0) result ≡ next_get self.now owner from }
    {
        let first = self.map.partition_point(
            |number: &u32, _waiting: &Waiting| -> bool
                ensures { result ≡ nat_lt number.now from }
            { *number < from },
        );
        for i in first..self.map.len() {
            let (number, waiting) = self.map.get_index(i).unwrap();
            if gets_from_owner(owner, waiting.what) {
                return Some(CallNo(*number));
            }
        }
        None
    }
}
