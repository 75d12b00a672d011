// A table as rows: what stands at each number, in ascending order.
ghost use Rattle.std.specs.Prelude.{◌≡◌, IsSome, [], OnOk, OnErr};
ghost use Rattle.xm_num.specs.Rows as spec;

use std::alloc::{AllocError, Global};
use std::collections::BTreeMap;
use std::marker::Model;

// A value for each number that has one. Contracts see it as rows.
#[derive(Drop)]
pub struct Rows<V> {
    items: BTreeMap<u32, V>,
}

impl<V> Model for Rows<V> {
    ghost use Rattle.std.specs.Prelude.{ℕ, List};
    ghost use Rattle.xm_num.specs.Rows.{IsAscending};

    ghost Value = { List (ℕ × V) };

    ghost view = { λ rows. rows.items.entries };

    ghost invariant = { λ rows. IsAscending rows.items.entries };
}

#[tactic(auto, unfolding(xm_num::specs::Rows::at, xm_num::specs::Rows::put, xm_num::specs::Rows::less))]
impl<V: Copy> Rows<V> {
    // No rows.
    pub fn new(alloc: Global) -> Self
        ensures { result ≡ [] }
    {
        Rows {
            items: BTreeMap::new(alloc),
        }
    }

    // What stands at a number.
    pub fn get(&self, number: u32) -> Option<V>
        ensures value { result ≡ spec.at self.now number }
        ensures ascending { spec.IsAscending self.now }
    {
        self.items.get(&number).copied()
    }

    // Puts a value at a number. For want of memory the rows stay as they were.
    pub fn insert(&mut self, number: u32, value: V) -> Result<(), AllocError>
        ensures ok { OnOk result (self.new ≡ spec.put self.old number value) }
        ensures err { OnErr result (self.new ≡ self.old) }
        ensures ascending { spec.IsAscending self.new }
        ensures was_ascending { spec.IsAscending self.old }
    {
        self.items.insert(number, value)?;
        Ok(())
    }

    // Puts a value in the place of another, which takes no memory.
    pub fn replace(&mut self, number: u32, value: V)
        requires { IsSome (spec.at self.old number) }
        ensures rows { self.new ≡ spec.put self.old number value }
        ensures ascending { spec.IsAscending self.new }
        ensures was_ascending { spec.IsAscending self.old }
    {
        let _ = self.items.insert(number, value);
    }

    // Takes away what stands at a number.
    pub fn remove(&mut self, number: u32)
        ensures rows { self.new ≡ spec.less self.old number }
        ensures ascending { spec.IsAscending self.new }
        ensures was_ascending { spec.IsAscending self.old }
    {
        let _ = self.items.remove(&number);
    }
}
