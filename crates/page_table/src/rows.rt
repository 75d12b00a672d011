// A table as rows: what stands at each number, in ascending order.
ghost use Rattle.std.specs.Prelude.{◌≡◌, ◌+◌, ◌^◌, ◌<◌, ◌≤◌, [], true, None, OnOk, OnErr};
ghost use Rattle.xm_num.specs.Rows as spec;
ghost use Rattle.page_table.specs.Spaces.{AreWithin, IsFirstGap};
ghost use Rattle.page_table.specs.Hints.{IsHint, IsStart};

use std::alloc::{AllocError, Global};
use std::collections::BTreeMap;
use std::marker::Model;
use xm_num::laws::row_laws;

// The number after the last page.
pub const END: u32 = 1 << 24;

// A value for each number that has one. Contracts see it as rows.
#[derive(Drop)]
pub struct Rows<V> {
    items: BTreeMap<u32, V>,
}

impl<V> Model for Rows<V> {
    ghost use Rattle.std.specs.Prelude.{ℕ, List};
    ghost use Rattle.xm_num.specs.Rows.{IsAscending};

    ghost Value = { List (ℕ × V) };

    ghost view = { λ rows. rows.items.entries };

    ghost invariant = { λ rows. IsAscending rows.items.entries };
}

#[tactic(auto, unfolding(xm_num::specs::Rows::at, xm_num::specs::Rows::put, xm_num::specs::Rows::less))]
impl<V: Copy> Rows<V> {
    // No rows.
    pub fn new(alloc: Global) -> Self
        ensures { result ≡ [] }
    {
        Rows {
            items: BTreeMap::new(alloc),
        }
    }

    // What stands at a number.
    pub fn get(&self, number: u32) -> Option<V>
        ensures value { result ≡ spec.at self.now number }
        ensures ascending { spec.IsAscending self.now }
    {
        self.items.get(&number).copied()
    }

    // Puts a value at a number. For want of memory the rows stay as they were.
    pub fn insert(&mut self, number: u32, value: V) -> Result<(), AllocError>
        ensures ok { OnOk result (self.new ≡ spec.put self.old number value) }
        ensures err { OnErr result (self.new ≡ self.old) }
        ensures ascending { spec.IsAscending self.new }
        ensures was_ascending { spec.IsAscending self.old }
    {
        self.items.insert(number, value)?;
        Ok(())
    }

    // Takes away what stands at a number.
    pub fn remove(&mut self, number: u32)
        ensures rows { self.new ≡ spec.less self.old number }
        ensures ascending { spec.IsAscending self.new }
        ensures was_ascending { spec.IsAscending self.old }
    {
        let _ = self.items.remove(&number);
    }

    // Whether every number that has a row is below that one. The last row tells without a search, and pages are mostly mapped
    // behind all others.
    fn are_below(&self, number: u32) -> bool
        ensures none { result ≡ true → spec.next_from self.now number ≡ None }
        ensures ascending { spec.IsAscending self.now }
    {
        match self.items.last_key_value() {
            Some((last, _)) => *last < number,
            None => true,
        }
    }

    // The lowest number from `low` on and below `high` that has a row.
    pub fn lowest_in(&self, low: u32, high: u32) -> Option<u32>
        requires { low ≤ high }
        ensures lowest { result ≡ spec.lowest_in self.now low high }
        ensures ascending { spec.IsAscending self.now }
    {
        if self.are_below(low) {
            return None;
        }
        let (number, _) = self.items.range(low..high).next()?;
        Some(*number)
    }

    // The lowest number from `low` on that has a row.
    pub fn next_from(&self, low: u32) -> Option<u32>
        ensures next { result ≡ spec.next_from self.now low }
        ensures ascending { spec.IsAscending self.now }
    {
        if self.are_below(low) {
            return None;
        }
        let (number, _) = self.items.range(low..).next()?;
        Some(*number)
    }

    // The number behind the last one below `number` that has a row, or 1.
    pub fn behind_last(&self, number: u32) -> u32
        requires { AreWithin self.now }
        ensures { IsStart self.now number result }
    {
        match self.items.range(..number).next_back() {
            Some((last, _)) => *last + 1,
            None => 1,
        }
    }

    // The lowest number from which `n` numbers within 1 to 16,777,215 have no row. The search begins at the hint.
    pub fn first_gap(&self, n: u32, hint: u32) -> Option<u32>
        requires some { 1 ≤ n }
        requires within { AreWithin self.now }
        requires hint { IsHint self.now n hint }
        ensures { IsFirstGap self.now n result }
    {
        row_laws::<V>();
        let mut first = hint;
        for (number, _) in self.items.range(hint..) {
            if *number - first >= n {
                return Some(first);
            }
            first = *number + 1;
        }
        if END - first >= n { Some(first) } else { None }
    }

    // Takes away what stands at `n` numbers from the first on.
    pub fn remove_all(&mut self, first: u32, n: u32)
        requires { first + n < 2 ^ 32 }
        ensures rows { self.new ≡ spec.less_all self.old first n }
        ensures ascending { spec.IsAscending self.new }
        ensures was_ascending { spec.IsAscending self.old }
        ensures within { AreWithin self.old → AreWithin self.new }
    {
        row_laws::<V>();
        let _ = &self.items;
        for number in first..first + n {
            self.remove(number);
        }
    }
}
