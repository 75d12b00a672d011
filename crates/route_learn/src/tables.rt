// Neighbours by number, as rows.
ghost use Rattle.std.specs.Prelude.{◌≡◌, ◌<◌, ◌≤◌, ◌^◌, [], drop, slice_get, vec_len, option_map, IfSome, OnOk, OnErr, Some};
ghost use Rattle.xm_num.specs.Rows as rows;
ghost use Rattle.route_learn.specs.Layout.{present};
ghost use Rattle.route_learn.specs.Routes.{place_of, AreNumbers};

use std::alloc::{AllocError, Global};
use std::collections::BTreeMap;
use std::marker::Model;
use xm_num::laws::row_laws;
use xm_num::{Enclave, Neighbour};

// The place of a neighbour among those that asked: Up first, then the children by their numbers.
fn place(of: Neighbour) -> u32
    ensures { result ≡ place_of of }
{
    match of {
        Neighbour::Up => 0,
        Neighbour::Down(child) => u32::from(child.0) + 1,
    }
}

// Neighbours by their places.
#[derive(Drop)]
pub struct Askers {
    rows: BTreeMap<u32, Neighbour>,
}

impl Model for Askers {
    ghost use Rattle.std.specs.Prelude.{ℕ, List};
    ghost use Rattle.xm_num.specs.declared.Neighbour.{Neighbour};

    ghost Value = { List (ℕ × Neighbour) };

    ghost view = { λ a. a.rows.entries };
}

#[tactic(auto, unfolding(xm_num::specs::Rows::put, xm_num::specs::Rows::less))]
impl Askers {
    // No neighbour asked.
    pub fn new(alloc: Global) -> Askers
        ensures { result ≡ [] }
    {
        Askers {
            rows: BTreeMap::new(alloc),
        }
    }

    // Adds a neighbour. For want of memory they stay as they were.
    pub fn insert(&mut self, by: Neighbour) -> Result<(), AllocError>
        ensures ok { OnOk result (self.new ≡ rows.put self.old (place_of by) by) }
        ensures err { OnErr result (self.new ≡ self.old) }
    {
        self.rows.insert(place(by), by)?;
        Ok(())
    }

    // Takes a neighbour out.
    pub fn remove(&mut self, by: Neighbour)
        ensures { self.new ≡ rows.less self.old (place_of by) }
    {
        let _ = self.rows.remove(&place(by));
    }

    // Takes the first neighbour out.
    pub fn take_first(&mut self) -> Option<Neighbour>
        ensures first { result ≡ option_map (λ row. row.1) (slice_get self.old 0) }
        ensures left { self.new ≡ drop 1 self.old }
    {
        let (_, asker) = self.rows.pop_first()?;
        Some(asker)
    }
}

// Makes room for an enclave's number. It changes no way, also for want of memory.
#[tactic(auto, using(crate::proofs::PresentLemmas::present_resized))]
fn make_room(items: &mut Vec<Option<Neighbour>>, number: usize) -> Result<(), AllocError>
    requires { number < 2 ^ 16 }
    ensures room { OnOk result (number < vec_len items.new) }
    ensures most { vec_len items.old ≤ 2 ^ 16 → vec_len items.new ≤ 2 ^ 16 }
    ensures same { present 0 items.new.items ≡ present 0 items.old.items }
{
    if number < items.len() {
        return Ok(());
    }
    items.resize(number + 1, None)
}

// The neighbour over which each enclave lies, by the enclaves' numbers. These are small and dense, so a look-up is one
// read of a vector.
#[derive(Drop)]
pub struct Ways {
    items: Vec<Option<Neighbour>>,
}

impl Model for Ways {
    ghost use Rattle.std.specs.Prelude.{ℕ, ◌≤◌, ◌^◌, List, vec_len};
    ghost use Rattle.xm_num.specs.declared.Neighbour.{Neighbour};
    ghost use Rattle.route_learn.specs.Layout.{present};

    ghost Value = { List (ℕ × Neighbour) };

    ghost view = { λ w. present 0 w.items.items };

    ghost invariant = { λ w. vec_len w.items ≤ 2 ^ 16 };
}

#[tactic(auto, using(crate::proofs::PresentLemmas::ways))]
impl Ways {
    // No enclave has a way.
    pub fn new(alloc: Global) -> Ways
        ensures { result ≡ [] }
    {
        Ways {
            items: Vec::new(alloc),
        }
    }

    // The way to an enclave.
    pub fn get(&self, of: Enclave) -> Option<Neighbour>
        ensures { result ≡ rows.at self.now of.0 }
    {
        row_laws::<Neighbour>();
        self.items.get(of.0 as usize).copied().flatten()
    }

    // Lays the way to an enclave. For want of memory the ways stay as they were.
    pub fn insert(&mut self, of: Enclave, over: Neighbour) -> Result<(), AllocError>
        ensures ok { OnOk result (self.new ≡ rows.put self.old of.0 over) }
        ensures err { OnErr result (self.new ≡ self.old) }
    {
        row_laws::<Neighbour>();
        let number = of.0 as usize;
        make_room(&mut self.items, number)?;
        self.items[number] = Some(over);
        Ok(())
    }

    // Drops the way to an enclave.
    pub fn remove(&mut self, of: Enclave)
        ensures { self.new ≡ rows.less self.old of.0 }
    {
        row_laws::<Neighbour>();
        let number = of.0 as usize;
        if number < self.items.len() {
            self.items[number] = None;
        }
    }

    // The least enclave from that number on that has a way, and its way.
    pub fn next_from(&self, low: u16) -> Option<(Enclave, Neighbour)>
        ensures next { option_map (λ way. way.0.0) result ≡ rows.next_from self.now low }
        ensures over { IfSome result (λ way. rows.at self.now way.0.0 ≡ Some way.1) }
        ensures ascending { rows.IsAscending self.now }
        ensures numbers { AreNumbers self.now }
    {
        row_laws::<Neighbour>();
        for number in low as usize..self.items.len() {
            if let Some(over) = self.items[number] {
                return Some((Enclave(number as u16), over));
            }
        }
        None
    }
}
