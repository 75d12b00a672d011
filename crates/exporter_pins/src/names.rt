// Which call has a name.
ghost use Rattle.std.specs.Prelude.{◌≡◌, ℕ, ◌+◌, ◌<◌, ◌≤◌, ◌==◌, [], None, Some, OnOk, OnErr, if◌then◌else◌};
ghost use Rattle.exporter_pins.specs.Layout.{name_at};

use std::alloc::{AllocError, Global};
use std::collections::HashMap;
use std::marker::Model;

// Calls by their names, in a table in which room can be made before.
#[derive(Drop)]
pub struct NameTable {
    calls: HashMap<u64, u32>,
}

impl Model for NameTable {
    ghost use Rattle.std.specs.HashMap.{spare};
    ghost use Rattle.exporter_pins.specs.Layout.{Names};

    ghost Value = { Names };

    ghost view = { λ t. record { entries = t.calls.entries; spare = spare t.calls } };
}

impl NameTable {
    // No names.
    pub fn new(alloc: Global) -> NameTable
        ensures { result.entries ≡ [] }
    {
        NameTable {
            calls: HashMap::new(alloc),
        }
    }

    // The call with that name.
    pub fn get(&self, name: u64) -> Option<u32>
        ensures { result ≡ name_at self.now.entries name }
    {
        self.calls.get(&name).copied()
    }

    // Makes room for so many more names.
    pub fn reserve(&mut self, more: usize) -> Result<(), AllocError>
        ensures same { (n : ℕ) → name_at self.new.entries n ≡ name_at self.old.entries n }
        ensures ok { OnOk result (more ≤ self.new.spare) }
        ensures spare { self.old.spare ≤ self.new.spare }
    {
        self.calls.reserve(more)
    }

    // Gives a call a name, for which there is room.
    pub fn insert(&mut self, name: u64, call: u32)
        requires { 0 < self.old.spare }
        ensures names { (n : ℕ) → name_at self.new.entries n ≡ (if name == n then Some call else name_at self.old.entries n) }
        ensures spare { self.old.spare ≤ self.new.spare + 1 }
    {
        let _ = self.calls.insert(name, call);
    }

    // Takes a name away.
    pub fn remove(&mut self, name: u64)
        ensures names { (n : ℕ) → name_at self.new.entries n ≡ (if name == n then None else name_at self.old.entries n) }
        ensures spare { self.old.spare ≤ self.new.spare }
    {
        let _ = self.calls.remove(&name);
    }
}
