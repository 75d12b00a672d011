// The call of each entry, by the entry's last guest frame.
ghost use Rattle.std.specs.Prelude.{◌≡◌, Some, [], option_map, IfSome, OnOk, OnErr};
ghost use Rattle.xm_num.specs.Rows as rows;
ghost use Rattle.guest_map.specs.Index.{with_last, without_last};

use std::alloc::{AllocError, Global};
use std::collections::BTreeMap;
use std::marker::Model;
use xm_num::laws::row_laws;

// The entries' last guest frames in order, each with a call. Contracts see them as rows.
#[derive(Drop)]
pub struct Lasts {
    items: BTreeMap<u32, u32>,
}

impl Model for Lasts {
    ghost use Rattle.std.specs.Prelude.{ℕ, List};
    ghost use Rattle.xm_num.specs.Rows.{IsAscending};

    ghost Value = { List (ℕ × ℕ) };

    ghost view = { λ l. l.items.entries };

    ghost invariant = { λ l. IsAscending l.items.entries };
}

#[tactic(auto, unfolding(xm_num::specs::Rows::at, xm_num::specs::Rows::put, xm_num::specs::Rows::less))]
impl Lasts {
    // None.
    pub fn new(alloc: Global) -> Lasts
        ensures { result ≡ [] }
    {
        Lasts {
            items: BTreeMap::new(alloc),
        }
    }

    // Adds one with its call, where there is one. For want of memory nothing changes.
    pub fn insert(&mut self, last: Option<u32>, call: u32) -> Result<(), AllocError>
        ensures ok { OnOk result (self.new ≡ with_last self.old last call) }
        ensures err { OnErr result (self.new ≡ self.old) }
        ensures was_ascending { rows.IsAscending self.old }
    {
        if let Some(last) = last {
            self.items.insert(last, call)?;
        }
        Ok(())
    }

    // Takes one out, where there is one.
    pub fn remove(&mut self, last: Option<u32>)
        ensures lasts { self.new ≡ without_last self.old last }
        ensures was_ascending { rows.IsAscending self.old }
    {
        if let Some(last) = last {
            let _ = self.items.remove(&last);
        }
    }

    // The least one from `low` on, and its call.
    pub fn next_from(&self, low: u32) -> Option<(u32, u32)>
        ensures next { option_map (λ pair. pair.0) result ≡ rows.next_from self.now low }
        ensures call { IfSome result (λ pair. rows.at self.now pair.0 ≡ Some pair.1) }
        ensures ascending { rows.IsAscending self.now }
    {
        row_laws::<u32>();
        let (last, call) = self.items.range(low..).next()?;
        Some((*last, *call))
    }
}
