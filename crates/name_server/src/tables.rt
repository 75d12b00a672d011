// The owners by segids, and an index of the segids by owners.
ghost use Rattle.std.specs.Prelude.{◌≡◌, ℕ, ◌^◌, ◌<◌, ◌==◌, ◌&&◌, ◌||◌, not, false, Some, [], option_map, IfSome, MatchOption, OnOk, OnErr};
ghost use Rattle.xm_num.specs.Rows as rows;
ghost use Rattle.name_server.specs.Index.{is_indexed, IsLeastOf};

use std::alloc::{AllocError, Global};
use std::collections::{BTreeMap, BTreeSet};
use std::marker::Model;
use xm_num::Enclave;
use xm_num::laws::row_laws;

// The owner of each segid that has one.
#[derive(Drop)]
pub struct Pairs {
    items: BTreeMap<u64, Enclave>,
}

impl Model for Pairs {
    ghost use Rattle.std.specs.Prelude.{ℕ, List};
    ghost use Rattle.xm_num.specs.declared.Enclave.{Enclave};
    ghost use Rattle.xm_num.specs.Rows.{IsAscending};

    ghost Value = { List (ℕ × Enclave) };

    ghost view = { λ p. p.items.entries };

    ghost invariant = { λ p. IsAscending p.items.entries };
}

#[tactic(auto, unfolding(xm_num::specs::Rows::at, xm_num::specs::Rows::put, xm_num::specs::Rows::less))]
impl Pairs {
    // No pairs.
    pub fn new(alloc: Global) -> Pairs
        ensures { result ≡ [] }
    {
        Pairs {
            items: BTreeMap::new(alloc),
        }
    }

    // The owner of a segid.
    pub fn get(&self, segid: u64) -> Option<Enclave>
        ensures owner { result ≡ rows.at self.now segid }
        ensures ascending { rows.IsAscending self.now }
    {
        self.items.get(&segid).copied()
    }

    // Puts an owner at a segid. For want of memory the pairs stay as they were.
    pub fn insert(&mut self, segid: u64, owner: Enclave) -> Result<(), AllocError>
        ensures ok { OnOk result (self.new ≡ rows.put self.old segid owner) }
        ensures err { OnErr result (self.new ≡ self.old) }
        ensures was_ascending { rows.IsAscending self.old }
    {
        self.items.insert(segid, owner)?;
        Ok(())
    }

    // Takes away a segid.
    pub fn remove(&mut self, segid: u64)
        ensures pairs { self.new ≡ rows.less self.old segid }
        ensures was_ascending { rows.IsAscending self.old }
    {
        let _ = self.items.remove(&segid);
    }

    // The least segid from `low` on, and its owner.
    pub fn next_from(&self, low: u64) -> Option<(u64, Enclave)>
        ensures next { option_map (λ pair. pair.0) result ≡ rows.next_from self.now low }
        ensures owner { IfSome result (λ pair. rows.at self.now pair.0 ≡ Some pair.1) }
        ensures ascending { rows.IsAscending self.now }
    {
        row_laws::<Enclave>();
        let (segid, owner) = self.items.range(low..).next()?;
        Some((*segid, *owner))
    }
}

// The segids of each owner.
#[derive(Drop)]
pub struct Index {
    keys: BTreeSet<(u16, u64)>,
}

impl Model for Index {
    ghost use Rattle.std.specs.Prelude.{ℕ, List};

    ghost Value = { List (ℕ × ℕ) };

    ghost view = { λ i. i.keys.keys };
}

impl Index {
    // Nobody has a segid.
    pub fn new(alloc: Global) -> Index
        ensures { result ≡ [] }
    {
        Index {
            keys: BTreeSet::new(alloc),
        }
    }

    // The owner has the segid. For want of memory the index stays as it was.
    pub fn insert(&mut self, owner: Enclave, segid: u64) -> Result<(), AllocError>
        ensures ok { OnOk result ((e k : ℕ) → is_indexed self.new e k ≡ (((owner.0 == e) && (segid == k)) || is_indexed self.old e k)) }
        ensures err { OnErr result (self.new ≡ self.old) }
    {
        self.keys.insert((owner.0, segid))?;
        Ok(())
    }

    // The owner hasn't the segid.
    pub fn remove(&mut self, owner: Enclave, segid: u64)
        ensures { (e k : ℕ) → is_indexed self.new e k ≡ (not ((owner.0 == e) && (segid == k)) && is_indexed self.old e k) }
    {
        let _ = self.keys.remove(&(owner.0, segid));
    }

    // The owner's least segid.
    pub fn lowest_of(&self, owner: Enclave) -> Option<u64>
        ensures { MatchOption result ((k : ℕ) → k < 2 ^ 64 → is_indexed self.now owner.0 k ≡ false) (λ k. IsLeastOf self.now owner.0 k) }
    {
        let (_, segid) = self.keys.range((owner.0, 0)..=(owner.0, u64::MAX)).next()?;
        Some(*segid)
    }
}
