// The names at each segid, in order.
ghost use Rattle.std.specs.Prelude.{◌≡◌, ◌≤◌, ◌==◌, ◌&&◌, ◌||◌, not, ℕ, false, [], IfSome, IfNone, OnOk, OnErr};
ghost use Rattle.std.specs.Ordering.{int_eq};
ghost use Rattle.xm_num.specs.declared.Segid.{Segid};
ghost use Rattle.holder_table.specs.Index.{is_indexed, IsNextIndexed};

use std::alloc::{AllocError, Global};
use std::collections::BTreeSet;
use std::marker::Model;
use xm_num::{CallNo, Enclave, Segid};

// Segids, each with a name.
#[derive(Drop)]
pub struct Index {
    keys: BTreeSet<(Segid, (u16, u32))>,
}

impl Model for Index {
    ghost use Rattle.std.specs.Prelude.{ℕ, List};
    ghost use Rattle.xm_num.specs.declared.Segid.{Segid};

    ghost Value = { List (Segid × (ℕ × ℕ)) };

    ghost view = { λ i. i.keys.keys };
}

impl Index {
    // No names.
    pub fn new(alloc: Global) -> Index
        ensures { result ≡ [] }
    {
        Index {
            keys: BTreeSet::new(alloc),
        }
    }

    // The name stands at the segid. For want of memory the index stays as it was.
    pub fn insert(&mut self, segid: Segid, to: Enclave, call: CallNo) -> Result<(), AllocError>
        ensures ok { OnOk result ((s : Segid) (e c : ℕ) → is_indexed self.new s e c ≡ (int_eq segid.0 s.0 && ((to.0 == e) && (call.0 == c)) || is_indexed self.old s e c)) }
        ensures err { OnErr result (self.new ≡ self.old) }
    {
        self.keys.insert((segid, (to.0, call.0)))?;
        Ok(())
    }

    // The name doesn't stand at the segid.
    pub fn remove(&mut self, segid: Segid, to: Enclave, call: CallNo)
        ensures { (s : Segid) (e c : ℕ) → is_indexed self.new s e c ≡ (not (int_eq segid.0 s.0 && ((to.0 == e) && (call.0 == c))) && is_indexed self.old s e c) }
    {
        let _ = self.keys.remove(&(segid, (to.0, call.0)));
    }

    // The least enclave from `low` on that has a name at the segid.
    pub fn next(&self, segid: Segid, low: Enclave) -> Option<Enclave>
        ensures least { IfSome result (λ e. IsNextIndexed self.now segid low.0 e.0) }
        ensures none { IfNone result ((e c : ℕ) → low.0 ≤ e → is_indexed self.now segid e c ≡ false) }
    {
        let (found, (to, _)) = self.keys.range((segid, (low.0, 0))..).next()?;
        if *found != segid {
            return None;
        }
        Some(Enclave(*to))
    }
}
