// The children of an enclave.
ghost use Rattle.std.specs.Prelude.{◌≡◌, [], OnOk};
ghost use Rattle.xm_num.specs.Rows.{put};

use std::alloc::{AllocError, Global};
use std::collections::BTreeMap;
use std::marker::Model;
use xm_num::{Enclave, Kind};

/// The kind of each child, by its number.
#[derive(Drop)]
pub struct Children {
    kinds: BTreeMap<u16, Kind>,
}

impl Model for Children {
    ghost use Rattle.std.specs.Prelude.{ℕ, List};
    ghost use Rattle.xm_num.specs.declared.Kind.{Kind};

    ghost Value = { List (ℕ × Kind) };

    ghost view = { λ c. c.kinds.entries };
}

#[tactic(auto, unfolding(xm_num::specs::Rows::put))]
impl Children {
    /// No child.
    pub fn new(alloc: Global) -> Children
        ensures { result ≡ [] }
    {
        Children {
            kinds: BTreeMap::new(alloc),
        }
    }

    /// Adds a child.
    pub fn insert(&mut self, child: Enclave, kind: Kind) -> Result<(), AllocError>
        ensures { OnOk result (self.new ≡ put self.old child.0 kind) }
    {
        self.kinds.insert(child.0, kind)?;
        Ok(())
    }
}
