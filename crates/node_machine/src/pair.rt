// A child and its parent, with the two channels between them.
ghost use Rattle.std.specs.Prelude.{◌≡◌, ◌<◌, ◌≤◌, ◌-◌, false, IsTrue, IfOk};
ghost use Rattle.node_machine.specs.Machine as spec;

use byte_link::Link;
use std::alloc::{AllocError, Global};
use xm_num::Enclave;

/// The channels of a child: up to its parent, and down from it.
#[derive(Drop)]
pub struct Pair {
    pub parent: Enclave,
    pub up: Link,
    pub down: Link,
}

/// Which channel goes from one enclave to another, by the place of the child at its end.
#[derive(Clone, Copy, Debug, PartialEq, Eq)]
pub enum Hop {
    /// The receiver doesn't live, or the sender was never born.
    NoEnclave,
    /// They aren't neighbours.
    NoLink,
    Up(usize),
    Down(usize),
}

/// The channels of a child that is born under the parent.
pub fn new_pair(alloc: Global, parent: Enclave) -> Result<Pair, AllocError>
    ensures { IfOk result (λ pair. (pair.parent ≡ parent) × (pair.up ≡ spec.no_pair.up) × (pair.down ≡ spec.no_pair.down)) }
{
    Ok(Pair {
        parent,
        up: Link::new(alloc)?,
        down: Link::new(alloc)?,
    })
}

// Whether the enclave is the child's parent.
fn is_parent(pairs: &[Pair], child: Enclave, parent: Enclave) -> bool
    ensures { result ≡ spec.is_parent pairs.now child.0 parent.0 }
{
    if child.0 < 1 {
        return false;
    }
    match pairs.get(child.0 as usize - 1) {
        Some(pair) => pair.parent.0 == parent.0,
        None => false,
    }
}

/// Which channel goes from `from` to `to`, where these are known: `to` lives, and `from` was born.
pub fn hop_of(pairs: &[Pair], known: bool, from: Enclave, to: Enclave) -> Hop
    ensures { result ≡ spec.hop_of pairs.now known from to }
{
    if !known {
        Hop::NoEnclave
    } else if is_parent(pairs, from, to) {
        Hop::Up(from.0 as usize - 1)
    } else if is_parent(pairs, to, from) {
        Hop::Down(to.0 as usize - 1)
    } else {
        Hop::NoLink
    }
}
