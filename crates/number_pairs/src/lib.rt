//! Pairs of numbers in order: an index of what stands beside a number.
#![tactic(auto)]

ghost use Rattle.std.specs.Prelude.{◌≡◌, ℕ, ◌<◌, ◌==◌, ◌&&◌, ◌||◌, not, true, false, [], IfSome, IfNone, OnOk, OnErr};
ghost use Rattle.number_pairs.specs.Pairs.{has_pair, is_after_last, start_of};

use std::alloc::{AllocError, Global};
use std::collections::BTreeSet;
use std::marker::Model;
use std::ops::Bound;

/// A set of pairs. A call takes time logarithmic in them.
#[derive(Drop)]
pub struct Pairs {
    items: BTreeSet<(u32, u32)>,
}

impl Model for Pairs {
    ghost use Rattle.std.specs.Prelude.{ℕ, List};

    ghost Value = { List (ℕ × ℕ) };

    ghost view = { λ p. p.items.keys };
}

// Where the pairs with this first number begin whose second one is above the last one.
fn start(first: u32, last: Option<u32>) -> Bound<(u32, u32)>
    ensures { result ≡ start_of first last }
{
    match last {
        Some(second) => Bound::Excluded((first, second)),
        None => Bound::Included((first, 0)),
    }
}

impl Pairs {
    /// No pairs.
    pub fn new(alloc: Global) -> Pairs
        ensures { result ≡ [] }
    {
        Pairs {
            items: BTreeSet::new(alloc),
        }
    }

    /// Adds a pair. For want of memory they stay as they were.
    pub fn insert(&mut self, first: u32, second: u32) -> Result<(), AllocError>
        ensures ok { OnOk result ((a b : ℕ) → has_pair self.new a b ≡ ((first == a) && (second == b) || has_pair self.old a b)) }
        ensures err { OnErr result (self.new ≡ self.old) }
    {
        self.items.insert((first, second))?;
        Ok(())
    }

    /// Takes a pair out.
    pub fn remove(&mut self, first: u32, second: u32)
        ensures { (a b : ℕ) → has_pair self.new a b ≡ (not ((first == a) && (second == b)) && has_pair self.old a b) }
    {
        let _ = self.items.remove(&(first, second));
    }

    /// The least second number that stands beside the first one, of those above the last one, where that is given.
    pub fn next(&self, first: u32, last: Option<u32>) -> Option<u32>
        ensures here { IfSome result (λ second. has_pair self.now first second ≡ true) }
        ensures above { IfSome result (λ second. is_after_last last second ≡ true) }
        ensures least { IfSome result (λ second. (b : ℕ) → is_after_last last b ≡ true → b < second → has_pair self.now first b ≡ false) }
        ensures none { IfNone result ((b : ℕ) → is_after_last last b ≡ true → has_pair self.now first b ≡ false) }
    {
        let (one, second) = self
            .items
            .range((start(first, last), Bound::Unbounded))
            .next()?;
        if *one != first {
            return None;
        }
        Some(*second)
    }
}
