// Where the search for a gap may begin.
ghost use Rattle.std.specs.Prelude.{◌≡◌, ◌<◌, ◌≤◌, ◌==◌, ℕ, [], min, OnOk, OnErr, if◌then◌else◌};
ghost use Rattle.page_table.specs.Hints.{hint_of};

use std::alloc::{AllocError, Global};
use std::marker::Model;

// A page for each number of pages, below which no gap of so many begins. It is page 1 for more pages than were ever
// mapped at once.
#[derive(Drop)]
pub struct Hints {
    // By the number of pages.
    pages: Vec<u32>,
}

impl Model for Hints {
    ghost use Rattle.std.specs.Prelude.{ℕ, List};

    ghost Value = { List ℕ };

    ghost view = { λ hints. hints.pages.items };
}

impl Hints {
    // No hints.
    pub fn new(alloc: Global) -> Self
        ensures { result ≡ [] }
    {
        Hints {
            pages: Vec::new(alloc),
        }
    }

    // The hint for `n` pages.
    pub fn get(&self, n: u32) -> u32
        ensures { result ≡ hint_of self.now n }
    {
        self.pages.get(n as usize).copied().unwrap_or(1)
    }

    // Keeps a hint for `n` pages. For want of memory the hints stay as they were.
    pub fn put(&mut self, n: u32, hint: u32) -> Result<(), AllocError>
        ensures ok { (m : ℕ) → OnOk result (hint_of self.new m ≡ (if n == m then hint else hint_of self.old m)) }
        ensures err { OnErr result (self.new ≡ self.old) }
    {
        let place = n as usize;
        if place >= self.pages.len() {
            self.pages.resize(place + 1, 1)?;
        }
        self.pages[place] = hint;
        Ok(())
    }

    // Lowers the hints for up to `most` pages to a page, where they are above it.
    pub fn lower(&mut self, most: u32, low: u32)
        requires { 1 ≤ low }
        ensures few { (n : ℕ) → n ≤ most → hint_of self.new n ≡ min (hint_of self.old n) low }
        ensures many { (n : ℕ) → most < n → hint_of self.new n ≡ hint_of self.old n }
    {
        let end = self.pages.len().min(most as usize + 1);
        for n in 0..end {
            self.pages[n] = self.pages[n].min(low);
        }
    }
}
