// Address spaces: what is mapped, and the rights that are out.
ghost use Rattle.std.specs.Prelude.{◌≡◌, ℕ, ◌+◌, ◌^◌, ◌<◌, ◌≤◌, ◌↔◌, List, [], None, length, option_map, IsErrOf, IfOk, OnOk, OnErr};
ghost use Rattle.xm_num.specs.Rows as rows;
ghost use Rattle.xm_num.specs.declared.Page.{Page};
ghost use Rattle.page_table.specs.Spaces.{owned, attached, own_frame, AreOwn, AreWithin, IsFirstGap};

use std::alloc::{AllocError, Global};
use std::marker::Model;
use thiserror::Error;
use xm_num::{Access, Frame, Page, Vpn};

/// Why pages weren't mapped. Then none of them is.
#[derive(Clone, Copy, Debug, PartialEq, Eq, Error)]
pub enum MapFault {
    /// A page is mapped already: this one, the lowest.
    #[error("page {} is mapped already", .0.0)]
    Taken(Vpn),
    /// Memory was wanting.
    #[error("out of memory")]
    Memory,
}

/// Stands for one range of attached pages that is mapped. `AddressSpace::unmap` alone spends it: a right can't be let
/// go or copied.
pub struct MapRight {
    first: Vpn,
    pages: u32,
}

impl Model for MapRight {
    ghost use Rattle.std.specs.Prelude.{◌+◌, ◌^◌, ◌≤◌};
    ghost use Rattle.page_table.specs.Spaces.{Range};

    ghost Value = { Range };

    ghost view = { λ right. record { first = right.first; pages = right.pages } };

    ghost invariant = { λ right. right.first.0 + right.pages ≤ 2 ^ 24 };
}

impl MapRight {
    /// The first page of the range.
    pub fn first(&self) -> Vpn
        ensures { result ≡ self.now.first }
    {
        self.first
    }

    /// How many pages the range has.
    pub fn pages(&self) -> u32
        ensures { result ≡ self.now.pages }
    {
        self.pages
    }

    // The right to a range that has just been mapped.
    pub(crate) fn make(first: Vpn, pages: u32) -> MapRight
        requires { first.0 + pages ≤ 2 ^ 24 }
        ensures first { result.first ≡ first }
        ensures pages { result.pages ≡ pages }
    {
        MapRight { first, pages }
    }

    // The range of a right, which is no more.
    pub(crate) fn spend(self) -> (Vpn, u32)
        ensures first { result.0 ≡ self.first }
        ensures pages { result.1 ≡ self.pages }
        ensures within { result.0.0 + result.1 ≤ 2 ^ 24 }
    {
        let MapRight { first, pages } = self;
        (first, pages)
    }
}

/// The pages of a process, 1 to 16,777,215, and what they are mapped to. A space can't be let go: `close` ends it.
pub trait AddressSpace {
    /// What each mapped page is mapped to, in ascending order of the pages' numbers.
    ghost pages: { Self → List (ℕ × Page) };

    /// The ranges whose rights are out: how many pages each has, by its first page, ascending.
    ghost out: { Self → List (ℕ × ℕ) };

    /// A space with nothing mapped.
    fn new(alloc: Global) -> Result<Self, AllocError>
        ensures pages { IfOk result (λ space. pages space ≡ []) }
        ensures out { IfOk result (λ space. out space ≡ []) };

    /// Maps own pages from `at` on, one to each frame, to be read and written.
    fn own(&mut self, at: Vpn, frames: &[Frame]) -> Result<(), MapFault>
        requires low { 1 ≤ at.0 }
        requires high { at.0 + length frames.now ≤ 2 ^ 24 }
        ensures ok { OnOk result (pages self.new ≡ rows.put_all (pages self.old) at.0 (owned frames.now)) }
        ensures err { OnErr result (pages self.new ≡ pages self.old) }
        ensures taken { (v : Vpn) → IsErrOf result (MapFault.Taken v) ↔ (rows.lowest_in (pages self.old) at.0 (at.0 + length frames.now) ≡ Some v.0) }
        ensures out { out self.new ≡ out self.old }
        ensures ascending { rows.IsAscending (pages self.new) }
        ensures within { AreWithin (pages self.new) };

    /// Unmaps `n` own pages from `at` on.
    fn disown(&mut self, at: Vpn, n: u32)
        requires { AreOwn (pages self.old) at.0 n }
        ensures pages { pages self.new ≡ rows.less_all (pages self.old) at.0 n }
        ensures out { out self.new ≡ out self.old }
        ensures ascending { rows.IsAscending (pages self.new) }
        ensures within { AreWithin (pages self.new) };

    /// Maps attached pages from `at` on, one to each frame, and gives the right to them, which is a new one.
    fn map(&mut self, at: Vpn, frames: &[Frame], access: Access) -> Result<MapRight, MapFault>
        requires some { 1 ≤ length frames.now }
        requires low { 1 ≤ at.0 }
        requires high { at.0 + length frames.now ≤ 2 ^ 24 }
        ensures right { IfOk result (λ right. (right.first ≡ at) × (right.pages ≡ length frames.now)) }
        ensures ok { OnOk result (pages self.new ≡ rows.put_all (pages self.old) at.0 (attached access frames.now)) }
        ensures fresh { OnOk result (rows.at (out self.old) at.0 ≡ None) }
        ensures ok_out { OnOk result (out self.new ≡ rows.put (out self.old) at.0 (length frames.now)) }
        ensures err { OnErr result (pages self.new ≡ pages self.old) }
        ensures err_out { OnErr result (out self.new ≡ out self.old) }
        ensures taken { (v : Vpn) → IsErrOf result (MapFault.Taken v) ↔ (rows.lowest_in (pages self.old) at.0 (at.0 + length frames.now) ≡ Some v.0) }
        ensures ascending { rows.IsAscending (pages self.new) }
        ensures within { AreWithin (pages self.new) };

    /// Unmaps the range of a right that this space gave.
    fn unmap(&mut self, right: MapRight)
        requires { rows.at (out self.old) right.first.0 ≡ Some right.pages }
        ensures pages { pages self.new ≡ rows.less_all (pages self.old) right.first.0 right.pages }
        ensures out { out self.new ≡ rows.less (out self.old) right.first.0 }
        ensures ascending { rows.IsAscending (pages self.new) }
        ensures within { AreWithin (pages self.new) };

    /// The frame of a page and what it may be used for, where it is mapped.
    fn walk(&self, vpn: Vpn) -> Option<(Frame, Access)>
        ensures entry { result ≡ option_map (λ page. (page.frame, page.access)) (rows.at (pages self.now) vpn.0) }
        ensures ascending { rows.IsAscending (pages self.now) }
        ensures within { AreWithin (pages self.now) };

    /// The frame of a page, where it is an own page.
    fn owned(&self, vpn: Vpn) -> Option<Frame>
        ensures { result ≡ own_frame (rows.at (pages self.now) vpn.0) };

    /// The lowest page from which `n` pages within 1 to 16,777,215 aren't mapped.
    fn first_gap(&self, n: u32) -> Option<Vpn>
        requires { 1 ≤ n }
        ensures { IsFirstGap (pages self.now) n (option_map (λ page. page.0) result) };

    /// The lowest mapped page that isn't below `from`.
    fn next_mapped(&self, from: Vpn) -> Option<Vpn>
        ensures next { option_map (λ page. page.0) result ≡ rows.next_from (pages self.now) from.0 }
        ensures ascending { rows.IsAscending (pages self.now) }
        ensures within { AreWithin (pages self.now) };

    /// Ends the space, where no right is out. Its own pages may still be mapped, and end with it.
    fn close(self)
        requires { out self ≡ [] };
}
