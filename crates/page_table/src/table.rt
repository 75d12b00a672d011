// A space as an ordered table of its pages.
ghost use Rattle.std.specs.Prelude.{◌≡◌, ℕ, ◌+◌, ◌^◌, ◌<◌, ◌≤◌, ◌↔◌, List, length, map, IsErrOf, OnOk, OnErr, None};
ghost use Rattle.xm_num.specs.Rows as spec;
ghost use Rattle.xm_num.specs.RowLaws.{RowLaws};
ghost use Rattle.xm_num.specs.declared.Page.{Page};
ghost use Rattle.page_table.specs.Spaces.{page_of, AreWithin};
ghost use Rattle.page_table.specs.Held.{AreHeld};
ghost use Rattle.page_table.specs.Hints.{AreHints};

use crate::hints::Hints;
use crate::rows::{END, Rows};
use crate::space::{AddressSpace, MapFault, MapRight};
use std::alloc::{AllocError, Global};
use xm_num::laws::row_laws;
use xm_num::{Access, Frame, Page, Vpn};

/// A space whose pages stand in one ordered table. A look-up takes time logarithmic in the pages that are mapped, and a
/// change of `n` pages `n` times that. `first_gap` begins where no gap of its length is known to be below, and goes over the
/// mapped pages from there to the gap. `map` does the same behind the pages that it maps, and remembers where it came to;
/// `unmap` and `disown` take one step more for each length, up to the longest that was mapped, that fits into the gap they
/// leave.
pub struct PageTable {
    pages: Rows<Page>,
    // How many pages the range of each right has that is out, by its first page.
    rights: Rows<u32>,
    // Below which page there is no gap, for each length. `map` raises its own, and whatever unmaps lowers them.
    hints: Hints,
    ghost within: { AreWithin pages },
    ghost held: { AreHeld pages rights },
    ghost hinted: { AreHints pages hints },
}

// The laws of a table's rows.
fn table_laws()
    ensures pages { RowLaws Page }
    ensures rights { RowLaws ℕ }
{
    row_laws::<Page>();
    row_laws::<u32>();
}

// Maps the pages from `first` on, none of which is mapped, or none of them for want of memory.
fn insert_all(
    pages: &mut Rows<Page>,
    first: u32,
    frames: &[Frame],
    access: Access,
    own: bool,
) -> Result<(), AllocError>
    requires fits { first + length frames.now ≤ 2 ^ 24 }
    requires free { spec.lowest_in pages.old first (first + length frames.now) ≡ None }
    requires ascending { spec.IsAscending pages.old }
    ensures ok { OnOk result (pages.new ≡ spec.put_all pages.old first (map (page_of access own) frames.now)) }
    ensures err { OnErr result (pages.new ≡ pages.old) }
{
    row_laws::<Page>();
    for (i, frame) in frames.iter().enumerate() {
        let page = Page {
            frame: *frame,
            access,
            own,
        };
        if let Err(error) = pages.insert(first + i as u32, page) {
            pages.remove_all(first, i as u32);
            return Err(error);
        }
    }
    Ok(())
}

// Maps the pages from `first` on, or none of them where one is mapped or memory is wanting.
fn map_all(
    pages: &mut Rows<Page>,
    first: Vpn,
    frames: &[Frame],
    access: Access,
    own: bool,
) -> Result<(), MapFault>
    requires low { 1 ≤ first.0 }
    requires high { first.0 + length frames.now ≤ 2 ^ 24 }
    requires within { AreWithin pages.old }
    ensures ok { OnOk result (pages.new ≡ spec.put_all pages.old first.0 (map (page_of access own) frames.now)) }
    ensures err { OnErr result (pages.new ≡ pages.old) }
    ensures taken { (v : Vpn) → IsErrOf result (MapFault.Taken v) ↔ (spec.lowest_in pages.old first.0 (first.0 + length frames.now) ≡ Some v.0) }
    ensures free { OnOk result (spec.lowest_in pages.old first.0 (first.0 + length frames.now) ≡ None) }
    ensures back { OnOk result (spec.less_all pages.new first.0 (length frames.now) ≡ pages.old) }
    ensures now_ascending { spec.IsAscending pages.new }
    ensures now_within { AreWithin pages.new }
    ensures held { (out : List (ℕ × ℕ)) → AreHeld pages.old out → AreHeld pages.new out }
    ensures hinted { (hints : List ℕ) → AreHints pages.old hints → AreHints pages.new hints }
{
    table_laws();
    let n = frames.len() as u32;
    if let Some(page) = pages.lowest_in(first.0, first.0 + n) {
        return Err(MapFault::Taken(Vpn(page)));
    }
    let Ok(()) = insert_all(pages, first.0, frames, access, own) else {
        return Err(MapFault::Memory);
    };
    Ok(())
}

// Unmaps `n` pages from `first` on, and lowers the hints that this makes too high: those for as many pages as the gap has
// that is there now, or for fewer.
fn unmap_all(pages: &mut Rows<Page>, hints: &mut Hints, first: u32, n: u32)
    requires fits { first + n < 2 ^ 32 }
    requires was_within { AreWithin pages.old }
    requires were_hinted { AreHints pages.old hints.old }
    ensures rows { pages.new ≡ spec.less_all pages.old first n }
    ensures ascending { spec.IsAscending pages.new }
    ensures was_ascending { spec.IsAscending pages.old }
    ensures within { AreWithin pages.new }
    ensures hinted { AreHints pages.new hints.new }
{
    row_laws::<Page>();
    pages.remove_all(first, n);
    let low = pages.behind_last(first);
    let high = pages.next_from(first + n).unwrap_or(END);
    hints.lower(high - low, low);
}

// Raises the hint for `n` pages to their first gap, or behind all pages where they have none. For want of memory it stays.
fn raise_hint(pages: &Rows<Page>, hints: &mut Hints, n: u32)
    requires some { 1 ≤ n }
    requires within { AreWithin pages.now }
    requires were_hinted { AreHints pages.now hints.old }
    ensures hinted { AreHints pages.now hints.new }
{
    let first = pages.first_gap(n, hints.get(n)).unwrap_or(END);
    let _ = hints.put(n, first);
}

impl AddressSpace for PageTable {
    ghost pages = { λ table. table.pages };

    ghost out = { λ table. table.rights };

    fn new(alloc: Global) -> Result<Self, AllocError> {
        table_laws();
        Ok(PageTable {
            pages: Rows::new(alloc),
            rights: Rows::new(alloc),
            hints: Hints::new(alloc),
        })
    }

    fn own(&mut self, at: Vpn, frames: &[Frame]) -> Result<(), MapFault> {
        map_all(&mut self.pages, at, frames, Access::ReadWrite, true)
    }

    fn disown(&mut self, at: Vpn, n: u32) {
        table_laws();
        unmap_all(&mut self.pages, &mut self.hints, at.0, n);
    }

    fn map(&mut self, at: Vpn, frames: &[Frame], access: Access) -> Result<MapRight, MapFault> {
        table_laws();
        let count = frames.len() as u32;
        map_all(&mut self.pages, at, frames, access, false)?;
        let Ok(()) = self.rights.insert(at.0, count) else {
            self.pages.remove_all(at.0, count);
            return Err(MapFault::Memory);
        };
        raise_hint(&self.pages, &mut self.hints, count);
        Ok(MapRight::make(at, count))
    }

    // By `held` each page of the range is mapped. The contract needn't say so: taking away the row of a page that isn't
    // mapped would change nothing.
    fn unmap(&mut self, right: MapRight) {
        table_laws();
        let (first, n) = right.spend();
        unmap_all(&mut self.pages, &mut self.hints, first.0, n);
        self.rights.remove(first.0);
    }

    fn walk(&self, vpn: Vpn) -> Option<(Frame, Access)> {
        self.pages.get(vpn.0).map(|page| (page.frame, page.access))
    }

    fn owned(&self, vpn: Vpn) -> Option<Frame> {
        match self.pages.get(vpn.0) {
            Some(page) if page.own => Some(page.frame),
            _ => None,
        }
    }

    fn first_gap(&self, n: u32) -> Option<Vpn> {
        self.pages.first_gap(n, self.hints.get(n)).map(Vpn)
    }

    fn next_mapped(&self, from: Vpn) -> Option<Vpn> {
        self.pages.next_from(from.0).map(Vpn)
    }

    fn close(self) {
        let PageTable {
            pages: _,
            rights: _,
            hints: _,
        } = self;
    }
}
