// The exports by their calls, and the names of those that are live.
ghost use Rattle.std.specs.Prelude.{◌≡◌, ℕ, pos, nat_abs, true, false, [], None, option_map, IfSome, IfNone, OnOk, OnErr};
ghost use Rattle.xm_num.specs.Rows as rows;
ghost use Rattle.exporter_pins.specs.Holdings.{with_live, live_export, is_asked, segment_of, has_live, IsLeastLive};
ghost use Rattle.exporter_pins.specs.Layout.{segid_in, lower_of, permit_of};

use crate::Segment;
use crate::names::NameTable;
use crate::row::{ExportRow, number};
use number_pairs::Pairs;
use std::alloc::{AllocError, Global};
use std::collections::BTreeMap;
use std::marker::Model;
use xm_num::laws::row_laws;
use xm_num::{Access, CallNo, Pid, Segid};

// The exports, seen as rows.
#[derive(Drop)]
pub struct ExportTable {
    rows: BTreeMap<u32, ExportRow>,
    names: NameTable,
    // The calls of each process.
    made: Pairs,
    // How many aren't live. There is room for a name of each.
    asked: usize,
}

impl Model for ExportTable {
    ghost use Rattle.std.specs.Prelude.{ℕ, List};
    ghost use Rattle.exporter_pins.specs.Holdings.{Export};
    ghost use Rattle.exporter_pins.specs.Layout.{IsTable, AreMade};

    ghost Value = { List (ℕ × Export) };

    ghost view = { λ t. t.rows.entries };

    ghost invariant = { λ t. IsTable t.rows.entries t.names t.asked × AreMade t.rows.entries t.made };
}

// The lower of two segids, where there are some.
fn lower(one: Option<Segid>, other: Option<Segid>) -> Option<Segid>
    ensures number { option_map (λ s. nat_abs s.0) result ≡ lower_of (option_map (λ s. nat_abs s.0) one) (option_map (λ s. nat_abs s.0) other) }
    ensures natural { IfSome one (λ s. s.0 ≡ pos (nat_abs s.0)) → IfSome other (λ s. s.0 ≡ pos (nat_abs s.0)) → IfSome result (λ s. s.0 ≡ pos (nat_abs s.0)) }
{
    match (one, other) {
        (Some(a), Some(b)) if number(b) < number(a) => Some(b),
        (None, _) => other,
        (Some(_), _) => one,
    }
}

#[tactic(auto, unfolding(xm_num::specs::Rows::at, xm_num::specs::Rows::put, xm_num::specs::Rows::less))]
impl ExportTable {
    // No exports.
    pub fn new(alloc: Global) -> ExportTable
        ensures { result ≡ [] }
    {
        row_laws::<ExportRow>();
        ExportTable {
            rows: BTreeMap::new(alloc),
            names: NameTable::new(alloc),
            made: Pairs::new(alloc),
            asked: 0,
        }
    }

    // Adds an export that isn't live, and makes room for its name. For want of memory nothing changes.
    pub fn insert(&mut self, call: CallNo, row: ExportRow) -> Result<(), AllocError>
        requires fresh { rows.at self.old call.0 ≡ None }
        requires asked { row.segid ≡ None }
        ensures ok { OnOk result (self.new ≡ rows.put self.old call.0 row) }
        ensures err { OnErr result (self.new ≡ self.old) }
        ensures was_ascending { rows.IsAscending self.old }
    {
        row_laws::<ExportRow>();
        let Some(asked) = self.asked.checked_add(1) else {
            return Err(AllocError);
        };
        self.names.reserve(asked)?;
        let pid = row.pid();
        self.made.insert(pid.0, call.0)?;
        if let Err(error) = self.rows.insert(call.0, row) {
            self.made.remove(pid.0, call.0);
            return Err(error.into());
        }
        self.asked = asked;
        Ok(())
    }

    // Makes an export live, which takes no memory.
    pub fn settle(&mut self, call: CallNo, segid: Segid)
        requires asked { is_asked (rows.at self.old call.0) ≡ true }
        requires unused { live_export self.old (nat_abs segid.0) ≡ None }
        requires natural { segid.0 ≡ pos (nat_abs segid.0) }
        ensures exports { self.new ≡ with_live call.0 (nat_abs segid.0) self.old }
        ensures was_ascending { rows.IsAscending self.old }
    {
        row_laws::<ExportRow>();
        self.names.insert(number(segid), call.0);
        if let Some(row) = self.rows.get_mut(&call.0) {
            row.settle(segid);
        }
        self.asked -= 1;
    }

    // Takes an export out.
    pub fn remove(&mut self, call: CallNo) -> Option<ExportRow>
        ensures row { result ≡ rows.at self.old call.0 }
        ensures exports { self.new ≡ rows.less self.old call.0 }
        ensures was_ascending { rows.IsAscending self.old }
    {
        row_laws::<ExportRow>();
        let row = self.rows.remove(&call.0)?;
        self.made.remove(row.pid().0, call.0);
        match row.segid() {
            Some(segid) => self.names.remove(number(segid)),
            None => self.asked -= 1,
        }
        Some(row)
    }

    // The live export of that name, and its call.
    fn live(&self, number: u64) -> Option<(u32, &ExportRow)>
        ensures { option_map (λ found. (found.0, found.1.now)) result ≡ live_export self.now number }
    {
        row_laws::<ExportRow>();
        let call = self.names.get(number)?;
        let row = self.rows.get(&call)?;
        Some((call, row))
    }

    // The live segment of that name.
    pub fn segment(&self, number: u64) -> Option<Segment>
        ensures { result ≡ option_map segment_of (live_export self.now number) }
    {
        let (call, row) = self.live(number)?;
        Some(Segment {
            call: CallNo(call),
            pid: row.pid(),
            pages: row.pages(),
        })
    }

    // How many pages the live export of that name has, and whether the user may have the access to it.
    pub fn permit(&self, number: u64, uid: u32, gid: u32, access: Access) -> Option<(u32, bool)>
        ensures { result ≡ option_map (permit_of uid gid access) (live_export self.now number) }
    {
        let (_, row) = self.live(number)?;
        Some((row.pages(), row.permits(uid, gid, access)))
    }

    // The segid of a call's export, where it is live.
    fn segid(&self, call: u32) -> Option<Segid>
        ensures number { option_map (λ s. nat_abs s.0) result ≡ segid_in (rows.at self.now call) }
        ensures natural { IfSome result (λ s. s.0 ≡ pos (nat_abs s.0)) }
    {
        self.rows.get(&call)?.segid()
    }

    // The least segid of the live exports of a process.
    pub fn lowest(&self, pid: Pid) -> Option<Segid>
        ensures least { IfSome result (λ s. IsLeastLive self.now pid.0 (nat_abs s.0)) }
        ensures none { IfNone result ((n : ℕ) → has_live self.now pid.0 n ≡ false) }
        ensures natural { IfSome result (λ s. s.0 ≡ pos (nat_abs s.0)) }
    {
        row_laws::<ExportRow>();
        let mut lowest = None;
        let mut last = None;
        while let Some(call) = self.made.next(pid.0, last) {
            lowest = lower(lowest, self.segid(call));
            last = Some(call);
        }
        lowest
    }
}
