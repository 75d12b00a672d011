// The permits by their numbers, and in order by process and by owner.
ghost use Rattle.std.specs.Prelude.{◌≡◌, ◌<◌, ◌^◌, ℕ, pos, nat_abs, [], None, Some, option_map, IsSome, IfSome, IfNone, OnOk, OnErr};
ghost use Rattle.xm_num.specs.Rows as rows;
ghost use Rattle.attach_map.specs.Attaching.{permit_at, held_by, lowest_permit, apid_numbered, wanted_permit};
ghost use Rattle.attach_map.specs.declared.Holder.TheVariants as holders;

use crate::{Holder, Pending, Permit};
use number_pairs::Pairs;
use std::alloc::{AllocError, Global};
use std::collections::BTreeMap;
use std::marker::Model;
use xm_num::laws::row_laws;
use xm_num::{Apid, Pid};

// A permit, and the process that holds it.
#[derive(Drop)]
pub struct Held {
    pid: Pid,
    permit: Permit,
}

impl Model for Held {
    ghost use Rattle.attach_map.specs.Attaching.{PermitState};

    ghost Value = { PermitState };

    ghost view = { λ h. record { pid = h.pid.0; permit = h.permit } };
}

// Permits in the order of their numbers.
#[derive(Drop)]
pub struct Permits {
    rows: BTreeMap<u32, Held>,
    // The numbers of each process's permits, and of those from each owner.
    by_process: Pairs,
    by_owner: Pairs,
}

impl Model for Permits {
    ghost use Rattle.std.specs.Prelude.{ℕ, List};
    ghost use Rattle.attach_map.specs.Attaching.{PermitState};
    ghost use Rattle.attach_map.specs.Permits.{AreIndexed};

    ghost Value = { List (ℕ × PermitState) };

    ghost view = { λ p. p.rows.entries };

    ghost invariant = { λ p. AreIndexed p.rows.entries p.by_process p.by_owner };
}

// The permit that is waited for, with so many pages.
pub fn permit_for(what: Pending, pages: u32) -> Option<Permit>
    ensures { result ≡ wanted_permit what pages }
{
    match what {
        Pending::Make | Pending::Lookup { .. } => None,
        Pending::GetFrom {
            owner,
            segid,
            access,
        } => Some(Permit {
            owner,
            segid,
            access,
            pages,
        }),
    }
}

// The number that a name is, where it may be one.
fn number_of(apid: Apid) -> Option<u32>
    ensures is { IfSome result (λ n. apid.0 ≡ pos n) }
    ensures none { IfNone result ((n : ℕ) → n < 2 ^ 32 → apid.0 ≡ pos n → ⊥) }
{
    if apid.0 < 0 || apid.0 > 4_294_967_295 {
        return None;
    }
    Some(apid.0 as u32)
}

// The name that a number is.
fn named(number: u32) -> Apid
    ensures { result ≡ apid_numbered number }
{
    Apid(i64::from(number))
}

#[tactic(auto, unfolding(xm_num::specs::Rows::at, xm_num::specs::Rows::put, xm_num::specs::Rows::less))]
impl Permits {
    // No permit.
    pub fn new(alloc: Global) -> Permits
        ensures { result ≡ [] }
    {
        Permits {
            rows: BTreeMap::new(alloc),
            by_process: Pairs::new(alloc),
            by_owner: Pairs::new(alloc),
        }
    }

    // Gives a process a permit under a number that has none. For want of memory they stay as they were.
    pub fn insert(&mut self, number: u32, pid: Pid, permit: Permit) -> Result<(), AllocError>
        requires { rows.at self.old number ≡ None }
        ensures ok { OnOk result (self.new ≡ rows.put self.old number (record { pid = pid.0; permit = permit })) }
        ensures err { OnErr result (self.new ≡ self.old) }
    {
        row_laws::<Held>();
        let owner = u32::from(permit.owner.0);
        self.by_process.insert(pid.0, number)?;
        if let Err(error) = self.by_owner.insert(owner, number) {
            self.by_process.remove(pid.0, number);
            return Err(error);
        }
        if let Err(error) = self.rows.insert(number, Held { pid, permit }) {
            self.by_owner.remove(owner, number);
            self.by_process.remove(pid.0, number);
            return Err(error.into());
        }
        Ok(())
    }

    // Drops a permit that is held.
    pub fn remove(&mut self, apid: Apid)
        requires { IsSome (permit_at self.old apid.0) }
        ensures { self.new ≡ rows.less self.old (nat_abs apid.0) }
    {
        row_laws::<Held>();
        let rows = &mut self.rows;
        let Some(number) = number_of(apid) else {
            unreachable!();
        };
        if let Some(held) = rows.remove(&number) {
            self.by_process.remove(held.pid.0, number);
            self.by_owner.remove(u32::from(held.permit.owner.0), number);
        }
    }

    // The permit of that name, where the process holds it.
    pub fn held(&self, pid: Pid, apid: Apid) -> Option<Permit>
        ensures { result ≡ held_by pid.0 (permit_at self.now apid.0) }
    {
        let held = self.rows.get(&number_of(apid)?)?;
        if held.pid != pid {
            return None;
        }
        Some(held.permit)
    }

    // The number of the permit of that name.
    fn number(&self, apid: Apid) -> Option<u32>
        ensures value { result ≡ lowest_permit self.now (holders.Permit apid) }
        ensures ascending { rows.IsAscending self.now }
    {
        row_laws::<Held>();
        let rows = &self.rows;
        let number = number_of(apid)?;
        if !rows.contains_key(&number) {
            return None;
        }
        Some(number)
    }

    // The number of the least permit of a process, of that name or from an owner.
    fn lowest_number(&self, of: Holder) -> Option<u32>
        ensures value { result ≡ lowest_permit self.now of }
        ensures ascending { rows.IsAscending self.now }
    {
        row_laws::<Held>();
        match of {
            Holder::Process(pid) => self.by_process.next(pid.0, None),
            Holder::Permit(apid) => self.number(apid),
            Holder::Owner(owner) => self.by_owner.next(u32::from(owner.0), None),
        }
    }

    // The least permit of a process, of that name or from an owner.
    pub fn lowest(&self, of: Holder) -> Option<Apid>
        ensures least { result ≡ option_map apid_numbered (lowest_permit self.now of) }
        ensures held { IfSome result (λ apid. IsSome (permit_at self.now apid.0)) }
    {
        row_laws::<Held>();
        let number = self.lowest_number(of)?;
        Some(named(number))
    }
}
