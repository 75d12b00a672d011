// The living processes by their numbers.
ghost use Rattle.std.specs.Prelude.{◌≡◌, ◌+◌, ◌<◌, ◌≤◌, ◌↔◌, ◌^◌, ℕ, [], length, option_copied, None, Some, IsSome, IfSome, OnOk, OnErr, IsErrOf};
ghost use Rattle.xm_num.specs.Rows as rows;
ghost use Rattle.page_table.specs.Spaces.{AreOwn};
ghost use Rattle.attach_map.specs.Seats.{Seat, with_own_pages, without_owned, with_seat_call, seat_pages, IsLast, ChangesAt};

use crate::process::Process;
use indexmap::IndexMap;
use page_table::{AddressSpace, MapFault};
use std::alloc::{AllocError, Global};
use std::marker::Model;
use xm_num::laws::row_laws;
use xm_num::{CallNo, Frame, Vpn};

// The place of a process that none before it left: numbers are drawn one by one, from 1 on.
fn first_place(pid: u32) -> usize {
    pid.wrapping_sub(1) as usize
}

// Processes in the order of their numbers. They can't be let go: `close` ends them.
pub struct Processes<A: AddressSpace> {
    map: IndexMap<u32, Process<A>>,
}

impl<A: AddressSpace> Model for Processes<A> {
    ghost use Rattle.std.specs.Prelude.{ℕ, List};
    ghost use Rattle.xm_num.specs.Rows.{IsAscending};
    ghost use Rattle.attach_map.specs.Seats.{Seat};

    ghost Value = { List (ℕ × Seat) };

    ghost view = { λ p. p.map.entries };

    ghost invariant = { λ p. IsAscending p.map.entries };
}

impl<A: AddressSpace> Processes<A> {
    // No process.
    pub fn new(alloc: Global) -> Self
        ensures { result ≡ [] }
    {
        Processes {
            map: IndexMap::new(alloc),
        }
    }

    // The process of that number.
    pub fn get(&self, pid: u32) -> Option<&Process<A>>
        ensures value { option_copied result ≡ rows.at self.now pid }
        ensures ascending { rows.IsAscending self.now }
    {
        match self.map.get_index(first_place(pid)) {
            Some((number, process)) if *number == pid => Some(process),
            _ => self.map.get(&pid),
        }
    }

    // Puts a process behind the others. For want of memory it is closed, and they stay as they were.
    pub fn push(&mut self, pid: u32, process: Process<A>) -> Result<(), AllocError>
        requires { IsLast self.old pid }
        ensures ok { OnOk result (self.new ≡ rows.put self.old pid process) }
        ensures err { OnErr result (self.new ≡ self.old) }
    {
        row_laws::<Process<A>>();
        match self.map.insert(pid, process) {
            Ok(None) => Ok(()),
            Ok(Some(other)) => {
                other.close();
                unreachable!()
            }
            Err(refused) => {
                let (_, process) = refused.value;
                process.close();
                Err(AllocError)
            }
        }
    }

    // Sets the call that a process waits for.
    pub fn wait(&mut self, pid: u32, call: Option<CallNo>)
        requires { IsSome (rows.at self.old pid) }
        ensures { ChangesAt (with_seat_call call) self.old pid self.new }
    {
        row_laws::<Process<A>>();
        match self.map.get_mut(&pid) {
            Some(process) => process.wait(call),
            None => unreachable!(),
        }
    }

    // Maps own pages of a process from `at` on, one to each frame, or none of them.
    pub fn own(&mut self, pid: u32, at: Vpn, frames: &[Frame]) -> Result<(), MapFault>
        requires lives { IsSome (rows.at self.old pid) }
        requires low { 1 ≤ at.0 }
        requires high { at.0 + length frames.now ≤ 2 ^ 24 }
        ensures ok { OnOk result (ChangesAt (with_own_pages at.0 frames.now) self.old pid self.new) }
        ensures err { OnErr result (self.new ≡ self.old) }
        ensures taken { (v : Vpn) → IsErrOf result (MapFault.Taken v) ↔ (rows.lowest_in (seat_pages self.old pid) at.0 (at.0 + length frames.now) ≡ Some v.0) }
    {
        row_laws::<Process<A>>();
        match self.map.get_mut(&pid) {
            Some(process) => process.own(at, frames),
            None => unreachable!(),
        }
    }

    // Unmaps `n` own pages of a process from `at` on.
    pub fn disown(&mut self, pid: u32, at: Vpn, n: u32)
        requires lives { IsSome (rows.at self.old pid) }
        requires own { AreOwn (seat_pages self.old pid) at.0 n }
        ensures { ChangesAt (without_owned at.0 n) self.old pid self.new }
    {
        row_laws::<Process<A>>();
        match self.map.get_mut(&pid) {
            Some(process) => process.disown(at, n),
            None => unreachable!(),
        }
    }

    // Ends a process.
    pub fn end(&mut self, pid: u32)
        ensures { self.new ≡ rows.less self.old pid }
    {
        row_laws::<Process<A>>();
        if let Some(process) = self.map.shift_remove(&pid) {
            process.close();
        }
    }

    // Ends them all.
    pub fn close(self) {
        let Processes { mut map } = self;
        while let Some((_, process)) = map.pop() {
            process.close();
        }
        map.destroy_empty();
    }
}
