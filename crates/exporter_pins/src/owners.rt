// The process that has each frame.
ghost use Rattle.std.specs.Prelude.{◌≡◌, ℕ, ◌<◌, ◌≤◌, ◌/◌, ◌-◌, ◌^◌, [], true, false, length, get_or, replicate, slice_get, IfSome, IfNone, IfOk, OnOk, OnErr, Some, None};
ghost use Rattle.xm_num.specs.Rows as spec;
ghost use Rattle.xm_num.specs.declared.Frame.{Frame};
ghost use Rattle.exporter_pins.specs.Holdings.{AreAscendingFrames, has_frame};
ghost use Rattle.exporter_pins.specs.Layout.{owner_at, is_owner};

use number_pairs::Pairs;
use std::alloc::{AllocError, Global};
use std::marker::Model;
use xm_num::laws::row_laws;
use xm_num::{Frame, FrameList};

// How many places a group has.
const GROUP: usize = 64;

// Ascending frames, and the process that has each: a slot for each frame, at its place. What a process has is found by the
// groups of places in which it has some.
#[derive(Drop)]
pub struct Owners {
    frames: FrameList,
    slots: Vec<Option<u32>>,
    groups: Pairs,
}

impl Model for Owners {
    ghost use Rattle.exporter_pins.specs.Layout.{OwnerTable, AreOwned, owner_rows};

    ghost Value = { OwnerTable };

    ghost view = { λ o. record { frames = o.frames; rows = owner_rows o.frames o.slots.items } };

    ghost invariant = { λ o. AreOwned o.frames o.slots.items o.groups };
}

// What stands at a place, where no process has a frame past the last one.
fn slot(slots: &[Option<u32>], place: usize) -> Option<u32>
    ensures { result ≡ owner_at slots.now place }
{
    match slots.get(place) {
        Some(owner) => *owner,
        None => None,
    }
}

// Whether the frame of that number stands at the place.
fn stands_at(frames: &[Frame], place: usize, number: u32) -> bool
    ensures { result ≡ true → slice_get frames.now place ≡ Some (record { 0 = number }) }
{
    match frames.get(place) {
        Some(frame) => frame.0 == number,
        None => false,
    }
}

// The place of a frame. Where the frames up to it have no gap, it is as far from the first one as the numbers are.
fn place_of(frames: &[Frame], number: u32) -> Option<usize>
    requires { AreAscendingFrames frames.now }
    ensures here { IfSome result (λ place. slice_get frames.now place ≡ Some (record { 0 = number })) }
    ensures none { IfNone result (has_frame frames.now number ≡ false) }
{
    let guess = number.wrapping_sub(frames.first()?.0) as usize;
    if stands_at(frames, guess, number) {
        return Some(guess);
    }
    frames.binary_search(&Frame(number)).ok()
}

// The group of a place.
fn group_of(place: usize) -> u32
    requires { place < 2 ^ 32 }
    ensures { result ≡ place / 64 }
{
    (place / GROUP) as u32
}

// The first place of a group at which the process has a frame.
fn place_in(slots: &[Option<u32>], group: u32, pid: u32) -> Option<usize>
    ensures within { IfSome result (λ place. place / 64 ≡ group) }
    ensures here { IfSome result (λ place. owner_at slots.now place ≡ Some pid) }
    ensures none { IfNone result ((place : ℕ) → place / 64 ≡ group → is_owner pid (owner_at slots.now place) ≡ false) }
{
    let first = GROUP * group as usize;
    for i in 0..GROUP {
        if slot(slots, first + i) == Some(pid) {
            return Some(first + i);
        }
    }
    None
}

// Whether the process has the frame before that place, in the place's group.
fn has_before(slots: &[Option<u32>], place: usize, pid: u32) -> bool
    ensures group { result ≡ true → (place - 1) / 64 ≡ place / 64 }
    ensures here { result ≡ true → owner_at slots.now (place - 1) ≡ Some pid }
{
    place % GROUP != 0 && slot(slots, place - 1) == Some(pid)
}

// All frames, and an empty slot for each.
fn empty_slots(
    frames: &[Frame],
    list: &mut FrameList,
    slots: &mut Vec<Option<u32>>,
) -> Result<(), AllocError>
    requires none { list.old ≡ [] }
    requires empty { slots.old.items ≡ [] }
    ensures list { OnOk result (list.new ≡ frames.now) }
    ensures slots { OnOk result (slots.new.items ≡ replicate (length frames.now) None) }
{
    for frame in frames {
        list.push(*frame)?;
        slots.push(None)?;
    }
    Ok(())
}

impl Owners {
    // No process has any of the frames.
    pub fn new(alloc: Global, frames: &[Frame]) -> Result<Owners, AllocError>
        requires { AreAscendingFrames frames.now }
        ensures { IfOk result (λ owners. owners ≡ record { frames = frames.now; rows = [] }) }
    {
        row_laws::<u32>();
        let mut list = FrameList::new(alloc);
        let mut slots = Vec::with_capacity(alloc, frames.len())?;
        empty_slots(frames, &mut list, &mut slots)?;
        Ok(Owners {
            frames: list,
            slots,
            groups: Pairs::new(alloc),
        })
    }

    // The process that has the frame.
    pub fn get(&self, number: u32) -> Option<u32>
        ensures value { result ≡ spec.at self.now.rows number }
        ensures ascending { spec.IsAscending self.now.rows }
    {
        row_laws::<u32>();
        let place = place_of(self.frames.as_slice(), number)?;
        slot(&self.slots, place)
    }

    // A frame that no process has is the process's. For want of memory nothing changes.
    pub fn insert(&mut self, number: u32, pid: u32) -> Result<(), AllocError>
        requires listed { has_frame self.old.frames number ≡ true }
        requires fresh { spec.at self.old.rows number ≡ None }
        ensures ok { OnOk result (self.new.rows ≡ spec.put self.old.rows number pid) }
        ensures frames { self.new.frames ≡ self.old.frames }
        ensures err { OnErr result (self.new ≡ self.old) }
    {
        row_laws::<u32>();
        let place = place_of(self.frames.as_slice(), number).unwrap();
        if !has_before(&self.slots, place, pid) {
            self.groups.insert(pid, group_of(place))?;
        }
        self.slots[place] = Some(pid);
        Ok(())
    }

    // No process has the frame, which that one has.
    pub fn remove(&mut self, number: u32, pid: u32)
        requires { spec.at self.old.rows number ≡ Some pid }
        ensures rows { self.new.rows ≡ spec.less self.old.rows number }
        ensures frames { self.new.frames ≡ self.old.frames }
    {
        row_laws::<u32>();
        let place = place_of(self.frames.as_slice(), number).unwrap();
        self.slots[place] = None;
        let group = group_of(place);
        if place_in(&self.slots, group, pid).is_none() {
            self.groups.remove(pid, group);
        }
    }

    // A frame that the process has.
    pub fn next_of(&self, pid: u32) -> Option<u32>
        ensures here { IfSome result (λ number. spec.at self.now.rows number ≡ Some pid) }
        ensures none { IfNone result ((k : ℕ) → is_owner pid (spec.at self.now.rows k) ≡ false) }
        ensures ascending { spec.IsAscending self.now.rows }
    {
        row_laws::<u32>();
        let group = self.groups.next(pid, None)?;
        let place = place_in(&self.slots, group, pid)?;
        let frame = self.frames.get(place)?;
        Some(frame.0)
    }
}
