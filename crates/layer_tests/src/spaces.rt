// `page_table`: address spaces by worked rows, over any implementation.
ghost use Rattle.std.specs.Prelude.{◌≡◌, []};

use page_table::{AddressSpace, MapFault, MapRight, PageTable};
use std::alloc::{AllocError, Global};
use std::marker::Model;
use xm_num::{Access, Frame, Vpn};

// The last page of a space, and the number after it.
const LAST: u32 = 16_777_215;

const END: u32 = 16_777_216;

// A space, and the right that is out, where there is one. Neither can be let go.
struct Held<S: AddressSpace> {
    space: S,
    right: Option<MapRight>,
}

impl<S: AddressSpace> Model for Held<S> {
    ghost use Rattle.std.specs.Prelude.{◌≡◌, ℕ, List};
    ghost use Rattle.layer_tests.specs.Rights.{out_of};

    ghost Value = { List (ℕ × ℕ) };

    ghost view = { λ held. S.out held.space };

    ghost invariant = { λ held. S.out held.space ≡ out_of held.right };
}

#[derive(Drop)]
enum Step {
    // Maps own pages from a page on, to these frames or to so many.
    Own(u32, &'static [Frame], Result<(), MapFault>),
    OwnMany(u32, usize),
    // Unmaps so many own pages from a page on.
    Disown(u32, u32),
    // Maps attached pages while no right is out, and unmaps those of the right that is out.
    Map(u32, &'static [Frame], Access, Result<(), MapFault>),
    Unmap,
    // The range of the right that is out.
    Right(u32, u32),
    Walk(u32, Option<(Frame, Access)>),
    Owned(u32, Option<Frame>),
    FirstGap(u32, Option<Vpn>),
    NextMapped(u32, Option<Vpn>),
    // What a fault is printed as.
    Printed(MapFault, &'static str),
}

fn answers<S: AddressSpace>(alloc: Global, held: Held<S>, step: &Step) -> (Held<S>, bool) {
    let Held { mut space, right } = held;
    match (step, right) {
        (Step::Map(at, frames, access, want), None) => maps(space, *at, frames, *access, *want),
        (Step::Unmap, Some(right)) => {
            space.unmap(right);
            (Held { space, right: None }, true)
        }
        (step, right) => {
            let mut held = Held { space, right };
            let answered = keeps(alloc, &mut held, step);
            (held, answered)
        }
    }
}

// Maps attached pages where no right is out.
#[tactic(auto, unfolding(xm_num::specs::Rows::put))]
fn maps<S: AddressSpace>(
    mut space: S,
    at: u32,
    frames: &[Frame],
    access: Access,
    want: Result<(), MapFault>,
) -> (Held<S>, bool)
    requires { S.out space ≡ [] }
{
    if at < 1 || at > LAST || frames.is_empty() || frames.len() > (END - at) as usize {
        return (Held { space, right: None }, false);
    }
    match space.map(Vpn(at), frames, access) {
        Ok(right) => (
            Held {
                space,
                right: Some(right),
            },
            want == Ok(()),
        ),
        Err(fault) => (Held { space, right: None }, want == Err(fault)),
    }
}

// The steps that leave the rights as they are.
fn keeps<S: AddressSpace>(alloc: Global, held: &mut Held<S>, step: &Step) -> bool {
    match step {
        Step::Own(at, frames, want) => owns(held, *at, frames, *want),
        Step::OwnMany(at, count) => owns_many(alloc, held, *at, *count),
        Step::Disown(at, count) => disowns(held, *at, *count),
        Step::Right(first, pages) => has_right(held, *first, *pages),
        Step::Walk(page, want) => held.space.walk(Vpn(*page)) == *want,
        Step::Owned(page, want) => held.space.owned(Vpn(*page)) == *want,
        Step::FirstGap(count, want) => *count >= 1 && held.space.first_gap(*count) == *want,
        Step::NextMapped(from, want) => held.space.next_mapped(Vpn(*from)) == *want,
        Step::Printed(fault, want) => prints(alloc, *fault, want),
        Step::Map(_, _, _, _) | Step::Unmap => false,
    }
}

fn owns<S: AddressSpace>(
    held: &mut Held<S>,
    at: u32,
    frames: &[Frame],
    want: Result<(), MapFault>,
) -> bool {
    if at < 1 || at > LAST || frames.len() > (END - at) as usize {
        return false;
    }
    held.space.own(Vpn(at), frames) == want
}

fn owns_many<S: AddressSpace>(alloc: Global, held: &mut Held<S>, at: u32, count: usize) -> bool {
    match vec![in alloc; Frame(0); count] {
        Ok(frames) => owns(held, at, &frames, Ok(())),
        Err(_) => false,
    }
}

// Unmaps pages where all are own pages.
fn disowns<S: AddressSpace>(held: &mut Held<S>, at: u32, count: u32) -> bool {
    if at > LAST || count > LAST {
        return false;
    }
    for page in at..at + count {
        if held.space.owned(Vpn(page)).is_none() {
            return false;
        }
    }
    held.space.disown(Vpn(at), count);
    true
}

fn has_right<S: AddressSpace>(held: &Held<S>, first: u32, pages: u32) -> bool {
    match &held.right {
        Some(right) => right.first() == Vpn(first) && right.pages() == pages,
        None => false,
    }
}

fn prints(alloc: Global, fault: MapFault, want: &str) -> bool {
    match format!(in alloc; "{fault}") {
        Ok(text) => text.as_str() == want,
        Err(_) => false,
    }
}

// Ends the space, whose right may be out.
fn end<S: AddressSpace>(held: Held<S>) {
    let Held { mut space, right } = held;
    match right {
        None => space.close(),
        Some(last) => {
            space.unmap(last);
            space.close();
        }
    }
}

// The row that answers something else than wanted, where there is one.
fn first_wrong<S: AddressSpace>(
    alloc: Global,
    steps: &[Step],
) -> Result<Option<usize>, AllocError> {
    let mut held = Held {
        space: S::new(alloc)?,
        right: None,
    };
    for (row, step) in steps.iter().enumerate() {
        let (next, answered) = answers(alloc, held, step);
        held = next;
        if !answered {
            end(held);
            return Ok(Some(row));
        }
    }
    end(held);
    Ok(None)
}

// An own page is in the way of a range, and a range is mapped and unmapped.
const RANGES: &[Step] = &[
    Step::Own(16, &[Frame(5)], Ok(())),
    Step::Map(
        15,
        &[Frame(7), Frame(8)],
        Access::ReadOnly,
        Err(MapFault::Taken(Vpn(16))),
    ),
    Step::Map(17, &[Frame(7), Frame(8)], Access::ReadOnly, Ok(())),
    Step::Right(17, 2),
    Step::Walk(18, Some((Frame(8), Access::ReadOnly))),
    Step::Walk(16, Some((Frame(5), Access::ReadWrite))),
    Step::FirstGap(15, Some(Vpn(1))),
    Step::FirstGap(16, Some(Vpn(19))),
    Step::Unmap,
    Step::Walk(18, None),
    Step::Walk(16, Some((Frame(5), Access::ReadWrite))),
];

// Own pages and attached ones are told apart, and each is found.
const APART: &[Step] = &[
    Step::NextMapped(0, None),
    Step::Own(2, &[Frame(3), Frame(4), Frame(3)], Ok(())),
    Step::Map(5, &[Frame(3)], Access::ReadWrite, Ok(())),
    Step::Owned(3, Some(Frame(4))),
    Step::Owned(4, Some(Frame(3))),
    Step::Owned(5, None),
    Step::Owned(6, None),
    Step::Walk(5, Some((Frame(3), Access::ReadWrite))),
    Step::Own(
        1,
        &[Frame(3), Frame(4), Frame(3)],
        Err(MapFault::Taken(Vpn(2))),
    ),
    Step::Own(
        5,
        &[Frame(3), Frame(4), Frame(3)],
        Err(MapFault::Taken(Vpn(5))),
    ),
    Step::Own(5, &[], Ok(())),
    Step::Walk(1, None),
    Step::NextMapped(0, Some(Vpn(2))),
    Step::NextMapped(2, Some(Vpn(2))),
    Step::NextMapped(3, Some(Vpn(3))),
    Step::NextMapped(5, Some(Vpn(5))),
    Step::NextMapped(6, None),
    Step::NextMapped(4294967295, None),
    Step::Disown(2, 2),
    Step::Walk(3, None),
    Step::Owned(4, Some(Frame(3))),
    Step::NextMapped(1, Some(Vpn(4))),
    Step::Unmap,
    Step::NextMapped(5, None),
];

// Gaps among many pages, and at the end of the space.
const GAPS: &[Step] = &[
    Step::FirstGap(16_777_215, Some(Vpn(1))),
    Step::FirstGap(16_777_216, None),
    Step::OwnMany(1, 63),
    Step::OwnMany(65, 4096),
    Step::FirstGap(1, Some(Vpn(64))),
    Step::FirstGap(2, Some(Vpn(4161))),
    Step::FirstGap(16_773_055, Some(Vpn(4161))),
    Step::OwnMany(16_777_215, 1),
    Step::FirstGap(16_773_055, None),
    Step::FirstGap(16_773_054, Some(Vpn(4161))),
    Step::FirstGap(4294967295, None),
    Step::NextMapped(4161, Some(Vpn(16_777_215))),
];

// Holes of one page among wider ranges: each gap is the lowest again after something else was mapped and unmapped.
const HOLES: &[Step] = &[
    Step::OwnMany(1, 9),
    Step::Map(10, &[Frame(7), Frame(8)], Access::ReadOnly, Ok(())),
    Step::FirstGap(1, Some(Vpn(12))),
    Step::FirstGap(2, Some(Vpn(12))),
    Step::Unmap,
    Step::FirstGap(2, Some(Vpn(10))),
    Step::Disown(3, 1),
    Step::Disown(5, 1),
    Step::FirstGap(1, Some(Vpn(3))),
    Step::FirstGap(2, Some(Vpn(10))),
    Step::Map(10, &[Frame(7), Frame(8)], Access::ReadOnly, Ok(())),
    Step::FirstGap(1, Some(Vpn(3))),
    Step::FirstGap(2, Some(Vpn(12))),
    Step::Unmap,
    Step::Map(3, &[Frame(7)], Access::ReadWrite, Ok(())),
    Step::FirstGap(1, Some(Vpn(5))),
    Step::FirstGap(2, Some(Vpn(10))),
    Step::Disown(4, 1),
    Step::FirstGap(1, Some(Vpn(4))),
    Step::FirstGap(2, Some(Vpn(4))),
    Step::FirstGap(3, Some(Vpn(10))),
    Step::Unmap,
    Step::FirstGap(3, Some(Vpn(3))),
    Step::Map(4, &[Frame(7), Frame(8)], Access::ReadOnly, Ok(())),
    Step::FirstGap(1, Some(Vpn(3))),
    Step::FirstGap(2, Some(Vpn(10))),
    Step::Own(3, &[Frame(5)], Ok(())),
    Step::FirstGap(1, Some(Vpn(10))),
    Step::Disown(1, 3),
    Step::FirstGap(3, Some(Vpn(1))),
    Step::FirstGap(4, Some(Vpn(10))),
    Step::FirstGap(16_777_206, Some(Vpn(10))),
    Step::FirstGap(16_777_207, None),
    Step::Unmap,
    Step::FirstGap(5, Some(Vpn(1))),
];

// The last range that the space has room for, and the same room found again.
const FULL: &[Step] = &[
    Step::OwnMany(1, 2),
    Step::OwnMany(16_777_213, 2),
    Step::Map(16_777_215, &[Frame(7)], Access::ReadOnly, Ok(())),
    Step::FirstGap(1, Some(Vpn(3))),
    Step::FirstGap(16_777_210, Some(Vpn(3))),
    Step::FirstGap(16_777_211, None),
    Step::Unmap,
    Step::FirstGap(1, Some(Vpn(3))),
    Step::Disown(16_777_213, 2),
    Step::FirstGap(16_777_213, Some(Vpn(3))),
    Step::FirstGap(16_777_214, None),
    Step::Disown(1, 2),
    Step::FirstGap(16_777_215, Some(Vpn(1))),
];

// What is printed of a fault.
const PRINTED: &[Step] = &[
    Step::Printed(MapFault::Taken(Vpn(16)), "page 16 is mapped already"),
    Step::Printed(MapFault::Memory, "out of memory"),
];

#[test]
fn pages_of_a_page_table(rt: HostRuntime) -> Result<(), AllocError> {
    let tables = [
        ("ranges", RANGES),
        ("apart", APART),
        ("gaps", GAPS),
        ("holes", HOLES),
        ("full", FULL),
        ("printed", PRINTED),
    ];
    for (name, steps) in tables {
        let row = first_wrong::<PageTable>(rt.alloc(), steps)?;
        assert_eq!(rt; row, None, "{name}");
    }
    Ok(())
}
