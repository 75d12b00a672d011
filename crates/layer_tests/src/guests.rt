// `guest_map`: what a guest's frames name, and what is admitted and dropped.
use guest_map::GuestMap;
use std::alloc::{AllocError, Global};
use xm_num::{Block, CallNo, Enclave, Frame};

#[derive(Drop)]
enum Step {
    // A guest of these blocks.
    Boot(&'static [Block]),
    // Admits frames of an owner's for a call, and gives the first guest frame.
    Admit(u16, u32, &'static [Frame], u32),
    // Admits so many times for the call, each time these frames, and drops them again.
    Turns(u32, u32, &'static [Frame]),
    // The other calls of `GuestMap`, by the numbers of owners, calls and frames, each with what it answers.
    Has(u32, bool),
    Drop(u32, bool),
    DropOwner(u16),
    Lowest(Option<u32>),
    LowestOf(u16, Option<u32>),
    To(u32, Option<u32>),
    Room(u32),
}

fn answers(alloc: Global, map: &mut GuestMap, step: &Step) -> bool {
    match step {
        Step::Boot(blocks) => boots(alloc, map, blocks),
        Step::Admit(owner, call, frames, want) => {
            admits(map, Enclave(*owner), CallNo(*call), frames, *want)
        }
        Step::Turns(turns, call, frames) => turns_round(map, *turns, CallNo(*call), frames),
        Step::Has(call, want) => map.has(CallNo(*call)) == *want,
        Step::Drop(call, want) => map.drop_key(CallNo(*call)) == *want,
        Step::DropOwner(owner) => {
            map.drop_owner(Enclave(*owner));
            true
        }
        Step::Lowest(want) => map.lowest() == want.map(CallNo),
        Step::LowestOf(owner, want) => map.lowest_of(Enclave(*owner)) == want.map(CallNo),
        Step::To(guest, want) => map.to_machine(Frame(*guest)) == want.map(Frame),
        Step::Room(want) => map.room() == *want,
    }
}

fn boots(alloc: Global, map: &mut GuestMap, blocks: &[Block]) -> bool {
    if blocks.len() > 4096 {
        return false;
    }
    match GuestMap::boot(alloc, blocks) {
        Ok(new) => {
            *map = new;
            true
        }
        Err(_) => false,
    }
}

// Whether the frames may be admitted for the call, and get the guest frames from the first one on.
fn admits(map: &mut GuestMap, owner: Enclave, call: CallNo, frames: &[Frame], want: u32) -> bool {
    if map.has(call) || frames.len() > map.room() as usize {
        return false;
    }
    map.admit(owner, call, frames) == Ok(Frame(want))
}

fn turns_round(map: &mut GuestMap, turns: u32, call: CallNo, frames: &[Frame]) -> bool {
    for _ in 0..turns {
        let next = u32::MAX - map.room();
        if !admits(map, Enclave(1), call, frames, next) || !map.drop_key(call) {
            return false;
        }
    }
    true
}

// Own memory goes block by block, and what is behind it is nobody's.
fn own() -> [Step; 16] {
    [
        Step::Boot(&[]),
        Step::To(0, None),
        Step::Room(u32::MAX),
        Step::Boot(&[Block(3), Block(7), Block(65535)]),
        Step::Room(u32::MAX - 192),
        Step::To(0, Some(192)),
        Step::To(1, Some(193)),
        Step::To(63, Some(255)),
        Step::To(64, Some(448)),
        Step::To(127, Some(511)),
        Step::To(128, Some(4_194_240)),
        Step::To(191, Some(4_194_303)),
        Step::To(192, None),
        Step::To(448, None),
        Step::To(u32::MAX, None),
        Step::Lowest(None),
    ]
}

const THREE: &[Frame] = &[Frame(9), Frame(200), Frame(10)];

const TWO: &[Frame] = &[Frame(9), Frame(4_194_303)];

const ONE: &[Frame] = &[Frame(0)];

// Fresh guest frames are drawn upwards, and name what was admitted, in order.
fn admitted() -> [Step; 24] {
    [
        Step::Boot(&[Block(2)]),
        Step::Admit(5, 7, THREE, 64),
        Step::Admit(6, 3, TWO, 67),
        Step::Admit(5, 9, ONE, 69),
        Step::Room(u32::MAX - 70),
        Step::Has(7, true),
        Step::Has(8, false),
        Step::To(63, Some(191)),
        Step::To(64, Some(9)),
        Step::To(65, Some(200)),
        Step::To(66, Some(10)),
        Step::To(67, Some(9)),
        Step::To(68, Some(4_194_303)),
        Step::To(69, Some(0)),
        Step::To(70, None),
        Step::To(200, None),
        // An entry of no frames names none.
        Step::Admit(8, 1, &[], 70),
        Step::Admit(8, 2, ONE, 70),
        Step::To(70, Some(0)),
        Step::To(71, None),
        Step::Drop(1, true),
        Step::To(70, Some(0)),
        Step::Drop(2, true),
        Step::To(70, None),
    ]
}

// What is dropped names nothing any more, and its guest frames aren't drawn again.
fn dropped() -> [Step; 22] {
    [
        Step::Boot(&[Block(0)]),
        Step::Admit(5, 7, THREE, 64),
        Step::Admit(6, 3, TWO, 67),
        Step::Admit(5, 9, THREE, 69),
        Step::Drop(8, false),
        Step::Drop(3, true),
        Step::Drop(3, false),
        Step::Has(3, false),
        Step::To(66, Some(10)),
        Step::To(67, None),
        Step::To(68, None),
        Step::To(69, Some(9)),
        Step::Drop(9, true),
        Step::To(69, None),
        Step::To(71, None),
        Step::Admit(6, 3, TWO, 72),
        Step::To(71, None),
        Step::To(72, Some(9)),
        Step::To(73, Some(4_194_303)),
        Step::Turns(1000, 9, THREE),
        Step::Room(u32::MAX - 3074),
        Step::To(74, None),
    ]
}

// The least calls, of all and of each owner, and an owner of which all is dropped.
fn owners() -> [Step; 28] {
    [
        Step::Boot(&[Block(1), Block(0)]),
        Step::LowestOf(0, None),
        Step::DropOwner(0),
        Step::Admit(5, 40, ONE, 128),
        Step::Admit(65535, 4_294_967_295, ONE, 129),
        Step::Admit(0, 30, TWO, 130),
        Step::Admit(5, 20, TWO, 132),
        Step::Admit(5, 50, &[], 134),
        Step::Lowest(Some(20)),
        Step::LowestOf(5, Some(20)),
        Step::LowestOf(0, Some(30)),
        Step::LowestOf(65535, Some(4_294_967_295)),
        Step::LowestOf(6, None),
        Step::DropOwner(6),
        Step::Drop(20, true),
        Step::Lowest(Some(30)),
        Step::LowestOf(5, Some(40)),
        Step::DropOwner(5),
        Step::LowestOf(5, None),
        Step::Has(40, false),
        Step::Has(50, false),
        Step::To(128, None),
        Step::To(129, Some(0)),
        Step::To(131, Some(4_194_303)),
        Step::Lowest(Some(30)),
        Step::DropOwner(0),
        Step::Lowest(Some(4_294_967_295)),
        Step::To(130, None),
    ]
}

#[test]
fn names_of_guests(rt: HostRuntime) -> Result<(), AllocError> {
    let mut map = GuestMap::boot(rt.alloc(), &[])?;
    let (own, admitted, dropped, owners) = (own(), admitted(), dropped(), owners());
    let tables: [(&str, &[Step]); 4] = [
        ("own", &own),
        ("admitted", &admitted),
        ("dropped", &dropped),
        ("owners", &owners),
    ];
    for (name, steps) in tables {
        for (row, step) in steps.iter().enumerate() {
            assert!(rt; answers(rt.alloc(), &mut map, step), "{name}, row {row}");
        }
    }
    Ok(())
}
