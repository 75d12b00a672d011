// `holder_table`: rows of who holds something, found by their names and by their segids.
use holder_table::{Held, Holders};
use std::alloc::AllocError;
use xm_num::{CallNo, Enclave, Segid};

// The calls of `Holders`, each with what it answers. Numbers stand for enclaves, calls and segids, and one more for what
// else is kept.
#[derive(Drop)]
enum Step {
    Insert(u16, u32, i64, u8),
    Get(u16, u32, Option<(i64, u8)>),
    Has(u16, u32, bool),
    Remove(u16, u32, bool),
    NextHolder(i64, u16, Option<u16>),
    Named(i64, bool),
    Lowest(u16, Option<u32>),
    Next(u16, u32, Option<(u16, u32, i64, u8)>),
    Forget(u16),
}

fn held(segid: i64, value: u8) -> Held<u8> {
    Held {
        segid: Segid(segid),
        value,
    }
}

fn answers(holders: &mut Holders<u8>, step: &Step) -> bool {
    match step {
        Step::Insert(to, call, segid, value) => inserted(holders, *to, *call, *segid, *value),
        Step::Get(to, call, want) => {
            holders.get(Enclave(*to), CallNo(*call))
                == want.map(|(segid, value)| held(segid, value))
        }
        Step::Has(to, call, want) => holders.has(Enclave(*to), CallNo(*call)) == *want,
        Step::Remove(to, call, want) => holders.remove(Enclave(*to), CallNo(*call)) == *want,
        Step::NextHolder(segid, from, want) => {
            holders.next_holder(Segid(*segid), Enclave(*from)) == want.map(Enclave)
        }
        Step::Named(segid, want) => holders.is_named(Segid(*segid)) == *want,
        Step::Lowest(to, want) => holders.lowest(Enclave(*to)) == want.map(CallNo),
        Step::Next(to, from, want) => {
            holders.next(Enclave(*to), CallNo(*from))
                == want.map(|(to, call, segid, value)| (
                    Enclave(to),
                    CallNo(call),
                    held(segid, value),
                ))
        }
        Step::Forget(gone) => {
            holders.forget_enclave(Enclave(*gone));
            true
        }
    }
}

// Adds a row, where its name is new.
fn inserted(holders: &mut Holders<u8>, to: u16, call: u32, segid: i64, value: u8) -> bool {
    let (to, call) = (Enclave(to), CallNo(call));
    !holders.has(to, call) && holders.insert(to, call, Segid(segid), value) == Ok(())
}

// The row that answers something else than wanted, where there is one.
fn first_wrong(holders: &mut Holders<u8>, steps: &[Step]) -> Option<usize> {
    for (row, step) in steps.iter().enumerate() {
        if !answers(holders, step) {
            return Some(row);
        }
    }
    None
}

// Rows come by enclaves and then by calls, and those of a segid by its holders.
const STEPS: &[Step] = &[
    Step::Next(0, 0, None),
    Step::Lowest(0, None),
    Step::NextHolder(5, 0, None),
    Step::Remove(4, 1, false),
    Step::Forget(4),
    Step::Insert(4, 9, 5, 1),
    Step::Insert(4, 2, 6, 2),
    Step::Insert(2, 7, 6, 3),
    Step::Insert(65535, 4_294_967_295, 5, 4),
    Step::Insert(2, 8, 6, 5),
    Step::Insert(0, 0, i64::MIN, 6),
    Step::Insert(3, 1, i64::MAX, 7),
    Step::Get(4, 9, Some((5, 1))),
    Step::Get(9, 4, None),
    Step::Has(2, 8, true),
    Step::Has(2, 9, false),
    Step::Lowest(4, Some(2)),
    Step::Lowest(2, Some(7)),
    Step::Lowest(0, Some(0)),
    Step::Lowest(1, None),
    Step::Lowest(65535, Some(4_294_967_295)),
    Step::Next(0, 0, Some((0, 0, i64::MIN, 6))),
    Step::Next(0, 1, Some((2, 7, 6, 3))),
    Step::Next(2, 8, Some((2, 8, 6, 5))),
    Step::Next(2, 9, Some((3, 1, i64::MAX, 7))),
    Step::Next(4, 10, Some((65535, 4_294_967_295, 5, 4))),
    Step::NextHolder(6, 0, Some(2)),
    Step::NextHolder(6, 2, Some(2)),
    Step::NextHolder(6, 3, Some(4)),
    Step::NextHolder(6, 5, None),
    Step::NextHolder(5, 5, Some(65535)),
    Step::NextHolder(4, 0, None),
    Step::NextHolder(i64::MIN, 0, Some(0)),
    Step::NextHolder(i64::MAX, 0, Some(3)),
    Step::NextHolder(i64::MAX, 4, None),
    Step::Named(6, true),
    Step::Named(7, false),
    Step::Remove(2, 7, true),
    Step::Remove(2, 7, false),
    Step::Get(2, 7, None),
    Step::NextHolder(6, 0, Some(2)),
    Step::Forget(2),
    Step::Lowest(2, None),
    Step::NextHolder(6, 0, Some(4)),
    Step::Next(1, 0, Some((3, 1, i64::MAX, 7))),
    Step::Insert(4, 1, 6, 8),
    Step::Forget(4),
    Step::Named(6, false),
    Step::Named(5, true),
    Step::Next(4, 0, Some((65535, 4_294_967_295, 5, 4))),
    Step::Insert(4, 9, 6, 9),
    Step::Get(4, 9, Some((6, 9))),
    Step::NextHolder(5, 0, Some(65535)),
    Step::NextHolder(6, 0, Some(4)),
];

#[test]
fn holders_of_segments(rt: HostRuntime) -> Result<(), AllocError> {
    let mut holders = Holders::new(rt.alloc());
    let row = first_wrong(&mut holders, STEPS);
    assert_eq!(rt; row, None);
    Ok(())
}
