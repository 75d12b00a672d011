// `name_server`: names that are drawn, looked up and unnamed.
use name_server::Names;
use std::alloc::{AllocError, Global};
use xm_num::{Enclave, Segid};

#[derive(Drop)]
enum Step {
    // No names.
    New,
    // The calls of `Names`, each with what it answers. Numbers stand for segids and enclaves.
    Name(u16, i64),
    Unname(i64, u16, bool),
    Owner(i64, Option<u16>),
    Lowest(u16, Option<i64>),
    Next(i64, Option<(i64, u16)>),
    Drawn(u64),
}

fn answers(alloc: Global, names: &mut Names, step: &Step) -> bool {
    match step {
        Step::New => renewed(alloc, names).is_ok(),
        Step::Name(owner, want) => named(names, Enclave(*owner)) == Ok(Segid(*want)),
        Step::Unname(segid, owner, want) => names.unname(Segid(*segid), Enclave(*owner)) == *want,
        Step::Owner(segid, want) => names.owner_of(Segid(*segid)) == want.map(Enclave),
        Step::Lowest(owner, want) => names.lowest_of(Enclave(*owner)) == want.map(Segid),
        Step::Next(from, want) => {
            names.next_name(Segid(*from))
                == want.map(|(segid, owner)| (Segid(segid), Enclave(owner)))
        }
        Step::Drawn(want) => names.drawn() == *want,
    }
}

fn renewed(alloc: Global, names: &mut Names) -> Result<(), AllocError> {
    *names = Names::new(alloc)?;
    Ok(())
}

// Draws a name, where one is left.
fn named(names: &mut Names, owner: Enclave) -> Result<Segid, AllocError> {
    if names.drawn() < 1 << 32 {
        names.name(owner)
    } else {
        Ok(Segid(0))
    }
}

// Segids are drawn upwards, and again by nobody.
fn drawn() -> [Step; 17] {
    [
        Step::New,
        Step::Drawn(0),
        Step::Owner(1, None),
        Step::Lowest(0, None),
        Step::Next(0, None),
        Step::Name(5, 1),
        Step::Name(0, 2),
        Step::Name(5, 3),
        Step::Drawn(3),
        Step::Unname(3, 5, true),
        Step::Drawn(3),
        Step::Name(65535, 4),
        Step::Owner(1, Some(5)),
        Step::Owner(2, Some(0)),
        Step::Owner(3, None),
        Step::Owner(4, Some(65535)),
        Step::Owner(5, None),
    ]
}

// A name is taken away for its owner alone, and once.
fn unnamed() -> [Step; 16] {
    [
        Step::New,
        Step::Unname(1, 2, false),
        Step::Name(2, 1),
        Step::Name(3, 2),
        Step::Unname(1, 3, false),
        Step::Unname(3, 3, false),
        Step::Unname(0, 2, false),
        Step::Unname(-1, 2, false),
        Step::Unname(i64::MAX, 2, false),
        Step::Owner(1, Some(2)),
        Step::Unname(1, 2, true),
        Step::Unname(1, 2, false),
        Step::Owner(1, None),
        Step::Owner(2, Some(3)),
        Step::Owner(-2, None),
        Step::Owner(i64::MIN, None),
    ]
}

// The least segid of an owner, and of all from one on.
fn least() -> [Step; 27] {
    [
        Step::New,
        Step::Name(7, 1),
        Step::Name(6, 2),
        Step::Name(7, 3),
        Step::Name(8, 4),
        Step::Name(6, 5),
        Step::Lowest(5, None),
        Step::Lowest(6, Some(2)),
        Step::Lowest(7, Some(1)),
        Step::Lowest(8, Some(4)),
        Step::Lowest(9, None),
        Step::Unname(1, 7, true),
        Step::Lowest(7, Some(3)),
        Step::Unname(2, 6, true),
        Step::Lowest(6, Some(5)),
        Step::Unname(4, 8, true),
        Step::Lowest(8, None),
        Step::Lowest(7, Some(3)),
        Step::Next(-5, Some((3, 7))),
        Step::Next(0, Some((3, 7))),
        Step::Next(3, Some((3, 7))),
        Step::Next(4, Some((5, 6))),
        Step::Next(5, Some((5, 6))),
        Step::Next(6, None),
        Step::Next(i64::MAX, None),
        Step::Name(7, 6),
        Step::Next(6, Some((6, 7))),
    ]
}

#[test]
fn names_of_segments(rt: HostRuntime) -> Result<(), AllocError> {
    let mut names = Names::new(rt.alloc())?;
    let (drawn, unnamed, least) = (drawn(), unnamed(), least());
    let tables: [(&str, &[Step]); 3] = [
        ("drawn", &drawn),
        ("unnamed", &unnamed),
        ("least", &least),
    ];
    for (name, steps) in tables {
        for (row, step) in steps.iter().enumerate() {
            assert!(rt; answers(rt.alloc(), &mut names, step), "{name}, row {row}");
        }
    }
    Ok(())
}
