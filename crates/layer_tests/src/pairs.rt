// `number_pairs`: pairs that are added, found in order and taken out.
use number_pairs::Pairs;
use std::alloc::AllocError;

#[derive(Drop)]
enum Step {
    Insert(u32, u32),
    Remove(u32, u32),
    // The least that stands beside the first number and above the last one.
    Next(u32, Option<u32>, Option<u32>),
}

fn answers(pairs: &mut Pairs, step: &Step) -> bool {
    match step {
        Step::Insert(first, second) => pairs.insert(*first, *second) == Ok(()),
        Step::Remove(first, second) => {
            pairs.remove(*first, *second);
            true
        }
        Step::Next(first, last, want) => pairs.next(*first, *last) == *want,
    }
}

// The row that answers something else than wanted, where there is one.
fn first_wrong(pairs: &mut Pairs, steps: &[Step]) -> Option<usize> {
    for (row, step) in steps.iter().enumerate() {
        if !answers(pairs, step) {
            return Some(row);
        }
    }
    None
}

const STEPS: &[Step] = &[
    Step::Next(2, None, None),
    Step::Insert(2, 7),
    Step::Insert(2, 3),
    Step::Insert(2, 3),
    Step::Insert(1, 9),
    Step::Insert(3, 0),
    Step::Next(2, None, Some(3)),
    Step::Next(2, Some(3), Some(7)),
    Step::Next(2, Some(7), None),
    Step::Next(3, None, Some(0)),
    Step::Next(4, None, None),
    Step::Remove(2, 3),
    Step::Remove(2, 4),
    Step::Next(2, None, Some(7)),
    Step::Next(1, Some(4_294_967_295), None),
];

#[test]
fn pairs_in_order(rt: HostRuntime) -> Result<(), AllocError> {
    let mut pairs = Pairs::new(rt.alloc());
    let row = first_wrong(&mut pairs, STEPS);
    assert_eq!(rt; row, None);
    Ok(())
}
