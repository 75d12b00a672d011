// `byte_link`: records that go in, and their bytes that leave.
ghost use Rattle.std.specs.Prelude.{◌≡◌, ◌&&◌, false};

use byte_link::Link;
use std::alloc::{AllocError, Global};

// A link, and whether its end mark may still be set.
#[derive(Drop)]
struct Passage {
    link: Link,
    may_end: bool,
    ghost not_ended: { (may_end && link.ended) ≡ false },
}

#[derive(Drop)]
enum Step {
    // An empty link, and one with the records `abc`, `de` and `f`, less the first so many bytes.
    New,
    Three(usize),
    // Sends these bytes, or so many equal ones.
    Send(&'static [u8]),
    SendEqual(u8, usize),
    // Takes into room for so many, at most 8, and gives these.
    Take(usize, &'static [u8]),
    // Takes so many, at most 8, six times, and gives these.
    TakeSixTimes(usize, &'static [u8]),
    // Takes into room for so many, and gives so many, which are these runs. The room behind them stays as it was.
    TakeRuns(usize, usize, &'static [(u8, usize)]),
    // Takes so many bytes one at a time.
    TakeEach(u32),
    // Cuts off so many, and gives how many there were.
    End(u32, u32),
    TakeEnd,
    Waiting(u32),
    ToBoundary(u32),
    AtEnd(bool),
    Byte(u32, Option<u8>),
}

fn answers(alloc: Global, passage: &mut Passage, step: &Step) -> bool {
    match step {
        Step::New => renewed(alloc, passage),
        Step::Three(gone) => has_three(alloc, passage, *gone),
        Step::Send(bytes) => sends(passage, bytes),
        Step::SendEqual(byte, count) => sends_equal(alloc, passage, *byte, *count),
        Step::Take(size, want) => takes(passage, *size, want),
        Step::TakeSixTimes(size, want) => takes_six_times(alloc, passage, *size, want),
        Step::TakeRuns(room, count, want) => takes_runs(alloc, passage, *room, *count, want),
        Step::TakeEach(count) => takes_each(passage, *count),
        Step::End(cut, want) => ends(passage, *cut, *want),
        Step::TakeEnd => takes_end(passage),
        Step::Waiting(want) => passage.link.waiting() == *want,
        Step::ToBoundary(want) => passage.link.to_boundary() == *want,
        Step::AtEnd(want) => passage.link.at_end() == *want,
        Step::Byte(place, want) => passage.link.byte(*place) == *want,
    }
}

fn renewed(alloc: Global, passage: &mut Passage) -> bool {
    match Link::new(alloc) {
        Ok(link) => {
            *passage = Passage {
                link,
                may_end: true,
            };
            true
        }
        Err(_) => false,
    }
}

fn has_three(alloc: Global, passage: &mut Passage, gone: usize) -> bool {
    let mut into = [0u8; 8];
    if gone > into.len() || !renewed(alloc, passage) {
        return false;
    }
    for bytes in [b"abc".as_slice(), b"de", b"f"] {
        if !sends(passage, bytes) {
            return false;
        }
    }
    passage.link.take(&mut into[..gone]) == gone
}

fn sends(passage: &mut Passage, bytes: &[u8]) -> bool {
    let fits = bytes.len() < 1 << 20 && passage.link.waiting() < 1 << 20;
    if !passage.may_end || bytes.is_empty() || !fits {
        return false;
    }
    passage.link.send(bytes).is_ok()
}

fn sends_equal(alloc: Global, passage: &mut Passage, byte: u8, count: usize) -> bool {
    match vec![in alloc; byte; count] {
        Ok(bytes) => sends(passage, &bytes),
        Err(_) => false,
    }
}

fn takes(passage: &mut Passage, size: usize, want: &[u8]) -> bool {
    let mut into = [0u8; 8];
    if size > into.len() {
        return false;
    }
    let count = passage.link.take(&mut into[..size]);
    into.get(..count) == Some(want)
}

fn takes_six_times(alloc: Global, passage: &mut Passage, size: usize, want: &[u8]) -> bool {
    let mut all = Vec::new(alloc);
    for _ in 0..6 {
        let mut into = [0u8; 8];
        if size > into.len() {
            return false;
        }
        let count = passage.link.take(&mut into[..size]);
        if count > size || all.extend_from_slice(&into[..count]).is_err() {
            return false;
        }
    }
    all.as_slice() == want
}

fn takes_runs(
    alloc: Global,
    passage: &mut Passage,
    room: usize,
    count: usize,
    want: &[(u8, usize)],
) -> bool {
    let Ok(mut into) = vec![in alloc; 0u8; room] else {
        return false;
    };
    passage.link.take(&mut into) == count && are_runs(&into, want)
}

// Whether the bytes are these runs, and zeros behind them.
fn are_runs(bytes: &[u8], runs: &[(u8, usize)]) -> bool {
    let mut bytes = bytes.iter();
    for (byte, count) in runs {
        for _ in 0..*count {
            if bytes.next() != Some(byte) {
                return false;
            }
        }
    }
    for byte in bytes {
        if *byte != 0 {
            return false;
        }
    }
    true
}

fn takes_each(passage: &mut Passage, count: u32) -> bool {
    let mut into = [0u8; 1];
    for _ in 0..count {
        if passage.link.take(&mut into) != 1 {
            return false;
        }
    }
    true
}

fn ends(passage: &mut Passage, cut: u32, want: u32) -> bool {
    if !passage.may_end {
        return false;
    }
    passage.may_end = false;
    passage.link.end(cut) == want
}

fn takes_end(passage: &mut Passage) -> bool {
    if !passage.link.at_end() {
        return false;
    }
    passage.link.take_end();
    true
}

// Bytes pass in order.
const PASSING: &[Step] = &[
    Step::New,
    Step::Waiting(0),
    Step::ToBoundary(0),
    Step::SendEqual(1, 16_404),
    Step::TakeRuns(16_400, 16_400, &[(1, 16_400)]),
    Step::SendEqual(2, 16_404),
    Step::Waiting(16_408),
    Step::ToBoundary(4),
    Step::TakeRuns(20_000, 16_408, &[(1, 4), (2, 16_404)]),
];

// Takes cross the ends of records.
const CROSSING: &[Step] = &[
    Step::Three(0),
    Step::ToBoundary(3),
    Step::Waiting(6),
    Step::Byte(0, Some(b'a')),
    Step::Three(1),
    Step::ToBoundary(2),
    Step::Waiting(5),
    Step::Byte(0, Some(b'b')),
    Step::Three(2),
    Step::ToBoundary(1),
    Step::Waiting(4),
    Step::Byte(0, Some(b'c')),
    Step::Three(3),
    Step::ToBoundary(2),
    Step::Waiting(3),
    Step::Byte(0, Some(b'd')),
    Step::Three(4),
    Step::ToBoundary(1),
    Step::Waiting(2),
    Step::Byte(0, Some(b'e')),
    Step::Three(5),
    Step::ToBoundary(1),
    Step::Waiting(1),
    Step::Byte(0, Some(b'f')),
    Step::Three(6),
    Step::ToBoundary(0),
    Step::Waiting(0),
    Step::Byte(0, None),
    Step::Three(0),
    Step::TakeSixTimes(0, b""),
    Step::Three(0),
    Step::TakeSixTimes(1, b"abcdef"),
    Step::Three(0),
    Step::TakeSixTimes(2, b"abcdef"),
    Step::Three(0),
    Step::TakeSixTimes(3, b"abcdef"),
    Step::Three(0),
    Step::TakeSixTimes(4, b"abcdef"),
    Step::Three(0),
    Step::TakeSixTimes(5, b"abcdef"),
    Step::Three(0),
    Step::TakeSixTimes(6, b"abcdef"),
    Step::Three(0),
    Step::TakeSixTimes(7, b"abcdef"),
];

// Bytes are lent by place.
const PLACES: &[Step] = &[
    Step::Three(2),
    Step::Byte(0, Some(b'c')),
    Step::Byte(3, Some(b'f')),
    Step::Byte(4, None),
    Step::Byte(4294967295, None),
];

// A take that cost what waits would not come to its end in time.
const LONG: &[Step] = &[
    Step::New,
    Step::SendEqual(5, 1_000_000),
    Step::TakeEach(1_000_000),
    Step::Waiting(0),
];

// Of three records: what was taken, the cut that is asked, what is cut, what waits then, and the boundary.
const ENDS: [(usize, u32, u32, &[u8], u32); 10] = [
    (0, 0, 0, b"abcdef", 3),
    (0, 1, 1, b"abcde", 3),
    (0, 2, 2, b"abcd", 3),
    (0, 4, 4, b"ab", 2),
    (0, 6, 6, b"", 0),
    (0, 9, 6, b"", 0),
    (1, 4, 4, b"b", 1),
    (4, 0, 0, b"ef", 1),
    (4, 1, 1, b"e", 1),
    (6, 4294967295, 0, b"", 0),
];

#[test]
fn records_pass_and_links_end(rt: HostRuntime) -> Result<(), AllocError> {
    let mut passage = Passage {
        link: Link::new(rt.alloc())?,
        may_end: true,
    };
    let tables = [
        ("passing", PASSING),
        ("crossing", CROSSING),
        ("places", PLACES),
        ("long", LONG),
    ];
    for (name, steps) in tables {
        for (row, step) in steps.iter().enumerate() {
            assert!(rt;
                answers(rt.alloc(), &mut passage, step),
                "{name}, row {row}"
            );
        }
    }
    for (row, (gone, cut, count, left, boundary)) in ENDS.into_iter().enumerate() {
        let steps = [
            Step::Three(gone),
            Step::AtEnd(false),
            Step::End(cut, count),
            Step::ToBoundary(boundary),
            Step::AtEnd(left.is_empty()),
            Step::Take(8, left),
            Step::AtEnd(true),
            Step::TakeEnd,
            Step::AtEnd(false),
        ];
        for (at, step) in steps.iter().enumerate() {
            assert!(rt;
                answers(rt.alloc(), &mut passage, step),
                "ends, row {row}, step {at}"
            );
        }
    }
    Ok(())
}
