// What an enclave of several neighbours learns of ways, by worked rows: enclave 4, whose parent is enclave 2.
use crate::bench::Bench;
use crate::printed::text_of;
use enclave_node::NodeFault;
use std::alloc::{AllocError, Global};
use std::process::Abort;
use xemem_wire::WireFault;

const QUERY: u8 = 1;

const HERE: u8 = 2;

const REGISTER: u8 = 3;

const ADMIT: u8 = 4;

#[derive(Clone, Copy, Debug)]
enum Step {
    // A record comes from a neighbour: of this kind, of this enclave, and for nobody.
    Take(u8, u8, u8),
    // An admit of enclave 9 comes from the parent, for this enclave.
    Admitting(u8),
    // A part of a query comes from enclave 1, from the one byte on up to the other.
    Piece(usize, usize),
    // A query comes from enclave 1, and behind it a part of one with another version.
    Broken,
    // The routes are shown.
    Show,
    // So many words all lines have, those of the birth too.
    Words(u64),
}

use Step::{Admitting, Broken, Piece, Show, Take, Words};

// A step, and the lines that it writes. Those of a record have one before them, that it came.
type Row = (Step, &'static str);

// Those that asked are told the way, the parent first, but not by whom it came. Whoever asks later is told at once.
const ASKERS: [Row; 11] = [
    (Take(7, QUERY, 7), "asked 4 7\n"),
    (Take(2, QUERY, 2), "asked 4 2\n"),
    (Take(5, QUERY, 5), "asked 4 5\n"),
    (Take(7, QUERY, 7), "asked 4 7\n"),
    (Take(1, QUERY, 1), "asked 4 1\n"),
    (Show, "at 4 way none\n"),
    (
        Take(5, HERE, 5),
        "way 4 5\nsent 4 2 here 4 65535 0\nsent 4 1 here 4 65535 0\nsent 4 7 here 4 65535 0\nsent 4 5 register 4 65535 0\n",
    ),
    (Take(7, HERE, 7), "drop 4\n"),
    (Show, "at 4 way 5\n"),
    (Take(7, QUERY, 7), "sent 4 7 here 4 65535 0\n"),
    (Take(5, QUERY, 5), "sent 4 5 here 4 65535 0\n"),
];

// A parent that tells the way isn't told.
const PARENT: [Row; 4] = [
    (Take(6, QUERY, 6), "asked 4 6\n"),
    (Take(2, QUERY, 2), "asked 4 2\n"),
    (
        Take(2, HERE, 2),
        "way 4 2\nsent 4 6 here 4 65535 0\nsent 4 2 register 4 65535 0\n",
    ),
    (Take(2, QUERY, 2), "sent 4 2 here 4 65535 0\n"),
];

// A register goes on toward the name server, where the way is known and doesn't lead back.
const REGISTERS: [Row; 6] = [
    (Take(6, REGISTER, 8), "back 4 8 6\ndrop 4\n"),
    (Take(2, HERE, 2), "way 4 2\nsent 4 2 register 4 65535 0\n"),
    (
        Take(6, REGISTER, 8),
        "back 4 8 6\nsent 4 2 register 8 65535 0\n",
    ),
    (Take(2, REGISTER, 3), "back 4 3 2\ndrop 4\n"),
    (Take(6, REGISTER, 4), "drop 4\n"),
    (Show, "at 4 way 2\n"),
];

// An admit goes over the way back, and teaches it as a route.
const ADMITS: [Row; 12] = [
    (Take(2, HERE, 2), "way 4 2\nsent 4 2 register 4 65535 0\n"),
    (
        Take(6, REGISTER, 8),
        "back 4 8 6\nsent 4 2 register 8 65535 0\n",
    ),
    (
        Take(5, REGISTER, 5),
        "back 4 5 5\nsent 4 2 register 5 65535 0\n",
    ),
    (
        Take(6, REGISTER, 7),
        "back 4 7 6\nsent 4 2 register 7 65535 0\n",
    ),
    (Take(2, REGISTER, 3), "back 4 3 2\ndrop 4\n"),
    (Admitting(8), "route 4 8 6\nsent 4 6 admit 9 8 0\n"),
    (Admitting(5), "route 4 5 5\nsent 4 5 admit 9 5 0\n"),
    (Admitting(1), "drop 4\n"),
    (Admitting(3), "route 4 3 2\ndrop 4\n"),
    (Admitting(4), "admitted 4\n"),
    (Admitting(4), "drop 4\n"),
    (
        Show,
        "at 4 way 2\nat 4 route 3 2\nat 4 route 5 5\nat 4 route 8 6\n",
    ),
];

// Who holds the name server learns each route, and admits.
const HOLDER: [Row; 8] = [
    (Show, "at 4 way own\n"),
    (Take(2, HERE, 2), "drop 4\n"),
    (Take(6, QUERY, 6), "sent 4 6 here 4 65535 0\n"),
    (
        Take(6, REGISTER, 8),
        "back 4 8 6\nroute 4 8 6\nsent 4 6 admit 4 8 0\n",
    ),
    (
        Take(2, REGISTER, 0),
        "back 4 0 2\nroute 4 0 2\nsent 4 2 admit 4 0 0\n",
    ),
    (
        Take(5, REGISTER, 8),
        "back 4 8 5\nroute 4 8 5\nsent 4 5 admit 4 8 0\n",
    ),
    (Show, "at 4 way own\nat 4 route 0 2\nat 4 route 8 5\n"),
    (Admitting(4), "drop 4\n"),
];

// A bad field stops its channel, and no other.
const BAD_FIELD: [Row; 7] = [
    (Take(1, QUERY, 1), "sent 4 1 here 4 65535 0\n"),
    (
        Take(1, REGISTER, 1),
        "back 4 1 1\nroute 4 1 1\nsent 4 1 admit 4 1 0\n",
    ),
    (Take(1, HERE, 1), "drop 4\n"),
    (Broken, "got 1 4\nsent 4 1 here 4 65535 0\n"),
    (Broken, ""),
    (Take(5, QUERY, 5), "sent 4 5 here 4 65535 0\n"),
    // born 4 cokernel 2 ns, admitted 4, and the lines above.
    (Words(5 + 2 + 10 + 18 + 5 + 10 + 10), ""),
];

// A record in two pieces, and a third piece that goes no further.
const TORN: [Row; 3] = [
    (Piece(0, 9), ""),
    (Piece(9, 16), "got 1 4\nasked 4 1\n"),
    (Piece(0, 5), ""),
];

// A record of a kind: its length, its version, the kind, the origin, the destination, a zero and the call.
fn bytes(kind: u8, origin: u8, dest: [u8; 2]) -> [u8; 16] {
    let [low, high] = dest;
    [16, 0, 0, 0, 1, kind, origin, 0, low, high, 0, 0, 0, 0, 0, 0]
}

const NOBODY: [u8; 2] = [255, 255];

// A query and 8 bytes more, whose fifth is another version.
const BROKEN: &[u8] = b"\x10\0\0\0\x01\x01\x01\0\xff\xff\0\0\0\0\0\0\x10\0\0\0\x02\x01\x01\0";

// What is wrong with the stream: four records of 16 bytes came before the bad field's record, in which it is byte 4.
const BAD: NodeFault = NodeFault::BadRecord {
    fault: WireFault::Version,
    place: 68,
};

// Whether the record is taken and writes this, behind that it came.
fn takes(
    rt: &impl Abort,
    alloc: Global,
    bench: &mut Bench,
    from: u8,
    record: &[u8],
    want: &str,
) -> Result<bool, AllocError> {
    let text = format!(in alloc; "got {from} 4\n{want}")?;
    let fault = bench.feed(rt, u16::from(from), record);
    Ok(fault.is_none() && bench.wrote(&text)?)
}

// Whether the step writes these lines.
fn writes(
    rt: &impl Abort,
    alloc: Global,
    bench: &mut Bench,
    step: Step,
    want: &str,
) -> Result<bool, AllocError> {
    match step {
        Take(from, kind, origin) => {
            let record = bytes(kind, origin, NOBODY);
            takes(rt, alloc, bench, from, &record, want)
        }
        Admitting(dest) => {
            let record = bytes(ADMIT, 9, [dest, 0]);
            takes(rt, alloc, bench, 2, &record, want)
        }
        Piece(from, to) => {
            let record = bytes(QUERY, 1, NOBODY);
            let Some(piece) = record.get(from..to) else {
                return Ok(false);
            };
            let fault = bench.feed(rt, 1, piece);
            Ok(fault.is_none() && bench.wrote(want)?)
        }
        Broken => {
            let fault = bench.feed(rt, 1, BROKEN);
            Ok(fault == Some(BAD) && bench.wrote(want)?)
        }
        Show => {
            bench.show()?;
            bench.wrote(want)
        }
        Words(count) => Ok(bench.words() == count),
    }
}

// Whether an end mark of the child writes this, after the rows.
fn ends(
    rt: &impl Abort,
    alloc: Global,
    bench: Bench,
    rows: &[Row],
    child: u16,
    want: &str,
) -> Result<(), AllocError> {
    let mut bench = bench;
    for (step, want) in rows {
        match writes(rt, alloc, &mut bench, *step, want) {
            Ok(true) => {}
            _ => panic!(rt; "at {step:?}"),
        }
    }
    let lines = bench.end(child)?;
    let text = text_of(alloc, lines.as_slice())?;
    assert_eq!(rt; text.as_slice(), want.as_bytes());
    Ok(())
}

#[test]
fn enclaves_learn_their_ways(rt: HostRuntime) -> Result<(), AllocError> {
    let alloc = rt.alloc();
    for rows in [&ASKERS[..], &PARENT[..], &REGISTERS[..], &ADMITS[..]] {
        ends(
            &rt,
            alloc,
            Bench::of_child(&rt, alloc),
            rows,
            5,
            "end 5 4 0\n",
        )?;
    }
    ends(
        &rt,
        alloc,
        Bench::of_child(&rt, alloc),
        &TORN,
        1,
        "end 1 4 5\n",
    )?;
    for rows in [&HOLDER[..], &BAD_FIELD[..]] {
        ends(
            &rt,
            alloc,
            Bench::of_holder(&rt, alloc),
            rows,
            1,
            "end 1 4 0\n",
        )?;
    }
    Ok(())
}
