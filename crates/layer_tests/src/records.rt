// `xemem_wire`: what records look like, and what the decoder answers.
ghost use Rattle.std.specs.Prelude.{◌+◌, ◌≤◌, length};

use std::alloc::{AllocError, Global};
use xemem_wire::{Body, Decoder, FeedFault, Record, WireFault, encode, valid};
use xm_num::{Apid, Enclave, Segid};

// A decoder, how many bytes it has been fed, and what was encoded.
#[derive(Drop)]
struct Stream {
    encoded: Vec<u8>,
    decoder: Decoder,
    fed: u64,
    ghost taken: { decoder.before + length decoder.rest ≤ fed },
}

#[derive(Drop)]
enum Step {
    // A decoder at the beginning of a stream.
    New,
    // Feeds these bytes at once, or one at a time, and the last feed answers so. What the first feed answers is no matter.
    First(&'static [u8]),
    Feed(&'static [u8], Result<(), FeedFault>),
    FeedEach(&'static [u8], Result<(), FeedFault>),
    Torn(u32),
    // How many queries of enclave 1 can be read, of at most one record.
    Queries(usize),
    // A record that isn't valid, and one that is, which is encoded behind the ones before as these bytes.
    Invalid(Record),
    Encode(Record, &'static [u8]),
    // Feeds all that was encoded, so many bytes.
    FeedEncoded(usize),
    // The bytes of the next record.
    Next(Option<&'static [u8]>),
}

fn answers(alloc: Global, stream: &mut Stream, step: &Step) -> bool {
    match step {
        Step::New => renewed(alloc, stream),
        Step::First(bytes) => {
            let _ = feeds(stream, bytes);
            true
        }
        Step::Feed(bytes, want) => feeds(stream, bytes) == *want,
        Step::FeedEach(bytes, want) => feeds_each(stream, bytes) == *want,
        Step::Torn(want) => stream.decoder.torn() == *want,
        Step::Queries(want) => has_queries(stream, *want),
        Step::Invalid(rec) => !valid(rec),
        Step::Encode(rec, want) => encodes(&mut stream.encoded, rec, want),
        Step::FeedEncoded(count) => feeds_encoded(stream, *count),
        Step::Next(want) => gives(alloc, stream, *want),
    }
}

fn renewed(alloc: Global, stream: &mut Stream) -> bool {
    match Decoder::new(alloc) {
        Ok(decoder) => {
            stream.decoder = decoder;
            stream.fed = 0;
            true
        }
        Err(_) => false,
    }
}

// What the feed answers, of few bytes.
fn feeds(stream: &mut Stream, bytes: &[u8]) -> Result<(), FeedFault> {
    if bytes.len() > 100 || stream.fed > 1000 {
        return Err(FeedFault::Memory);
    }
    stream.fed += bytes.len() as u64;
    stream.decoder.feed(bytes)
}

// What the last feed answers.
fn feeds_each(stream: &mut Stream, bytes: &[u8]) -> Result<(), FeedFault> {
    let mut last = Ok(());
    for byte in bytes {
        last = feeds(stream, &[*byte]);
    }
    last
}

fn has_queries(stream: &mut Stream, want: usize) -> bool {
    for _ in 0..want {
        match stream.decoder.next() {
            Ok(Some(rec)) if is_query(&rec) => {}
            _ => return false,
        }
    }
    matches!(stream.decoder.next(), Ok(None))
}

fn is_query(rec: &Record) -> bool {
    matches!(rec.body, Body::Query)
        && rec.origin == Enclave(1)
        && rec.dest.is_none()
        && rec.call == 0
}

// Whether the record is valid and is encoded as these bytes, behind those that stand there.
fn encodes(out: &mut Vec<u8>, rec: &Record, want: &[u8]) -> bool {
    let before = out.len();
    valid(rec) && encode(rec, out).is_ok() && out.get(before..) == Some(want)
}

fn feeds_encoded(stream: &mut Stream, count: usize) -> bool {
    if stream.encoded.len() != count || count > 400 || stream.fed > 1000 {
        return false;
    }
    stream.fed += count as u64;
    stream.decoder.feed(&stream.encoded).is_ok()
}

fn gives(alloc: Global, stream: &mut Stream, want: Option<&[u8]>) -> bool {
    match (stream.decoder.next(), want) {
        (Ok(Some(rec)), Some(bytes)) => encodes(&mut Vec::new(alloc), &rec, bytes),
        (Ok(None), None) => true,
        _ => false,
    }
}

// Bytes, what the last feed of them answers, how many queries of enclave 1 can be read then, and how many bytes are torn.
#[derive(Drop)]
struct Line {
    bytes: &'static [u8],
    answer: Result<(), FeedFault>,
    queries: usize,
    torn: u32,
}

const QUERY: &[u8] = b"\x10\0\0\0\x01\x01\x01\0\xff\xff\0\0\0\0\0\0";

const HERE: &[u8] = b"\x10\0\0\0\x01\x02\0\0\xff\xff\0\0\0\0\0\0";

const REGISTER: &[u8] = b"\x10\0\0\0\x01\x03\xff\0\xff\xff\0\0\0\0\0\0";

const ADMIT: &[u8] = b"\x10\0\0\0\x01\x04\x02\0\xc8\0\0\0\0\0\0\0";

const NAMEREQ: &[u8] = b"\x10\0\0\0\x01\x05\x02\0\xff\xff\0\0\x01\0\0\0";

const NAMED: &[u8] = b"\x18\0\0\0\x01\x06\0\0\x02\0\0\0\x07\0\0\0\x02\x01\0\0\0\0\0\0";

const UNNAME: &[u8] =
    b"\x18\0\0\0\x01\x07\x02\0\xff\xff\0\0\x08\0\0\0\xff\xff\xff\xff\xff\xff\xff\x7f";

const LOOKUP: &[u8] = b"\x18\0\0\0\x01\x08\x02\0\xff\xff\0\0\x09\0\0\0\x02\x01\0\0\0\0\0\0";

const FOUND: &[u8] = b"\x1c\0\0\0\x01\x09\0\0\x02\0\0\0\x09\0\0\0\x02\x01\0\0\0\0\0\0\xff\0\0\0";

const FOUND_NONE: &[u8] =
    b"\x1c\0\0\0\x01\x09\0\0\x02\0\0\0\x09\0\0\0\x02\x01\0\0\0\0\0\0\xff\xff\0\0";

const GET: &[u8] =
    b"\x24\0\0\0\x01\x0a\x02\0\x03\0\0\0\x09\0\0\0\x02\x01\0\0\0\0\0\0\x02\0\0\0\xe8\x03\0\0\xff\xff\xff\xff";

const GRANTED: &[u8] = b"\x14\0\0\0\x01\x0b\x03\0\x02\0\0\0\x09\0\0\0\0\x10\0\0";

const GET_REFUSED: &[u8] = b"\x14\0\0\0\x01\x0c\x03\0\x02\0\0\0\x09\0\0\0\x07\0\0\0";

const RELEASE: &[u8] = b"\x14\0\0\0\x01\x0d\x02\0\x03\0\0\0\x09\0\0\0\xff\xff\xff\xff";

fn bad(bytes: &'static [u8], fault: WireFault, place: u64) -> Line {
    Line {
        bytes,
        answer: Err(FeedFault::Bad { fault, place }),
        queries: 0,
        torn: 0,
    }
}

fn lines() -> [Line; 27] {
    [
        Line {
            bytes: QUERY,
            answer: Ok(()),
            queries: 1,
            torn: 0,
        },
        bad(b"\x0f\0\0\0", WireFault::Length, 0),
        bad(b"\x10\0\0\0\x02", WireFault::Version, 4),
        bad(b"\x10\0\0\0\x01\x15", WireFault::Kind, 5),
        bad(b"\x10\0\0\0\x01\x0e", WireFault::Kind, 5),
        bad(b"\x14\0\0\0\x01\x01", WireFault::Length, 0),
        bad(b"\x18\0\0\0\x01\x05", WireFault::Length, 0),
        bad(b"\x10\0\0\0\x01\x06", WireFault::Length, 0),
        bad(b"\x18\0\0\0\x01\x09", WireFault::Length, 0),
        bad(b"\x18\0\0\0\x01\x06\0\0\xff\xff", WireFault::Field, 8),
        bad(
            b"\x10\0\0\0\x01\x05\x02\0\xff\xff\0\0\0\0\0\0",
            WireFault::Field,
            12,
        ),
        bad(
            b"\x18\0\0\0\x01\x06\0\0\x02\0\0\0\x07\0\0\0\0\0\0\0\0\0\0\x80",
            WireFault::Field,
            16,
        ),
        Line {
            bytes: b"\x18\0\0\0\x01\x06\0\0\x02\0\0\0\x07\0\0\0\xff\xff\xff\xff\xff\xff\xff",
            answer: Ok(()),
            queries: 0,
            torn: 23,
        },
        Line {
            bytes: b"\x10\0\0\0\x01\x01\x01\0\xff\xff\0\0\0\0\0\0\x18\0\0\0\x01\x07\x02\0\xff\xff\0\0\x08\0\0\0\xff\xff\xff\xff\xff\xff\xff\xff",
            answer: Err(FeedFault::Bad {
                fault: WireFault::Field,
                place: 32,
            }),
            queries: 1,
            torn: 0,
        },
        bad(
            b"\x1c\0\0\0\x01\x09\0\0\x02\0\0\0\x09\0\0\0\x02\x01\0\0\0\0\0\0\0\x01",
            WireFault::Field,
            24,
        ),
        bad(
            b"\x1c\0\0\0\x01\x09\0\0\x02\0\0\0\x09\0\0\0\x02\x01\0\0\0\0\0\0\xff\xff\x01\0",
            WireFault::Zero,
            26,
        ),
        bad(
            b"\x24\0\0\0\x01\x0a\x02\0\x03\0\0\0\x09\0\0\0\x02\x01\0\0\0\0\0\x80",
            WireFault::Field,
            16,
        ),
        bad(
            b"\x24\0\0\0\x01\x0a\x02\0\x03\0\0\0\x09\0\0\0\x02\x01\0\0\0\0\0\0\x03\0\0\0",
            WireFault::Field,
            24,
        ),
        bad(
            b"\x14\0\0\0\x01\x0b\x03\0\x02\0\0\0\x09\0\0\0\0\0\0\0",
            WireFault::Field,
            16,
        ),
        bad(
            b"\x14\0\0\0\x01\x0b\x03\0\x02\0\0\0\x09\0\0\0\x01\x10\0\0",
            WireFault::Field,
            16,
        ),
        bad(
            b"\x14\0\0\0\x01\x0c\x03\0\x02\0\0\0\x09\0\0\0\x05\0\0\0",
            WireFault::Field,
            16,
        ),
        bad(
            b"\x14\0\0\0\x01\x0c\x03\0\x02\0\0\0\x09\0\0\0\x08\0\0\0",
            WireFault::Field,
            16,
        ),
        bad(
            b"\x14\0\0\0\x01\x0d\x02\0\x03\0\0\0\x09\0\0\0\0\0\0\0",
            WireFault::Field,
            16,
        ),
        bad(b"\x10\0\0\0\x01\x01\x01\0\0\0", WireFault::Field, 8),
        bad(
            b"\x10\0\0\0\x01\x01\x01\0\xff\xff\x01\0",
            WireFault::Zero,
            10,
        ),
        Line {
            bytes: b"\x10\0\0\0\x01\x01\x01\0\xff\xff\0\0\0\0\0\0\x10\0\0\0\x02",
            answer: Err(FeedFault::Bad {
                fault: WireFault::Version,
                place: 20,
            }),
            queries: 1,
            torn: 0,
        },
        Line {
            bytes: b"\x10\0\0\0\x01\x01\x01\0\xff\xff\0\0\0\0\0",
            answer: Ok(()),
            queries: 0,
            torn: 15,
        },
    ]
}

fn made(origin: u16, dest: Option<Enclave>, call: u32, body: Body) -> Record {
    Record {
        origin: Enclave(origin),
        dest,
        call,
        body,
    }
}

fn named(segid: i64) -> Body {
    Body::Named {
        segid: Segid(segid),
    }
}

fn unname(segid: i64) -> Body {
    Body::Unname {
        segid: Segid(segid),
    }
}

fn lookup(segid: i64) -> Body {
    Body::Lookup {
        segid: Segid(segid),
    }
}

fn found(segid: i64, owner: Option<Enclave>) -> Body {
    Body::Found {
        segid: Segid(segid),
        owner,
    }
}

fn get(segid: i64, flags: u32) -> Body {
    Body::Get {
        segid: Segid(segid),
        flags,
        uid: 1000,
        gid: 4_294_967_295,
    }
}

fn granted(pages: u32) -> Body {
    Body::Granted { pages }
}

fn get_refused(cause: u32) -> Body {
    Body::GetRefused { cause }
}

fn release(apid: i64) -> Body {
    Body::Release { apid: Apid(apid) }
}

// The records of the built kinds, with their spellings, and a stream of all of them.
fn built() -> [Step; 31] {
    let (two, three) = (Some(Enclave(2)), Some(Enclave(3)));
    [
        Step::New,
        Step::Encode(made(1, None, 0, Body::Query), QUERY),
        Step::Encode(made(0, None, 0, Body::Here), HERE),
        Step::Encode(made(255, None, 0, Body::Register), REGISTER),
        Step::Encode(made(2, Some(Enclave(200)), 0, Body::Admit), ADMIT),
        Step::Encode(made(2, None, 1, Body::NameReq), NAMEREQ),
        Step::Encode(made(0, Some(Enclave(2)), 7, named(258)), NAMED),
        Step::Encode(made(2, None, 8, unname(9_223_372_036_854_775_807)), UNNAME),
        Step::Encode(made(2, None, 9, lookup(258)), LOOKUP),
        Step::Encode(made(0, two, 9, found(258, Some(Enclave(255)))), FOUND),
        Step::Encode(made(0, two, 9, found(258, None)), FOUND_NONE),
        Step::Encode(made(2, three, 9, get(258, 2)), GET),
        Step::Encode(made(3, two, 9, granted(4096)), GRANTED),
        Step::Encode(made(3, two, 9, get_refused(7)), GET_REFUSED),
        Step::Encode(made(2, three, 9, release(4_294_967_295)), RELEASE),
        Step::FeedEncoded(304),
        Step::Next(Some(QUERY)),
        Step::Next(Some(HERE)),
        Step::Next(Some(REGISTER)),
        Step::Next(Some(ADMIT)),
        Step::Next(Some(NAMEREQ)),
        Step::Next(Some(NAMED)),
        Step::Next(Some(UNNAME)),
        Step::Next(Some(LOOKUP)),
        Step::Next(Some(FOUND)),
        Step::Next(Some(FOUND_NONE)),
        Step::Next(Some(GET)),
        Step::Next(Some(GRANTED)),
        Step::Next(Some(GET_REFUSED)),
        Step::Next(Some(RELEASE)),
        Step::Next(None),
    ]
}

// Records with a number that is out of its range, and of kinds that aren't built.
fn invalid() -> [Step; 25] {
    let zero = Some(Enclave(0));
    [
        Step::Invalid(made(256, None, 0, Body::Query)),
        Step::Invalid(made(1, zero, 0, Body::Query)),
        Step::Invalid(made(1, None, 0, Body::Admit)),
        Step::Invalid(made(1, Some(Enclave(256)), 0, Body::Admit)),
        Step::Invalid(made(1, Some(Enclave(65535)), 0, Body::Register)),
        Step::Invalid(made(1, None, 1, Body::Here)),
        Step::Invalid(made(1, None, 0, Body::NameReq)),
        Step::Invalid(made(1, zero, 1, Body::NameReq)),
        Step::Invalid(made(1, None, 1, named(1))),
        Step::Invalid(made(1, zero, 1, named(-1))),
        Step::Invalid(made(1, zero, 1, lookup(1))),
        Step::Invalid(made(1, None, 1, lookup(-1))),
        Step::Invalid(made(1, zero, 1, found(1, Some(Enclave(256))))),
        Step::Invalid(made(1, zero, 1, found(1, Some(Enclave(65535))))),
        Step::Invalid(made(1, zero, 1, get(-1, 1))),
        Step::Invalid(made(1, zero, 1, get(1, 0))),
        Step::Invalid(made(1, zero, 0, get(1, 1))),
        Step::Invalid(made(1, zero, 1, granted(0))),
        Step::Invalid(made(1, zero, 1, granted(4097))),
        Step::Invalid(made(1, zero, 1, get_refused(5))),
        Step::Invalid(made(1, zero, 1, get_refused(8))),
        Step::Invalid(made(1, zero, 1, release(0))),
        Step::Invalid(made(1, zero, 1, release(4_294_967_296))),
        Step::Invalid(made(1, zero, 1, Body::Detach)),
        Step::Invalid(made(
            1,
            None,
            0,
            Body::Died {
                enclave: Enclave(2),
            },
        )),
    ]
}

#[test]
fn records_and_streams_of_them(rt: HostRuntime) -> Result<(), AllocError> {
    let mut stream = Stream {
        encoded: Vec::new(rt.alloc()),
        decoder: Decoder::new(rt.alloc())?,
        fed: 0,
    };
    let (built, invalid) = (built(), invalid());
    let tables: [(&str, &[Step]); 2] = [("built", &built), ("invalid", &invalid)];
    for (name, steps) in tables {
        for (row, step) in steps.iter().enumerate() {
            assert!(rt; answers(rt.alloc(), &mut stream, step), "{name}, row {row}");
        }
    }
    for (row, line) in lines().into_iter().enumerate() {
        let (at_once, each) = (
            Step::Feed(line.bytes, line.answer),
            Step::FeedEach(line.bytes, line.answer),
        );
        for feed in [at_once, each] {
            let steps = [
                Step::New,
                feed,
                Step::Torn(line.torn),
                Step::Queries(line.queries),
            ];
            for step in &steps {
                assert!(rt; answers(rt.alloc(), &mut stream, step), "line {row}");
            }
        }
        for cut in 0..line.bytes.len() {
            let steps = [
                Step::New,
                Step::First(&line.bytes[..cut]),
                Step::Feed(&line.bytes[cut..], line.answer),
                Step::Torn(line.torn),
                Step::Queries(line.queries),
            ];
            for step in &steps {
                assert!(rt;
                    answers(rt.alloc(), &mut stream, step),
                    "line {row} cut at {cut}"
                );
            }
        }
    }
    Ok(())
}
