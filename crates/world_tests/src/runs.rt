// Whole runs over ends in memory, whose calls fail where they are told to, and the journal that their world keeps.
use crate::printed::text_of;
use node_world::World;
use scenario_run::{Status, SyntaxFault, Which, xemem_main};
use std::alloc::{AllocError, Global};
use xm_edge::{MemSink, MemSource, Sink, Source};

const SMALLEST: &str = "\
pool 2
host 1 ns
proc 0 100 100
alloc 0 1 16 2
touch 0 1 69632 w
";

const JOURNAL: &str = "\
do pool 2
do host 1 ns
born 0 host 0 ns 0
admitted 0
do proc 0 100 100
proc 0 1 100 100
do alloc 0 1 16 2
alloc 0 1 16 0 1
do touch 0 1 69632 w
touched 0 1 17 1
";

const FIRST: &str = "do pool 2\n";

// A scenario; the calls of the source and of the sink that fail, none by 0; the room of the sink; and how the run ends and
// what it writes.
struct Row {
    scenario: &'static str,
    take: u32,
    put: u32,
    room: u32,
    status: Status,
    journal: &'static str,
}

const PLAIN: Row = Row {
    scenario: SMALLEST,
    take: 0,
    put: 0,
    room: 4096,
    status: Status::Ok,
    journal: JOURNAL,
};

const ROWS: [Row; 14] = [
    PLAIN,
    Row {
        take: 1,
        status: Status::ReadFault,
        journal: "",
        ..PLAIN
    },
    Row {
        take: 2,
        status: Status::ReadFault,
        journal: "",
        ..PLAIN
    },
    Row { take: 3, ..PLAIN },
    Row {
        put: 1,
        status: Status::WriteFault,
        journal: "",
        ..PLAIN
    },
    Row {
        put: 2,
        status: Status::WriteFault,
        journal: FIRST,
        ..PLAIN
    },
    Row { put: 11, ..PLAIN },
    Row {
        room: 9,
        status: Status::WriteFault,
        journal: "",
        ..PLAIN
    },
    Row {
        room: 10,
        status: Status::WriteFault,
        journal: FIRST,
        ..PLAIN
    },
    Row {
        room: 11,
        status: Status::WriteFault,
        journal: FIRST,
        ..PLAIN
    },
    Row {
        scenario: "",
        journal: "",
        ..PLAIN
    },
    Row {
        scenario: "pool 2\nstop 1\nhost 1\n",
        status: Status::Syntax {
            line: 2,
            fault: SyntaxFault::Place,
        },
        journal: FIRST,
        ..PLAIN
    },
    Row {
        scenario: "pool 2\nhost 3\nstop 1\n",
        status: Status::Unbuilt { line: 3 },
        journal: "do pool 2\ndo host 3\nrefused NoBlocks\n",
        ..PLAIN
    },
    Row {
        scenario: "jump\n",
        put: 1,
        status: Status::Syntax {
            line: 1,
            fault: SyntaxFault::Word,
        },
        journal: "",
        ..PLAIN
    },
];

// A list of that call alone, or of none.
fn failing(alloc: Global, call: u32) -> Result<Vec<u32>, AllocError> {
    let mut calls = Vec::new(alloc);
    if call > 0 {
        calls.push(call)?;
    }
    Ok(calls)
}

pub fn word_list(alloc: Global, texts: &[&str]) -> Result<Vec<String>, AllocError> {
    let mut words = Vec::new(alloc);
    for text in texts {
        words.push(String::from_str(alloc, text)?)?;
    }
    Ok(words)
}

// Carries out the words on a world of their own. Gives the status, and what the world's journal is then.
fn carry_out<S: Source, K: Sink>(
    alloc: Global,
    list: &[&str],
    source: &mut S,
    sink: &mut K,
) -> Result<(Status, Vec<u8>), AllocError> {
    let words = word_list(alloc, list)?;
    let mut world = World::new(alloc)?;
    let status = xemem_main(alloc, &words, source, sink, &mut world);
    let journal = text_of(alloc, world.journal().as_slice());
    world.close();
    Ok((status, journal?))
}

// Whether the run ends so and writes this. It is the world's journal too, where no write failed, or else begins it.
fn ends(alloc: Global, row: &Row) -> Result<bool, AllocError> {
    let bytes = Vec::from_slice(alloc, row.scenario.as_bytes())?;
    let mut source = MemSource::new(bytes, failing(alloc, row.take)?);
    let mut sink = MemSink::new(alloc, row.room, failing(alloc, row.put)?)?;
    let (status, journal) = carry_out(alloc, &["run"], &mut source, &mut sink)?;
    let written = sink.bytes();
    let whole = status != Status::WriteFault;
    Ok(
        status == row.status
            && written == row.journal.as_bytes()
            && journal.starts_with(written)
            && (!whole || journal.as_slice() == written),
    )
}

#[test]
fn runs_end_as_their_ends_do(rt: HostRuntime) -> Result<(), AllocError> {
    for row in &ROWS {
        let (take, put, room) = (row.take, row.put, row.room);
        assert!(rt;
            ends(rt.alloc(), row)?,
            "at take {take}, put {put}, room {room} of {:?}",
            row.scenario
        );
    }
    Ok(())
}

// Whether nothing is read and nothing is written.
fn is_usage(alloc: Global, list: &[&str]) -> Result<bool, AllocError> {
    let bytes = Vec::from_slice(alloc, SMALLEST.as_bytes())?;
    let mut source = MemSource::new(bytes, Vec::new(alloc));
    let mut sink = MemSink::new(alloc, 4096, Vec::new(alloc))?;
    let (status, journal) = carry_out(alloc, list, &mut source, &mut sink)?;
    let mut left = [0u8; 4];
    let read = source.take(&mut left);
    Ok(
        status == Status::Usage
            && sink.bytes().is_empty()
            && journal.is_empty()
            && read == Ok(4)
            && left == *b"pool",
    )
}

#[test]
fn other_words_are_usage(rt: HostRuntime) -> Result<(), AllocError> {
    let lists: [&[&str]; 8] = [
        &[],
        &["run", "now"],
        &["Run"],
        &["run "],
        &[""],
        &["load", "7", "100"],
        &["lone"],
        &["audit"],
    ];
    for (place, list) in lists.into_iter().enumerate() {
        assert!(rt; is_usage(rt.alloc(), list)?, "at list {place}");
    }
    Ok(())
}
