// `xm_edge`: sources and sinks in memory, and those of std, at their ends and where they fail.
use std::alloc::{AllocError, Global};
use std::io;
use std::io::{Read, Write};
use xm_edge::{
    MemSink, MemSource, ReadAllFault, ReadFailed, Sink, Source, StdSink, StdSource, WriteFailed,
    read_all, write_all,
};

// A source and a sink in memory.
#[derive(Drop)]
struct Ends {
    source: MemSource,
    sink: MemSink,
}

#[derive(Drop)]
enum Step {
    // A source of so many letters `a` and this text, and a sink with this room. They fail at the listed calls.
    Source(usize, &'static str, &'static [u32]),
    Sink(u32, &'static [u32]),
    // Reads to the end, so many bytes at most.
    ReadAll(u32, Result<&'static str, ReadAllFault>),
    // Takes two bytes at most.
    Take(Result<&'static str, ReadFailed>),
    // Puts or writes a piece, and then the sink has this text.
    Put(&'static str, Result<usize, WriteFailed>, &'static str),
    WriteAll(&'static str, Result<(), WriteFailed>, &'static str),
    // Reads five bytes at most of `abcde` from a reader of std.
    ReadPlain(Result<&'static str, ReadAllFault>),
    // The same of a reader that gives so many bytes at a call and fails at one call, and then reads on.
    ReadStd(usize, u32, Result<&'static str, ReadAllFault>, Result<&'static str, ReadAllFault>),
    // Writes `abcde` to a writer of std that takes so many bytes at a call and fails at one call, and then has this text.
    WriteStd(usize, u32, Result<(), WriteFailed>, &'static str),
}

fn answers(alloc: Global, ends: &mut Ends, step: &Step) -> bool {
    match step {
        Step::Source(count, text, failing) => {
            has_source(alloc, ends, *count, text, failing).is_ok()
        }
        Step::Sink(room, failing) => has_sink(alloc, ends, *room, failing).is_ok(),
        Step::ReadAll(most, want) => reads_all(alloc, &mut ends.source, *most, *want),
        Step::Take(want) => takes(&mut ends.source, *want),
        Step::Put(piece, want, text) => {
            puts(&mut ends.sink, piece.as_bytes(), *want) && ends.sink.bytes() == text.as_bytes()
        }
        Step::WriteAll(piece, want, text) => {
            write_all(&mut ends.sink, piece.as_bytes()) == *want
                && ends.sink.bytes() == text.as_bytes()
        }
        Step::ReadPlain(want) => {
            reads_all(alloc, &mut StdSource::new(b"abcde".as_slice()), 5, *want)
        }
        Step::ReadStd(step, failing, first, rest) => {
            reads_std(alloc, *step, *failing, *first, *rest)
        }
        Step::WriteStd(step, failing, want, text) => {
            writes_std(alloc, *step, *failing, *want, text)
        }
    }
}

fn has_source(
    alloc: Global,
    ends: &mut Ends,
    count: usize,
    text: &str,
    failing: &[u32],
) -> Result<(), AllocError> {
    let mut bytes = vec![in alloc; b'a'; count]?;
    bytes.extend_from_slice(text.as_bytes())?;
    ends.source = MemSource::new(bytes, failing.to_vec(alloc)?);
    Ok(())
}

fn has_sink(alloc: Global, ends: &mut Ends, room: u32, failing: &[u32]) -> Result<(), AllocError> {
    ends.sink = MemSink::new(alloc, room, failing.to_vec(alloc)?)?;
    Ok(())
}

fn reads_all<S: Source>(
    alloc: Global,
    source: &mut S,
    most: u32,
    want: Result<&str, ReadAllFault>,
) -> bool {
    match read_all(alloc, source, most) {
        Ok(bytes) => want.map(str::as_bytes) == Ok(bytes.as_slice()),
        Err(fault) => want.err() == Some(fault),
    }
}

fn takes(source: &mut MemSource, want: Result<&str, ReadFailed>) -> bool {
    let mut into = [0u8; 2];
    match source.take(&mut into) {
        Ok(count) => into.get(..count).map(Ok) == Some(want.map(str::as_bytes)),
        Err(fault) => want.err() == Some(fault),
    }
}

fn puts(sink: &mut MemSink, piece: &[u8], want: Result<usize, WriteFailed>) -> bool {
    !piece.is_empty() && sink.put(piece) == want
}

fn reads_std(
    alloc: Global,
    step: usize,
    failing: u32,
    first: Result<&str, ReadAllFault>,
    rest: Result<&str, ReadAllFault>,
) -> bool {
    let mut source = StdSource::new(Halting::new(b"abcde".as_slice(), step, failing));
    reads_all(alloc, &mut source, 5, first) && reads_all(alloc, &mut source, 5, rest)
}

fn writes_std(
    alloc: Global,
    step: usize,
    failing: u32,
    want: Result<(), WriteFailed>,
    text: &str,
) -> bool {
    let mut writer = Halting::new(Vec::new(alloc), step, failing);
    write_all(&mut StdSink::new(&mut writer), b"abcde") == want
        && writer.inner.as_slice() == text.as_bytes()
}

// Passes on at most `step` bytes at a call, and fails at one call.
#[derive(Drop)]
struct Halting<T> {
    inner: T,
    step: usize,
    calls: u32,
    failing: u32,
}

impl<T> Halting<T> {
    fn new(inner: T, step: usize, failing: u32) -> Halting<T> {
        Halting {
            inner,
            step,
            calls: 0,
            failing,
        }
    }

    fn length(&mut self, len: usize) -> io::Result<usize> {
        self.calls = self.calls.saturating_add(1);
        if self.calls == self.failing {
            return Err(io::Error::from(io::ErrorKind::WouldBlock));
        }
        Ok(len.min(self.step))
    }
}

impl<T: Read> Read for Halting<T> {
    fn read(&mut self, buf: &mut [u8]) -> io::Result<usize> {
        let len = self.length(buf.len())?.min(buf.len());
        self.inner.read(&mut buf[..len])
    }
}

impl<T: Write> Write for Halting<T> {
    fn write(&mut self, buf: &[u8]) -> io::Result<usize> {
        let len = self.length(buf.len())?.min(buf.len());
        self.inner.write(&buf[..len])
    }

    fn flush(&mut self) -> io::Result<()> {
        Ok(())
    }
}

const READ: Result<&str, ReadAllFault> = Err(ReadAllFault::Read);

const TOO_LONG: Result<&str, ReadAllFault> = Err(ReadAllFault::TooLong);

// What is read to the end, why it stops before, and that it goes on after a failed read.
const READING: &[Step] = &[
    Step::Source(0, "", &[]),
    Step::ReadAll(0, Ok("")),
    Step::Source(0, "", &[]),
    Step::ReadAll(8, Ok("")),
    Step::Source(0, "abc", &[]),
    Step::ReadAll(8, Ok("abc")),
    Step::Source(0, "abc", &[]),
    Step::ReadAll(3, Ok("abc")),
    Step::Source(0, "abc", &[3, 9]),
    Step::ReadAll(3, Ok("abc")),
    Step::Source(0, "a", &[]),
    Step::ReadAll(0, TOO_LONG),
    Step::Source(0, "abcd", &[]),
    Step::ReadAll(3, TOO_LONG),
    Step::Source(0, "abcd", &[2]),
    Step::ReadAll(3, TOO_LONG),
    Step::Source(0, "", &[1]),
    Step::ReadAll(3, READ),
    Step::Source(0, "abc", &[1]),
    Step::ReadAll(3, READ),
    Step::Source(0, "abc", &[5, 2]),
    Step::ReadAll(3, READ),
    // The first 64 KiB came before the fault in mid-stream and are gone. The rest is still there.
    Step::Source(65536, "xyz", &[2]),
    Step::ReadAll(4_194_304, READ),
    Step::ReadAll(4_194_304, Ok("xyz")),
    // A failed take takes nothing.
    Step::Source(0, "abc", &[2]),
    Step::Take(Ok("ab")),
    Step::Take(Err(ReadFailed)),
    Step::Take(Ok("c")),
    Step::Take(Ok("")),
    Step::Take(Ok("")),
    Step::ReadPlain(Ok("abcde")),
    Step::ReadStd(2, 2, READ, Ok("cde")),
];

// What is written. A failed put appends nothing, and an empty piece is written without a call, so that none can fail.
const WRITING: &[Step] = &[
    Step::Sink(4, &[2]),
    Step::Put("abc", Ok(3), "abc"),
    Step::Put("d", Err(WriteFailed), "abc"),
    Step::Put("de", Err(WriteFailed), "abc"),
    Step::Put("d", Ok(1), "abcd"),
    Step::Put("e", Err(WriteFailed), "abcd"),
    Step::Sink(3, &[]),
    Step::WriteAll("abc", Ok(()), "abc"),
    Step::Sink(9, &[2]),
    Step::WriteAll("abc", Ok(()), "abc"),
    Step::Sink(2, &[]),
    Step::WriteAll("abc", Err(WriteFailed), ""),
    Step::Sink(3, &[1]),
    Step::WriteAll("abc", Err(WriteFailed), ""),
    Step::Sink(0, &[1]),
    Step::WriteAll("", Ok(()), ""),
    Step::Sink(0, &[]),
    Step::WriteAll("a", Err(WriteFailed), ""),
    // A writer that fails, and one that takes nothing, leave what was written before.
    Step::WriteStd(5, 0, Ok(()), "abcde"),
    Step::WriteStd(2, 0, Ok(()), "abcde"),
    Step::WriteStd(2, 3, Err(WriteFailed), "abcd"),
    Step::WriteStd(2, 1, Err(WriteFailed), ""),
    Step::WriteStd(0, 0, Err(WriteFailed), ""),
];

#[test]
fn bytes_in_and_out(rt: HostRuntime) -> Result<(), AllocError> {
    let mut ends = Ends {
        source: MemSource::new(Vec::new(rt.alloc()), Vec::new(rt.alloc())),
        sink: MemSink::new(rt.alloc(), 0, Vec::new(rt.alloc()))?,
    };
    for (name, steps) in [("reading", READING), ("writing", WRITING)] {
        for (row, step) in steps.iter().enumerate() {
            assert!(rt; answers(rt.alloc(), &mut ends, step), "{name}, row {row}");
        }
    }
    Ok(())
}
