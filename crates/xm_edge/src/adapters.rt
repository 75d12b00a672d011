// The readers and writers of std. They tell no bytes: what they hold is outside what is proved.
ghost use Rattle.std.specs.Prelude.{◌≡◌, ◌<◌, None, is_some, length, IfOk};
ghost use Rattle.std.specs.Io.{ReadsAtMost, WritesAtMost};
ghost use Rattle.std.specs.Io.KnownBytes.{ReadConsumes, WriteAppends};
ghost use Rattle.xm_edge.specs.Faults.{HasCause, CountsErrors};

use crate::{ReadFailed, Sink, Source, WriteFailed};
use std::io::{Read, Write};
use std::marker::Model;

/// A reader of std as a source. Its count of faults rises at each `Err`, up to the last value of a u64. A call that
/// was interrupted is such an `Err`, and the caller may make it again.
#[derive(Drop)]
pub struct StdSource<R> {
    inner: R,
    faults: u64,
}

impl<R> Model for StdSource<R> {
    ghost use Rattle.xm_edge.specs.Adapters.{Counting};

    ghost Value = { Counting R };

    ghost view = { λ s. record { inner = s.inner; faults = s.faults } };
}

impl<R: Read> StdSource<R> {
    /// The reader, with no fault counted yet.
    pub fn new(reader: R) -> StdSource<R>
        ensures { result ≡ record { inner = reader; faults = 0 } }
    {
        StdSource {
            inner: reader,
            faults: 0,
        }
    }
}

impl<R: Read> Source for StdSource<R> {
    ghost left = { λ _. None };

    ghost faults = { λ s. s.faults };

    fn take(&mut self, into: &mut [u8]) -> Result<usize, ReadFailed>
        requires { 0 < length into.old }
        ensures bound { ReadsAtMost result into.new }
        ensures cause { HasCause self.old.faults self.new.faults result }
        ensures passed { ReadConsumes (R.remaining self.old.inner) (R.remaining self.new.inner) result into.new }
        ensures counts { CountsErrors self.old.faults self.new.faults result }
    {
        match self.inner.read(into) {
            Ok(count) => Ok(count),
            Err(_) => {
                self.faults = self.faults.saturating_add(1);
                Err(ReadFailed)
            }
        }
    }
}

/// A writer of std as a sink. Its count of faults rises at each `Err`, up to the last value of a u64, and a writer
/// that takes nothing counts as an `Err`. It flushes nothing.
#[derive(Drop)]
pub struct StdSink<W> {
    inner: W,
    faults: u64,
}

impl<W> Model for StdSink<W> {
    ghost use Rattle.xm_edge.specs.Adapters.{Counting};

    ghost Value = { Counting W };

    ghost view = { λ s. record { inner = s.inner; faults = s.faults } };
}

impl<W: Write> StdSink<W> {
    /// The writer, with no fault counted yet.
    pub fn new(writer: W) -> StdSink<W>
        ensures { result ≡ record { inner = writer; faults = 0 } }
    {
        StdSink {
            inner: writer,
            faults: 0,
        }
    }
}

impl<W: Write> Sink for StdSink<W> {
    ghost contents = { λ _. None };

    ghost faults = { λ s. s.faults };

    fn put(&mut self, piece: &[u8]) -> Result<usize, WriteFailed>
        requires { 0 < length piece.now }
        ensures some { IfOk result (λ n. 0 < n) }
        ensures bound { WritesAtMost result piece.now }
        ensures cause { HasCause self.old.faults self.new.faults result }
        ensures passed { WriteAppends (W.contents self.old.inner) (W.contents self.new.inner) result piece.now }
        ensures counts { CountsErrors self.old.faults self.new.faults result }
    {
        match self.inner.write(piece) {
            Ok(count) if count > 0 => Ok(count),
            _ => {
                self.faults = self.faults.saturating_add(1);
                Err(WriteFailed)
            }
        }
    }
}
