// The trusted edge: a real reader and a real writer as a source and a sink.
ghost use Rattle.std.specs.Prelude.{◌≡◌, ◌<◌, ◌≤◌, length, IfOk, OnOk, OnErr, IfSome, None};
ghost use Rattle.es_io.specs.Count.{next_count};

use crate::{Failed, Sink, Source};
use std::io::{Read, Write};
use std::marker::Model;

/// A real reader as a source, as `StdSource::new(rt.stdin())`. It tells nothing of the bytes, and counts each error of
/// the reader, one that says `Interrupted` too, as a fault.
///
/// Trusted, since no contract can say it: that what the reader gives are the bytes of standard input in order, and
/// that it gives 0 bytes for a buffer with room only at their end.
#[derive(Drop)]
pub struct StdSource<R: Read + Drop> {
    reader: R,
    faults: u64,
}

impl<R: Read + Drop> Model for StdSource<R> {
    ghost use Rattle.std.specs.Prelude.{ℕ};

    ghost Value = { ℕ };

    ghost view = { λ s. s.faults };
}

impl<R: Read + Drop> StdSource<R> {
    /// A source that has not failed yet.
    pub fn new(reader: R) -> StdSource<R>
        ensures { result ≡ 0 }
    {
        StdSource { reader, faults: 0 }
    }
}

impl<R: Read + Drop> Source for StdSource<R> {
    ghost left = { λ _. None };

    ghost faults = { λ faults. faults };

    /// One read of the reader. The count of faults rises by one at an error, and at nothing else.
    fn read(&mut self, buf: &mut [u8]) -> Result<usize, Failed>
        ensures within { IfOk result (λ n. n ≤ length buf.new) }
        ensures quiet { OnOk result (self.new ≡ self.old) }
        ensures counted { OnErr result (self.new ≡ next_count self.old) }
        ensures monotone { self.old ≤ self.new }
    {
        match self.reader.read(buf) {
            Ok(n) => Ok(n),
            Err(_) => {
                self.faults = self.faults.saturating_add(1);
                Err(Failed)
            }
        }
    }
}

/// A real writer as a sink, as `StdSink::new(rt.stdout())`. It tells nothing of the bytes. Each error of the writer
/// counts as a fault, and so does a write that takes nothing of a nonempty piece. After each write it flushes the
/// writer, so that no byte waits in a buffer when the program ends; a flush that fails is a fault of that call.
///
/// Trusted, since no contract can say it: that the bytes which the writer took reach standard output in order, and no
/// byte of a write or a flush that failed.
#[derive(Drop)]
pub struct StdSink<W: Write + Drop> {
    writer: W,
    faults: u64,
}

impl<W: Write + Drop> Model for StdSink<W> {
    ghost use Rattle.std.specs.Prelude.{ℕ};

    ghost Value = { ℕ };

    ghost view = { λ s. s.faults };
}

impl<W: Write + Drop> StdSink<W> {
    /// A sink that has not failed yet.
    pub fn new(writer: W) -> StdSink<W>
        ensures { result ≡ 0 }
    {
        StdSink { writer, faults: 0 }
    }
}

// One write and the flush after it. It is `None` where either failed or a nonempty piece was not begun.
fn write_through<W: Write>(writer: &mut W, piece: &[u8]) -> Option<usize>
    ensures within { IfSome result (λ n. n ≤ length piece.now) }
    ensures some { IfSome result (λ n. 0 < length piece.now → 0 < n) }
{
    let n = writer.write(piece).ok()?;
    if n == 0 && !piece.is_empty() {
        return None;
    }
    writer.flush().ok()?;
    Some(n)
}

impl<W: Write + Drop> Sink for StdSink<W> {
    ghost written = { λ _. None };

    ghost faults = { λ faults. faults };

    /// One write of the writer, and a flush. The count of faults rises by one where it fails, and at nothing else.
    fn write(&mut self, piece: &[u8]) -> Result<usize, Failed>
        ensures within { IfOk result (λ n. n ≤ length piece.now) }
        ensures some { IfOk result (λ n. 0 < length piece.now → 0 < n) }
        ensures quiet { OnOk result (self.new ≡ self.old) }
        ensures counted { OnErr result (self.new ≡ next_count self.old) }
        ensures monotone { self.old ≤ self.new }
    {
        match write_through(&mut self.writer, piece) {
            Some(n) => Ok(n),
            None => {
                self.faults = self.faults.saturating_add(1);
                Err(Failed)
            }
        }
    }
}
