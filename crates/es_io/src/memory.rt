// A source and a sink over memory, which fail at the calls that they are told.
ghost use Rattle.std.specs.Prelude.{◌≡◌, ◌<◌, ◌≤◌, [], ◌++◌, length, take, drop, min, true, IfOk, OnOk, OnErr, IsErr, Some, is_err};
ghost use Rattle.es_io.specs.Count.{next_count};
ghost use Rattle.es_io.specs.Memory.{is_failing};

use crate::{Failed, Sink, Source};
use std::alloc::Global;
use std::marker::Model;

/// A source over memory: it gives its bytes in order, and fails at the calls that it was told. For tests.
#[derive(Drop)]
pub struct MemSource {
    bytes: Vec<u8>,
    // The place of the next byte.
    at: usize,
    piece: usize,
    failing: Vec<u64>,
    calls: u64,
    faults: u64,
}

impl Model for MemSource {
    ghost use Rattle.std.specs.Prelude.{◌≤◌, ◌<◌, drop, length};
    ghost use Rattle.es_io.specs.Memory.{SourceState};

    ghost Value = { SourceState };

    ghost view = { λ s. record {
      left = drop s.at s.bytes.items;
      piece = s.piece;
      failing = s.failing.items;
      calls = s.calls;
      faults = s.faults;
    } };

    ghost invariant = { λ s. (s.at ≤ length s.bytes.items) × (0 < s.piece) };
}

impl MemSource {
    /// A source of these bytes. Each call gives at most `piece` bytes; `failing` lists the calls, counted from 1, that
    /// fail. It takes no memory.
    pub fn new(bytes: Vec<u8>, piece: usize, failing: Vec<u64>) -> MemSource
        requires { 0 < piece }
        ensures { result ≡ record { left = bytes.items; piece = piece; failing = failing.items; calls = 0; faults = 0 } }
    {
        MemSource {
            bytes,
            at: 0,
            piece,
            failing,
            calls: 0,
            faults: 0,
        }
    }
}

impl Source for MemSource {
    ghost left = { λ s. Some s.left };

    ghost faults = { λ s. s.faults };

    /// Gives as many bytes as the buffer and the piece allow and are left. It fails exactly at the calls that are
    /// listed, where the count of faults rises by one and nothing else happens.
    fn read(&mut self, buf: &mut [u8]) -> Result<usize, Failed>
        ensures fails { is_err result ≡ is_failing self.old.failing (next_count self.old.calls) }
        ensures count { IfOk result (λ n. n ≡ min (min (length buf.old) self.old.piece) (length self.old.left)) }
        ensures gives { IfOk result (λ n. buf.new ≡ take n self.old.left ++ drop n buf.old) }
        ensures after { IfOk result (λ n. self.new ≡ record self.old { left = drop n self.old.left; calls = next_count self.old.calls }) }
        ensures buffer_kept { OnErr result (buf.new ≡ buf.old) }
        ensures failed { OnErr result (self.new ≡ record self.old { calls = next_count self.old.calls; faults = next_count self.old.faults }) }

        // What each source ensures.
        ensures end { IfOk result (λ n. n ≡ 0 → 0 < length buf.new → self.old.left ≡ []) }
        ensures quiet { OnOk result (self.new.faults ≡ self.old.faults) }
        ensures monotone { self.old.faults ≤ self.new.faults }
    {
        self.calls = self.calls.saturating_add(1);
        if self.failing.contains(&self.calls) {
            self.faults = self.faults.saturating_add(1);
            return Err(Failed);
        }
        let left = self.bytes.len() - self.at;
        let n = buf.len().min(self.piece).min(left);
        buf[..n].copy_from_slice(&self.bytes[self.at..self.at + n]);
        self.at += n;
        Ok(n)
    }
}

/// A sink over memory: it keeps the bytes that it takes, and fails at the calls that it was told. For tests.
#[derive(Drop)]
pub struct MemSink {
    bytes: Vec<u8>,
    piece: usize,
    failing: Vec<u64>,
    calls: u64,
    faults: u64,
}

impl Model for MemSink {
    ghost use Rattle.std.specs.Prelude.{◌<◌};
    ghost use Rattle.es_io.specs.Memory.{SinkState};

    ghost Value = { SinkState };

    ghost view = { λ s. record {
      written = s.bytes.items;
      piece = s.piece;
      failing = s.failing.items;
      calls = s.calls;
      faults = s.faults;
    } };

    ghost invariant = { λ s. 0 < s.piece };
}

impl MemSink {
    /// A sink that has no bytes yet. Each call takes at most `piece` bytes; `failing` lists the calls, counted from 1,
    /// that fail. It takes no memory itself; its calls of `write` do.
    pub fn new(alloc: Global, piece: usize, failing: Vec<u64>) -> MemSink
        requires { 0 < piece }
        ensures { result ≡ record { written = []; piece = piece; failing = failing.items; calls = 0; faults = 0 } }
    {
        MemSink {
            bytes: Vec::new(alloc),
            piece,
            failing,
            calls: 0,
            faults: 0,
        }
    }

    /// The bytes that it took.
    pub fn bytes(&self) -> &[u8]
        ensures { result.now ≡ self.now.written }
    {
        &self.bytes
    }
}

impl Sink for MemSink {
    ghost written = { λ s. Some s.written };

    ghost faults = { λ s. s.faults };

    /// Takes as many bytes as the piece that it was told allows. It fails at the calls that are listed, and where no
    /// memory is found for the bytes; the count of faults then rises by one and nothing else happens.
    fn write(&mut self, piece: &[u8]) -> Result<usize, Failed>
        ensures fails { is_failing self.old.failing (next_count self.old.calls) ≡ true → IsErr result }
        ensures count { IfOk result (λ n. n ≡ min (length piece.now) self.old.piece) }
        ensures after { IfOk result (λ n. self.new ≡ record self.old { written = self.old.written ++ take n piece.now; calls = next_count self.old.calls }) }
        ensures failed { OnErr result (self.new ≡ record self.old { calls = next_count self.old.calls; faults = next_count self.old.faults }) }

        // What each sink ensures.
        ensures some { IfOk result (λ n. 0 < length piece.now → 0 < n) }
        ensures quiet { OnOk result (self.new.faults ≡ self.old.faults) }
        ensures monotone { self.old.faults ≤ self.new.faults }
    {
        self.calls = self.calls.saturating_add(1);
        let n = piece.len().min(self.piece);
        if self.failing.contains(&self.calls)
            || self.bytes.extend_from_slice(&piece[..n]).is_err()
        {
            self.faults = self.faults.saturating_add(1);
            return Err(Failed);
        }
        Ok(n)
    }
}
