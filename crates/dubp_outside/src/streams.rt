// A source and a sink over std's readers and writers.
ghost use Rattle.std.specs.Prelude.{◌≡◌, ◌<◌, true, false, length, drop, IfOk, OnOk, OnErr};
ghost use Rattle.std.specs.Io.{ReadsAtMost, WritesAtMost};
ghost use Rattle.std.specs.Io.KnownBytes.{ReadConsumes, WriteAppends};
ghost use Rattle.dubp_outside.specs.Causes.{HasCause};

use crate::copying::copy_front;
use crate::errors::Failed;
use crate::sink::Sink;
use crate::source::Source;
use std::io::{Read, Write};
use std::marker::Model;

/// How many bytes `ReadSource` reads at most in a call.
const PIECE: usize = 65_536;

/// A source over a reader of std. It tells what is left where the reader tells it.
///
/// Each error of the reader, an interrupted read among them, raises the count of faults by one and is `Failed`. A call
/// gives at most 65,536 bytes: it reads them into a piece of its own and copies them, since a reader may write past the
/// bytes that it gives.
#[derive(Drop)]
pub struct ReadSource<R: Read> {
    inner: R,
    piece: [u8; PIECE],
    faults: u64,
    failing: bool,
}

impl<R: Read> Model for ReadSource<R> {
    ghost use Rattle.dubp_outside.specs.Streams.{ReaderState};

    ghost Value = { ReaderState R };

    ghost view = { λ s. record { inner = s.inner; faults = s.faults; failing = s.failing } };
}

impl<R: Read> ReadSource<R> {
    /// A source over the reader. It takes no memory.
    pub fn new(inner: R) -> ReadSource<R>
        ensures { result ≡ record { inner = inner; faults = 0; failing = false } }
    {
        ReadSource {
            inner,
            piece: [0; PIECE],
            faults: 0,
            failing: false,
        }
    }

    /// How often the reader has failed.
    pub fn faults(&self) -> u64
        ensures { result ≡ self.now.faults }
    {
        self.faults
    }
}

impl<R: Read> Source for ReadSource<R> {
    ghost left = { λ s. R.remaining s.inner };

    ghost faults = { λ s. s.faults };

    ghost failing = { λ s. s.failing };

    fn read(&mut self, buf: &mut [u8]) -> Result<usize, Failed>
        ensures bound { ReadsAtMost result buf.new }
        ensures bytes { ReadConsumes (R.remaining self.old.inner) (R.remaining self.new.inner) result buf.new }
        ensures rest { IfOk result (λ n. drop n buf.new ≡ drop n buf.old) }
        ensures untouched { OnErr result (buf.new ≡ buf.old) }
        ensures cause { HasCause self.old.faults self.new.faults result }
        ensures fine { OnOk result (self.new.failing ≡ false) }
        ensures failing { OnErr result (self.new.failing ≡ true) }
    {
        let len = buf.len().min(PIECE);
        // The whole piece is lent before it is cut: so the loans of the piece and of the reader are proved apart.
        let whole = &mut self.piece[..];
        let piece = &mut whole[..len];
        match self.inner.read(piece) {
            Ok(count) => {
                copy_front(piece, buf, count);
                self.failing = false;
                Ok(count)
            }
            Err(_) => {
                self.faults = self.faults.saturating_add(1);
                self.failing = true;
                Err(Failed)
            }
        }
    }
}

/// A sink over a writer of std. It tells what it holds where the writer tells it.
///
/// Each error of the writer, an interrupted write among them, raises the count of faults by one and is `Failed`, and so
/// does a write that takes no byte of a piece that is not empty.
#[derive(Drop)]
pub struct WriteSink<W: Write> {
    inner: W,
    faults: u64,
}

impl<W: Write> Model for WriteSink<W> {
    ghost use Rattle.dubp_outside.specs.Streams.{StreamState};

    ghost Value = { StreamState W };

    ghost view = { λ s. record { inner = s.inner; faults = s.faults } };
}

impl<W: Write> WriteSink<W> {
    /// A sink over the writer. It takes no memory.
    pub fn new(inner: W) -> WriteSink<W>
        ensures { result ≡ record { inner = inner; faults = 0 } }
    {
        WriteSink { inner, faults: 0 }
    }

    /// How often the writer has failed.
    pub fn faults(&self) -> u64
        ensures { result ≡ self.now.faults }
    {
        self.faults
    }
}

impl<W: Write> Sink for WriteSink<W> {
    ghost held = { λ s. W.contents s.inner };

    ghost faults = { λ s. s.faults };

    fn write(&mut self, piece: &[u8]) -> Result<usize, Failed>
        ensures bound { WritesAtMost result piece.now }
        ensures some { IfOk result (λ n. 0 < length piece.now → 0 < n) }
        ensures bytes { WriteAppends (W.contents self.old.inner) (W.contents self.new.inner) result piece.now }
        ensures cause { HasCause self.old.faults self.new.faults result }
    {
        match self.inner.write(piece) {
            Ok(count) if count > 0 || piece.is_empty() => Ok(count),
            _ => {
                self.faults = self.faults.saturating_add(1);
                Err(Failed)
            }
        }
    }
}
