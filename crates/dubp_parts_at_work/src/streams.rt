ghost use Rattle.std.specs.Prelude.{◌≡◌, ◌<◌, ℕ, List, ◌++◌, length, ◌⊎◌, IsTrue, IfOk, OnOk, OnErr};
ghost use Rattle.std.specs.Io.KnownBytes.{Appends, Consumes, IsAtEnd};
ghost use Rattle.dubp_outside.specs.Causes.{Rose};

use dubp_outside::{
    Failed, MemSink, MemSource, NoMemory, PlainSink, PlainSource, ReadSource, Sink, Source,
    WriteSink, write_whole,
};
use std::alloc::{AllocError, Global};
use std::io;
use std::io::{ErrorKind, PipeReader, PipeWriter, Read, Write};
use std::mem::forget;
use std::test::Fail;

const TEXT: &[u8] = b"one line\nand another\n";

/// Writes what the source has left to the sink, piece by piece, and tells whether the source came to its end.
fn copy_all<S: Source, K: Sink>(
    source: &mut S,
    sink: &mut K,
    piece: &mut [u8],
) -> Result<bool, Failed>
    requires { 0 < length piece.old }
    ensures copied { OnOk result ((bytes : List ℕ)
        × Consumes (S.left source.old) (S.left source.new) bytes
        × Appends (K.held sink.old) (K.held sink.new) bytes) }
    ensures end { IfOk result (λ ended. IsTrue ended → IsAtEnd (S.left source.new)) }
    ensures calm { OnOk result ((S.faults source.new ≡ S.faults source.old)
        × (K.faults sink.new ≡ K.faults sink.old)) }

    ensures part { OnErr result ((front : List ℕ) × (back : List ℕ)
        × Consumes (S.left source.old) (S.left source.new) (front ++ back)
        × Appends (K.held sink.old) (K.held sink.new) front) }
    ensures cause { OnErr result (Rose (S.faults source.old) (S.faults source.new)
        ⊎ Rose (K.faults sink.old) (K.faults sink.new)) }
{
    for _ in 0..u64::MAX {
        let count = source.read(piece)?;
        if count == 0 {
            return Ok(true);
        }
        write_whole(sink, &piece[..count])?;
    }
    Ok(false)
}

/// The sizes of the pieces that are read and written, from one byte to a megabyte.
const SIZES: [usize; 4] = [1, 8, 65_537, LARGEST];

const LARGEST: usize = 1 << 20;

/// Of each call of the reader and of the writer below: whether it succeeds, the count of faults behind it, and the number of
/// the last call that succeeded.
const CALLS: [(bool, u64, u8); 6] = [
    (true, 0, 1),
    (true, 0, 2),
    (false, 1, 2),
    (true, 1, 4),
    (false, 2, 4),
    (true, 2, 6),
];

fn answer(succeeds: bool, count: usize) -> Result<usize, Failed> {
    if succeeds { Ok(count) } else { Err(Failed) }
}

/// A stream whose third and fifth calls are interrupted. Each other read fills the buffer with the call's number, and each other
/// write takes as many bytes as the stream takes at most.
#[derive(Drop)]
struct Interrupted {
    calls: u8,
    most: usize,
    taken: usize,
}

impl Read for Interrupted {
    fn read(&mut self, buf: &mut [u8]) -> io::Result<usize> {
        self.calls = self.calls.wrapping_add(1);
        if self.calls == 3 || self.calls == 5 {
            return Err(io::Error::from(ErrorKind::Interrupted));
        }
        buf.fill(self.calls);
        Ok(buf.len())
    }
}

impl Write for Interrupted {
    fn write(&mut self, buf: &[u8]) -> io::Result<usize> {
        self.calls = self.calls.wrapping_add(1);
        if self.calls == 3 || self.calls == 5 {
            return Err(io::Error::from(ErrorKind::Interrupted));
        }
        let count = buf.len().min(self.most);
        self.taken = self.taken.wrapping_add(count);
        Ok(count)
    }

    fn flush(&mut self) -> io::Result<()> {
        Ok(())
    }
}

/// Such a stream before its first call.
fn stream_that_takes(most: usize) -> Interrupted {
    Interrupted {
        calls: 0,
        most,
        taken: 0,
    }
}

/// Whether the text is copied, and nothing behind it.
fn is_copied(source: &mut PlainSource, sink: &mut PlainSink) -> bool {
    let copied = copy_all(source, sink, &mut [0; 8]) == Ok(true);
    let whole = sink.held() == TEXT && source.left().is_empty();
    let full = sink.write(b"x") == Err(Failed) && sink.write(b"") == Ok(0);
    copied && whole && full && sink.held() == TEXT && sink.faults() == 1
}

#[test]
fn plain_copy(rt: HostRuntime) -> Result<(), Fail> {
    let mut source = PlainSource::new(TEXT.to_vec(rt.alloc())?);
    let mut sink = PlainSink::new(rt.alloc(), TEXT.len())?;
    let good = is_copied(&mut source, &mut sink);
    forget(source);
    forget(sink);
    assert!(rt; good);
    Ok(())
}

/// A copy between sources and sinks in memory, and what it comes to.
struct Row {
    read_fails: &'static [u64],
    room: usize,
    write_fails: &'static [u64],
    copied: Result<bool, Failed>,
    held: &'static [u8],
    faults: (u64, u64),
}

const ROWS: [Row; 4] = [
    Row {
        read_fails: &[],
        room: 21,
        write_fails: &[],
        copied: Ok(true),
        held: b"one line\nand another\n",
        faults: (0, 0),
    },
    Row {
        read_fails: &[2],
        room: 21,
        write_fails: &[],
        copied: Err(Failed),
        held: b"one line\na",
        faults: (1, 0),
    },
    Row {
        read_fails: &[],
        room: 21,
        write_fails: &[3],
        copied: Err(Failed),
        held: b"one line",
        faults: (0, 1),
    },
    Row {
        read_fails: &[],
        room: 7,
        write_fails: &[],
        copied: Err(Failed),
        held: b"one l",
        faults: (0, 1),
    },
];

/// What a copy answers, whether the sink then holds this, and how often the source and the sink have failed.
fn told(
    source: &mut MemSource,
    sink: &mut MemSink,
    held: &[u8],
) -> (Result<bool, Failed>, bool, (u64, u64)) {
    let copied = copy_all(source, sink, &mut [0; 8]);
    let is_held = sink.held() == held;
    (copied, is_held, (source.faults(), sink.faults()))
}

fn sink_of(alloc: Global, row: &Row) -> Result<MemSink, NoMemory> {
    match row.write_fails.to_vec(alloc) {
        Ok(fails) => MemSink::new(alloc, row.room, 3, fails),
        Err(_) => Err(NoMemory),
    }
}

/// A source of the text, in pieces of five bytes, of which these reads fail.
fn source_of(alloc: Global, fails: &[u64]) -> Result<MemSource, NoMemory> {
    let Ok(text) = TEXT.to_vec(alloc) else {
        return Err(NoMemory);
    };
    let Ok(fails) = fails.to_vec(alloc) else {
        forget(text);
        return Err(NoMemory);
    };
    Ok(MemSource::new(text, 5, fails))
}

/// Whether a copy into a sink of the row comes to what the row says.
fn copies_to(alloc: Global, source: &mut MemSource, row: &Row) -> Result<bool, NoMemory> {
    let mut sink = sink_of(alloc, row)?;
    let told = told(source, &mut sink, row.held);
    forget(sink);
    Ok(told == (row.copied, true, row.faults))
}

/// Whether a copy comes to what the row says.
fn is_so(alloc: Global, row: &Row) -> Result<bool, NoMemory> {
    let Ok(mut source) = source_of(alloc, row.read_fails) else {
        return Err(NoMemory);
    };
    let good = copies_to(alloc, &mut source, row);
    forget(source);
    good
}

#[test]
fn copies_with_failing_calls(rt: HostRuntime) {
    for row in &ROWS {
        assert!(rt; is_so(rt.alloc(), row) == Ok(true));
    }
}

/// What three copies answer, of which the first two reads fail, and how many bytes are held behind each.
const AFTER_FAULTS: [(Result<bool, Failed>, usize); 3] = [
    (Err(Failed), 5),
    (Err(Failed), 5),
    (Ok(true), 21),
];

/// Whether two reads fail, and what is read behind them is all.
fn goes_on(alloc: Global, source: &mut MemSource) -> Result<bool, NoMemory> {
    let mut sink = PlainSink::new(alloc, 64)?;
    let mut good = true;
    for (copied, held) in &AFTER_FAULTS {
        let found = copy_all(source, &mut sink, &mut [0; 8]);
        good = good && found == *copied && sink.held().len() == *held;
    }
    good = good && sink.held() == TEXT;
    forget(sink);
    Ok(good)
}

/// Whether a source of which the first two reads fail goes on.
fn goes_on_in_memory(alloc: Global) -> Result<bool, NoMemory> {
    let Ok(mut source) = source_of(alloc, &[1, 2]) else {
        return Err(NoMemory);
    };
    let good = goes_on(alloc, &mut source);
    forget(source);
    good
}

#[test]
fn goes_on_after_a_failed_read(rt: HostRuntime) {
    assert!(rt; goes_on_in_memory(rt.alloc()) == Ok(true));
}

/// Whether the text is written into the pipe, and neither stream fails.
fn is_written(writer: PipeWriter) -> bool {
    let mut source = ReadSource::new(TEXT);
    let mut sink = WriteSink::new(writer);
    let copied = copy_all(&mut source, &mut sink, &mut [0; 8]) == Ok(true);
    let calm = source.faults() == 0 && sink.faults() == 0;
    drop(sink);
    copied && calm
}

/// Whether the text, and nothing else, is read out of the pipe, and neither stream fails.
fn is_read(reader: PipeReader, sink: &mut PlainSink) -> bool {
    let mut source = ReadSource::new(reader);
    let copied = copy_all(&mut source, sink, &mut [0; 8]) == Ok(true);
    let calm = source.faults() == 0 && sink.faults() == 0;
    drop(source);
    copied && calm && sink.held() == TEXT
}

#[test]
fn copies_over_streams(rt: HostRuntime) -> Result<(), Fail> {
    let (reader, writer) = io::pipe(&rt)?;
    let written = is_written(writer);
    let mut sink = PlainSink::new(rt.alloc(), 64)?;
    let read = is_read(reader, &mut sink);
    forget(sink);
    assert!(rt; written && read);
    Ok(())
}

/// Whether each read answers and fills the buffer as it should.
fn reads_go_on(source: &mut ReadSource<Interrupted>, buffer: &mut [u8]) -> bool {
    let mut good = true;
    for (succeeds, faults, filled) in &CALLS {
        let expected = answer(*succeeds, buffer.len().min(65_536));
        let found = source.read(buffer);
        good = good
            && found == expected
            && source.faults() == *faults
            && buffer.first() == Some(filled);
    }
    good
}

/// Whether each write answers as it should.
fn writes_go_on(sink: &mut WriteSink<&mut Interrupted>, piece: &[u8]) -> bool {
    let mut good = true;
    for (succeeds, faults, _) in &CALLS {
        let found = sink.write(piece);
        good = good && found == answer(*succeeds, piece.len()) && sink.faults() == *faults;
    }
    good
}

/// Whether the piece is taken by each write that is not interrupted.
fn is_taken(piece: &[u8]) -> bool {
    let mut writer = stream_that_takes(usize::MAX);
    let good = writes_go_on(&mut WriteSink::new(&mut writer), piece);
    good && writer.taken / 4 == piece.len()
}

/// Whether reads into so much of the buffer and writes of it go on behind a fault.
fn go_on(buffer: &mut [u8], size: usize) -> bool {
    if size > buffer.len() {
        return false;
    }
    reads_go_on(
        &mut ReadSource::new(stream_that_takes(0)),
        &mut buffer[..size],
    ) && is_taken(&buffer[..size])
}

/// Whether reads and writes of each size go on behind a fault.
fn all_go_on(buffer: &mut [u8]) -> bool {
    let mut good = true;
    for size in &SIZES {
        good = good && go_on(buffer, *size);
    }
    good
}

fn zeros(alloc: Global, count: usize) -> Result<Vec<u8>, AllocError> {
    vec![in alloc; 0; count]
}

#[test]
fn streams_go_on_after_a_fault(rt: HostRuntime) -> Result<(), Fail> {
    let mut buffer = zeros(rt.alloc(), LARGEST)?;
    let good = all_go_on(&mut buffer);
    forget(buffer);
    assert!(rt; good);
    Ok(())
}

/// Whether a stream that takes no byte is written none without a fault, and fails at a text.
fn fails_at_a_text(sink: &mut WriteSink<Interrupted>) -> bool {
    let none = sink.write(b"") == Ok(0) && sink.faults() == 0;
    none && write_whole(sink, TEXT) == Err(Failed) && sink.faults() == 1
}

#[test]
fn a_full_stream_fails(rt: HostRuntime) {
    assert!(rt; fails_at_a_text(&mut WriteSink::new(stream_that_takes(0))));
}
