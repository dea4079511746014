// A source and a sink in memory that give and take whole pieces.
ghost use Rattle.std.specs.Prelude.{◌≡◌, ◌↔◌, true, false, ◌+◌, ◌<◌, [], ◌++◌, Some, Ok, min, length, drop, IfOk, OnOk, OnErr, IsErr};
ghost use Rattle.std.specs.Io.{ReadsAtMost, WritesAtMost};
ghost use Rattle.std.specs.Io.KnownBytes.{ReadConsumes, WriteAppends};
ghost use Rattle.dubp_outside.specs.Causes.{HasCause, raised_count};

use crate::errors::{Failed, NoMemory};
use crate::held::Held;
use crate::sink::Sink;
use crate::source::Source;
use crate::unread::Unread;
use std::alloc::Global;
use std::marker::Model;

/// A source over bytes in memory, which gives as many as there is room for and never fails.
///
/// Contracts see it as the bytes that are left.
#[derive(Drop)]
pub struct PlainSource {
    unread: Unread,
}

impl Model for PlainSource {
    ghost use Rattle.std.specs.Prelude.{ℕ, List};

    ghost Value = { List ℕ };

    ghost view = { λ s. s.unread };
}

impl PlainSource {
    /// A source with these bytes left. It takes no memory.
    pub fn new(bytes: Vec<u8>) -> PlainSource
        ensures { result ≡ bytes.items }
    {
        PlainSource {
            unread: Unread::new(bytes),
        }
    }

    /// The bytes that are left.
    pub fn left(&self) -> &[u8]
        ensures { result.now ≡ self.now }
    {
        self.unread.as_slice()
    }
}

impl Source for PlainSource {
    ghost left = { λ left. Some left };

    ghost faults = { λ _. 0 };

    ghost failing = { λ _. false };

    fn read(&mut self, buf: &mut [u8]) -> Result<usize, Failed>
        ensures bound { ReadsAtMost result buf.new }
        ensures bytes { ReadConsumes (Some self.old) (Some self.new) result buf.new }
        ensures rest { IfOk result (λ n. drop n buf.new ≡ drop n buf.old) }
        ensures untouched { OnErr result (buf.new ≡ buf.old) }
        ensures cause { HasCause 0 0 result }
        ensures fine { OnOk result (false ≡ false) }
        ensures failing { OnErr result (false ≡ true) }

        // What is given, and what is left then.
        ensures count { result ≡ Ok (min (length buf.old) (length self.old)) }
        ensures left { IfOk result (λ n. self.new ≡ drop n self.old) }
    {
        let most = buf.len();
        Ok(self.unread.give(buf, most))
    }
}

/// A sink in memory with room for a number of bytes, which takes a piece that fits whole.
///
/// Where a piece does not fit the room that is left, its count of faults rises and it takes nothing. Its room was taken
/// when it was made, so that writing takes no memory.
#[derive(Drop)]
pub struct PlainSink {
    held: Held,
    faults: u64,
}

impl Model for PlainSink {
    ghost use Rattle.dubp_outside.specs.Memory.{PlainSinkState};

    ghost Value = { PlainSinkState };

    ghost view = { λ s. record {
      room = s.held.room;
      held = s.held.bytes;
      faults = s.faults;
      capacity = s.held.capacity;
    } };
}

impl PlainSink {
    /// An empty sink with room for `most` bytes, which it takes at once. `NoMemory` where there is no room for them.
    pub fn new(alloc: Global, most: usize) -> Result<PlainSink, NoMemory>
        ensures { IfOk result (λ sink. sink ≡ record {
          room = most;
          held = [];
          faults = 0;
          capacity = sink.capacity;
        }) }
    {
        Ok(PlainSink {
            held: Held::new(alloc, most)?,
            faults: 0,
        })
    }

    /// The bytes that it holds.
    pub fn held(&self) -> &[u8]
        ensures { result.now ≡ self.now.held }
    {
        self.held.as_slice()
    }

    /// How often it has failed.
    pub fn faults(&self) -> u64
        ensures { result ≡ self.now.faults }
    {
        self.faults
    }
}

impl Sink for PlainSink {
    ghost held = { λ s. Some s.held };

    ghost faults = { λ s. s.faults };

    fn write(&mut self, piece: &[u8]) -> Result<usize, Failed>
        ensures bound { WritesAtMost result piece.now }
        ensures some { IfOk result (λ n. 0 < length piece.now → 0 < n) }
        ensures bytes { WriteAppends (Some self.old.held) (Some self.new.held) result piece.now }
        ensures cause { HasCause self.old.faults self.new.faults result }

        // Exactly when it fails, what is taken, and the sink after the call.
        ensures full { IsErr result ↔ (self.old.room < length self.old.held + length piece.now) }
        ensures count { IfOk result (λ n. n ≡ length piece.now) }
        ensures ok { OnOk result (self.new ≡ record self.old { held = self.old.held ++ piece.now }) }
        ensures err { OnErr result (self.new ≡ record self.old { faults = raised_count self.old.faults }) }
    {
        if piece.len() > self.held.room_left() {
            self.faults = self.faults.saturating_add(1);
            return Err(Failed);
        }
        self.held.append(piece);
        Ok(piece.len())
    }
}
