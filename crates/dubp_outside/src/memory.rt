// A source and a sink in memory that give and take small pieces, and fail in the calls that they are told.
ghost use Rattle.std.specs.Prelude.{◌≡◌, ◌↔◌, true, false, ◌≤◌, ◌<◌, [], ◌++◌, Some, length, take, drop, Contains, IsErr, IfOk, OnErr, OnOk};
ghost use Rattle.std.specs.Io.{ReadsAtMost, WritesAtMost};
ghost use Rattle.std.specs.Io.KnownBytes.{ReadConsumes, WriteAppends};
ghost use Rattle.dubp_outside.specs.Causes.{HasCause, raised_count};
ghost use Rattle.dubp_outside.specs.Memory.{FailsAt, given_count, next_call, taken_count};

use crate::errors::{Failed, NoMemory};
use crate::held::Held;
use crate::schedule::Schedule;
use crate::sink::Sink;
use crate::source::Source;
use crate::unread::Unread;
use std::alloc::Global;
use std::marker::Model;

/// A source over bytes in memory, which gives at most `most` bytes a call and fails in the calls that it is told.
#[derive(Drop)]
pub struct MemSource {
    unread: Unread,
    most: usize,
    schedule: Schedule,
    faults: u64,
    failing: bool,
}

impl Model for MemSource {
    ghost use Rattle.std.specs.Prelude.{◌<◌};
    ghost use Rattle.dubp_outside.specs.Memory.{MemSourceState};

    ghost Value = { MemSourceState };

    ghost view = { λ s. record {
      left = s.unread;
      most = s.most;
      fails = s.schedule.fails;
      calls = s.schedule.calls;
      faults = s.faults;
      failing = s.failing;
    } };

    ghost invariant = { λ s. 0 < s.most };
}

impl MemSource {
    /// A source with these bytes left, which gives at most `most` of them a call.
    ///
    /// It fails exactly in the calls of `read` whose numbers stand in `fails`; the first call has the number 0. It
    /// takes no memory.
    pub fn new(bytes: Vec<u8>, most: usize, fails: Vec<u64>) -> MemSource
        requires { 1 ≤ most }
        ensures { result ≡ record { left = bytes.items; most = most; fails = fails.items; calls = 0; faults = 0; failing = false } }
    {
        MemSource {
            unread: Unread::new(bytes),
            most,
            schedule: Schedule::new(fails),
            faults: 0,
            failing: false,
        }
    }

    /// The bytes that are left.
    pub fn left(&self) -> &[u8]
        ensures { result.now ≡ self.now.left }
    {
        self.unread.as_slice()
    }

    /// How often it has failed.
    pub fn faults(&self) -> u64
        ensures { result ≡ self.now.faults }
    {
        self.faults
    }
}

impl Source for MemSource {
    ghost left = { λ s. Some s.left };

    ghost faults = { λ s. s.faults };

    ghost failing = { λ s. s.failing };

    fn read(&mut self, buf: &mut [u8]) -> Result<usize, Failed>
        ensures bound { ReadsAtMost result buf.new }
        ensures bytes { ReadConsumes (Some self.old.left) (Some self.new.left) result buf.new }
        ensures rest { IfOk result (λ n. drop n buf.new ≡ drop n buf.old) }
        ensures untouched { OnErr result (buf.new ≡ buf.old) }
        ensures cause { HasCause self.old.faults self.new.faults result }
        ensures fine { OnOk result (self.new.failing ≡ false) }
        ensures failing { OnErr result (self.new.failing ≡ true) }

        // Exactly when it fails, how many bytes it gives, and the source after the call.
        ensures fails { IsErr result ↔ Contains self.old.fails self.old.calls }
        ensures count { IfOk result (λ n. n ≡ given_count self.old (length buf.old)) }
        ensures ok { IfOk result (λ n. self.new ≡ record self.old {
          left = drop n self.old.left;
          calls = next_call self.old.calls;
          failing = false;
        }) }
        ensures err { OnErr result (self.new ≡ record self.old {
          calls = next_call self.old.calls;
          faults = raised_count self.old.faults;
          failing = true;
        }) }
    {
        self.failing = self.schedule.next_fails();
        if self.failing {
            self.faults = self.faults.saturating_add(1);
            return Err(Failed);
        }
        Ok(self.unread.give(buf, self.most))
    }
}

/// A sink in memory with room for a number of bytes, which takes at most `most` of a piece and fails in the calls
/// that it is told.
///
/// It fails as well where the bytes that a call would take do not fit the room that is left. Its room was taken when it
/// was made, so that writing takes no memory.
#[derive(Drop)]
pub struct MemSink {
    held: Held,
    most: usize,
    schedule: Schedule,
    faults: u64,
}

impl Model for MemSink {
    ghost use Rattle.std.specs.Prelude.{◌<◌};
    ghost use Rattle.dubp_outside.specs.Memory.{MemSinkState};

    ghost Value = { MemSinkState };

    ghost view = { λ s. record {
      room = s.held.room;
      held = s.held.bytes;
      most = s.most;
      fails = s.schedule.fails;
      calls = s.schedule.calls;
      faults = s.faults;
      capacity = s.held.capacity;
    } };

    ghost invariant = { λ s. 0 < s.most };
}

impl MemSink {
    /// An empty sink with room for `room` bytes, which it takes at once, and which takes at most `most` bytes a call.
    ///
    /// It fails exactly in the calls of `write` whose numbers stand in `fails`, and where the bytes that the call
    /// would take do not fit; the first call has the number 0. `NoMemory` where there is no room for `room` bytes.
    pub fn new(
        alloc: Global,
        room: usize,
        most: usize,
        fails: Vec<u64>,
    ) -> Result<MemSink, NoMemory>
        requires { 1 ≤ most }
        ensures { IfOk result (λ sink. sink ≡ record {
          room = room;
          held = [];
          most = most;
          fails = fails.items;
          calls = 0;
          faults = 0;
          capacity = sink.capacity;
        }) }
    {
        Ok(MemSink {
            held: Held::new(alloc, room)?,
            most,
            schedule: Schedule::new(fails),
            faults: 0,
        })
    }

    /// The bytes that it holds.
    pub fn held(&self) -> &[u8]
        ensures { result.now ≡ self.now.held }
    {
        self.held.as_slice()
    }

    /// How often it has failed.
    pub fn faults(&self) -> u64
        ensures { result ≡ self.now.faults }
    {
        self.faults
    }
}

impl Sink for MemSink {
    ghost held = { λ s. Some s.held };

    ghost faults = { λ s. s.faults };

    fn write(&mut self, piece: &[u8]) -> Result<usize, Failed>
        ensures bound { WritesAtMost result piece.now }
        ensures some { IfOk result (λ n. 0 < length piece.now → 0 < n) }
        ensures bytes { WriteAppends (Some self.old.held) (Some self.new.held) result piece.now }
        ensures cause { HasCause self.old.faults self.new.faults result }

        // Exactly when it fails, how many bytes it takes, and the sink after the call.
        ensures fails { IsErr result ↔ FailsAt self.old piece.now }
        ensures count { IfOk result (λ n. n ≡ taken_count self.old piece.now) }
        ensures ok { IfOk result (λ n. self.new ≡ record self.old {
          held = self.old.held ++ take n piece.now;
          calls = next_call self.old.calls;
        }) }
        ensures err { OnErr result (self.new ≡ record self.old {
          calls = next_call self.old.calls;
          faults = raised_count self.old.faults;
        }) }
    {
        let listed = self.schedule.next_fails();
        let count = self.most.min(piece.len());
        if listed || count > self.held.room_left() {
            self.faults = self.faults.saturating_add(1);
            return Err(Failed);
        }
        self.held.append(&piece[..count]);
        Ok(count)
    }
}
