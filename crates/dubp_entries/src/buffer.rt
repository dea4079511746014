ghost use Rattle.std.specs.Prelude.{◌≡◌, ◌+◌, ◌-◌, ◌<◌, ◌≤◌, ◌++◌, [], List, ℕ, true, length, take, drop, IfOk, OnErr};
ghost use Rattle.std.specs.Io.KnownBytes.{Consumes, Keeps, IsAtEnd};
ghost use Rattle.dubp_outside.specs.Causes.{HasCause};
ghost use Rattle.dubp_entries.specs.Reading.{most_at_hand};

use dubp_outside::{Failed, Source};
use std::alloc::{AllocError, Global};
use std::marker::Model;

/// The most that one read takes.
const PIECE: usize = 65_536;

/// Room for the longest frame with the line that heads it, and for a piece more.
const ROOM: usize = 1_048_600 + PIECE;

/// The buffer of the input: the bytes at hand, which were read and not yet answered.
///
/// Contracts see them as a list. Its room is taken once, when it is made.
#[derive(Drop)]
pub struct Buffer {
    bytes: Vec<u8>,
    len: usize,
}

impl Model for Buffer {
    ghost use Rattle.std.specs.Prelude.{◌≡◌, ◌≤◌, List, ℕ, length, take};

    ghost Value = { List ℕ };

    ghost view = { λ h. take h.len h.bytes.items };

    ghost invariant = { λ h. (length h.bytes.items ≡ 1114136) × (h.len ≤ 1114136) };
}

impl Buffer {
    /// Room for the longest frame and a piece more, with nothing at hand.
    pub fn new(alloc: Global) -> Result<Buffer, AllocError>
        ensures { IfOk result (λ h. h ≡ []) }
    {
        let bytes = vec![in alloc; 0; ROOM]?;
        Ok(Buffer { bytes, len: 0 })
    }

    /// The bytes at hand.
    pub fn bytes(&self) -> &[u8]
        ensures { result.now ≡ self.now }
    {
        &self.bytes[..self.len]
    }

    /// Keeps the last of them.
    pub fn keep_last(&mut self, left: usize)
        requires { left ≤ length self.old }
        ensures { self.new ≡ drop (length self.old - left) self.old }
    {
        let from = self.len - left;
        if from > 0 {
            move_front(self.bytes.as_mut_slice(), from, self.len);
        }
        self.len = left;
    }

    /// Reads some more behind them, at most `most`. None come at the end of the input.
    pub fn read_from<S: Source>(&mut self, source: &mut S, most: u64) -> Result<usize, Failed>
        requires room { length self.old ≤ most_at_hand }
        requires some { 0 < most }
        ensures given { IfOk result (λ n. (piece : List ℕ) × (length piece ≡ n) × (self.new ≡ self.old ++ piece) × Consumes (S.left source.old) (S.left source.new) piece) }
        ensures end { IfOk result (λ n. n ≡ 0 → IsAtEnd (S.left source.new)) }
        ensures most { IfOk result (λ n. n ≤ most) }
        ensures failed { OnErr result ((self.new ≡ self.old) × Keeps (S.left source.old) (S.left source.new)) }
        ensures cause { HasCause (S.faults source.old) (S.faults source.new) result }
        ensures failing { OnErr result (S.failing source.new ≡ true) }
    {
        let size = piece_size(most);
        let at = self.len;
        match read_into(source, self.bytes.as_mut_slice(), at, size) {
            Ok(count) => {
                self.len = at + count;
                Ok(count)
            }
            Err(failed) => Err(failed),
        }
    }
}

fn piece_size(most: u64) -> usize
    requires { 0 < most }
    ensures some { 0 < result }
    ensures most { result ≤ most }
    ensures piece { result ≤ 65536 }
{
    if most < PIECE as u64 {
        most as usize
    } else {
        PIECE
    }
}

fn move_front(buffer: &mut [u8], from: usize, to: usize)
    requires order { from ≤ to }
    requires within { to ≤ length buffer.old }
    ensures { take (to - from) buffer.new ≡ drop from (take to buffer.old) }
{
    buffer.copy_within(from..to, 0);
}

fn read_into<S: Source>(
    source: &mut S,
    buffer: &mut [u8],
    at: usize,
    size: usize,
) -> Result<usize, Failed>
    requires within { at + size ≤ length buffer.old }
    requires some { 0 < size }
    ensures front { take at buffer.new ≡ take at buffer.old }
    ensures bound { IfOk result (λ n. n ≤ size) }
    ensures given { IfOk result (λ n. Consumes (S.left source.old) (S.left source.new) (take n (drop at buffer.new))) }
    ensures end { IfOk result (λ n. n ≡ 0 → IsAtEnd (S.left source.new)) }
    ensures failed { OnErr result (Keeps (S.left source.old) (S.left source.new)) }
    ensures cause { HasCause (S.faults source.old) (S.faults source.new) result }
    ensures failing { OnErr result (S.failing source.new ≡ true) }
{
    source.read(&mut buffer[at..at + size])
}
