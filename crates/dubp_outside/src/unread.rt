ghost use Rattle.std.specs.Prelude.{◌≡◌, ◌++◌, min, length, take, drop};

use crate::copying::copy_front;
use std::marker::Model;

/// Bytes in memory that are given from the front on. Contracts see those that are left.
#[derive(Drop)]
pub struct Unread {
    bytes: Vec<u8>,
    at: usize,
}

impl Model for Unread {
    ghost use Rattle.std.specs.Prelude.{◌≤◌, ℕ, List, length, drop};

    ghost Value = { List ℕ };

    ghost view = { λ u. drop u.at u.bytes.items };

    ghost invariant = { λ u. u.at ≤ length u.bytes.items };
}

impl Unread {
    /// All of these bytes are left.
    pub fn new(bytes: Vec<u8>) -> Unread
        ensures { result ≡ bytes.items }
    {
        Unread { bytes, at: 0 }
    }

    /// The bytes that are left.
    pub fn as_slice(&self) -> &[u8]
        ensures { result.now ≡ self.now }
    {
        &self.bytes[self.at..]
    }

    /// Moves bytes to the front of the buffer, at most `most`, and answers how many.
    pub fn give(&mut self, buf: &mut [u8], most: usize) -> usize
        ensures count { result ≡ min (min most (length buf.old)) (length self.old) }
        ensures given { self.old ≡ take result buf.new ++ self.new }
        ensures left { self.new ≡ drop result self.old }
        ensures rest { drop result buf.new ≡ drop result buf.old }
    {
        let left = self.as_slice();
        let count = most.min(buf.len()).min(left.len());
        copy_front(left, buf, count);
        self.at += count;
        count
    }
}
