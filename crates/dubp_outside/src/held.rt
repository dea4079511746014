ghost use Rattle.std.specs.Prelude.{◌≡◌, ◌+◌, ◌-◌, ◌≤◌, [], ◌++◌, IfOk, length};

use crate::copying::copy_behind;
use crate::errors::NoMemory;
use std::alloc::Global;
use std::marker::Model;

/// Bytes in memory, at most as many as there is room for. The room was taken when it was made.
///
/// Contracts see the number of bytes that it has room for, `room`, those that it holds, `bytes`, and how many fit the memory
/// that it took, `capacity`.
#[derive(Drop)]
pub struct Held {
    // As long as the room, of which the first bytes are held.
    whole: Vec<u8>,
    len: usize,
}

impl Model for Held {
    ghost use Rattle.std.specs.Prelude.{◌≤◌, take, vec_capacity, vec_len};
    ghost use Rattle.dubp_outside.specs.Memory.{HeldState};

    ghost Value = { HeldState };

    ghost view = { λ h. record {
      room = vec_len h.whole;
      bytes = take h.len h.whole.items;
      capacity = vec_capacity h.whole;
    } };

    ghost invariant = { λ h. h.len ≤ vec_len h.whole };
}

impl Held {
    /// No bytes, and room for `room`. `NoMemory` where there is no memory for as many.
    pub fn new(alloc: Global, room: usize) -> Result<Held, NoMemory>
        ensures room { IfOk result (λ held. held.room ≡ room) }
        ensures bytes { IfOk result (λ held. held.bytes ≡ []) }
    {
        let whole = vec![in alloc; 0; room].map_err(|_| NoMemory)?;
        Ok(Held { whole, len: 0 })
    }

    /// The bytes that it holds. It takes no memory.
    pub fn as_slice(&self) -> &[u8]
        ensures { result.now ≡ self.now.bytes }
    {
        &self.whole[..self.len]
    }

    /// For how many bytes more it has room. It takes no memory.
    pub fn room_left(&self) -> usize
        ensures left { result ≡ self.now.room - length self.now.bytes }
        ensures within { length self.now.bytes ≤ self.now.room }
    {
        self.whole.len() - self.len
    }

    /// Holds these bytes too, for which there is room. It takes no memory.
    pub fn append(&mut self, piece: &[u8])
        requires { length self.old.bytes + length piece.now ≤ self.old.room }
        ensures { self.new ≡ record self.old { bytes = self.old.bytes ++ piece.now } }
    {
        copy_behind(piece, &mut self.whole, self.len);
        self.len += piece.len();
    }
}
