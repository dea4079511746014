ghost use Rattle.std.specs.Prelude.{◌≡◌, ◌≤◌, ◌+◌, ◌++◌, [], length, OnOk, OnErr};
ghost use Rattle.std.specs.Io.KnownBytes.{Appends};
ghost use Rattle.dubp_outside.specs.Causes.{HasCause};
ghost use Rattle.dubp_outside.specs.Parts.{AppendsPart};
ghost use Rattle.dubp_entries.specs.Gathering.{Passes, most_gathered};

use dubp_outside::{Failed, Sink, write_whole};
use std::marker::Model;

/// How many bytes are gathered at most.
const ROOM: usize = 65_536;

/// Answers that are still to be written, one behind another: at most 64 KiB of them.
///
/// Contracts see them as the list of their bytes. It takes no memory.
#[derive(Drop)]
pub struct Gathered {
    bytes: [u8; ROOM],
    len: usize,
}

impl Model for Gathered {
    ghost use Rattle.std.specs.Prelude.{◌≤◌, List, ℕ, take};

    ghost Value = { List ℕ };

    ghost view = { λ g. take g.len g.bytes };

    ghost invariant = { λ g. g.len ≤ 65536 };
}

impl Gathered {
    /// No answer.
    pub fn new() -> Gathered
        ensures { result ≡ [] }
    {
        Gathered {
            bytes: [0; ROOM],
            len: 0,
        }
    }

    /// The bytes of the answers.
    fn as_slice(&self) -> &[u8]
        ensures { result.now ≡ self.now }
    {
        &self.bytes[..self.len]
    }

    /// How many bytes more can be gathered.
    fn room_left(&self) -> usize
        ensures { result + length self.now ≡ most_gathered }
    {
        ROOM - self.len
    }

    /// Adds an answer.
    fn add(&mut self, answer: &[u8])
        requires { length self.old + length answer.now ≤ most_gathered }
        ensures { self.new ≡ self.old ++ answer.now }
    {
        let end = self.len + answer.len();
        self.bytes[self.len..end].copy_from_slice(answer);
        self.len = end;
    }

    /// Lets go of all answers.
    fn clear(&mut self)
        ensures { self.new ≡ [] }
    {
        self.len = 0;
    }
}

/// Writes what was gathered, and lets go of it. `Failed` where it was not written whole. It takes no memory.
pub fn flush<K: Sink>(sink: &mut K, gathered: &mut Gathered) -> Result<(), Failed>
    ensures written { OnOk result (Appends (K.held sink.old) (K.held sink.new) gathered.old) }
    ensures nothing { OnOk result (gathered.new ≡ []) }
    ensures part { OnErr result (AppendsPart (K.held sink.old) (K.held sink.new) gathered.old) }
    ensures cause { HasCause (K.faults sink.old) (K.faults sink.new) result }
{
    if let Err(failed) = write_whole(sink, gathered.as_slice()) {
        return Err(failed);
    }
    gathered.clear();
    Ok(())
}

/// Gathers an answer. Where there is no room for it behind those that were gathered, they are written first; and so is the answer where it is
/// longer than 64 KiB. `Failed` where one of them was not written whole. It takes no memory.
pub fn keep<K: Sink>(sink: &mut K, gathered: &mut Gathered, answer: &[u8]) -> Result<(), Failed>
    ensures passes { OnOk result (Passes (K.held sink.old) (K.held sink.new) gathered.old answer.now gathered.new) }
    ensures part { OnErr result (AppendsPart (K.held sink.old) (K.held sink.new) (gathered.old ++ answer.now)) }
    ensures cause { HasCause (K.faults sink.old) (K.faults sink.new) result }
{
    if answer.len() <= gathered.room_left() {
        gathered.add(answer);
        return Ok(());
    }
    if let Err(failed) = flush(sink, gathered) {
        return Err(failed);
    }
    if answer.len() > ROOM {
        return write_whole(sink, answer);
    }
    gathered.add(answer);
    Ok(())
}
