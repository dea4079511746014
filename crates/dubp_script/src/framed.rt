ghost use Rattle.std.specs.Prelude.{◌≡◌, IfSome, Some};
ghost use Rattle.dubp_replay.specs.Turns.{frame_of};
ghost use Rattle.dubp_script.specs.Framed.{framed_command, framed_len, framed_of};
ghost use Rattle.dubp_script.specs.Spelling.{Says};
ghost use Rattle.dubp_script.specs.declared.framed.Framed.{Framed as FramedValue};

use crate::words::number_behind;
use dubp_replay::Command;

/// A command behind whose line a frame follows, and how many raw bytes that has.
#[derive(Clone, Copy, Debug, PartialEq, Eq)]
pub enum Framed {
    Block { len: u64 },
    Offer { len: u64 },
    Pend { len: u64 },
}

impl Framed {
    /// How many raw bytes follow.
    pub fn len(&self) -> u64
        ensures { result ≡ framed_len self.now }
    {
        match self {
            Framed::Block { len } => *len,
            Framed::Offer { len } => *len,
            Framed::Pend { len } => *len,
        }
    }

    /// The command.
    pub fn command(&self) -> Command
        ensures is { result ≡ framed_command self.now }
        ensures frame { frame_of result ≡ Some (framed_len self.now) }
    {
        match self {
            Framed::Block { len } => Command::Block { len: *len },
            Framed::Offer { len } => Command::Offer { len: *len },
            Framed::Pend { len } => Command::Pend { len: *len },
        }
    }
}

/// The command that this line is, where a frame follows it. None exactly where none follows. It takes no memory, and looks at the word and
/// the number alone.
pub fn read_framed(line: &[u8]) -> Option<Framed>
    ensures found { IfSome result (λ f. Says line.now (framed_command f)) }
    ensures only { (f : FramedValue) → Says line.now (framed_command f) → result ≡ Some f }
{
    head_of(line)
}

#[tactic(auto, unfolding(crate::specs::Framed::framed_of))]
fn head_of(line: &[u8]) -> Option<Framed>
    ensures { result ≡ framed_of line.now }
{
    if let Some(len) = number_behind(b"BLOCK ", line) {
        return Some(Framed::Block { len });
    }
    if let Some(len) = number_behind(b"OFFER ", line) {
        return Some(Framed::Offer { len });
    }
    let len = number_behind(b"PEND ", line)?;
    Some(Framed::Pend { len })
}
