ghost use Rattle.std.specs.Prelude.{◌<◌, ℕ, List, length, IfOk, OnOk, OnErr, Option};
ghost use Rattle.std.specs.Io.{WritesAtMost};
ghost use Rattle.std.specs.Io.KnownBytes.{WriteAppends, Appends};
ghost use Rattle.dubp_outside.specs.Causes.{HasCause};
ghost use Rattle.dubp_outside.specs.Parts.{AppendsPart};

use crate::errors::Failed;

/// Where bytes go to.
pub trait Sink {
    /// The bytes that it has taken so far, where it tells them.
    ghost held: { Self → Option (List ℕ) };

    /// How often it has failed. The count never falls; one that stands at the greatest `u64` stays there.
    ghost faults: { Self → ℕ };

    /// Takes the first bytes of the piece, at least one where there is one, and answers how many they are.
    ///
    /// `Failed` comes only where the count of faults rose by one; then no byte was taken.
    fn write(&mut self, piece: &[u8]) -> Result<usize, Failed>
        ensures bound { WritesAtMost result piece.now }
        ensures some { IfOk result (λ n. 0 < length piece.now → 0 < n) }
        ensures bytes { WriteAppends (held self.old) (held self.new) result piece.now }
        ensures cause { HasCause (faults self.old) (faults self.new) result };
}

/// Writes the whole piece, in as many calls as the sink needs. It takes no memory.
///
/// `Failed` comes where one of these calls fails; then the sink took a front of the piece and not the whole.
pub fn write_whole<K: Sink>(sink: &mut K, piece: &[u8]) -> Result<(), Failed>
    ensures whole { OnOk result (Appends (K.held sink.old) (K.held sink.new) piece.now) }
    ensures part { OnErr result (AppendsPart (K.held sink.old) (K.held sink.new) piece.now) }
    ensures cause { HasCause (K.faults sink.old) (K.faults sink.new) result }
{
    let mut rest = piece;
    while !rest.is_empty() {
        let count = sink.write(rest)?;
        rest = &rest[count..];
    }
    Ok(())
}
