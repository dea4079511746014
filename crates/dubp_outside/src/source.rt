ghost use Rattle.std.specs.Prelude.{◌≡◌, ℕ, Bool, true, false, List, drop, IfOk, OnErr, OnOk, Option};
ghost use Rattle.std.specs.Io.{ReadsAtMost};
ghost use Rattle.std.specs.Io.KnownBytes.{ReadConsumes};
ghost use Rattle.dubp_outside.specs.Causes.{HasCause};

use crate::errors::Failed;

/// Where bytes come from.
pub trait Source {
    /// The bytes that it has not yet given, where it tells them.
    ghost left: { Self → Option (List ℕ) };

    /// How often it has failed. The count never falls; one that stands at the greatest `u64` stays there.
    ghost faults: { Self → ℕ };

    /// Whether the last read of it failed.
    ghost failing: { Self → Bool };

    /// Puts the next bytes at the front of the buffer, and answers how many they are.
    ///
    /// `Ok(0)` for a buffer that is not empty is the end of input. The rest of the buffer stays as it was. `Failed`
    /// comes only where the count of faults rose by one; then no byte was given, and the whole buffer stays as it was.
    fn read(&mut self, buf: &mut [u8]) -> Result<usize, Failed>
        ensures bound { ReadsAtMost result buf.new }
        ensures bytes { ReadConsumes (left self.old) (left self.new) result buf.new }
        ensures rest { IfOk result (λ n. drop n buf.new ≡ drop n buf.old) }
        ensures untouched { OnErr result (buf.new ≡ buf.old) }
        ensures cause { HasCause (faults self.old) (faults self.new) result }
        ensures fine { OnOk result (failing self.new ≡ false) }
        ensures failing { OnErr result (failing self.new ≡ true) };
}
