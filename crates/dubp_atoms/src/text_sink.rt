ghost use Rattle.std.specs.Prelude.{◌≡◌, List, ℕ, OnOk, OnErr};
ghost use Rattle.dubp_atoms.specs.Adding.{Adds, Stays};

use dubp_costs::NoMemory;

/// Where a text is written piece after piece: the bytes of a `Vec`, or a SHA-256 that is computed on the way.
///
/// Contracts say which text a sink has by the relation `has`, so that one writer serves both.
pub trait TextSink: Drop {
    /// Why a piece is not added.
    type Refusal: Drop;

    ghost has: { Self → List ℕ → Type 0 };

    /// Adds a piece behind what it has. Refused, it has what it had.
    fn put(&mut self, piece: &[u8]) -> Result<(), Self::Refusal>
        ensures added { OnOk result (Adds has self.old self.new piece.now) }
        ensures refused { OnErr result (Stays has self.old self.new) };
}

impl TextSink for Vec<u8> {
    type Refusal = NoMemory;

    ghost has = { λ bytes text. bytes.items ≡ text };

    fn put(&mut self, piece: &[u8]) -> Result<(), NoMemory> {
        self.extend_from_slice(piece).map_err(|_| NoMemory)
    }
}
