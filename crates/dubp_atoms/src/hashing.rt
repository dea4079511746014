ghost use Rattle.std.specs.Prelude.{◌≡◌, ◌++◌, [], List, ℕ};
ghost use Rattle.dubp_atoms.specs.Adding.{Adds};
ghost use Rattle.dubp_atoms.specs.Hashing.{hash_of};

use crate::hash::Hash;
use crate::text_sink::TextSink;
use sha2::{Digest, Sha256};
use std::convert::Infallible;

/// A text that is being hashed, piece after piece, without being kept. It takes no memory.
#[derive(Drop)]
pub struct Hashing {
    hasher: Sha256,
}

impl TextSink for Hashing {
    type Refusal = Infallible;

    ghost has = { λ hashing text. ⟦<Sha256 as Digest>⟧.holds hashing.hasher text };

    fn put(&mut self, piece: &[u8]) -> Result<(), Infallible> {
        self.hasher.update(piece);
        Ok(())
    }
}

impl Hashing {
    /// Nothing so far.
    pub fn new() -> Hashing
        ensures { ⟦<Hashing as TextSink>⟧.has result [] }
    {
        Hashing {
            hasher: Sha256::new(),
        }
    }

    /// The same text so far, to go on apart.
    pub fn copy(&self) -> Hashing
        ensures { (text : List ℕ) → ⟦<Hashing as TextSink>⟧.has self.now text → ⟦<Hashing as TextSink>⟧.has result text }
    {
        let Ok(hasher) = self.hasher.clone() else {
            return Hashing::new();
        };
        Hashing { hasher }
    }

    /// The SHA-256 of the text.
    pub fn hash(self) -> Hash
        ensures { (text : List ℕ) → ⟦<Hashing as TextSink>⟧.has self text → result ≡ hash_of text }
    {
        Hash::of_digest(&self.hasher.finalize())
    }
}
