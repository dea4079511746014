ghost use Rattle.std.specs.Prelude.{[], ◌∷◌};
ghost use Rattle.std.proofs.Common.{rules};
ghost use Rattle.std.specs.Cmp.Rules.{comparing};
ghost use Rattle.dubp_atoms.specs.Padded.{padded};

use dubp_atoms::{Hash, Key, Sig};
use std::hash::{Hash as Hashable, Hasher};
use std::marker::Model;

/// A verdict as it is kept.
#[derive(Clone, Copy, Debug, PartialEq, Eq)]
pub struct Entry {
    pub key: Key,
    pub hash: Hash,
    pub sig: Sig,
}

impl Model for Entry {
    ghost use Rattle.dubp_verdict.specs.Verdicts.{Verdict};

    ghost Value = { Verdict };

    ghost view = { λ e. record { key = e.key; hash = e.hash; sig = e.sig } };

    ghost inverse = { λ v. record { key = v.key; hash = v.hash; sig = v.sig } };
}

// The texts of 64 and of 88 bytes go first and the key's 48 bytes last, which are 25 whole words of eight bytes for the hasher.
impl Hashable for Entry {
    ghost hash_input = { λ e. padded 64 e.hash ∷ padded 88 e.sig ∷ padded 48 e.key ∷ [] };

    ghost respects_eq = { Prim.search (comparing, rules) };

    fn hash<H: Hasher>(&self, state: &mut H) {
        self.hash.hash(state);
        self.sig.hash(state);
        self.key.hash(state);
    }
}
