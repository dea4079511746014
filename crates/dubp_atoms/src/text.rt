ghost use Rattle.std.specs.Prelude.{◌≡◌, ◌<◌, ◌≤◌, [], ◌∷◌, length, nat_eq};
ghost use Rattle.std.proofs.Common.{rules};
ghost use Rattle.std.specs.Cmp.{partial_order_from_own_ties};
ghost use Rattle.std.specs.Cmp.Lexicographic.{pointwise, slice_cmp};
ghost use Rattle.std.specs.Cmp.Rules.{comparing};
ghost use Rattle.dubp_atoms.specs.Padded.{padded};
ghost use Rattle.std.specs.Ordering.{nat_cmp, as_partial_cmp};

use std::cmp::Ordering;
use std::hash::{Hash, Hasher};
use std::marker::Model;

/// A text of at most `CAP` bytes, which lies in the value itself.
#[derive(Clone, Copy, Debug)]
pub struct Text<const CAP: usize> {
    bytes: [u8; CAP],
    len: u8,
}

impl<const CAP: usize> Model for Text<CAP> {
    ghost use Rattle.std.specs.Prelude.{ℕ, List, take, length};
    ghost use Rattle.dubp_atoms.specs.Padded.{IsPadded, padded, array_of_text, length_padded};

    ghost Value = { List ℕ };

    ghost view = { λ t. take t.len t.bytes };

    ghost invariant = { λ t. IsPadded CAP t.bytes t.len };

    ghost inverse = { λ s. record { bytes = padded CAP s; len = length s } };

    ghost inverse_ok = { λ a h. Prim.rw (array_of_text CAP a.bytes a.len h, length_padded CAP a.bytes a.len h) };
}

impl<const CAP: usize> Text<CAP> {
    /// The text, which fits.
    pub fn of(text: &[u8]) -> Text<CAP>
        requires { (CAP < 256) × (length text.now ≤ CAP) }
        ensures { result ≡ text.now }
    {
        let mut bytes = [0u8; CAP];
        bytes[..text.len()].copy_from_slice(text);
        Text {
            bytes,
            len: text.len() as u8,
        }
    }

    /// Its bytes.
    pub fn as_bytes(&self) -> &[u8]
        ensures { result.now ≡ self.now }
    {
        &self.bytes[..self.len as usize]
    }

    /// Its bytes with zeros behind them, `SIZE` bytes in all.
    pub fn with_zeros<const SIZE: usize>(&self) -> [u8; SIZE]
        requires { CAP ≤ SIZE }
        ensures { result ≡ padded SIZE self.now }
    {
        let mut bytes = [0u8; SIZE];
        bytes[..CAP].copy_from_slice(&self.bytes);
        bytes
    }
}

impl<const CAP: usize> PartialEq for Text<CAP> {
    ghost eq = { pointwise nat_eq };

    ghost laws = { Prim.search (comparing, rules) };

    fn eq(&self, other: &Self) -> bool {
        self.len == other.len && self.bytes == other.bytes
    }
}

impl<const CAP: usize> Eq for Text<CAP> {
    ghost laws = { Prim.search (comparing, rules) };
}

impl<const CAP: usize> PartialOrd for Text<CAP> {
    ghost partial_cmp = { as_partial_cmp (slice_cmp nat_cmp) };

    ghost laws = { partial_order_from_own_ties (Prim.search (comparing, rules)) (Prim.search (comparing, rules)) };

    fn partial_cmp(&self, other: &Self) -> Option<Ordering> {
        Some(self.cmp(other))
    }
}

impl<const CAP: usize> Ord for Text<CAP> {
    ghost cmp = { slice_cmp nat_cmp };

    ghost total = { Prim.search (comparing, rules) };

    ghost matches_partial_cmp = { Prim.search (comparing, rules) };

    ghost matches_eq = { Prim.search (comparing, rules) };

    fn cmp(&self, other: &Self) -> Ordering {
        self.bytes.cmp(&other.bytes).then(self.len.cmp(&other.len))
    }
}

impl<const CAP: usize> Hash for Text<CAP> {
    ghost hash_input = { λ t. padded CAP t ∷ [] };

    ghost respects_eq = { Prim.search (comparing, rules) };

    fn hash<H: Hasher>(&self, state: &mut H) {
        state.write(&self.bytes);
    }
}
