ghost use Rattle.std.specs.Prelude.{◌≡◌, ◌+◌, ◌≤◌, [], ◌∷◌, ◌++◌, length, true};
ghost use Rattle.std.proofs.Common.{rules};
ghost use Rattle.std.specs.Cmp.Rules.{comparing};
ghost use Rattle.arrayvec.specs.ArrayVec.{array_vec_len};
ghost use Rattle.dubp_atoms.specs.Letters.{is_key};
ghost use Rattle.dubp_atoms.specs.Padded.{padded};
ghost use Rattle.dubp_atoms.specs.Reading.{text_if};

use crate::letters::all_base58;
use crate::line::{Line, put_bytes};
use crate::text::Text;
use std::hash::{Hash, Hasher};
use std::marker::Model;

/// A public key: 43 or 44 characters of Base58.
///
/// Contracts see it as its text. Two are ordered by their bytes.
#[derive(Clone, Copy, Debug, PartialEq, Eq, PartialOrd, Ord)]
pub struct Key {
    text: Text<44>,
}

impl Model for Key {
    ghost use Rattle.std.specs.Prelude.{◌≡◌, ℕ, List, true};
    ghost use Rattle.dubp_atoms.specs.Letters.{is_key};

    ghost Value = { List ℕ };

    ghost view = { λ a. a.text };

    ghost invariant = { λ a. is_key a.text ≡ true };

    ghost inverse = { λ t. record { text = t } };
}

impl Key {
    /// The Key that this text is. None exactly where it is the text of none.
    #[tactic(auto, using(crate::proofs::Fits::key_fits))]
    pub fn read(text: &[u8]) -> Option<Key>
        ensures { result ≡ text_if is_key text.now }
    {
        if !is_key_text(text) {
            return None;
        }
        let text = Text::of(text);
        Some(Key { text })
    }

    /// Its text.
    #[tactic(auto, using(crate::proofs::Fits::key_fits))]
    pub fn as_bytes(&self) -> &[u8]
        ensures text { result.now ≡ self.now }
        ensures valid { is_key self.now ≡ true }
        ensures fits { length result.now ≤ 44 }
    {
        self.text.as_bytes()
    }

    /// Appends its text. `out` has 200 free places.
    pub fn put(&self, out: &mut Line)
        requires { array_vec_len out.old + 200 ≤ 2048 }
        ensures text { out.new.items ≡ out.old.items ++ self.now }
        ensures room { array_vec_len out.new ≤ array_vec_len out.old + 44 }
    {
        put_bytes(out, self.as_bytes());
    }
}

// It is hashed as 48 bytes, the last of them zeros: six whole words of eight bytes, so that what follows begins with a whole word too.
impl Hash for Key {
    ghost hash_input = { λ k. padded 48 k ∷ [] };

    ghost respects_eq = { Prim.search (comparing, rules) };

    fn hash<H: Hasher>(&self, state: &mut H) {
        state.write(&self.text.with_zeros::<48>());
    }
}

#[tactic(auto, unfolding(crate::specs::Letters::is_key))]
fn is_key_text(text: &[u8]) -> bool
    ensures { result ≡ is_key text.now }
{
    text.len() >= 43 && text.len() <= 44 && all_base58(text)
}
