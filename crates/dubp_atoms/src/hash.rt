ghost use Rattle.std.specs.Prelude.{◌≡◌, ◌+◌, ◌≤◌, ◌++◌, length, true};
ghost use Rattle.arrayvec.specs.ArrayVec.{array_vec_len};
ghost use Rattle.dubp_atoms.specs.Letters.{is_hash};
ghost use Rattle.dubp_atoms.specs.Reading.{text_if};
ghost use Rattle.dubp_atoms.specs.Hashing.{digest_text, hash_of};

use crate::letters::all_upper_hex;
use crate::line::{Line, put_bytes};
use crate::text::Text;
use sha2::{Digest, Sha256};
use std::marker::Model;

/// A SHA-256 value: 64 hexadecimal digits in upper case.
///
/// Contracts see it as its text. Two are ordered by their bytes.
#[derive(Clone, Copy, Debug, PartialEq, Eq, PartialOrd, Ord, Hash)]
pub struct Hash {
    text: Text<64>,
}

impl Model for Hash {
    ghost use Rattle.std.specs.Prelude.{◌≡◌, ℕ, List, true};
    ghost use Rattle.dubp_atoms.specs.Letters.{is_hash};

    ghost Value = { List ℕ };

    ghost view = { λ a. a.text };

    ghost invariant = { λ a. is_hash a.text ≡ true };

    ghost inverse = { λ t. record { text = t } };
}

impl Hash {
    /// The Hash that this text is. None exactly where it is the text of none.
    #[tactic(auto, using(crate::proofs::Fits::hash_fits))]
    pub fn read(text: &[u8]) -> Option<Hash>
        ensures { result ≡ text_if is_hash text.now }
    {
        if !is_hash_text(text) {
            return None;
        }
        let text = Text::of(text);
        Some(Hash { text })
    }

    /// The hash that this digest of 32 bytes is.
    pub fn of_digest(digest: &[u8; 32]) -> Hash
        ensures { result ≡ digest_text digest.now }
    {
        Hash {
            text: Text::of(&hash_letters(digest.as_slice())),
        }
    }

    /// The SHA-256 of a message.
    pub fn of(message: &[u8]) -> Hash
        ensures { result ≡ hash_of message.now }
    {
        let digest: [u8; 32] = Sha256::digest(message);
        Hash::of_digest(&digest)
    }

    /// Its text.
    #[tactic(auto, using(crate::proofs::Fits::hash_fits))]
    pub fn as_bytes(&self) -> &[u8]
        ensures text { result.now ≡ self.now }
        ensures valid { is_hash self.now ≡ true }
        ensures fits { length result.now ≤ 64 }
    {
        self.text.as_bytes()
    }

    /// Appends its text. `out` has 200 free places.
    pub fn put(&self, out: &mut Line)
        requires { array_vec_len out.old + 200 ≤ 2048 }
        ensures text { out.new.items ≡ out.old.items ++ self.now }
        ensures room { array_vec_len out.new ≤ array_vec_len out.old + 64 }
    {
        put_bytes(out, self.as_bytes());
    }
}

#[tactic(auto, unfolding(crate::specs::Letters::is_hash))]
fn is_hash_text(text: &[u8]) -> bool
    ensures { result ≡ is_hash text.now }
{
    text.len() == 64 && all_upper_hex(text)
}

// The digest in upper-case hexadecimal.
fn upper_hex(digest: &[u8]) -> [u8; 64]
    requires { length digest.now ≡ 32 }
    ensures { result ≡ digest_text digest.now }
{
    let mut text = [0u8; 64];
    let _ = hex::encode_to_slice(digest, &mut text);
    text.make_ascii_uppercase();
    text
}

// The same, and that it is the text of a hash.
fn hash_letters(digest: &[u8]) -> [u8; 64]
    requires { length digest.now ≡ 32 }
    ensures text { result ≡ digest_text digest.now }
    ensures valid { is_hash result ≡ true }
{
    upper_hex(digest)
}
