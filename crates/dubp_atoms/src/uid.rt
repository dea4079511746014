ghost use Rattle.std.specs.Prelude.{◌≡◌, ◌+◌, ◌≤◌, ◌++◌, length, true};
ghost use Rattle.std.specs.List.{list_all};
ghost use Rattle.arrayvec.specs.ArrayVec.{array_vec_len};
ghost use Rattle.dubp_atoms.specs.Letters.{is_name, is_uid};
ghost use Rattle.dubp_atoms.specs.Reading.{text_if};

use crate::line::{Line, put_bytes};
use crate::text::Text;
use std::marker::Model;

/// The name of an identity: 2 to 100 letters, digits, `_` and `-`.
///
/// Contracts see it as its text. Two are ordered by their bytes.
#[derive(Clone, Copy, Debug, PartialEq, Eq, PartialOrd, Ord, Hash)]
pub struct Uid {
    text: Text<100>,
}

impl Model for Uid {
    ghost use Rattle.std.specs.Prelude.{◌≡◌, ℕ, List, true};
    ghost use Rattle.dubp_atoms.specs.Letters.{is_uid};

    ghost Value = { List ℕ };

    ghost view = { λ a. a.text };

    ghost invariant = { λ a. is_uid a.text ≡ true };

    ghost inverse = { λ t. record { text = t } };
}

impl Uid {
    /// The Uid that this text is. None exactly where it is the text of none.
    #[tactic(auto, using(crate::proofs::Fits::uid_fits))]
    pub fn read(text: &[u8]) -> Option<Uid>
        ensures { result ≡ text_if is_uid text.now }
    {
        if !is_uid_text(text) {
            return None;
        }
        let text = Text::of(text);
        Some(Uid { text })
    }

    /// Its text.
    #[tactic(auto, using(crate::proofs::Fits::uid_fits))]
    pub fn as_bytes(&self) -> &[u8]
        ensures text { result.now ≡ self.now }
        ensures valid { is_uid self.now ≡ true }
        ensures fits { length result.now ≤ 100 }
    {
        self.text.as_bytes()
    }

    /// Appends its text. `out` has 200 free places.
    pub fn put(&self, out: &mut Line)
        requires { array_vec_len out.old + 200 ≤ 2048 }
        ensures text { out.new.items ≡ out.old.items ++ self.now }
        ensures room { array_vec_len out.new ≤ array_vec_len out.old + 100 }
    {
        put_bytes(out, self.as_bytes());
    }
}

#[tactic(auto, unfolding(crate::specs::Letters::is_uid))]
fn is_uid_text(text: &[u8]) -> bool
    ensures { result ≡ is_uid text.now }
{
    text.len() >= 2 && text.len() <= 100 && all_name(text)
}

fn all_name(text: &[u8]) -> bool
    ensures { result ≡ list_all is_name text.now }
{
    text.iter().all(|c| matches!(*c, b'0'..=b'9' | b'A'..=b'Z' | b'a'..=b'z' | b'_' | b'-'))
}
