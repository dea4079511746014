ghost use Rattle.std.specs.Prelude.{◌≡◌, ◌+◌, ◌≤◌, ◌++◌, length, true};
ghost use Rattle.arrayvec.specs.ArrayVec.{array_vec_len};
ghost use Rattle.dubp_atoms.specs.Letters.{is_sig};
ghost use Rattle.dubp_atoms.specs.Reading.{text_if};

use crate::letters::all_base64;
use crate::line::{Line, put_bytes};
use crate::text::Text;
use std::marker::Model;

/// A signature: 86 characters of Base64 and `==`. It is taken as text and never decoded.
///
/// Contracts see it as its text. Two are ordered by their bytes.
#[derive(Clone, Copy, Debug, PartialEq, Eq, PartialOrd, Ord, Hash)]
pub struct Sig {
    text: Text<88>,
}

impl Model for Sig {
    ghost use Rattle.std.specs.Prelude.{◌≡◌, ℕ, List, true};
    ghost use Rattle.dubp_atoms.specs.Letters.{is_sig};

    ghost Value = { List ℕ };

    ghost view = { λ a. a.text };

    ghost invariant = { λ a. is_sig a.text ≡ true };

    ghost inverse = { λ t. record { text = t } };
}

impl Sig {
    /// The Sig that this text is. None exactly where it is the text of none.
    #[tactic(auto, using(crate::proofs::Fits::sig_fits))]
    pub fn read(text: &[u8]) -> Option<Sig>
        ensures { result ≡ text_if is_sig text.now }
    {
        if !is_sig_text(text) {
            return None;
        }
        let text = Text::of(text);
        Some(Sig { text })
    }

    /// Its text.
    #[tactic(auto, using(crate::proofs::Fits::sig_fits))]
    pub fn as_bytes(&self) -> &[u8]
        ensures text { result.now ≡ self.now }
        ensures valid { is_sig self.now ≡ true }
        ensures fits { length result.now ≤ 88 }
    {
        self.text.as_bytes()
    }

    /// Appends its text. `out` has 200 free places.
    pub fn put(&self, out: &mut Line)
        requires { array_vec_len out.old + 200 ≤ 2048 }
        ensures text { out.new.items ≡ out.old.items ++ self.now }
        ensures room { array_vec_len out.new ≤ array_vec_len out.old + 88 }
    {
        put_bytes(out, self.as_bytes());
    }
}

#[tactic(auto, unfolding(crate::specs::Letters::is_sig))]
fn is_sig_text(text: &[u8]) -> bool
    ensures { result ≡ is_sig text.now }
{
    if text.len() != 88 {
        return false;
    }
    all_base64(&text[..86]) && text[86] == b'=' && text[87] == b'='
}
