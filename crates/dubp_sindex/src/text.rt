ghost use Rattle.std.specs.Prelude.{◌≡◌, ◌∷◌, [], IfOk};
ghost use Rattle.std.proofs.Common.{ap, rules};
ghost use Rattle.std.specs.Cmp.Lexicographic.{bytes_decides, nat_list_eq_equiv};
ghost use Rattle.std.specs.Cmp.Rules.{comparing};
ghost use Rattle.dubp_atoms.specs.Same.{same_text};

use dubp_atoms::NoMemory;
use indexmap::Equivalent;
use std::alloc::Global;
use std::hash::{Hash, Hasher};
use std::marker::Model;

/// The text of a condition, in memory of its own length, which is compared and hashed in one piece.
#[derive(Drop)]
pub struct AccountText {
    text: Vec<u8>,
}

impl Model for AccountText {
    ghost use Rattle.dubp_atoms.specs.Same.{Text};

    ghost Value = { Text };

    ghost view = { λ a. a.text.items };
}

impl AccountText {
    /// A copy of the text.
    pub fn of(alloc: Global, text: &[u8]) -> Result<AccountText, NoMemory>
        ensures { IfOk result (λ copied. copied ≡ text.now) }
    {
        let text = Vec::from_slice(alloc, text).map_err(|_| NoMemory)?;
        Ok(AccountText { text })
    }

    /// Its bytes.
    pub fn as_bytes(&self) -> &[u8]
        ensures { result.now ≡ self.now }
    {
        self.text.as_slice()
    }
}

impl PartialEq for AccountText {
    ghost eq = { same_text };

    ghost laws = { Prim.search (comparing, rules) };

    fn eq(&self, other: &Self) -> bool {
        self.as_bytes() == other.as_bytes()
    }
}

impl Eq for AccountText {
    ghost laws = { Prim.search (comparing, rules) };
}

impl Hash for AccountText {
    ghost hash_input = { λ t. t ∷ [] };

    ghost respects_eq = { Prim.search (comparing, rules) };

    fn hash<H: Hasher>(&self, state: &mut H) {
        state.write(self.as_bytes());
    }
}

/// The text that is sought among texts, where it stands already.
#[derive(Clone, Copy)]
pub struct Sought<'a> {
    pub text: &'a [u8],
}

impl<'a> Hash for Sought<'a> {
    ghost hash_input = { λ q. q.text.now ∷ [] };

    ghost respects_eq = { Prim.search (comparing, rules) };

    fn hash<H: Hasher>(&self, state: &mut H) {
        state.write(self.text);
    }
}

impl<'a> PartialEq for Sought<'a> {
    ghost eq = { λ q r. same_text q.text.now r.text.now };

    ghost laws = { Prim.search (comparing, rules) };

    fn eq(&self, other: &Self) -> bool {
        self.text == other.text
    }
}

impl<'a> Eq for Sought<'a> {
    ghost laws = { Prim.search (comparing, rules) };
}

impl<'a> Equivalent<AccountText> for Sought<'a> {
    ghost equivalent = { λ q. same_text q.text.now };

    ghost respects_hash = { λ q k same. ap (λ text. text ∷ []) ((bytes_decides q.text.now k).0 same) };

    ghost respects_eq = { λ q x y. nat_list_eq_equiv.congr q.text.now x y };

    fn equivalent(&self, key: &AccountText) -> bool {
        self.text == key.as_bytes()
    }
}
