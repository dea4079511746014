//! Whether a text is that of a condition.
ghost use Rattle.std.specs.Prelude.{◌≡◌, MatchOption, false};
ghost use Rattle.dubp_atoms.specs.Same.{Text, same_text};
ghost use Rattle.dubp_chain.specs.Money.{signed_by};
ghost use Rattle.dubp_chain.specs.OfCond.{cond_text};

use dubp_cond::SpelledCond;

/// Whether the text is that of the condition. It takes no memory.
pub(crate) fn is_text_of(text: &[u8], cond: &SpelledCond) -> bool
    ensures { result ≡ same_text text.now (cond_text cond.now) }
{
    text == cond.as_text()
}

/// What stands in the parentheses of a text that is `SIG(..)`: the one key by which the condition of this text may be signed. None exactly
/// where the text is no such one. It takes no memory.
pub(crate) fn signer(text: &[u8]) -> Option<&[u8]>
    ensures { MatchOption result ((k : Text) → same_text text.now (cond_text (signed_by k)) ≡ false) (λ key. (k : Text) → same_text text.now (cond_text (signed_by k)) ≡ same_text key.now k) }
{
    text.strip_prefix(b"SIG(")?.strip_suffix(b")")
}
