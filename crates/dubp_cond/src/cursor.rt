ghost use Rattle.std.specs.Prelude.{◌≡◌, ◌==◌, ◌+◌, ◌<◌, Some, None, length, option_map, true, false, IfSome, OnSome, if◌then◌else◌};
ghost use Rattle.dubp_atoms.specs.Reading.{cut_at};
ghost use Rattle.dubp_cond.specs.Signs.{RIGHT_PARENTHESIS};
ghost use Rattle.dubp_cond.specs.Separated.{after};

use dubp_atoms::cut;
use std::marker::Model;

/// What follows the word, where the text begins with it.
pub fn after<'a>(word: &[u8], text: &'a [u8]) -> Option<&'a [u8]>
    ensures value { option_map (λ rest. rest.now) result ≡ after word.now text.now }
    ensures shorter { IfSome result (λ rest. length rest.now + length word.now ≡ length text.now) }
{
    text.strip_prefix(word)
}

/// A text that is read from its front.
///
/// Contracts see it as what is left of the text.
#[derive(Drop)]
pub struct Cursor<'a> {
    rest: &'a [u8],
}

impl<'a> Model for Cursor<'a> {
    ghost use Rattle.std.specs.Prelude.{List, ℕ};

    ghost Value = { List ℕ };

    ghost view = { λ c. c.rest.now };
}

impl<'a> Cursor<'a> {
    /// A cursor before the whole text.
    pub fn new(text: &'a [u8]) -> Cursor<'a>
        ensures { result ≡ text.now }
    {
        Cursor { rest: text }
    }

    /// Whether nothing is left to read.
    pub fn is_done(&self) -> bool
        ensures { result ≡ (length self.now == 0) }
    {
        self.rest.is_empty()
    }

    /// Takes the word, where it is next.
    pub fn take_word(&mut self, word: &[u8]) -> bool
        ensures taken { (if result then Some self.new else None) ≡ after word.now self.old }
        ensures kept { result ≡ false → self.new ≡ self.old }
        ensures shorter { result ≡ true → length self.new + length word.now ≡ length self.old }
    {
        match after(word, self.rest) {
            Some(rest) => {
                self.rest = rest;
                true
            }
            None => false,
        }
    }

    /// Takes the text up to the next `)`, and the `)`.
    pub fn take_field(&mut self) -> Option<&'a [u8]>
        ensures taken { option_map (λ front. (front.now, self.new)) result ≡ cut_at RIGHT_PARENTHESIS self.old }
        ensures shorter { OnSome result (length self.new < length self.old) }
    {
        let (front, rest) = cut(self.rest, b')')?;
        self.rest = rest;
        Some(front)
    }
}
