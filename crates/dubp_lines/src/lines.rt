ghost use Rattle.std.specs.Prelude.{◌≡◌, ◌≤◌, ◌<◌, ◌^◌, ◌+◌, ◌++◌, ◌==◌, count_by, length, List, [], ◌∷◌, IfSome, IfNone, OnErr, drop};
ghost use Rattle.dubp_atoms.specs.Letters.{LF};
ghost use Rattle.dubp_atoms.specs.Reading.{Lacks};
ghost use Rattle.dubp_lines.specs.Lines.{split};
ghost use Rattle.dubp_lines.specs.Readers.{optional};
ghost use Rattle.dubp_lines.specs.Taking.{Gives, line_at, just, named, first_at, next_passes, begins_with, same_line};

use crate::reading::ReadText;
use crate::refusal::Refused;
use memchr::memchr;
use std::marker::Model;

/// The most bytes of a text whose ends of lines are counted in a byte.
const PIECE: usize = 192;

/// The lines of a text that are not taken yet, and what stands behind the last LF.
///
/// Contracts see the pair of both. Each `take` takes the next line, or refuses it and takes nothing; none takes memory.
#[derive(Drop)]
pub struct Lines<'a> {
    rest: &'a [u8],
}

impl<'a> Model for Lines<'a> {
    ghost use Rattle.std.specs.Prelude.{ℕ, List};
    ghost use Rattle.dubp_lines.specs.Lines.{split};

    ghost Value = { List (List ℕ) × List ℕ };

    ghost view = { λ l. split l.rest.now };
}

/// How many lines a text has: how often LF stands in it.
#[tactic(auto, using(crate::proofs::Split::count_is))]
pub fn count_lines(text: &[u8]) -> usize
    ensures value { result ≡ length (split text.now).0 }
    ensures small { result < 2 ^ 63 }
{
    let _len = text.len();
    count_ends(text)
}

// How often LF stands in a text. It is counted piece by piece, each as a sum of bytes, of which a processor adds many at once.
fn count_ends(text: &[u8]) -> usize
    ensures value { result ≡ count_by (λ c. c == LF) text.now }
    ensures bound { result ≤ length text.now }
{
    let mut count = 0;
    let mut rest = text;
    while rest.len() > PIECE {
        let (piece, behind) = rest.split_at(PIECE);
        count += usize::from(count_in_piece(piece));
        rest = behind;
    }
    count + usize::from(count_in_piece(rest))
}

// How often LF stands in a piece of a text.
fn count_in_piece(piece: &[u8]) -> u8
    requires { length piece.now ≤ 192 }
    ensures value { result ≡ count_by (λ c. c == LF) piece.now }
    ensures bound { result ≤ length piece.now }
{
    let mut count = 0;
    for byte in piece {
        count += u8::from(*byte == b'\n');
    }
    count
}

/// The next line, and the text behind it. None exactly where no LF stands in the text.
pub fn next_line(text: &[u8]) -> Option<(&[u8], &[u8])>
    ensures some { IfSome result (λ p. split text.now ≡ (p.0.now ∷ (split p.1.now).0, (split p.1.now).1)) }
    ensures none { IfNone result ((split text.now).0 ≡ []) }
{
    cut_line(text)
}

// What is before the first LF, and what is after it.
fn cut_line(text: &[u8]) -> Option<(&[u8], &[u8])>
    ensures found { IfSome result (λ p. Lacks LF p.0.now × (text.now ≡ p.0.now ++ LF ∷ p.1.now)) }
    ensures none { IfNone result (Lacks LF text.now) }
{
    let end = memchr(b'\n', text)?;
    Some((&text[..end], &text[end + 1..]))
}

impl<'a> Lines<'a> {
    /// All lines of a text.
    pub fn of(text: &'a [u8]) -> Lines<'a>
        ensures { result ≡ split text.now }
    {
        Lines { rest: text }
    }

    /// The refusal of the next line.
    pub fn refused(&self) -> Refused
        ensures { result.left ≡ length self.now.0 }
    {
        Refused {
            left: count_lines(self.rest),
        }
    }

    /// Whether nothing is left, neither a line nor bytes behind the last LF.
    #[tactic(auto, using(crate::proofs::Split::done_is))]
    pub fn is_done(&self) -> bool
        ensures { result ≡ (length self.now.0 + length self.now.1 == 0) }
    {
        self.rest.is_empty()
    }

    /// Whether the next line is this one. Where there is no line, it is not.
    pub fn is_next(&self, wanted: &[u8]) -> bool
        ensures { result ≡ next_passes (same_line wanted.now) self.now.0 }
    {
        match next_line(self.rest) {
            Some((line, _)) => line == wanted,
            None => false,
        }
    }

    /// Whether the next line begins with this name. Where there is no line, it does not.
    pub fn has_next(&self, name: &[u8]) -> bool
        ensures { result ≡ next_passes (begins_with name.now) self.now.0 }
    {
        match next_line(self.rest) {
            Some((line, _)) => line.starts_with(name),
            None => false,
        }
    }

    /// Takes just this line.
    pub fn take(&mut self, wanted: &[u8]) -> Result<(), Refused>
        ensures exact { Gives (λ _. (wanted.now, self.new)) result (line_at (just wanted.now) self.old) }
        ensures refused { OnErr result (self.new ≡ self.old) }
    {
        let Some((line, rest)) = next_line(self.rest) else {
            return Err(self.refused());
        };
        if line != wanted {
            return Err(self.refused());
        }
        self.rest = rest;
        Ok(())
    }

    /// Takes a line of this name and a value of this kind.
    pub fn take_value<V: ReadText>(&mut self, name: &[u8]) -> Result<V::Value, Refused>
        ensures exact { Gives (λ x. (x, self.new)) result (line_at (named name.now V.reads) self.old) }
        ensures refused { OnErr result (self.new ≡ self.old) }
    {
        let Some((line, rest)) = next_line(self.rest) else {
            return Err(self.refused());
        };
        let Some(text) = line.strip_prefix(name) else {
            return Err(self.refused());
        };
        let Some(value) = V::read_text(text) else {
            return Err(self.refused());
        };
        self.rest = rest;
        Ok(value)
    }

    /// Takes a line of this name and a value of this kind, where the next line has the name. Another line is left where it is.
    pub fn take_optional<V: ReadText>(&mut self, name: &[u8]) -> Result<Option<V::Value>, Refused>
        ensures exact { Gives (λ x. (x, self.new)) result (optional name.now V.reads self.old) }
        ensures refused { OnErr result (self.new ≡ self.old) }
    {
        if !self.has_next(name) {
            return Ok(None);
        }
        let value = self.take_value::<V>(name)?;
        Ok(Some(value))
    }

    /// Takes a line that is a value of this kind.
    pub fn take_line<V: ReadText>(&mut self) -> Result<V::Value, Refused>
        ensures exact { Gives (λ x. (x, self.new)) result (line_at V.reads self.old) }
        ensures refused { OnErr result (self.new ≡ self.old) }
    {
        let Some((line, rest)) = next_line(self.rest) else {
            return Err(self.refused());
        };
        let Some(value) = V::read_text(line) else {
            return Err(self.refused());
        };
        self.rest = rest;
        Ok(value)
    }

    /// The next line, which is not taken. The refusal comes exactly where there is none.
    pub fn first(&self) -> Result<&'a [u8], Refused>
        ensures { Gives (λ x. x.now) result (first_at self.now) }
    {
        match next_line(self.rest) {
            Some((line, _)) => Ok(line),
            None => Err(self.refused()),
        }
    }

    /// Takes the next line, whatever it says. Where there is none, nothing changes.
    pub fn skip(&mut self)
        ensures lines { self.new.0 ≡ drop 1 self.old.0 }
        ensures tail { self.new.1 ≡ self.old.1 }
    {
        if let Some((_, rest)) = next_line(self.rest) {
            self.rest = rest;
        }
    }
}
