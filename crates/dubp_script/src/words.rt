ghost use Rattle.std.specs.Prelude.{◌≡◌, ◌≤◌, IfSome, length, option_map};
ghost use Rattle.dubp_atoms.specs.Letters.{is_hash, is_key, is_uid};
ghost use Rattle.dubp_atoms.specs.Reading.{number_of, stamp_of, text_if};
ghost use Rattle.dubp_lines.specs.Taking.{named};
ghost use Rattle.dubp_script.specs.Reading.{cond_text_if, forging_of, verdict_of};
ghost use Rattle.dubp_script.specs.Said.{kept_text, said, said_forging};

use dubp_atoms::{Hash, Key, Sig, Stamp, Uid, cut, read_number};
use dubp_cond::is_cond;

/// The number behind this word.
pub fn number_behind(word: &[u8], line: &[u8]) -> Option<u64>
    ensures { result ≡ named word.now number_of line.now }
{
    read_number(line.strip_prefix(word)?)
}

/// The stamp behind this word.
pub fn stamp_behind(word: &[u8], line: &[u8]) -> Option<Stamp>
    ensures { result ≡ named word.now stamp_of line.now }
{
    Stamp::read(line.strip_prefix(word)?)
}

/// The key behind this word.
pub fn key_behind(word: &[u8], line: &[u8]) -> Option<Key>
    ensures { result ≡ named word.now (text_if is_key) line.now }
{
    Key::read(line.strip_prefix(word)?)
}

/// The hash behind this word.
pub fn hash_behind(word: &[u8], line: &[u8]) -> Option<Hash>
    ensures { result ≡ named word.now (text_if is_hash) line.now }
{
    Hash::read(line.strip_prefix(word)?)
}

/// The name behind this word.
pub fn uid_behind(word: &[u8], line: &[u8]) -> Option<Uid>
    ensures { result ≡ named word.now (text_if is_uid) line.now }
{
    Uid::read(line.strip_prefix(word)?)
}

/// The text of the condition behind this word.
pub fn cond_behind<'a>(word: &[u8], line: &'a [u8]) -> Option<&'a [u8]>
    ensures text { option_map kept_text result ≡ named word.now cond_text_if line.now }
    ensures fits { IfSome result (λ text. length text.now ≤ 1000) }
{
    cond_text(line.strip_prefix(word)?)
}

fn cond_text(text: &[u8]) -> Option<&[u8]>
    ensures text { option_map kept_text result ≡ cond_text_if text.now }
    ensures fits { IfSome result (λ text. length text.now ≤ 1000) }
{
    if !is_cond(text) {
        return None;
    }
    Some(text)
}

/// A verdict as a line says it.
#[derive(Clone, Copy)]
pub struct SaidVerdict {
    pub key: Key,
    pub hash: Hash,
    pub sig: Sig,
}

/// What `VERDICT ` and this text say.
#[tactic(auto, unfolding(crate::specs::Reading::verdict_of))]
pub fn read_verdict(text: &[u8]) -> Option<SaidVerdict>
    ensures { option_map said result ≡ verdict_of text.now }
{
    let (key, rest) = cut(text, b' ')?;
    let key = Key::read(key)?;
    let (hash, sig) = cut(rest, b' ')?;
    let hash = Hash::read(hash)?;
    let sig = Sig::read(sig)?;
    Some(SaidVerdict { key, hash, sig })
}

/// What a line that begins with `VERDICT ` says.
pub fn verdict_behind(word: &[u8], line: &[u8]) -> Option<SaidVerdict>
    ensures { option_map said result ≡ named word.now verdict_of line.now }
{
    read_verdict(line.strip_prefix(word)?)
}

/// Who forges a block and when, as a line says it.
#[derive(Clone, Copy)]
pub struct SaidForging {
    pub key: Key,
    pub time: u64,
}

/// What `FORGE ` and this text say.
#[tactic(auto, unfolding(crate::specs::Reading::forging_of))]
pub fn read_forging(text: &[u8]) -> Option<SaidForging>
    ensures { option_map said_forging result ≡ forging_of text.now }
{
    let (key, rest) = cut(text, b' ')?;
    let key = Key::read(key)?;
    let time = read_number(rest)?;
    Some(SaidForging { key, time })
}

/// What a line that begins with `FORGE ` says.
pub fn forging_behind(word: &[u8], line: &[u8]) -> Option<SaidForging>
    ensures { option_map said_forging result ≡ named word.now forging_of line.now }
{
    read_forging(line.strip_prefix(word)?)
}
