ghost use Rattle.std.specs.Prelude.{◌≡◌, ◌<◌, [], List, Some, length, slice_get, IfOk, IfSome, OnOk, OnErr};
ghost use Rattle.std.specs.List.{position_or_len};
ghost use Rattle.dubp_atoms.specs.Same.{Text, same_text};
ghost use Rattle.dubp_sindex.specs.Numbering.{AreApart, AreNumbers, number_of, signed_text, with_text};

use crate::text::{AccountText, Sought};
use arrayvec::ArrayVec;
use dubp_atoms::{Key, NoMemory, Secret};
use indexmap::{IndexMap, IndexSet};
use std::alloc::Global;
use std::marker::Model;

/// The room of the text of a condition that one key signs.
const SIGNED_ROOM: usize = 64;

/// A set of texts, each kept in its own length, and each with its place in the order in which they came as its number.
///
/// Contracts see it as the list of its texts. Beside them stand, by key, the numbers of conditions that one key signs, where they were
/// asked for by the key.
#[derive(Drop)]
pub struct Accounts {
    alloc: Global,
    texts: IndexSet<AccountText, Secret>,
    signed: IndexMap<Key, usize, Secret>,
}

impl Model for Accounts {
    ghost use Rattle.std.specs.Prelude.{List};
    ghost use Rattle.dubp_atoms.specs.Same.{Text};

    ghost Value = { List Text };

    ghost view = { λ a. a.texts.keys };

    ghost use Rattle.dubp_sindex.specs.Numbering.{AreNumbers};

    ghost invariant = { λ a. AreNumbers a.signed a.texts.keys };
}

impl Accounts {
    /// No text. The secret is what the texts are hashed by. It takes no memory.
    pub fn new(alloc: Global, secret: Secret) -> Accounts
        ensures { result ≡ [] }
    {
        Accounts {
            alloc,
            texts: IndexSet::with_hasher(alloc, secret),
            signed: IndexMap::with_hasher(alloc, secret),
        }
    }

    /// How many texts there are.
    pub fn count(&self) -> usize
        ensures count { result ≡ length self.now }
        ensures apart { AreApart self.now }
    {
        self.texts.len()
    }

    /// The number of the text, or `None` where it has none. It takes no memory.
    pub fn find(&self, text: &[u8]) -> Option<usize>
        ensures { result ≡ number_of self.now text.now }
    {
        self.texts.get_index_of(Sought { text })
    }

    /// The text of this number. It takes no memory.
    pub fn text(&self, number: usize) -> &[u8]
        requires { number < length self.now }
        ensures { slice_get self.now number ≡ Some result.now }
    {
        self.texts.as_slice()[number].as_bytes()
    }

    /// The number of the text, which goes last where it is new.
    ///
    /// `NoMemory` where there is no memory for a new one; then all is as it was.
    pub fn add(&mut self, text: &[u8]) -> Result<usize, NoMemory>
        ensures number { IfOk result (λ n. number_of self.new text.now ≡ Some n) }
        ensures added { OnOk result (self.new ≡ with_text self.old text.now) }
        ensures refused { OnErr result (self.new ≡ self.old) }
    {
        if let Some(number) = self.find(text) {
            return Ok(number);
        }
        let text = AccountText::of(self.alloc, text)?;
        let number = put_last(&mut self.texts, text)?;
        Ok(number)
    }

    // The number of the condition that this key signs, where it was asked for before.
    fn known(&self, key: &Key) -> Option<usize>
        ensures { IfSome result (λ n. number_of self.now (signed_text key.now) ≡ Some n) }
    {
        self.signed.get(key).copied()
    }

    /// The number of the condition that this key signs, whose text goes last where it is new. Where it was asked for before, no text is
    /// written.
    ///
    /// `NoMemory` where there is no memory for a new one; then all is as it was.
    pub fn add_signed(&mut self, key: &Key) -> Result<usize, NoMemory>
        ensures number { IfOk result (λ n. number_of self.new (signed_text key.now) ≡ Some n) }
        ensures added { OnOk result (self.new ≡ with_text self.old (signed_text key.now)) }
        ensures refused { OnErr result (self.new ≡ self.old) }
    {
        if let Some(number) = self.known(key) {
            return Ok(number);
        }
        let number = self.add(text_of_signed(key).as_slice())?;
        remember(&mut self.signed, key, number);
        Ok(number)
    }
}

// Remembers the number of the condition that this key signs; where there is no memory for it, it is found by its text the next time.
fn remember(signed: &mut IndexMap<Key, usize, Secret>, key: &Key, number: usize)
    ensures { (texts : List Text) → number_of texts (signed_text key.now) ≡ Some number → AreNumbers signed.old texts → AreNumbers signed.new texts }
{
    let _ = signed.insert(*key, number);
}

// The text of the condition that this key signs.
fn text_of_signed(key: &Key) -> ArrayVec<u8, SIGNED_ROOM>
    ensures { result.items ≡ signed_text key.now }
{
    let mut text = ArrayVec::new();
    let _ = text.try_extend_from_slice(b"SIG(");
    let _ = text.try_extend_from_slice(key.as_bytes());
    let _ = text.try_extend_from_slice(b")");
    text
}

// The place of the text, which goes last where it is new.
fn put_last(texts: &mut IndexSet<AccountText, Secret>, text: AccountText) -> Result<usize, NoMemory>
    ensures place { IfOk result (λ n. n ≡ position_or_len (same_text text) texts.old.keys) }
    ensures keys { OnOk result (texts.new.keys ≡ with_text texts.old.keys text) }
    ensures refused { OnErr result (texts.new.keys ≡ texts.old.keys) }
{
    match texts.insert_full(text) {
        Ok((number, _)) => Ok(number),
        Err(_) => Err(NoMemory),
    }
}
