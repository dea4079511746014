ghost use Rattle.std.specs.Prelude.{◌≡◌, ℕ, ◌+◌, ◌++◌, ◌<◌, ◌≤◌, ◌^◌, List, None, Some, IfOk, IfSome, OnOk, IsSome, IsTrue, ◌↔◌, Contains, length, option_to_list, position, slice_get, get_or};
ghost use Rattle.std.specs.List.{IsDistinct};
ghost use Rattle.dubp_atoms.specs.Same.{Text, same_text};
ghost use Rattle.dubp_wot.specs.Known.{AreIssuersOf, KnowIssuers, members_among};
ghost use Rattle.dubp_wot.specs.Numbers.{name, named, AreBelow, Keeps};

use crate::sentry::push;
use crate::web::Web;
use dubp_atoms::{Key, NoMemory, Secret};
use indexmap::IndexSet;
use std::alloc::Global;
use std::marker::Model;

/// The members who certify each key that a search came by: a web is asked for those of a key once.
///
/// A key gets a number when a search comes by it, and keeps it; its issuers are kept by their numbers.
#[derive(Drop)]
pub struct KnownIssuers {
    keys: IndexSet<Key, Secret>,
    issuers: Vec<Option<Vec<usize>>>,
}

impl Model for KnownIssuers {
    ghost use Rattle.dubp_wot.specs.Numbers.{Numbered, AreNumbers};

    ghost Value = { Numbered };

    ghost view = { λ k. record { keys = k.keys.keys; issuers = k.issuers.items } };

    ghost invariant = { λ k. AreNumbers k.keys.keys k.issuers.items };
}

impl KnownIssuers {
    /// Those of no key. It takes no memory.
    pub fn new(alloc: Global, secret: Secret) -> KnownIssuers
        ensures { (members : List Text) (pairs : List (Text × Text)) → KnowIssuers members pairs result }
    {
        KnownIssuers {
            keys: IndexSet::with_hasher(alloc, secret),
            issuers: Vec::new(alloc),
        }
    }

    /// How many keys have numbers.
    pub(crate) fn len(&self) -> usize
        ensures value { result ≡ length self.now.keys }
        ensures small { result < 2 ^ 63 }
        ensures unique { IsDistinct same_text self.now.keys }
    {
        self.keys.len()
    }

    /// The number of the key, which gets the next one where it has none. What is known stays true where it is a member.
    pub(crate) fn number(&mut self, key: Key) -> Result<usize, NoMemory>
        ensures kept { Keeps self.old.keys self.new.keys }
        ensures issuers { self.new.issuers ≡ self.old.issuers }
        ensures known { (members : List Text) (pairs : List (Text × Text)) → Contains members key → KnowIssuers members pairs self.old → KnowIssuers members pairs self.new }
        ensures number { IfOk result (λ number. slice_get self.new.keys number ≡ Some key) }
    {
        let (number, _) = self.keys.insert_full(key).map_err(|_| NoMemory)?;
        Ok(number)
    }

    /// The number of the key, or None where it has none.
    fn number_of(&self, key: &Key) -> Option<usize>
        ensures { result ≡ position (same_text key.now) self.now.keys }
    {
        self.keys.get_index_of(key)
    }

    /// The number of the key, which gets the next one where it has none, or None where it is no member.
    ///
    /// The web is asked whether it is one only where it has no number.
    fn number_member<W: Web>(&mut self, web: &W, key: &Key) -> Result<Option<usize>, NoMemory>
        requires known { (members : List Text) (pairs : List (Text × Text)) → W.shows web.now members pairs → KnowIssuers members pairs self.old }
        ensures kept { Keeps self.old.keys self.new.keys }
        ensures known { (members : List Text) (pairs : List (Text × Text)) → W.shows web.now members pairs → KnowIssuers members pairs self.new }
        ensures number { IfOk result (λ found. IfSome found (λ number. slice_get self.new.keys number ≡ Some key.now)) }
        ensures member { IfOk result (λ found. (members : List Text) (pairs : List (Text × Text)) → W.shows web.now members pairs → (IsSome found ↔ Contains members key.now)) }
    {
        if let Some(number) = self.number_of(key) {
            return Ok(Some(number));
        }
        if !web.is_member(key) {
            return Ok(None);
        }
        let number = self.number(*key)?;
        Ok(Some(number))
    }

    /// The numbers of those of the keys who are members, in their order.
    pub(crate) fn number_members<W: Web>(
        &mut self,
        alloc: Global,
        web: &W,
        keys: &[Key],
    ) -> Result<Vec<usize>, NoMemory>
        requires known { (members : List Text) (pairs : List (Text × Text)) → W.shows web.now members pairs → KnowIssuers members pairs self.old }
        ensures kept { Keeps self.old.keys self.new.keys }
        ensures known { (members : List Text) (pairs : List (Text × Text)) → W.shows web.now members pairs → KnowIssuers members pairs self.new }
        ensures within { IfOk result (λ numbers. AreBelow (length self.new.keys) numbers.items) }
        ensures among { IfOk result (λ numbers. (members : List Text) (pairs : List (Text × Text)) → W.shows web.now members pairs → named self.new.keys numbers.items ≡ members_among members keys.now) }
    {
        let mut numbers = Vec::new(alloc);
        for key in keys {
            let found = self.number_member(web, key)?;
            push_found(&mut numbers, found)?;
        }
        Ok(numbers)
    }

    /// Asks the web for the members who certify the key with this number, unless they are known.
    pub(crate) fn ask<W: Web>(
        &mut self,
        alloc: Global,
        web: &W,
        number: usize,
    ) -> Result<(), NoMemory>
        requires within { number < length self.old.keys }
        requires known { (members : List Text) (pairs : List (Text × Text)) → W.shows web.now members pairs → KnowIssuers members pairs self.old }
        ensures kept { Keeps self.old.keys self.new.keys }
        ensures known { (members : List Text) (pairs : List (Text × Text)) → W.shows web.now members pairs → KnowIssuers members pairs self.new }
        ensures has { OnOk result (IsSome (get_or self.new.issuers number None)) }
    {
        if self.has_issuers(number) {
            return Ok(());
        }
        let keys = web.issuers(alloc, self.key(number))?;
        let numbers = self.number_members(alloc, web, &keys)?;
        self.put(number, numbers)
    }

    /// The key with this number.
    fn key(&self, number: usize) -> Key
        requires { number < length self.now.keys }
        ensures { slice_get self.now.keys number ≡ Some result }
    {
        self.keys[number]
    }

    /// Whether the issuers of the key with this number are known.
    fn has_issuers(&self, number: usize) -> bool
        ensures { IsTrue result ↔ IsSome (get_or self.now.issuers number None) }
    {
        number < self.issuers.len() && self.issuers[number].is_some()
    }

    /// The numbers of the members who certify the key with this number, which are known.
    pub(crate) fn of(&self, number: usize) -> &[usize]
        requires { IsSome (get_or self.now.issuers number None) }
        ensures within { AreBelow (length self.now.keys) result.now }
        ensures known { (members : List Text) (pairs : List (Text × Text)) → KnowIssuers members pairs self.now → AreIssuersOf members pairs (name self.now.keys number) (named self.now.keys result.now) }
    {
        match &self.issuers[number] {
            Some(numbers) => numbers.as_slice(),
            None => &[],
        }
    }

    /// Puts the numbers of the members who certify the key with this number.
    fn put(&mut self, number: usize, numbers: Vec<usize>) -> Result<(), NoMemory>
        requires within { number < length self.old.keys }
        requires below { AreBelow (length self.old.keys) numbers.items }
        ensures keys { self.new.keys ≡ self.old.keys }
        ensures known { (members : List Text) (pairs : List (Text × Text)) → KnowIssuers members pairs self.old → AreIssuersOf members pairs (name self.old.keys number) (named self.old.keys numbers.items) → KnowIssuers members pairs self.new }
        ensures has { OnOk result (IsSome (get_or self.new.issuers number None)) }
    {
        let _keys = self.keys.len();
        make_room(&mut self.issuers, number + 1)?;
        self.issuers[number] = Some(numbers);
        Ok(())
    }
}

/// Makes room for the issuers of the keys with numbers below `size`.
fn make_room(issuers: &mut Vec<Option<Vec<usize>>>, size: usize) -> Result<(), NoMemory>
    ensures room { OnOk result (size ≤ length issuers.new.items) }
    ensures same { (n : ℕ) → get_or issuers.new.items n None ≡ get_or issuers.old.items n None }
{
    for _turn in issuers.len()..size {
        push(issuers, None)?;
    }
    Ok(())
}

/// Puts the number, where there is one, behind the others.
fn push_found(numbers: &mut Vec<usize>, found: Option<usize>) -> Result<(), NoMemory>
    ensures { OnOk result (numbers.new.items ≡ numbers.old.items ++ option_to_list found) }
{
    match found {
        Some(number) => push(numbers, number),
        None => Ok(()),
    }
}
