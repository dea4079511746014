ghost use Rattle.std.specs.Prelude.{◌≡◌, ◌<◌, ◌≤◌, List, [], ◌∷◌, length, OnOk, IsSome};
ghost use Rattle.std.specs.Map.{lookup};
ghost use Rattle.dubp_atoms.specs.Same.{Text, same_text};
ghost use Rattle.dubp_head.specs.LastBlocks.{AreIssuers, last_place};

use crate::places::Places;
use dubp_atoms::{Key, NoMemory};
use std::alloc::Global;
use std::marker::Model;

/// Who issued each block of a chain: the place of the last block of each issuer, and for each block the place of the one that its
/// issuer issued before.
///
/// Contracts see both, and for how many blocks there is room. Which list of issuers they are of is said by `AreIssuers`.
#[derive(Drop)]
pub(crate) struct Issuers {
    last: Places,
    // Oldest first.
    before: Vec<Option<usize>>,
}

impl Model for Issuers {
    ghost use Rattle.std.specs.Prelude.{min, vec_capacity};
    ghost use Rattle.dubp_head.specs.LastBlocks.{IssuersState};

    ghost Value = { IssuersState };

    ghost view = { λ s. record {
      last = s.last.entries;
      before = s.before.items;
      room = min s.last.capacity (vec_capacity s.before);
    } };
}

impl Issuers {
    /// Those of no block. It takes no memory.
    pub(crate) fn new(alloc: Global) -> Issuers
        ensures { AreIssuers result [] }
    {
        Issuers {
            last: Places::new(alloc),
            before: Vec::new(alloc),
        }
    }

    /// Takes memory for so many blocks.
    pub(crate) fn reserve(&mut self, count: usize) -> Result<(), NoMemory>
        ensures last { self.new.last ≡ self.old.last }
        ensures before { self.new.before ≡ self.old.before }
        ensures reserved { OnOk result (count ≤ self.new.room) }
        ensures room { self.old.room ≤ self.new.room }
    {
        let more = count.saturating_sub(self.before.len());
        self.before.reserve(more).map_err(|_| NoMemory)?;
        self.last.reserve(count)?;
        Ok(())
    }

    /// One more block, of this issuer. There is room for it. It tells the place of the block that he issued before; none where he
    /// issued none. It takes no memory.
    pub(crate) fn push(&mut self, key: Key) -> Option<usize>
        requires before { length self.old.before < self.old.room }
        requires last { length self.old.last < self.old.room }
        ensures issuers { (keys : List Text) → AreIssuers self.old keys → AreIssuers self.new (key ∷ keys) }
        ensures earlier { (keys : List Text) → AreIssuers self.old keys → result ≡ last_place keys key }
        ensures room { self.new.room ≡ self.old.room }
    {
        let place = self.before.len();
        let earlier = self.last.replace(key, place);
        self.before.push_reserved(earlier);
        earlier
    }

    /// Takes the last block off, which is of this issuer. It tells the place of the block that he issued before; none where he issued
    /// none. It takes no memory.
    pub(crate) fn pop(&mut self, key: &Key) -> Option<usize>
        requires { IsSome (lookup (same_text key.now) self.old.last) }
        ensures issuers { (keys : List Text) → AreIssuers self.old (key.now ∷ keys) → AreIssuers self.new keys }
        ensures earlier { (keys : List Text) → AreIssuers self.old (key.now ∷ keys) → result ≡ last_place keys key.now }
        ensures room { self.new.room ≡ self.old.room }
    {
        let earlier = self.before.pop().unwrap_or(None);
        match earlier {
            Some(place) => {
                self.last.replace(*key, place);
            }
            None => self.last.remove(key),
        }
        earlier
    }

    /// The place of the last block of the key. It takes no memory.
    pub(crate) fn last_of(&self, key: &Key) -> Option<usize>
        ensures { result ≡ lookup (same_text key.now) self.now.last }
    {
        self.last.get(key)
    }
}
