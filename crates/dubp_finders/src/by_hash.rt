ghost use Rattle.std.specs.Prelude.{◌≡◌, None};
ghost use Rattle.std.specs.HashMap.{get};
ghost use Rattle.dubp_journal.specs.Finders.{hash_respects};

use dubp_costs::NoMemory;
use dubp_journal::Finder;
use std::alloc::Global;
use std::collections::HashMap;
use std::collections::hash_map::Entry;
use std::hash::{BuildHasher, Hash};

/// Slots that are found by a hash of their keys. No answer and no contract depends on what they are hashed by.
#[derive(Drop)]
pub struct ByHash<K: Eq + Hash, S: BuildHasher> {
    slots: HashMap<K, usize, S>,
}

impl<K: Ord + Eq + Hash + Copy, S: BuildHasher + Drop> ByHash<K, S> {
    /// No key. The secret is what the keys are hashed by. It takes no memory.
    pub fn new(alloc: Global, secret: S) -> ByHash<K, S>
        ensures { (k : K) → ⟦<ByHash<K, S> as Finder<K>>⟧.slot_of result k ≡ None }
    {
        ByHash {
            slots: HashMap::with_hasher(alloc, secret),
        }
    }
}

impl<K: Ord + Eq + Hash + Copy, S: BuildHasher + Drop> Finder<K> for ByHash<K, S> {
    ghost cmp = { K.cmp };

    ghost slot_of = { λ f. get K.eq f.slots };

    fn slot(&self, k: K) -> Option<usize> {
        self.slots.get(&k).copied()
    }

    fn place(&mut self, k: K, next: usize) -> Result<Option<usize>, NoMemory> {
        match self.slots.entry(k) {
            Ok(Entry::Occupied(entry)) => Ok(Some(*entry.get())),
            Ok(Entry::Vacant(entry)) => {
                entry.insert(next);
                Ok(None)
            }
            Err(_) => Err(NoMemory),
        }
    }

    fn remove(&mut self, k: K) {
        let _slot = self.slots.remove(&k);
    }

    ghost total = { K.Ord.total };

    ghost respects = { λ f q k. hash_respects K.cmp K.Eq.laws K.Ord.matches_eq f.slots.entries q k };
}
