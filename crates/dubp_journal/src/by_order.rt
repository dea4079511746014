ghost use Rattle.std.specs.Prelude.{◌≡◌, None, get_or, IfSome, IfNone};
ghost use Rattle.std.specs.declared.ops.Bound.TheVariants.{Unbounded};
ghost use Rattle.std.specs.BTreeMap.{get, IsOrdered};
ghost use Rattle.std.specs.BTreeMap.Range.{entries_between};
ghost use Rattle.dubp_journal.specs.Finders.{order_respects};
ghost use Rattle.dubp_journal.specs.Slots.{IsFirstHeld, HasNoneHeld};

use crate::finder::{Finder, OrderedFinder};
use dubp_costs::NoMemory;
use std::alloc::Global;
use std::collections::BTreeMap;
use std::collections::btree_map::{Entry, Range};
use std::ops::Bound;

/// Slots that are found by the order of their keys.
#[derive(Drop)]
pub struct ByOrder<K: Ord> {
    slots: BTreeMap<K, usize>,
}

impl<K: Ord + Copy> ByOrder<K> {
    /// No key. It takes no memory.
    pub fn new(alloc: Global) -> ByOrder<K>
        ensures { (k : K) → ⟦<ByOrder<K> as Finder<K>>⟧.slot_of result k ≡ None }
    {
        ByOrder {
            slots: BTreeMap::new(alloc),
        }
    }

    /// The keys from a bound on, in their order, each with its slot.
    pub(crate) fn range_from(&self, from: Bound<K>) -> Range<'_, K, usize>
        ensures between { result ≡ entries_between K.cmp from Unbounded self.now.slots.entries }
        ensures ordered { IsOrdered K.cmp self.now.slots }
    {
        self.slots.range((from, Bound::Unbounded))
    }
}

impl<K: Ord + Copy> Finder<K> for ByOrder<K> {
    ghost cmp = { K.cmp };

    ghost slot_of = { λ f. get K.cmp f.slots };

    fn slot(&self, k: K) -> Option<usize> {
        self.slots.get(&k).copied()
    }

    fn place(&mut self, k: K, next: usize) -> Result<Option<usize>, NoMemory> {
        match self.slots.entry(k) {
            Ok(Entry::Occupied(entry)) => Ok(Some(*entry.get())),
            Ok(Entry::Vacant(entry)) => {
                entry.insert(next);
                Ok(None)
            }
            Err(_) => Err(NoMemory),
        }
    }

    fn remove(&mut self, k: K) {
        let _slot = self.slots.remove(&k);
    }

    ghost total = { K.Ord.total };

    ghost respects = { λ f q k. order_respects K.Ord.total f.slots q k };
}

impl<K: Ord + Copy> OrderedFinder<K> for ByOrder<K> {
    // the clauses of the trait, which the check cannot give a method whose trait names a member of another
    fn next_held<V: Copy>(&self, from: Bound<K>, slots: &[Option<V>]) -> Option<(K, V)>
        ensures found { IfSome result (IsFirstHeld K.cmp (get K.cmp self.now.slots) slots.now from) }
        ensures none { IfNone result (HasNoneHeld K.cmp (get K.cmp self.now.slots) slots.now from) }
    {
        for (k, slot) in self.range_from(from) {
            if let Some(v) = held(slots, *slot) {
                return Some((*k, v));
            }
        }
        None
    }
}

/// What the slot holds, if there is one.
pub(crate) fn held<V: Copy>(slots: &[Option<V>], slot: usize) -> Option<V>
    ensures { result ≡ get_or slots.now slot None }
{
    if slot < slots.len() {
        slots[slot]
    } else {
        None
    }
}
