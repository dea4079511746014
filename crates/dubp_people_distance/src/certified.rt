ghost use Rattle.std.specs.Prelude.{◌≡◌, true, false, cond, IfNone, IfOk, IfSome, IsTrue, OnOk};
ghost use Rattle.std.specs.Ordering.{is_eq};
ghost use Rattle.std.specs.BTreeMap.Range.{IsFromStart, IsLeBy};
ghost use Rattle.std.specs.BTreeSet.{IsOrdered, contains};
ghost use Rattle.indexmap.specs.IndexSet as hashed;
ghost use Rattle.dubp_atoms.specs.Same.{Text, same_text};
ghost use Rattle.dubp_iindex.specs.Order.{IsNext};
ghost use Rattle.dubp_iindex.specs.Rows.{texts};

use dubp_atoms::{Key, NoMemory, Secret};
use indexmap::IndexSet;
use std::alloc::Global;
use std::collections::BTreeSet;
use std::ops::Bound;

/// The live certifications of a key.
#[derive(Drop)]
pub struct Certified {
    /// From whom the key has one.
    pub issuers: BTreeSet<Key>,
    /// How many it has issued.
    pub stock: u64,
    /// How many it has received.
    pub received: u64,
}

/// How many live certifications a key has.
#[derive(Clone, Copy)]
pub struct Counts {
    /// How many it has issued.
    pub stock: u64,
    /// How many it has received.
    pub received: u64,
}

/// The keys, in order. `NoMemory` where there is none for the set.
pub fn in_order(alloc: Global, keys: &IndexSet<Key, Secret>) -> Result<BTreeSet<Key>, NoMemory>
    ensures { IfOk result (λ set. (k : Text) → contains texts set k ≡ hashed.contains same_text keys.now k) }
{
    let mut set = BTreeSet::new(alloc);
    for i in 0..keys.len() {
        insert_key(&mut set, keys[i])?;
    }
    Ok(set)
}

/// Puts the key into the set.
pub(crate) fn insert_key(set: &mut BTreeSet<Key>, key: Key) -> Result<(), NoMemory>
    ensures { OnOk result ((k : Text) → contains texts set.new k ≡ cond (is_eq (texts key k)) true (contains texts set.old k)) }
{
    set.insert(key).map_err(|_| NoMemory)?;
    Ok(())
}

/// The least key of the set above `after`, or the least of all. None exactly where there is none.
pub(crate) fn next_above(set: &BTreeSet<Key>, after: &Option<Key>) -> Option<Key>
    ensures { IsNext (λ k. IsTrue (contains texts set.now k)) after.now result }
{
    match after {
        None => first_from(set, Bound::Unbounded),
        Some(key) => first_from(set, Bound::Excluded(*key)),
    }
}

/// The keys of the set, in the order in which it keeps them.
pub(crate) fn keys_in_order(alloc: Global, set: &BTreeSet<Key>) -> Result<Vec<Key>, NoMemory>
    ensures same { IfOk result (λ keys. keys.items ≡ set.now.keys) }
    ensures ordered { IsOrdered texts set.now }
{
    let found = set.iter().copied().collect(alloc);
    let keys: Vec<Key> = found.map_err(|_| NoMemory)?;
    Ok(keys)
}

/// The least key of the set from a bound on.
fn first_from(set: &BTreeSet<Key>, from: Bound<Key>) -> Option<Key>
    ensures found { IfSome result (λ k. IsTrue (contains texts set.now k) × IsFromStart texts from k) }
    ensures least { (q : Text) → IsFromStart texts from q → IsTrue (contains texts set.now q) → IfSome result (λ k. IsLeBy texts k q) }
    ensures none { IfNone result ((q : Text) → IsFromStart texts from q → contains texts set.now q ≡ false) }
{
    match set.range((from, Bound::Unbounded)).next() {
        Some(key) => Some(*key),
        None => None,
    }
}
