//! Sets of plain values: the set of a list, and what of a list is in a set.
//!
//! A set keeps the order of insertion and finds a value in constant time. Contracts speak of what it contains. Where strangers choose the
//! values, a secret makes it (`dubp_atoms::Secret`): who does not know it chooses none that are slow to find.
//!
//! ```text
//! let joining = set_of(alloc, secret, keys.as_slice())?;
//! joining.contains(&key)
//! ```
#![tactic(auto)]

ghost use Rattle.std.specs.Prelude.{◌≡◌, true, IfOk, OnOk, OnErr, cond, not};
ghost use Rattle.std.specs.List.{list_all, list_any};
ghost use Rattle.indexmap.specs.IndexSet.{contains, insert_key};

use dubp_atoms::NoMemory;
use indexmap::IndexSet;
use std::alloc::Global;
use std::hash::{BuildHasher, Hash};

/// Puts the value into the set, and tells whether it was new.
pub fn insert<T: Copy + Eq + Hash, S: BuildHasher>(
    set: &mut IndexSet<T, S>,
    value: T,
) -> Result<bool, NoMemory>
    ensures is_new { IfOk result (λ is_new. is_new ≡ not (contains T.eq set.old value)) }
    ensures keys { OnOk result (set.new.keys ≡ insert_key T.eq set.old.keys value) }
    ensures has { OnOk result ((k : T) → contains T.eq set.new k ≡ cond (T.eq value k) true (contains T.eq set.old k)) }
    ensures refused { OnErr result (set.new.keys ≡ set.old.keys) }
{
    set.insert(value).map_err(|_| NoMemory)
}

/// The set of the values, which are hashed by the secret.
pub fn set_of<T: Copy + Eq + Hash, S: BuildHasher + Drop>(
    alloc: Global,
    secret: S,
    values: &[T],
) -> Result<IndexSet<T, S>, NoMemory>
    ensures { IfOk result (λ set. (k : T) → contains T.eq set k ≡ list_any (T.eq k) values.now) }
{
    let mut set = IndexSet::with_hasher(alloc, secret);
    for value in values {
        insert(&mut set, *value)?;
    }
    Ok(set)
}

/// Whether each of the values is in the set.
pub fn has_all<T: Copy + Eq + Hash, S: BuildHasher>(set: &IndexSet<T, S>, values: &[T]) -> bool
    ensures { result ≡ list_all (contains T.eq set.now) values.now }
{
    values.iter().all(|value| set.contains(value))
}

/// Whether none of the values is in the set.
pub fn has_none<T: Copy + Eq + Hash, S: BuildHasher>(set: &IndexSet<T, S>, values: &[T]) -> bool
    ensures { result ≡ list_all (λ value. not (contains T.eq set.now value)) values.now }
{
    values.iter().all(|value| !set.contains(value))
}
