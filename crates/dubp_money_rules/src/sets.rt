//! Whether a value stands twice.
ghost use Rattle.std.specs.Prelude.{◌≡◌, IfOk, MatchOption, OnOk, false, not};
ghost use Rattle.indexmap.specs.IndexSet.{contains, insert_key};
ghost use Rattle.dubp_chain.specs.Words.{each_once};
ghost use Rattle.dubp_money_rules.specs.Lines.{IsSetOf};

use dubp_atoms::NoMemory;
use indexmap::IndexSet;
use std::alloc::Global;
use std::hash::Hash;

/// Puts the value into the set, and tells whether it was new.
fn insert<T: Copy + Eq + Hash>(set: &mut IndexSet<T>, value: T) -> Result<bool, NoMemory>
    ensures is_new { IfOk result (λ is_new. is_new ≡ not (contains T.eq set.old value)) }
    ensures keys { OnOk result (set.new.keys ≡ insert_key T.eq set.old.keys value) }
{
    set.insert(value).map_err(|_| NoMemory)
}

/// Whether none of the values stands twice.
pub(crate) fn stand_once<T: Copy + Eq + Hash>(alloc: Global, values: &[T]) -> Result<bool, NoMemory>
    ensures { IfOk result (λ once. once ≡ each_once T.eq values.now) }
{
    let set = set_once(alloc, values)?;
    Ok(set.is_some())
}

/// The set of the values, in their order. None where one stands twice.
pub(crate) fn set_once<T: Copy + Eq + Hash>(
    alloc: Global,
    values: &[T],
) -> Result<Option<IndexSet<T>>, NoMemory>
    ensures { IfOk result (λ found. MatchOption found (each_once T.eq values.now ≡ false) (λ set. IsSetOf T.eq set.keys values.now)) }
{
    let mut seen = IndexSet::new(alloc);
    for value in values {
        if !insert(&mut seen, *value)? {
            return Ok(None);
        }
    }
    Ok(Some(seen))
}
