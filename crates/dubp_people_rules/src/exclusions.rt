//! Rules on the keys of Excluded.
ghost use Rattle.std.specs.Prelude.{◌≡◌, ◌↔◌, true, cond, IfOk, IsTrue, OnOk};
ghost use Rattle.std.specs.List.{AllByRecursion};
ghost use Rattle.std.specs.Ordering.{is_eq};
ghost use Rattle.std.specs.BTreeSet.{contains};
ghost use Rattle.dubp_atoms.specs.Same.{Text};
ghost use Rattle.dubp_chain.specs.Words.{names};
ghost use Rattle.dubp_chain.specs.Chains.{Chain};
ghost use Rattle.dubp_chain.specs.Live.{kick};
ghost use Rattle.dubp_validity.specs.PeopleRules.{ExcludedAreKicked, KickedAreExcluded};
ghost use Rattle.dubp_iindex.specs.Rows.{texts};
ghost use Rattle.dubp_people_rules.specs.Lines.{IsKicked};

use dubp_atoms::{Key, NoMemory};
use dubp_block::Block;
use dubp_moving::Tables;
use dubp_registry::Registry;
use std::alloc::Global;
use std::collections::BTreeSet;

/// Each key of Excluded is one that the chain has to exclude: rule `G85`.
pub fn excluded_are_kicked(registry: &Registry, block: &Block) -> bool
    ensures { (c : Chain) → ⟦<Registry as Tables<Block>>⟧.at registry.now c → (IsTrue result ↔ ExcludedAreKicked c block.now) }
{
    let keys = block.excluded.as_slice();
    for key in keys {
        if !is_kicked(registry, key) {
            return false;
        }
    }
    true
}

fn is_kicked(registry: &Registry, key: &Key) -> bool
    ensures { (c : Chain) → ⟦<Registry as Tables<Block>>⟧.at registry.now c → (IsTrue result ↔ IsKicked c key.now) }
{
    registry.is_kicked(*key)
}

/// Each key that the chain has to exclude stands in Excluded: rule `G86`.
///
/// `NoMemory` where there is none for a set of the keys of Excluded.
pub fn kicked_are_excluded(
    alloc: Global,
    registry: &Registry,
    block: &Block,
) -> Result<bool, NoMemory>
    ensures { IfOk result (λ holds. (c : Chain) → ⟦<Registry as Tables<Block>>⟧.at registry.now c → (IsTrue holds ↔ KickedAreExcluded c block.now)) }
{
    let mut excluded = set_of(alloc, block.excluded.as_slice())?;
    Ok(kicked_are_among(registry, &mut excluded))
}

/// Whether each key that the chain has to exclude is in the set. Those that are found leave it.
fn kicked_are_among(registry: &Registry, set: &mut BTreeSet<Key>) -> bool
    ensures { (c : Chain) → ⟦<Registry as Tables<Block>>⟧.at registry.now c → (IsTrue result ↔ AllByRecursion (λ k. IsTrue (contains texts set.old k)) (kick c)) }
{
    let mut after = None;
    while let Some(key) = registry.next_kicked(after) {
        if !set.remove(&key) {
            return false;
        }
        after = Some(key);
    }
    true
}

/// The set of the keys.
fn set_of(alloc: Global, keys: &[Key]) -> Result<BTreeSet<Key>, NoMemory>
    ensures { IfOk result (λ set. (k : Text) → contains texts set k ≡ names keys.now k) }
{
    let mut set = BTreeSet::new(alloc);
    for key in keys {
        insert(&mut set, *key)?;
    }
    Ok(set)
}

/// Puts the key into the set.
fn insert(set: &mut BTreeSet<Key>, key: Key) -> Result<(), NoMemory>
    ensures { OnOk result ((k : Text) → contains texts set.new k ≡ cond (is_eq (texts key k)) true (contains texts set.old k)) }
{
    set.insert(key).map_err(|_| NoMemory)?;
    Ok(())
}
