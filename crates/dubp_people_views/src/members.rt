ghost use Rattle.std.specs.Prelude.{◌≡◌, ◌∷◌, ◌&&◌, ◌<◌, ◌^◌, IfOk, count_by, length};
ghost use Rattle.std.specs.List.{IsDistinct, list_any};
ghost use Rattle.indexmap.specs.IndexSet.{contains};
ghost use Rattle.dubp_atoms.specs.Same.{Text, same_text};
ghost use Rattle.dubp_chain.specs.Chains.{Chain};
ghost use Rattle.dubp_chain.specs.Members.{is_of, members};
ghost use Rattle.dubp_registry.specs.OfValidity.{IsSound};
ghost use Rattle.dubp_people_views.specs.Counting.{is_new_member, is_old_member};

use dubp_atoms::{Key, NoMemory, Secret};
use dubp_block::{Block, MemberLine};
use dubp_moving::Tables;
use dubp_registry::Registry;
use dubp_sets::{insert, set_of};
use indexmap::IndexSet;
use std::alloc::Global;

/// How many members the chain of the registry has with the block on it, whatever rules the block breaks.
///
/// It looks at the lines of Joiners and Excluded. `NoMemory` where there is none for the sets of their keys.
pub fn members_with(alloc: Global, registry: &Registry, block: &Block) -> Result<u64, NoMemory>
    ensures { IfOk result (λ n. (c : Chain) → ⟦<Registry as Tables<Block>>⟧.at registry.now c → IsSound c → n ≡ length (members (block.now ∷ c))) }
{
    let excluded = set_of(alloc, registry.secret(), block.excluded.as_slice())?;
    let joined = joined_keys(alloc, registry.secret(), block.joiners.as_slice())?;
    let gone = count_gone(registry, &excluded);
    let come = count_come(registry, &joined, &excluded);
    Ok(registry.members().saturating_sub(gone).saturating_add(come))
}

/// The keys of the lines.
fn joined_keys(
    alloc: Global,
    secret: Secret,
    lines: &[MemberLine],
) -> Result<IndexSet<Key, Secret>, NoMemory>
    ensures { IfOk result (λ set. (k : Text) → contains same_text set k ≡ list_any (is_of k) lines.now) }
{
    let mut set = IndexSet::with_hasher(alloc, secret);
    for line in lines {
        insert(&mut set, line.key)?;
    }
    Ok(set)
}

/// How many of the keys are members of the chain.
fn count_gone(registry: &Registry, keys: &IndexSet<Key, Secret>) -> u64
    ensures once { IsDistinct same_text keys.now.keys }
    ensures count { (c : Chain) → ⟦<Registry as Tables<Block>>⟧.at registry.now c → IsSound c → result ≡ count_by (is_old_member c) keys.now.keys }
{
    let mut count = 0;
    for i in 0..keys.len() {
        if registry.is_member(keys[i]) {
            count += 1;
        }
    }
    count
}

/// How many of the keys are neither members of the chain nor excluded.
fn count_come(
    registry: &Registry,
    keys: &IndexSet<Key, Secret>,
    excluded: &IndexSet<Key, Secret>,
) -> u64
    ensures once { IsDistinct same_text keys.now.keys }
    ensures small { result < 2 ^ 63 }
    ensures count { (c : Chain) → ⟦<Registry as Tables<Block>>⟧.at registry.now c → IsSound c → result ≡ count_by (is_new_member c (contains same_text excluded.now)) keys.now.keys }
{
    let mut count = 0;
    for i in 0..keys.len() {
        if is_new(registry, excluded, keys[i]) {
            count += 1;
        }
    }
    count
}

/// Whether the key is neither a member of the chain nor excluded.
fn is_new(registry: &Registry, excluded: &IndexSet<Key, Secret>, key: Key) -> bool
    ensures { (c : Chain) → ⟦<Registry as Tables<Block>>⟧.at registry.now c → IsSound c → result ≡ is_new_member c (contains same_text excluded.now) key }
{
    !excluded.contains(&key) && !registry.is_member(key)
}
