ghost use Rattle.std.specs.Prelude.{◌≡◌, ◌∷◌, ◌&&◌, ◌||◌, ◌<◌, ◌^◌, IfOk, IsTrue, OnOk, length};
ghost use Rattle.std.specs.List.{list_any};
ghost use Rattle.std.specs.BTreeSet.{contains};
ghost use Rattle.indexmap.specs.IndexSet as hashed;
ghost use Rattle.dubp_atoms.specs.Same.{Text, same_text};
ghost use Rattle.dubp_block.specs.declared.block.Block.{Block as BlockValue};
ghost use Rattle.dubp_chain.specs.Chains.{Chain};
ghost use Rattle.dubp_chain.specs.Members.{members};
ghost use Rattle.dubp_iindex.specs.Order.{IsNext};
ghost use Rattle.dubp_iindex.specs.Rows.{texts};
ghost use Rattle.dubp_people_distance.specs.Moved.{joins, leaves, stays, is_joining, is_leaving, SaysWhoJoins, SaysWhoLeaves};

use crate::certified::insert_key;
use crate::two_chains::TwoChains;
use dubp_atoms::{Key, NoMemory, Secret};
use dubp_block::{Block, MemberLine};
use dubp_sets::insert;
use indexmap::IndexSet;
use std::alloc::Global;
use std::collections::BTreeSet;

/// The keys that are members with the block and not before.
pub(crate) fn joined_by<T: TwoChains>(
    alloc: Global,
    chains: &T,
    block: &Block,
) -> Result<BTreeSet<Key>, NoMemory>
    ensures { IfOk result (λ set. (c : Chain) → T.stand chains.now c block.now → SaysWhoJoins c block.now (contains texts set)) }
{
    let mut set = BTreeSet::new(alloc);
    put_joined(chains, block.joiners.as_slice(), &mut set)?;
    Ok(set)
}

/// Puts those keys of the lines into the set that are members with the block and not before.
fn put_joined<T: TwoChains>(
    chains: &T,
    lines: &[MemberLine],
    set: &mut BTreeSet<Key>,
) -> Result<(), NoMemory>
    ensures { OnOk result ((c : Chain) (b : BlockValue) → T.stand chains.now c b → (k : Text) → contains texts set.new k ≡ (contains texts set.old k || list_any (is_joining c b k) lines.now)) }
{
    for line in lines {
        put_joining(chains, line.key, set)?;
    }
    Ok(())
}

fn put_joining<T: TwoChains>(chains: &T, key: Key, set: &mut BTreeSet<Key>) -> Result<(), NoMemory>
    ensures { OnOk result ((c : Chain) (b : BlockValue) → T.stand chains.now c b → (k : Text) → contains texts set.new k ≡ (contains texts set.old k || (same_text k key && joins c b key))) }
{
    if has_joined(chains, &key) {
        insert_key(set, key)?;
    }
    Ok(())
}

fn has_joined<T: TwoChains>(chains: &T, key: &Key) -> bool
    ensures { (c : Chain) (b : BlockValue) → T.stand chains.now c b → result ≡ joins c b key.now }
{
    chains.is_member(*key) && !chains.was_member(*key)
}

/// The keys that are members before the block and not with it.
pub(crate) fn left_by<T: TwoChains>(
    alloc: Global,
    chains: &T,
    block: &Block,
) -> Result<IndexSet<Key, Secret>, NoMemory>
    ensures { IfOk result (λ set. (c : Chain) → T.stand chains.now c block.now → SaysWhoLeaves c block.now (hashed.contains same_text set)) }
{
    let mut set = IndexSet::with_hasher(alloc, chains.secret());
    put_left(chains, block.excluded.as_slice(), &mut set)?;
    Ok(set)
}

/// Puts those of the keys into the set that are members before the block and not with it.
fn put_left<T: TwoChains>(
    chains: &T,
    keys: &[Key],
    set: &mut IndexSet<Key, Secret>,
) -> Result<(), NoMemory>
    ensures { OnOk result ((c : Chain) (b : BlockValue) → T.stand chains.now c b → (k : Text) → hashed.contains same_text set.new k ≡ (hashed.contains same_text set.old k || list_any (is_leaving c b k) keys.now)) }
{
    for key in keys {
        put_leaving(chains, key, set)?;
    }
    Ok(())
}

fn put_leaving<T: TwoChains>(
    chains: &T,
    key: &Key,
    set: &mut IndexSet<Key, Secret>,
) -> Result<(), NoMemory>
    ensures { OnOk result ((c : Chain) (b : BlockValue) → T.stand chains.now c b → (k : Text) → hashed.contains same_text set.new k ≡ (hashed.contains same_text set.old k || is_leaving c b k key.now)) }
{
    if has_left(chains, key) {
        insert(set, *key)?;
    }
    Ok(())
}

fn has_left<T: TwoChains>(chains: &T, key: &Key) -> bool
    ensures { (c : Chain) (b : BlockValue) → T.stand chains.now c b → result ≡ leaves c b key.now }
{
    chains.was_member(*key) && !chains.is_member(*key)
}

/// How many members there are with the block.
pub(crate) fn count_with<T: TwoChains>(
    chains: &T,
    joined: &BTreeSet<Key>,
    left: &IndexSet<Key, Secret>,
) -> u64
    requires few { (c : Chain) × (b : BlockValue) × (T.stand chains.now c b × (SaysWhoJoins c b (contains texts joined.now) × (SaysWhoLeaves c b (hashed.contains same_text left.now) × (length (members (b ∷ c)) < 2 ^ 21)))) }
    ensures { (c : Chain) (b : BlockValue) → T.stand chains.now c b → SaysWhoJoins c b (contains texts joined.now) → SaysWhoLeaves c b (hashed.contains same_text left.now) → result ≡ length (members (b ∷ c)) }
{
    let joining = joined.len() as u64;
    let leaving = left.len() as u64;
    let staying = chains.count_before() - leaving;
    staying + joining
}

/// The least key above `after`, or the least of all, that is a member before the block and with it. None exactly where there is none.
pub(crate) fn next_staying<T: TwoChains>(
    chains: &T,
    left: &IndexSet<Key, Secret>,
    after: Option<Key>,
) -> Option<Key>
    ensures { (c : Chain) (b : BlockValue) → T.stand chains.now c b → SaysWhoLeaves c b (hashed.contains same_text left.now) → IsNext (λ k. IsTrue (stays c b k)) after result }
{
    let mut after = after;
    // each turn passes over one of those that leave
    for turn in 0..left.len() {
        let Some(key) = chains.next_before(after) else {
            return None;
        };
        if !left.contains(&key) {
            return Some(key);
        }
        after = Some(key);
    }
    chains.next_before(after)
}
