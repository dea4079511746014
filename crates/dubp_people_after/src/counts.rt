ghost use Rattle.std.specs.Prelude.{◌≡◌, ◌∷◌, ◌||◌, IfOk, OnOk, count_by};
ghost use Rattle.std.specs.List.{IsDistinct, list_any};
ghost use Rattle.indexmap.specs.IndexSet.{contains};
ghost use Rattle.dubp_atoms.specs.Same.{Text, same_text};
ghost use Rattle.dubp_block.specs.declared.block.Block.{Block as BlockValue};
ghost use Rattle.dubp_chain.specs.Chains.{Chain};
ghost use Rattle.dubp_chain.specs.Live.{live, received, stock};
ghost use Rattle.dubp_people_after.specs.Near.{is_issuer, is_near_issuer, is_receiver};

use crate::after::WithBlock;
use dubp_atoms::{Key, NoMemory, Secret};
use dubp_sets::insert;
use indexmap::IndexSet;
use std::alloc::Global;

/// How many live certifications the key has received on the chain with the block.
///
/// `NoMemory` where there is no memory for the keys that it has certifications with.
pub fn received<A: WithBlock>(alloc: Global, after: &A, key: Key) -> Result<u64, NoMemory>
    ensures { IfOk result (λ n. (c : Chain) (b : BlockValue) → A.after after.now c b → n ≡ received (b ∷ c) key) }
{
    let near = after.near(alloc, key)?;
    Ok(count_issuers(after, &near, &key))
}

/// How many of the certifications that the key has issued are live on the chain with the block.
///
/// `NoMemory` where there is no memory for the keys that it has certifications with.
pub fn stock<A: WithBlock>(alloc: Global, after: &A, key: Key) -> Result<u64, NoMemory>
    ensures { IfOk result (λ n. (c : Chain) (b : BlockValue) → A.after after.now c b → n ≡ stock (b ∷ c) key) }
{
    let near = after.near(alloc, key)?;
    Ok(count_receivers(after, &near, &key))
}

/// The keys from which this key has a live certification on the chain with the block.
///
/// `NoMemory` where there is no memory for the keys that it has certifications with.
pub fn issuers<A: WithBlock>(
    alloc: Global,
    after: &A,
    key: Key,
) -> Result<IndexSet<Key, Secret>, NoMemory>
    ensures { IfOk result (λ found. (c : Chain) (b : BlockValue) → A.after after.now c b → (a : Text) → contains same_text found a ≡ live (b ∷ c) a key) }
{
    let near = after.near(alloc, key)?;
    let mut found = IndexSet::with_hasher(alloc, after.secret());
    put_issuers(after, &near, &key, &mut found)?;
    Ok(found)
}

/// Puts those of the keys into the set from which this key has a live certification.
fn put_issuers<A: WithBlock>(
    after: &A,
    near: &IndexSet<Key, Secret>,
    key: &Key,
    found: &mut IndexSet<Key, Secret>,
) -> Result<(), NoMemory>
    ensures { OnOk result ((c : Chain) (b : BlockValue) → A.after after.now c b → (a : Text) → contains same_text found.new a ≡ (contains same_text found.old a || list_any (is_near_issuer c b key.now a) near.now.keys)) }
{
    for i in 0..near.len() {
        let from = near[i];
        if after.is_live(from, *key) {
            insert(found, from)?;
        }
    }
    Ok(())
}

/// From how many of the keys this key has a live certification.
fn count_issuers<A: WithBlock>(after: &A, near: &IndexSet<Key, Secret>, key: &Key) -> u64
    ensures once { IsDistinct same_text near.now.keys }
    ensures count { (c : Chain) (b : BlockValue) → A.after after.now c b → result ≡ count_by (is_issuer c b key.now) near.now.keys }
{
    let mut count = 0;
    for i in 0..near.len() {
        if after.is_live(near[i], *key) {
            count += 1;
        }
    }
    count
}

/// To how many of the keys this key has a live certification.
fn count_receivers<A: WithBlock>(after: &A, near: &IndexSet<Key, Secret>, key: &Key) -> u64
    ensures once { IsDistinct same_text near.now.keys }
    ensures count { (c : Chain) (b : BlockValue) → A.after after.now c b → result ≡ count_by (is_receiver c b key.now) near.now.keys }
{
    let mut count = 0;
    for i in 0..near.len() {
        if after.is_live(*key, near[i]) {
            count += 1;
        }
    }
    count
}
