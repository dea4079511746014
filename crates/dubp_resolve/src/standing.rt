ghost use Rattle.std.specs.Prelude.{◌≡◌, ◌+◌, ◌<◌, ◌^◌, ℕ, cond, Option, Some, None, IfOk, OnOk, is_some, true};
ghost use Rattle.std.specs.List.Sorted.{IsPermutation, IsNonDecreasingBy};
ghost use Rattle.std.specs.Option.{MatchOption};
ghost use Rattle.std.specs.HashSet.{contains};
ghost use Rattle.std.specs.HashMap.{get};
ghost use Rattle.dubp_atoms.specs.declared.stamp.Stamp.{Stamp as StampValue};
ghost use Rattle.dubp_atoms.specs.Same.{same_stamp};
ghost use Rattle.dubp_resolve.specs.Choice.{is_among, path_of};
ghost use Rattle.dubp_resolve.specs.Known.{AreOffers, IsFound, IsNumbered, height_at, height_of, seen};

use crate::gathering::gather;
use crate::view::{Offered, View};
use dubp_atoms::{NoMemory, Secret, Stamp};
use std::alloc::Global;
use std::collections::{HashMap, HashSet};

/// For each stored block, how many blocks the chain has up to where its path ends. None where the path is detached, or a failure is on it.
///
/// The blocks are taken in the order of their numbers, so that each finds what is known of the one before by one look.
pub(crate) fn find_heights(
    alloc: Global,
    secret: Secret,
    view: &View,
) -> Result<HashMap<Stamp, Option<u64>, Secret>, NoMemory>
    requires { AreOffers view.now.offers.items }
    ensures { IfOk result (λ heights. (s : StampValue) → get same_stamp heights s ≡ height_at (seen view.now) s) }
{
    let failed = gather(alloc, secret, &view.failed)?;
    let recent = gather(alloc, secret, &view.recent)?;
    let blocks = sorted(alloc, &view.offers)?;
    let mut heights = HashMap::with_hasher(alloc, secret);
    for block in &blocks {
        let height = height(view, &failed, &recent, &heights, block);
        note(&mut heights, block.stamp, height)?;
    }
    Ok(heights)
}

/// How many blocks the chain has up to where the block's path ends, by what is known of the block before.
fn height(
    view: &View,
    failed: &HashSet<Stamp, Secret>,
    recent: &HashSet<Stamp, Secret>,
    heights: &HashMap<Stamp, Option<u64>, Secret>,
    block: &Offered,
) -> Option<u64>
    requires failed { (s : StampValue) → contains same_stamp failed.now s ≡ is_among view.now.failed.items s }
    requires recent { (s : StampValue) → contains same_stamp recent.now s ≡ is_among view.now.recent.items s }
    requires found { IsFound view.now.offers.items block.now }
    requires numbered { IsNumbered block.now }
    requires before { MatchOption block.now.previous (Unit {0}) (λ s. get same_stamp heights.now s ≡ height_at (seen view.now) s) }
    ensures { result ≡ height_of (seen view.now) (path_of (seen view.now) block.now) }
{
    if failed.contains(&block.stamp) {
        return None;
    }
    let Some(before) = block.previous else {
        return Some(0);
    };
    match heights.get(&before) {
        Some(height) => *height,
        None => height_on(recent, before, block.stamp.number),
    }
}

/// So many, where the stamp is among the recent ones, else None.
fn height_on(recent: &HashSet<Stamp, Secret>, stamp: Stamp, height: u64) -> Option<u64>
    ensures { result ≡ cond (contains same_stamp recent.now stamp) (Some height) None }
{
    if recent.contains(&stamp) {
        Some(height)
    } else {
        None
    }
}

fn note(
    heights: &mut HashMap<Stamp, Option<u64>, Secret>,
    stamp: Stamp,
    height: Option<u64>,
) -> Result<(), NoMemory>
    ensures { OnOk result ((s : StampValue) → get same_stamp heights.new s ≡ cond (same_stamp s stamp) (Some height) (get same_stamp heights.old s)) }
{
    match heights.insert(stamp, height) {
        Ok(_) => Ok(()),
        Err(_) => Err(NoMemory),
    }
}

/// The blocks in the order of their numbers.
fn sorted(alloc: Global, offers: &[Offered]) -> Result<Vec<Offered>, NoMemory>
    ensures permutation { IfOk result (λ blocks. IsPermutation offers.now blocks.items) }
    ensures ascending { IfOk result (λ blocks. IsNonDecreasingBy (λ b. b.stamp.number) blocks.items) }
{
    let Ok(mut blocks) = offers.to_vec(alloc) else {
        return Err(NoMemory);
    };
    match blocks.sort_by_key(
        |block: &Offered| -> u64
            ensures { result ≡ block.now.stamp.number }
        { block.stamp.number },
    ) {
        Ok(_) => Ok(blocks),
        Err(_) => Err(NoMemory),
    }
}
