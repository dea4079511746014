ghost use Rattle.std.specs.Prelude.{◌≡◌, ◌&&◌, ◌+◌, ◌-◌, ◌≤◌, length, IfOk, true, nat_le, nat_lt};
ghost use Rattle.std.specs.Option.{option_map, option_map_or};
ghost use Rattle.std.specs.HashMap.{get};
ghost use Rattle.dubp_atoms.specs.declared.stamp.Stamp.{Stamp as StampValue};
ghost use Rattle.dubp_atoms.specs.Same.{same_stamp};
ghost use Rattle.dubp_resolve.specs.Choice.{choice, is_candidate, most_stored};
ghost use Rattle.dubp_resolve.specs.Known.{AreOffers, IsFound, IsNumbered, height_at, seen};

use crate::standing::find_heights;
use crate::view::{Offered, View};
use dubp_atoms::{NoMemory, Secret, Stamp};
use std::alloc::Global;
use std::collections::HashMap;

/// The stored block to switch to: the candidate of greatest number, the first of those that were offered among equal ones. None exactly
/// where there is no candidate.
///
/// The secret is what stamps are hashed by: who does not know it offers none that are slower to find than others. `NoMemory` where there is no room
/// to find it.
pub fn choose(alloc: Global, secret: Secret, view: &View) -> Result<Option<Stamp>, NoMemory>
    requires { AreOffers view.now.offers.items }
    ensures { IfOk result (λ chosen. chosen ≡ option_map (λ b. b.stamp) (choice (seen view.now))) }
{
    let heights = find_heights(alloc, secret, view)?;
    match best(view, &heights) {
        Some(block) => Ok(Some(block.stamp)),
        None => Ok(None),
    }
}

fn best(view: &View, heights: &HashMap<Stamp, Option<u64>, Secret>) -> Option<Offered>
    requires offers { AreOffers view.now.offers.items }
    requires heights { (s : StampValue) → get same_stamp heights.now s ≡ height_at (seen view.now) s }
    ensures { result ≡ choice (seen view.now) }
{
    let mut best = None;
    for block in &view.offers {
        if is_candidate(view, heights, block) && is_greater(block, &best) {
            best = Some(*block);
        }
    }
    best
}

fn is_greater(block: &Offered, best: &Option<Offered>) -> bool
    ensures { result ≡ option_map_or (λ c. nat_lt c.stamp.number block.now.stamp.number) best.now true }
{
    match best {
        Some(other) => other.stamp.number < block.stamp.number,
        None => true,
    }
}

fn is_candidate(view: &View, heights: &HashMap<Stamp, Option<u64>, Secret>, block: &Offered) -> bool
    requires offers { AreOffers view.now.offers.items }
    requires found { IsFound view.now.offers.items block.now }
    requires numbered { IsNumbered block.now }
    requires heights { (s : StampValue) → get same_stamp heights.now s ≡ height_at (seen view.now) s }
    ensures { result ≡ is_candidate (seen view.now) block.now }
{
    match heights.get(&block.stamp) {
        Some(Some(height)) => is_candidate_on(view, *height, block.stamp.number),
        _ => false,
    }
}

fn is_candidate_on(view: &View, height: u64, number: u64) -> bool
    requires few { length view.now.offers.items ≤ most_stored }
    requires below { height ≤ number }
    ensures { result ≡ (nat_le (view.now.length + 2) number
        && (nat_le (view.now.length - height) view.now.kept
        && nat_le ((length view.now.offers.items - (number + 1 - height)) + (view.now.length - height)) most_stored)) }
{
    if number < 2 || number - 2 < view.length {
        return false;
    }
    let behind = view.length.saturating_sub(height);
    let others = (view.offers.len() as u64)
        .saturating_sub(number - height)
        .saturating_sub(1);
    behind <= view.kept as u64 && behind <= 1024 - others
}
