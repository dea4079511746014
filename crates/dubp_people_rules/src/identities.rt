//! Rules on the lines of Identities.
ghost use Rattle.std.specs.Prelude.{◌≡◌, ◌↔◌, IsTrue, is_some};
ghost use Rattle.std.specs.List.{AllByRecursion};
ghost use Rattle.dubp_chain.specs.Chains.{Chain};
ghost use Rattle.dubp_chain.specs.People.{identity};
ghost use Rattle.dubp_validity.specs.Rules.{IsSound};
ghost use Rattle.dubp_validity.specs.PeopleRules.{IdentitiesAreFew, IdentitiesAreInTime, UidsAreNew, IdentitiesAreNew};
ghost use Rattle.dubp_registry.specs.OfLeft.{IsAsked};
ghost use Rattle.dubp_people_rules.specs.Lines.{IsIdentityInTime, IsUidNew, IsIdentityNew};

use crate::windows::is_in_window;
use dubp_atoms::Key;
use dubp_block::{Block, IdentityLine};
use dubp_moving::Tables;
use dubp_registry::{Next, Registry};

/// The most lines of Identities that a chain has.
const MOST_IDENTITIES: u64 = 1_000_000;

/// The chain and the block have at most 1,000,000 lines of Identities together: rule `X06`.
pub fn identities_are_few(registry: &Registry, block: &Block) -> bool
    ensures { (c : Chain) → ⟦<Registry as Tables<Block>>⟧.at registry.now c → IsSound c → (IsTrue result ↔ IdentitiesAreFew c block.now) }
{
    let more = block.identities.as_slice().len() as u64;
    registry.identities().saturating_add(more) <= MOST_IDENTITIES
}

/// The stamp of each identity has a time, and the time of the chain with the block is at most idtyWindow above it: rule `G63`.
pub fn identities_are_in_time(registry: &Registry, next: &Next, block: &Block) -> bool
    ensures { (c : Chain) → ⟦<Registry as Tables<Block>>⟧.at registry.now c → IsAsked c block.now next.now → (IsTrue result ↔ IdentitiesAreInTime c block.now) }
{
    are_in_time(registry, next, block, block.identities.as_slice())
}

fn are_in_time(registry: &Registry, next: &Next, block: &Block, lines: &[IdentityLine]) -> bool
    ensures { (c : Chain) → ⟦<Registry as Tables<Block>>⟧.at registry.now c → IsSound c → (IsTrue result ↔ AllByRecursion (IsIdentityInTime c block.now next.now) lines.now) }
{
    for line in lines {
        if !is_in_time(registry, next, block, line) {
            return false;
        }
    }
    true
}

fn is_in_time(registry: &Registry, next: &Next, block: &Block, line: &IdentityLine) -> bool
    ensures { (c : Chain) → ⟦<Registry as Tables<Block>>⟧.at registry.now c → IsSound c → (IsTrue result ↔ IsIdentityInTime c block.now next.now line.now) }
{
    let made = registry.made(block, &line.stamp);
    is_in_window(next.time, next.params.idty_window, made)
}

/// No UID of Identities stands in an Identities line of the chain: rule `G73`.
pub fn uids_are_new(registry: &Registry, block: &Block) -> bool
    ensures { (c : Chain) → ⟦<Registry as Tables<Block>>⟧.at registry.now c → IsSound c → (IsTrue result ↔ UidsAreNew c block.now) }
{
    let lines = block.identities.as_slice();
    for line in lines {
        if !uid_is_new(registry, line) {
            return false;
        }
    }
    true
}

fn uid_is_new(registry: &Registry, line: &IdentityLine) -> bool
    ensures { (c : Chain) → ⟦<Registry as Tables<Block>>⟧.at registry.now c → IsSound c → (IsTrue result ↔ IsUidNew c line.now) }
{
    !registry.has_uid(line.uid)
}

/// No key of Identities stands in an Identities line of the chain: rule `G74`.
pub fn identities_are_new(registry: &Registry, block: &Block) -> bool
    ensures { (c : Chain) → ⟦<Registry as Tables<Block>>⟧.at registry.now c → (IsTrue result ↔ IdentitiesAreNew c block.now) }
{
    let lines = block.identities.as_slice();
    for line in lines {
        if !identity_is_new(registry, line) {
            return false;
        }
    }
    true
}

fn identity_is_new(registry: &Registry, line: &IdentityLine) -> bool
    ensures { (c : Chain) → ⟦<Registry as Tables<Block>>⟧.at registry.now c → (IsTrue result ↔ IsIdentityNew c line.now) }
{
    !has_identity(registry, line.key)
}

/// Whether the key has an identity in the chain.
pub(crate) fn has_identity(registry: &Registry, key: Key) -> bool
    ensures { (c : Chain) → ⟦<Registry as Tables<Block>>⟧.at registry.now c → result ≡ is_some (identity c key) }
{
    registry.identity(key).is_some()
}
