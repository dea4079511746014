//! Rules on the lines of Joiners, Actives and Leavers.
ghost use Rattle.std.specs.Prelude.{◌≡◌, ◌↔◌, IsTrue, MatchOption, ⊤, option_map};
ghost use Rattle.std.specs.List.{AllByRecursion};
ghost use Rattle.dubp_chain.specs.Chains.{Chain};
ghost use Rattle.dubp_chain.specs.People.{membership, membership_lines};
ghost use Rattle.dubp_validity.specs.Rules.{IsSound};
ghost use Rattle.dubp_validity.specs.PeopleRules.{MembershipsAreInTime, MembershipsAreNewer, MembershipsAreApart, JoinersAreNoMembers, ActivesAreMembers, LeaversMayLeave, NobodyRevokedMoves};
ghost use Rattle.dubp_registry.specs.OfLeft.{IsAsked};
ghost use Rattle.dubp_people_rules.specs.Lines.{InSections, IsApart, IsMembershipInTime, IsMembershipNewer, IsMembershipApart, IsNewerThan, IsNoMember, IsMember, MayLeave, IsNotRevoked};

use crate::windows::{has_waited_since, is_in_window};
use dubp_atoms::Key;
use dubp_block::{Block, MemberLine};
use dubp_mindex::MemberRow;
use dubp_moving::Tables;
use dubp_registry::{Next, Registry};

/// The version of blocks whose memberships need not be apart.
const FIRST_VERSION: u64 = 10;

/// The stamp of each membership has a time, and the time of the chain with the block is at most msWindow above it: rule `G64`.
pub fn memberships_are_in_time(registry: &Registry, next: &Next, block: &Block) -> bool
    ensures { (c : Chain) → ⟦<Registry as Tables<Block>>⟧.at registry.now c → IsAsked c block.now next.now → (IsTrue result ↔ MembershipsAreInTime c block.now) }
{
    sections_are_in_time(registry, next, block)
}

fn sections_are_in_time(registry: &Registry, next: &Next, block: &Block) -> bool
    ensures { (c : Chain) → ⟦<Registry as Tables<Block>>⟧.at registry.now c → IsSound c → (IsTrue result ↔ InSections (IsMembershipInTime c block.now next.now) block.now) }
{
    are_in_time(registry, next, block, block.joiners.as_slice())
        && are_in_time(registry, next, block, block.actives.as_slice())
        && are_in_time(registry, next, block, block.leavers.as_slice())
}

fn are_in_time(registry: &Registry, next: &Next, block: &Block, lines: &[MemberLine]) -> bool
    ensures { (c : Chain) → ⟦<Registry as Tables<Block>>⟧.at registry.now c → IsSound c → (IsTrue result ↔ AllByRecursion (IsMembershipInTime c block.now next.now) lines.now) }
{
    for line in lines {
        if !is_in_time(registry, next, block, line) {
            return false;
        }
    }
    true
}

fn is_in_time(registry: &Registry, next: &Next, block: &Block, line: &MemberLine) -> bool
    ensures { (c : Chain) → ⟦<Registry as Tables<Block>>⟧.at registry.now c → IsSound c → (IsTrue result ↔ IsMembershipInTime c block.now next.now line.now) }
{
    let made = registry.made(block, &line.stamp);
    is_in_window(next.time, next.params.ms_window, made)
}

/// The block number of each membership's stamp is above that of the last membership of its key in the chain, where there is one:
/// rule `G75`.
pub fn memberships_are_newer(registry: &Registry, block: &Block) -> bool
    ensures { (c : Chain) → ⟦<Registry as Tables<Block>>⟧.at registry.now c → (IsTrue result ↔ MembershipsAreNewer c block.now) }
{
    sections_are_newer(registry, block)
}

fn sections_are_newer(registry: &Registry, block: &Block) -> bool
    ensures { (c : Chain) → ⟦<Registry as Tables<Block>>⟧.at registry.now c → (IsTrue result ↔ InSections (IsMembershipNewer c) block.now) }
{
    are_newer(registry, block.joiners.as_slice())
        && are_newer(registry, block.actives.as_slice())
        && are_newer(registry, block.leavers.as_slice())
}

fn are_newer(registry: &Registry, lines: &[MemberLine]) -> bool
    ensures { (c : Chain) → ⟦<Registry as Tables<Block>>⟧.at registry.now c → (IsTrue result ↔ AllByRecursion (IsMembershipNewer c) lines.now) }
{
    for line in lines {
        if !is_newer(registry, line) {
            return false;
        }
    }
    true
}

fn is_newer(registry: &Registry, line: &MemberLine) -> bool
    ensures { (c : Chain) → ⟦<Registry as Tables<Block>>⟧.at registry.now c → (IsTrue result ↔ IsMembershipNewer c line.now) }
{
    is_newer_than(line, registry.membership(line.key))
}

/// Whether the stamp of the line is of a later block than that of the last one of its key.
fn is_newer_than(line: &MemberLine, last: Option<MemberRow>) -> bool
    ensures { IsTrue result ↔ MatchOption last ⊤ (IsNewerThan line.now) }
{
    match last {
        Some(last) => last.last_number < line.stamp.number,
        None => true,
    }
}

/// Version is 10, or for each membership whose key has one in the chain, the time of the chain with the block is at least msWindow
/// above the median time of the block of the last one: rule `G108`.
pub fn memberships_are_apart(registry: &Registry, next: &Next, block: &Block) -> bool
    ensures { (c : Chain) → ⟦<Registry as Tables<Block>>⟧.at registry.now c → IsAsked c block.now next.now → (IsTrue result ↔ MembershipsAreApart c block.now) }
{
    block.version == FIRST_VERSION || all_are_apart(registry, next, block)
}

fn all_are_apart(registry: &Registry, next: &Next, block: &Block) -> bool
    ensures { (c : Chain) → ⟦<Registry as Tables<Block>>⟧.at registry.now c → IsAsked c block.now next.now → (IsTrue result ↔ AllByRecursion (IsApart c block.now) (membership_lines block.now)) }
{
    sections_are_apart(registry, next, block)
}

fn sections_are_apart(registry: &Registry, next: &Next, block: &Block) -> bool
    ensures { (c : Chain) → ⟦<Registry as Tables<Block>>⟧.at registry.now c → (IsTrue result ↔ InSections (IsMembershipApart c next.now) block.now) }
{
    are_apart(registry, next, block.joiners.as_slice())
        && are_apart(registry, next, block.actives.as_slice())
        && are_apart(registry, next, block.leavers.as_slice())
}

fn are_apart(registry: &Registry, next: &Next, lines: &[MemberLine]) -> bool
    ensures { (c : Chain) → ⟦<Registry as Tables<Block>>⟧.at registry.now c → (IsTrue result ↔ AllByRecursion (IsMembershipApart c next.now) lines.now) }
{
    for line in lines {
        if !is_apart(registry, next, line) {
            return false;
        }
    }
    true
}

fn is_apart(registry: &Registry, next: &Next, line: &MemberLine) -> bool
    ensures { (c : Chain) → ⟦<Registry as Tables<Block>>⟧.at registry.now c → (IsTrue result ↔ IsMembershipApart c next.now line.now) }
{
    let last = last_written(registry, line.key);
    has_waited_since(registry, next.time, next.params.ms_window, last)
}

/// The number of the block with the last membership of the key, or None where it has none.
fn last_written(registry: &Registry, key: Key) -> Option<u64>
    ensures { (c : Chain) → ⟦<Registry as Tables<Block>>⟧.at registry.now c → result ≡ option_map (λ w. w.block.number) (membership c key) }
{
    match registry.membership(key) {
        Some(last) => Some(last.written),
        None => None,
    }
}

/// No key of Joiners is a member of the chain: rule `G78`.
pub fn joiners_are_no_members(registry: &Registry, block: &Block) -> bool
    ensures { (c : Chain) → ⟦<Registry as Tables<Block>>⟧.at registry.now c → IsSound c → (IsTrue result ↔ JoinersAreNoMembers c block.now) }
{
    let lines = block.joiners.as_slice();
    for line in lines {
        if !is_no_member(registry, line) {
            return false;
        }
    }
    true
}

fn is_no_member(registry: &Registry, line: &MemberLine) -> bool
    ensures { (c : Chain) → ⟦<Registry as Tables<Block>>⟧.at registry.now c → IsSound c → (IsTrue result ↔ IsNoMember c line.now) }
{
    !registry.is_member(line.key)
}

/// Each key of Actives is a member of the chain: rule `G81`.
pub fn actives_are_members(registry: &Registry, block: &Block) -> bool
    ensures { (c : Chain) → ⟦<Registry as Tables<Block>>⟧.at registry.now c → IsSound c → (IsTrue result ↔ ActivesAreMembers c block.now) }
{
    let lines = block.actives.as_slice();
    for line in lines {
        if !is_member(registry, line) {
            return false;
        }
    }
    true
}

fn is_member(registry: &Registry, line: &MemberLine) -> bool
    ensures { (c : Chain) → ⟦<Registry as Tables<Block>>⟧.at registry.now c → IsSound c → (IsTrue result ↔ IsMember c line.now) }
{
    registry.is_member(line.key)
}

/// Each key of Leavers is a member of the chain and not leaving in it: rule `G80`.
pub fn leavers_may_leave(registry: &Registry, block: &Block) -> bool
    ensures { (c : Chain) → ⟦<Registry as Tables<Block>>⟧.at registry.now c → IsSound c → (IsTrue result ↔ LeaversMayLeave c block.now) }
{
    let lines = block.leavers.as_slice();
    for line in lines {
        if !may_leave(registry, line) {
            return false;
        }
    }
    true
}

fn may_leave(registry: &Registry, line: &MemberLine) -> bool
    ensures { (c : Chain) → ⟦<Registry as Tables<Block>>⟧.at registry.now c → IsSound c → (IsTrue result ↔ MayLeave c line.now) }
{
    registry.is_member(line.key) && !registry.is_leaving(line.key)
}

/// No key of Joiners, Actives or Leavers is revoked in the chain: rule `G77`.
pub fn nobody_revoked_moves(registry: &Registry, block: &Block) -> bool
    ensures { (c : Chain) → ⟦<Registry as Tables<Block>>⟧.at registry.now c → IsSound c → (IsTrue result ↔ NobodyRevokedMoves c block.now) }
{
    sections_are_not_revoked(registry, block)
}

fn sections_are_not_revoked(registry: &Registry, block: &Block) -> bool
    ensures { (c : Chain) → ⟦<Registry as Tables<Block>>⟧.at registry.now c → IsSound c → (IsTrue result ↔ InSections (IsNotRevoked c) block.now) }
{
    are_not_revoked(registry, block.joiners.as_slice())
        && are_not_revoked(registry, block.actives.as_slice())
        && are_not_revoked(registry, block.leavers.as_slice())
}

fn are_not_revoked(registry: &Registry, lines: &[MemberLine]) -> bool
    ensures { (c : Chain) → ⟦<Registry as Tables<Block>>⟧.at registry.now c → IsSound c → (IsTrue result ↔ AllByRecursion (IsNotRevoked c) lines.now) }
{
    for line in lines {
        if !is_not_revoked(registry, line) {
            return false;
        }
    }
    true
}

fn is_not_revoked(registry: &Registry, line: &MemberLine) -> bool
    ensures { (c : Chain) → ⟦<Registry as Tables<Block>>⟧.at registry.now c → IsSound c → (IsTrue result ↔ IsNotRevoked c line.now) }
{
    !registry.is_revoked(line.key)
}
