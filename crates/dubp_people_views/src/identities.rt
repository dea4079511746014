ghost use Rattle.std.specs.Prelude.{◌≡◌, find, option_map};
ghost use Rattle.dubp_atoms.specs.Same.{same_text};
ghost use Rattle.dubp_chain.specs.Chains.{Chain};
ghost use Rattle.dubp_chain.specs.People.{identity, identity_lines};
ghost use Rattle.dubp_validity.specs.Rules.{IsSound};
ghost use Rattle.dubp_replay.specs.Answers.{identity_values};
ghost use Rattle.dubp_people_views.specs.Views.{expiry_of, identity_texts, is_leaving, is_revoked, state_of, state_text};

use crate::{First, Registry};
use dubp_atoms::{Key, Uid};
use dubp_block::Block;
use dubp_mindex::MemberRow;
use dubp_moving::Tables;

/// What is told of an identity.
#[derive(Clone, Copy, Debug, PartialEq, Eq)]
pub struct IdentityView {
    pub key: Key,
    pub uid: Uid,
    /// The number of the block with its line.
    pub written: u64,
    pub state: IdentityState,
    /// When its membership ends, in seconds.
    pub expires: u64,
    /// How many live certifications it has received.
    pub received: u64,
    /// How many of the certifications that it has issued are live.
    pub issued: u64,
}

/// How an identity stands: the first of these that it is.
#[derive(Clone, Copy, Debug, PartialEq, Eq)]
pub enum IdentityState {
    Revoked,
    /// A member who leaves.
    Leaving,
    Member,
    Out,
}

/// What is told of the identity of the key, or None where it has none. It takes no memory.
pub fn identity(registry: &Registry, key: Key) -> Option<IdentityView>
    ensures { (c : Chain) → ⟦<Registry as Tables<Block>>⟧.at registry.now c → IsSound c → option_map identity_texts result ≡ option_map (identity_values c) (identity c key) }
{
    match registry.identity(key) {
        None => None,
        Some(row) => {
            let membership = registry.membership(key);
            Some(IdentityView {
                key,
                uid: row.uid,
                written: row.written,
                state: state(row.member, membership),
                expires: expiry(membership, registry.first()),
                received: registry.received(key),
                issued: registry.stock(key),
            })
        }
    }
}

/// The key with the UID, or None where no line of Identities has it. It takes no memory.
pub fn key_of(registry: &Registry, uid: Uid) -> Option<Key>
    ensures { (c : Chain) → ⟦<Registry as Tables<Block>>⟧.at registry.now c → IsSound c → result ≡ option_map (λ line. line.key) (find (λ line. same_text uid line.uid) (identity_lines c)) }
{
    registry.iindex().key_of(uid)
}

/// How a key with this membership stands.
fn state(member: bool, membership: Option<MemberRow>) -> IdentityState
    ensures { state_text result ≡ state_of (is_revoked membership) member (is_leaving membership) }
{
    if is_revoked(membership) {
        return IdentityState::Revoked;
    }
    if !member {
        return IdentityState::Out;
    }
    if is_leaving(membership) {
        return IdentityState::Leaving;
    }
    IdentityState::Member
}

/// Whether the membership is revoked.
fn is_revoked(membership: Option<MemberRow>) -> bool
    ensures { result ≡ is_revoked membership }
{
    match membership {
        Some(row) => row.revoked,
        None => false,
    }
}

/// Whether the last line of the membership is one of Leavers.
fn is_leaving(membership: Option<MemberRow>) -> bool
    ensures { result ≡ is_leaving membership }
{
    match membership {
        Some(row) => row.leaving,
        None => false,
    }
}

/// When the membership of the row ends, in seconds; 0 where there is no row, or no parameters.
fn expiry(row: Option<MemberRow>, first: Option<First>) -> u64
    ensures { result ≡ expiry_of row first }
{
    match (row, first) {
        (Some(row), Some(first)) => row.made.saturating_add(first.params.ms_validity),
        _ => 0,
    }
}
