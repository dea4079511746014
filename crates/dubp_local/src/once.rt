ghost use Rattle.std.specs.Prelude.{◌≡◌, ◌↔◌, ◌++◌, true, IfOk, IsTrue, OnErr, OnOk, cond, map, not};
ghost use Rattle.std.specs.HashSet.{IsUnchanged, contains};
ghost use Rattle.std.specs.List.{list_all, list_any};
ghost use Rattle.dubp_validity.specs.OfChain.{membership_lines};
ghost use Rattle.dubp_validity.specs.OfChain.{each_once};
ghost use Rattle.dubp_validity.specs.LocalRules.{IdentitiesJoin, IdentitiesStandOnce, IssuersStandOnce, MovingKeysStandOnce, NobodyCertifiedParts, NobodyCertifiesThemselves, PairsStandOnce, RevokedStandOnce, UidsStandOnce, moving_keys, parting_keys, revoked_keys};

use dubp_atoms::{Key, NoMemory, Secret, Stamp, Uid};
use dubp_block::{Block, CertLine, IdentityLine, MemberLine, RevokedLine};
use std::alloc::Global;
use std::collections::HashSet;
use std::hash::Hash;

/// Puts the value into the set, and tells whether it was new.
fn insert<T: Copy + Eq + Hash>(set: &mut HashSet<T, Secret>, value: T) -> Result<bool, NoMemory>
    ensures is_new { IfOk result (λ is_new. is_new ≡ not (contains T.eq set.old value)) }
    ensures has { OnOk result ((k : T) → contains T.eq set.new k ≡ cond (T.eq k value) true (contains T.eq set.old k)) }
    ensures refused { OnErr result (IsUnchanged set.old set.new) }
{
    set.insert(value).map_err(|_| NoMemory)
}

/// Whether none of the values stands twice. They are hashed by the secret, so that no values that strangers choose make it slow.
pub(crate) fn stand_once<T: Copy + Eq + Hash>(
    alloc: Global,
    secret: Secret,
    values: &[T],
) -> Result<bool, NoMemory>
    ensures { IfOk result (λ once. once ≡ each_once T.eq values.now) }
{
    let mut seen = HashSet::with_hasher(alloc, secret);
    for value in values {
        if !insert(&mut seen, *value)? {
            return Ok(false);
        }
    }
    Ok(true)
}

/// The set of the values.
fn set_of<T: Copy + Eq + Hash>(
    alloc: Global,
    secret: Secret,
    values: &[T],
) -> Result<HashSet<T, Secret>, NoMemory>
    ensures { IfOk result (λ set. (k : T) → contains T.eq set k ≡ list_any (T.eq k) values.now) }
{
    let mut set = HashSet::with_hasher(alloc, secret);
    for value in values {
        insert(&mut set, *value)?;
    }
    Ok(set)
}

fn has_all<T: Copy + Eq + Hash>(set: &HashSet<T, Secret>, values: &[T]) -> bool
    ensures { result ≡ list_all (contains T.eq set.now) values.now }
{
    values.iter().all(|value| set.contains(value))
}

fn has_none<T: Copy + Eq + Hash>(set: &HashSet<T, Secret>, values: &[T]) -> bool
    ensures { result ≡ list_all (λ value. not (contains T.eq set.now value)) values.now }
{
    values.iter().all(|value| !set.contains(value))
}

/// Whether each of the values is one of the others.
fn are_among<T: Copy + Eq + Hash>(
    alloc: Global,
    secret: Secret,
    values: &[T],
    others: &[T],
) -> Result<bool, NoMemory>
    ensures { IfOk result (λ among. among ≡ list_all (λ value. list_any (T.eq value) others.now) values.now) }
{
    let set = set_of(alloc, secret, others)?;
    Ok(has_all(&set, values))
}

/// Whether none of the values is one of the others.
fn are_apart<T: Copy + Eq + Hash>(
    alloc: Global,
    secret: Secret,
    values: &[T],
    others: &[T],
) -> Result<bool, NoMemory>
    ensures { IfOk result (λ apart. apart ≡ list_all (λ value. not (list_any (T.eq value) others.now)) values.now) }
{
    let set = set_of(alloc, secret, others)?;
    Ok(has_none(&set, values))
}

/// Appends the keys.
fn append(keys: &mut Vec<Key>, more: &[Key]) -> Result<(), NoMemory>
    ensures { OnOk result (keys.new.items ≡ keys.old.items ++ more.now) }
{
    keys.extend_from_slice(more).map_err(|_| NoMemory)
}

/// Appends the key of each line.
fn put_member_keys(lines: &[MemberLine], keys: &mut Vec<Key>) -> Result<(), NoMemory>
    ensures { OnOk result (keys.new.items ≡ keys.old.items ++ map (λ line. line.key) lines.now) }
{
    for line in lines {
        keys.push(line.key).map_err(|_| NoMemory)?;
    }
    Ok(())
}

/// Appends the key of each line.
fn put_revoked_keys(lines: &[RevokedLine], keys: &mut Vec<Key>) -> Result<(), NoMemory>
    ensures { OnOk result (keys.new.items ≡ keys.old.items ++ map (λ line. line.key) lines.now) }
{
    for line in lines {
        keys.push(line.key).map_err(|_| NoMemory)?;
    }
    Ok(())
}

/// The keys of Joiners, Actives and Leavers.
fn membership_keys(alloc: Global, block: &Block) -> Result<Vec<Key>, NoMemory>
    ensures { IfOk result (λ keys. keys.items ≡ map (λ line. line.key) (membership_lines block.now)) }
{
    let mut keys = Vec::new(alloc);
    put_member_keys(block.joiners.as_slice(), &mut keys)?;
    put_member_keys(block.actives.as_slice(), &mut keys)?;
    put_member_keys(block.leavers.as_slice(), &mut keys)?;
    Ok(keys)
}

/// The keys of Joiners, Actives, Leavers and Excluded.
fn all_moving_keys(alloc: Global, block: &Block) -> Result<Vec<Key>, NoMemory>
    ensures { IfOk result (λ keys. keys.items ≡ moving_keys block.now) }
{
    let mut keys = membership_keys(alloc, block)?;
    append(&mut keys, block.excluded.as_slice())?;
    Ok(keys)
}

/// The keys of Revoked.
fn all_revoked_keys(alloc: Global, block: &Block) -> Result<Vec<Key>, NoMemory>
    ensures { IfOk result (λ keys. keys.items ≡ revoked_keys block.now) }
{
    let mut keys = Vec::new(alloc);
    put_revoked_keys(block.revoked.as_slice(), &mut keys)?;
    Ok(keys)
}

/// The keys of Leavers, Revoked and Excluded.
fn all_parting_keys(alloc: Global, block: &Block) -> Result<Vec<Key>, NoMemory>
    ensures { IfOk result (λ keys. keys.items ≡ parting_keys block.now) }
{
    let mut keys = Vec::new(alloc);
    put_member_keys(block.leavers.as_slice(), &mut keys)?;
    put_revoked_keys(block.revoked.as_slice(), &mut keys)?;
    append(&mut keys, block.excluded.as_slice())?;
    Ok(keys)
}

/// The UID of each line.
fn identity_uids(alloc: Global, lines: &[IdentityLine]) -> Result<Vec<Uid>, NoMemory>
    ensures { IfOk result (λ uids. uids.items ≡ map (λ line. line.uid) lines.now) }
{
    let mut uids = Vec::new(alloc);
    for line in lines {
        uids.push(line.uid).map_err(|_| NoMemory)?;
    }
    Ok(uids)
}

/// No UID stands twice in Identities: rule `L08`.
pub(crate) fn uids_stand_once(
    alloc: Global,
    secret: Secret,
    block: &Block,
) -> Result<bool, NoMemory>
    ensures { IfOk result (λ holds. IsTrue holds ↔ UidsStandOnce block.now) }
{
    let uids = identity_uids(alloc, block.identities.as_slice())?;
    stand_once(alloc, secret, uids.as_slice())
}

/// The key of each line.
fn identity_keys(alloc: Global, lines: &[IdentityLine]) -> Result<Vec<Key>, NoMemory>
    ensures { IfOk result (λ keys. keys.items ≡ map (λ line. line.key) lines.now) }
{
    let mut keys = Vec::new(alloc);
    for line in lines {
        keys.push(line.key).map_err(|_| NoMemory)?;
    }
    Ok(keys)
}

/// No key stands twice in Identities: rule `L09`.
pub(crate) fn identities_stand_once(
    alloc: Global,
    secret: Secret,
    block: &Block,
) -> Result<bool, NoMemory>
    ensures { IfOk result (λ holds. IsTrue holds ↔ IdentitiesStandOnce block.now) }
{
    let keys = identity_keys(alloc, block.identities.as_slice())?;
    stand_once(alloc, secret, keys.as_slice())
}

/// The key, the UID and the stamp of each identity.
fn named_identities(
    alloc: Global,
    lines: &[IdentityLine],
) -> Result<Vec<(Key, (Uid, Stamp))>, NoMemory>
    ensures { IfOk result (λ named. named.items ≡ map (λ line. (line.key, (line.uid, line.stamp))) lines.now) }
{
    let mut named = Vec::new(alloc);
    for line in lines {
        named
            .push((line.key, (line.uid, line.stamp)))
            .map_err(|_| NoMemory)?;
    }
    Ok(named)
}

/// The key, the UID and the identity stamp of each line.
fn joining_identities(
    alloc: Global,
    lines: &[MemberLine],
) -> Result<Vec<(Key, (Uid, Stamp))>, NoMemory>
    ensures { IfOk result (λ joining. joining.items ≡ map (λ line. (line.key, (line.uid, line.identity_stamp))) lines.now) }
{
    let mut joining = Vec::new(alloc);
    for line in lines {
        joining
            .push((line.key, (line.uid, line.identity_stamp)))
            .map_err(|_| NoMemory)?;
    }
    Ok(joining)
}

/// Each line of Identities has a line of Joiners with its key and UID, whose identity stamp is its stamp: rule `L10`.
pub(crate) fn identities_join(
    alloc: Global,
    secret: Secret,
    block: &Block,
) -> Result<bool, NoMemory>
    ensures { IfOk result (λ holds. IsTrue holds ↔ IdentitiesJoin block.now) }
{
    let named = named_identities(alloc, block.identities.as_slice())?;
    let joining = joining_identities(alloc, block.joiners.as_slice())?;
    are_among(alloc, secret, named.as_slice(), joining.as_slice())
}

/// No key stands twice in Joiners, Actives, Leavers and Excluded taken together: rule `L12`.
pub(crate) fn moving_keys_stand_once(
    alloc: Global,
    secret: Secret,
    block: &Block,
) -> Result<bool, NoMemory>
    ensures { IfOk result (λ holds. IsTrue holds ↔ MovingKeysStandOnce block.now) }
{
    let keys = all_moving_keys(alloc, block)?;
    stand_once(alloc, secret, keys.as_slice())
}

/// No key stands twice in Revoked, and no key of Revoked stands in Joiners, Actives or Leavers: rule `L13`.
pub(crate) fn revoked_stand_once(
    alloc: Global,
    secret: Secret,
    block: &Block,
) -> Result<bool, NoMemory>
    ensures { IfOk result (λ holds. IsTrue holds ↔ RevokedStandOnce block.now) }
{
    let keys = all_revoked_keys(alloc, block)?;
    if !stand_once(alloc, secret, keys.as_slice())? {
        return Ok(false);
    }
    let moving = membership_keys(alloc, block)?;
    are_apart(alloc, secret, keys.as_slice(), moving.as_slice())
}

/// The issuer and the receiver of each certification.
fn certified_pairs(alloc: Global, lines: &[CertLine]) -> Result<Vec<(Key, Key)>, NoMemory>
    ensures { IfOk result (λ pairs. pairs.items ≡ map (λ line. (line.from, line.to)) lines.now) }
{
    let mut pairs = Vec::new(alloc);
    for line in lines {
        pairs.push((line.from, line.to)).map_err(|_| NoMemory)?;
    }
    Ok(pairs)
}

/// No pair of issuer and receiver stands twice in Certifications: rule `L14`.
pub(crate) fn pairs_stand_once(
    alloc: Global,
    secret: Secret,
    block: &Block,
) -> Result<bool, NoMemory>
    ensures { IfOk result (λ holds. IsTrue holds ↔ PairsStandOnce block.now) }
{
    let pairs = certified_pairs(alloc, block.certifications.as_slice())?;
    stand_once(alloc, secret, pairs.as_slice())
}

/// Nobody certifies their own key: rule `L15`.
pub(crate) fn nobody_certifies_themselves(block: &Block) -> bool
    ensures { IsTrue result ↔ NobodyCertifiesThemselves block.now }
{
    let lines = block.certifications.as_slice();
    for line in lines {
        if line.from == line.to {
            return false;
        }
    }
    true
}

/// The issuer of each certification.
fn certification_issuers(alloc: Global, lines: &[CertLine]) -> Result<Vec<Key>, NoMemory>
    ensures { IfOk result (λ issuers. issuers.items ≡ map (λ line. line.from) lines.now) }
{
    let mut issuers = Vec::new(alloc);
    for line in lines {
        issuers.push(line.from).map_err(|_| NoMemory)?;
    }
    Ok(issuers)
}

/// Number is 0, or nobody issues two certifications in the block: rule `L16`.
pub(crate) fn issuers_stand_once(
    alloc: Global,
    secret: Secret,
    block: &Block,
) -> Result<bool, NoMemory>
    ensures { IfOk result (λ holds. IsTrue holds ↔ IssuersStandOnce block.now) }
{
    if block.number == 0 {
        return Ok(true);
    }
    let issuers = certification_issuers(alloc, block.certifications.as_slice())?;
    stand_once(alloc, secret, issuers.as_slice())
}

/// The receiver of each certification.
fn certified_keys(alloc: Global, lines: &[CertLine]) -> Result<Vec<Key>, NoMemory>
    ensures { IfOk result (λ receivers. receivers.items ≡ map (λ line. line.to) lines.now) }
{
    let mut receivers = Vec::new(alloc);
    for line in lines {
        receivers.push(line.to).map_err(|_| NoMemory)?;
    }
    Ok(receivers)
}

/// Nobody whom the block certifies stands in its Leavers, Revoked or Excluded: rule `L17`.
pub(crate) fn nobody_certified_parts(
    alloc: Global,
    secret: Secret,
    block: &Block,
) -> Result<bool, NoMemory>
    ensures { IfOk result (λ holds. IsTrue holds ↔ NobodyCertifiedParts block.now) }
{
    let parting = all_parting_keys(alloc, block)?;
    let receivers = certified_keys(alloc, block.certifications.as_slice())?;
    are_apart(alloc, secret, receivers.as_slice(), parting.as_slice())
}
