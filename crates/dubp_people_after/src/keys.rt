ghost use Rattle.std.specs.Prelude.{◌≡◌, ◌||◌, IfOk, OnOk, Some, cond};
ghost use Rattle.std.specs.List.{list_any};
ghost use Rattle.indexmap.specs.IndexMap.{IsEmpty, get};
ghost use Rattle.indexmap.specs.IndexSet.{contains};
ghost use Rattle.dubp_atoms.specs.Same.{Text, same_text};
ghost use Rattle.dubp_chain.specs.Words.{last_of};
ghost use Rattle.dubp_chain.specs.Members.{is_of};
ghost use Rattle.dubp_people_after.specs.Keys.{AreKeysOf, same_pair};
ghost use Rattle.dubp_people_after.specs.Empty.{AreEmpty};
ghost use Rattle.dubp_people_after.specs.Partners.{is_partner};
ghost use Rattle.dubp_registry.specs.OfSteps.{of_pair};

use crate::partners::put_partners;
use dubp_atoms::{Key, NoMemory, Secret};
use dubp_block::{Block, CertLine, IdentityLine, MemberLine};
use dubp_sets::insert;
use indexmap::{IndexMap, IndexSet};
use std::alloc::Global;

/// The keys that the lines of a block name, its identities by their keys, and its certifications by their pairs and by their ends.
#[derive(Drop)]
pub(crate) struct Keys {
    /// Of Joiners.
    pub(crate) joining: IndexSet<Key, Secret>,
    /// Of Joiners and Actives.
    pub(crate) coming: IndexSet<Key, Secret>,
    /// Of Leavers.
    pub(crate) leaving: IndexSet<Key, Secret>,
    pub(crate) excluded: IndexSet<Key, Secret>,
    pub(crate) identities: IndexMap<Key, IdentityLine, Secret>,
    pub(crate) certifications: IndexMap<(Key, Key), CertLine, Secret>,
    /// Of each key that Certifications name, the keys at the other ends of its lines.
    pub(crate) partners: IndexMap<Key, Vec<Key>, Secret>,
}

impl Keys {
    /// Those of a block without lines. The secret is what they are hashed by.
    fn new(alloc: Global, secret: Secret) -> Keys
        ensures { AreEmpty result }
    {
        Keys {
            joining: IndexSet::with_hasher(alloc, secret),
            coming: IndexSet::with_hasher(alloc, secret),
            leaving: IndexSet::with_hasher(alloc, secret),
            excluded: IndexSet::with_hasher(alloc, secret),
            identities: IndexMap::with_hasher(alloc, secret),
            certifications: IndexMap::with_hasher(alloc, secret),
            partners: IndexMap::with_hasher(alloc, secret),
        }
    }

    /// The line of Identities of the key.
    pub(crate) fn line_of(&self, key: Key) -> Option<IdentityLine>
        ensures { result ≡ get same_text self.now.identities key }
    {
        match self.identities.get(&key) {
            Some(line) => Some(*line),
            None => None,
        }
    }

    /// The line of Certifications from one key to another.
    pub(crate) fn certification_of(&self, from: Key, to: Key) -> Option<CertLine>
        ensures { result ≡ get same_pair self.now.certifications (from, to) }
    {
        match self.certifications.get(&(from, to)) {
            Some(line) => Some(*line),
            None => None,
        }
    }

    /// The keys at the other ends of the lines of Certifications that name the key.
    pub(crate) fn partners_of(&self, key: Key) -> &[Key]
        ensures { (k : Text) → list_any (same_text k) result.now ≡ is_partner self.now.partners key k }
    {
        match self.partners.get(&key) {
            Some(partners) => partners.as_slice(),
            None => &[],
        }
    }
}

/// The keys of the block, which are hashed by the secret.
pub(crate) fn keys_of(alloc: Global, secret: Secret, block: &Block) -> Result<Keys, NoMemory>
    ensures { IfOk result (λ keys. AreKeysOf block.now (contains same_text keys.joining) (contains same_text keys.coming) (contains same_text keys.leaving) (contains same_text keys.excluded) (get same_text keys.identities) (get same_pair keys.certifications) (is_partner keys.partners)) }
{
    let mut keys = Keys::new(alloc, secret);
    put_block(alloc, &mut keys, block)?;
    Ok(keys)
}

/// Puts in what the lines of the block name, where nothing is in any of them.
fn put_block(alloc: Global, keys: &mut Keys, block: &Block) -> Result<(), NoMemory>
    requires { AreEmpty keys.old }
    ensures { OnOk result (AreKeysOf block.now (contains same_text keys.new.joining) (contains same_text keys.new.coming) (contains same_text keys.new.leaving) (contains same_text keys.new.excluded) (get same_text keys.new.identities) (get same_pair keys.new.certifications) (is_partner keys.new.partners)) }
{
    put_keys(&mut keys.joining, block.joiners.as_slice())?;
    put_keys(&mut keys.coming, block.joiners.as_slice())?;
    put_keys(&mut keys.coming, block.actives.as_slice())?;
    put_keys(&mut keys.leaving, block.leavers.as_slice())?;
    put_all(&mut keys.excluded, block.excluded.as_slice())?;
    put_identities(&mut keys.identities, block.identities.as_slice())?;
    put_certifications(&mut keys.certifications, block.certifications.as_slice())?;
    put_partners(alloc, &mut keys.partners, block.certifications.as_slice())?;
    Ok(())
}

/// Puts the keys of the lines into the set.
fn put_keys(set: &mut IndexSet<Key, Secret>, lines: &[MemberLine]) -> Result<(), NoMemory>
    ensures { OnOk result ((k : Text) → contains same_text set.new k ≡ (contains same_text set.old k || list_any (is_of k) lines.now)) }
{
    for line in lines {
        insert(set, line.key)?;
    }
    Ok(())
}

/// Puts the keys into the set.
pub(crate) fn put_all(set: &mut IndexSet<Key, Secret>, keys: &[Key]) -> Result<(), NoMemory>
    ensures { OnOk result ((k : Text) → contains same_text set.new k ≡ (contains same_text set.old k || list_any (same_text k) keys.now)) }
{
    for key in keys {
        insert(set, *key)?;
    }
    Ok(())
}

/// Puts the lines into an empty map, by their keys. Where a key stands twice its last line counts.
fn put_identities(
    map: &mut IndexMap<Key, IdentityLine, Secret>,
    lines: &[IdentityLine],
) -> Result<(), NoMemory>
    requires { IsEmpty map.old }
    ensures { OnOk result ((k : Text) → get same_text map.new k ≡ last_of (λ line. same_text k line.key) lines.now) }
{
    for line in lines {
        insert_line(map, *line)?;
    }
    Ok(())
}

/// Puts the line under its key, in the place of one that is there.
fn insert_line(
    map: &mut IndexMap<Key, IdentityLine, Secret>,
    line: IdentityLine,
) -> Result<(), NoMemory>
    ensures { OnOk result ((k : Text) → get same_text map.new k ≡ cond (same_text line.key k) (Some line) (get same_text map.old k)) }
{
    map.insert(line.key, line).map_err(|_| NoMemory)?;
    Ok(())
}

/// Puts the lines into an empty map, by their pairs. Where a pair stands twice its last line counts.
fn put_certifications(
    map: &mut IndexMap<(Key, Key), CertLine, Secret>,
    lines: &[CertLine],
) -> Result<(), NoMemory>
    requires { IsEmpty map.old }
    ensures { OnOk result ((x y : Text) → get same_pair map.new (x, y) ≡ last_of (of_pair x y) lines.now) }
{
    for line in lines {
        insert_certification(map, *line)?;
    }
    Ok(())
}

/// Puts the line under its pair, in the place of one that is there.
fn insert_certification(
    map: &mut IndexMap<(Key, Key), CertLine, Secret>,
    line: CertLine,
) -> Result<(), NoMemory>
    ensures { OnOk result ((p : Text × Text) → get same_pair map.new p ≡ cond (same_pair (line.from, line.to) p) (Some line) (get same_pair map.old p)) }
{
    map.insert((line.from, line.to), line)
        .map_err(|_| NoMemory)?;
    Ok(())
}
