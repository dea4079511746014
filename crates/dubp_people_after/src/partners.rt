ghost use Rattle.std.specs.Prelude.{◌≡◌, ◌||◌, ◌&&◌, ◌++◌, ◌∷◌, [], OnOk, cond};
ghost use Rattle.std.specs.List.{list_any};
ghost use Rattle.indexmap.specs.IndexMap.{IsEmpty};
ghost use Rattle.dubp_atoms.specs.Same.{Text, same_text};
ghost use Rattle.dubp_people_after.specs.Keys.{is_between};
ghost use Rattle.dubp_people_after.specs.Partners.{is_partner};

use dubp_atoms::{Key, NoMemory, Secret};
use dubp_block::CertLine;
use indexmap::IndexMap;
use std::alloc::Global;

/// Puts the partners of each key that a line names into an empty map: the keys at the other ends of its lines.
pub(crate) fn put_partners(
    alloc: Global,
    map: &mut IndexMap<Key, Vec<Key>, Secret>,
    lines: &[CertLine],
) -> Result<(), NoMemory>
    requires { IsEmpty map.old }
    ensures { OnOk result ((x y : Text) → is_partner map.new x y ≡ list_any (is_between x y) lines.now) }
{
    for line in lines {
        insert_ends(alloc, map, line)?;
    }
    Ok(())
}

/// Puts each end of the line under the other.
fn insert_ends(
    alloc: Global,
    map: &mut IndexMap<Key, Vec<Key>, Secret>,
    line: &CertLine,
) -> Result<(), NoMemory>
    ensures { OnOk result ((x y : Text) → is_partner map.new x y ≡ (is_partner map.old x y || is_between x y line.now)) }
{
    insert_partner(alloc, map, line.from, line.to)?;
    insert_partner(alloc, map, line.to, line.from)?;
    Ok(())
}

/// Puts the partner behind those that the map has under the key.
fn insert_partner(
    alloc: Global,
    map: &mut IndexMap<Key, Vec<Key>, Secret>,
    key: Key,
    partner: Key,
) -> Result<(), NoMemory>
    ensures { OnOk result ((x y : Text) → is_partner map.new x y ≡ (is_partner map.old x y || (same_text x key && same_text y partner))) }
{
    match map.get_mut(&key) {
        Some(partners) => push(partners, partner),
        None => insert_first(alloc, map, key, partner),
    }
}

/// Puts the partner under the key, in the place of those that are there.
fn insert_first(
    alloc: Global,
    map: &mut IndexMap<Key, Vec<Key>, Secret>,
    key: Key,
    partner: Key,
) -> Result<(), NoMemory>
    ensures { OnOk result ((x y : Text) → is_partner map.new x y ≡ cond (same_text x key) (same_text y partner) (is_partner map.old x y)) }
{
    let mut partners = Vec::new(alloc);
    push(&mut partners, partner)?;
    map.insert(key, partners).map_err(|_| NoMemory)?;
    Ok(())
}

fn push(keys: &mut Vec<Key>, key: Key) -> Result<(), NoMemory>
    ensures { OnOk result (keys.new.items ≡ keys.old.items ++ key ∷ []) }
{
    keys.push(key).map_err(|_| NoMemory)
}
