ghost use Rattle.std.specs.Prelude.{◌≡◌, ◌||◌, IfOk, OnOk};
ghost use Rattle.std.specs.HashSet.{contains};
ghost use Rattle.dubp_atoms.specs.declared.stamp.Stamp.{Stamp as StampValue};
ghost use Rattle.dubp_atoms.specs.Same.{same_stamp};
ghost use Rattle.dubp_resolve.specs.Choice.{is_among};

use dubp_atoms::{NoMemory, Secret, Stamp};
use std::alloc::Global;
use std::collections::HashSet;

/// These stamps as a set that is hashed by the secret, so that one is found by one look.
pub(crate) fn gather(
    alloc: Global,
    secret: Secret,
    stamps: &[Stamp],
) -> Result<HashSet<Stamp, Secret>, NoMemory>
    ensures { IfOk result (λ found. (s : StampValue) → contains same_stamp found s ≡ is_among stamps.now s) }
{
    let mut found = HashSet::with_hasher(alloc, secret);
    for stamp in stamps {
        insert(&mut found, *stamp)?;
    }
    Ok(found)
}

fn insert(found: &mut HashSet<Stamp, Secret>, stamp: Stamp) -> Result<(), NoMemory>
    ensures { OnOk result ((s : StampValue) → contains same_stamp found.new s ≡ (same_stamp s stamp || contains same_stamp found.old s)) }
{
    match found.insert(stamp) {
        Ok(_) => Ok(()),
        Err(_) => Err(NoMemory),
    }
}
