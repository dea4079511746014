ghost use Rattle.std.specs.Prelude.{◌≡◌, ◌++◌, ◌∷◌, [], IfOk, OnOk};
ghost use Rattle.dubp_forks.specs.Entries.{AreKept, blocks_in};
ghost use Rattle.dubp_forks.specs.Switching.{LeadsTo};

use crate::entries::before_stored;
use crate::stored::Stored;
use dubp_atoms::{NoMemory, Secret, Stamp};
use indexmap::IndexMap;
use std::alloc::Global;

/// A path through the stored blocks.
#[derive(Drop)]
pub(crate) struct Path {
    /// The stamps of its blocks, newest first.
    pub(crate) stamps: Vec<Stamp>,
    /// The stamp that leads on from its last block, and is not stored. None where that is block 0.
    pub(crate) end: Option<Stamp>,
}

/// The path from a stamp: each block is the stored one before that which leads to it.
///
/// `NoMemory` where there is no room for its stamps.
pub(crate) fn path_from(
    alloc: Global,
    blocks: &IndexMap<Stamp, Stored, Secret>,
    stamp: Stamp,
) -> Result<Path, NoMemory>
    requires { AreKept blocks.now.entries }
    ensures { IfOk result (λ path. LeadsTo (blocks_in blocks.now.entries) stamp path.stamps.items path.end) }
{
    let mut stamps = Vec::new(alloc);
    let mut next = Some(stamp);
    while let Some(at) = next {
        let Some(before) = before_stored(blocks, &at) else {
            return Ok(Path {
                stamps,
                end: Some(at),
            });
        };
        push_stamp(&mut stamps, at)?;
        next = before;
    }
    Ok(Path { stamps, end: None })
}

fn push_stamp(stamps: &mut Vec<Stamp>, stamp: Stamp) -> Result<(), NoMemory>
    ensures { OnOk result (stamps.new.items ≡ stamps.old.items ++ stamp ∷ []) }
{
    stamps.push(stamp).map_err(|_| NoMemory)
}
