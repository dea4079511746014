ghost use Rattle.std.specs.Prelude.{◌≡◌, ◌+◌, ◌<◌, ◌≤◌, ◌++◌, List, OnErr, OnOk, filter, length, not};
ghost use Rattle.std.specs.List.{list_any};
ghost use Rattle.std.specs.Option.{option_map};
ghost use Rattle.indexmap.specs.IndexMap.{insert_entry, spare};
ghost use Rattle.dubp_atoms.specs.Same.{same_stamp};
ghost use Rattle.dubp_block.specs.Text.{IsBlock, block_text};
ghost use Rattle.dubp_block.specs.declared.block.Block.{Block as BlockValue};
ghost use Rattle.dubp_replay.specs.Turns.{previous_stamp, stored};
ghost use Rattle.dubp_forks.specs.Entries.{AreKept, blocks_in, entries_of};
ghost use Rattle.dubp_forks.specs.Stores.{AreApart};

use crate::stored::Stored;
use dubp_atoms::{NoMemory, Secret, Stamp};
use dubp_block::Block;
use indexmap::IndexMap;
use std::alloc::Global;

/// The stamp before that of a stored block. None where no block has the stamp. It takes no memory.
pub(crate) fn before_stored(
    blocks: &IndexMap<Stamp, Stored, Secret>,
    stamp: &Stamp,
) -> Option<Option<Stamp>>
    requires { AreKept blocks.now.entries }
    ensures { result ≡ option_map previous_stamp (stored (blocks_in blocks.now.entries) stamp.now) }
{
    match blocks.get(stamp) {
        Some(stored) => Some(stored.previous()),
        None => None,
    }
}

/// Stores the block of this text, which is in range, under the stamp. `NoMemory` where there is no room; then nothing changes.
pub(crate) fn put_text(
    alloc: Global,
    blocks: &mut IndexMap<Stamp, Stored, Secret>,
    stamp: Stamp,
    text: &[u8],
    block: &Block,
) -> Result<(), NoMemory>
    requires range { IsBlock block.now }
    requires text { text.now ≡ block_text block.now }
    ensures entries { OnOk result (blocks.new.entries ≡ insert_entry same_stamp blocks.old.entries stamp block.now) }
    ensures same { OnErr result (blocks.new.entries ≡ blocks.old.entries) }
{
    let stored = Stored::of(alloc, text, block)?;
    if let Err(_) = blocks.insert(stamp, stored) {
        return Err(NoMemory);
    }
    Ok(())
}

/// The entries of these stamps leave; the others keep their order. It takes no memory.
pub(crate) fn drop_path(blocks: &mut IndexMap<Stamp, Stored, Secret>, stamps: &[Stamp])
    ensures entries { blocks.new.entries ≡ filter (λ e. not (list_any (λ k. same_stamp k e.0) stamps.now)) blocks.old.entries }
    ensures room { spare blocks.old ≤ spare blocks.new }
{
    blocks.retain(
        |stamp: &Stamp, stored: &mut Stored| -> bool
            ensures { (result ≡ not (list_any (λ k. same_stamp k stamp.now) stamps.entry.now)) × (stored.new ≡ stored.old) }
        { !stamps.contains(stamp) },
    );
}

/// Puts the entries of these blocks behind the others, in their order: none has a stamp that is there, no two have one, and there is room
/// for them. It takes no memory.
pub(crate) fn put_last(blocks: &mut IndexMap<Stamp, Stored, Secret>, last: Vec<(Stamp, Stored)>)
    requires { length last.items ≤ spare blocks.old }
    ensures { (store added : List BlockValue) → blocks.old.entries ≡ entries_of store → last.items ≡ entries_of added → AreApart (store ++ added) → blocks.new.entries ≡ entries_of (store ++ added) }
{
    let mut last = last;
    last.reverse();
    while let Some(entry) = last.pop() {
        put_one(blocks, entry);
    }
}

// Puts the entry behind the others. There is room for it.
fn put_one(blocks: &mut IndexMap<Stamp, Stored, Secret>, entry: (Stamp, Stored))
    requires { 0 < spare blocks.old }
    ensures entries { blocks.new.entries ≡ insert_entry same_stamp blocks.old.entries entry.0 entry.1 }
    ensures room { spare blocks.old ≤ spare blocks.new + 1 }
{
    let (stamp, stored) = entry;
    if let Err(_) = blocks.insert(stamp, stored) {
        unreachable!();
    }
}
