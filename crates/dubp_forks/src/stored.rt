ghost use Rattle.std.specs.Prelude.{◌≡◌, IfOk};
ghost use Rattle.dubp_atoms.specs.Hashing.{hash_of};
ghost use Rattle.dubp_block.specs.Text.{IsBlock, block_text, inner_text};
ghost use Rattle.dubp_replay.specs.Turns.{previous_stamp};

use dubp_atoms::{NoMemory, Stamp};
use dubp_block::{Block, HashedBlock, ReadRefusal, put_block, read_hashed_block};
use std::alloc::Global;
use std::marker::Model;
use std::snapshot::Snapshot;

/// A block, kept as its text: no more room than its bytes, however its conditions nest.
///
/// Contracts see the block.
#[derive(Drop)]
pub(crate) struct Stored {
    text: Vec<u8>,
    before: Option<Stamp>,
    parsed: Snapshot<Block>,
}

impl Model for Stored {
    ghost use Rattle.dubp_block.specs.declared.block.Block.{Block as BlockValue};

    ghost Value = { BlockValue };

    ghost use Rattle.std.specs.Coded.{codes};
    ghost use Rattle.dubp_block.specs.contracts.block.Block as block;

    ghost coded = { Prim.hlevel (codes, block.the_row.coded) };

    ghost use Rattle.dubp_forks.specs.Texts.{IsKeptAs};

    ghost view = { λ s. s.parsed.value };

    ghost invariant = { λ s. IsKeptAs s.text.items s.before s.parsed.value };
}

impl Stored {
    /// Keeps the block, which is in range, as these bytes, its text. `NoMemory` where there is no room for them.
    pub(crate) fn of(alloc: Global, text: &[u8], block: &Block) -> Result<Stored, NoMemory>
        requires range { IsBlock block.now }
        requires text { text.now ≡ block_text block.now }
        ensures { IfOk result (λ stored. stored ≡ block.now) }
    {
        Ok(Stored {
            text: Vec::from_slice(alloc, text).map_err(|_| NoMemory)?,
            before: stamp_before(block),
            parsed: Snapshot::of(block),
        })
    }

    /// Keeps the block, which is in range. `NoMemory` where there is no room to write its text.
    pub(crate) fn write(alloc: Global, block: &Block) -> Result<Stored, NoMemory>
        requires { IsBlock block.now }
        ensures { IfOk result (λ stored. stored ≡ block.now) }
    {
        let text = put_block(alloc, block)?;
        let stored = Stored::of(alloc, text.as_slice(), block)?;
        Ok(stored)
    }

    /// The stamp of the block before. None for block 0. It takes no memory.
    pub(crate) fn previous(&self) -> Option<Stamp>
        ensures { result ≡ previous_stamp self.now }
    {
        self.before
    }

    /// Reads the block again, and its inner hash. `NoMemory` where there is no room for it.
    pub(crate) fn read(&self, alloc: Global) -> Result<HashedBlock, NoMemory>
        ensures block { IfOk result (λ read. read.block ≡ self.now) }
        ensures inner { IfOk result (λ read. read.inner ≡ hash_of (inner_text read.block)) }
    {
        match read_hashed_block(alloc, self.text.as_slice()) {
            Ok(read) => Ok(read),
            Err(ReadRefusal::NoMemory) => Err(NoMemory),
            Err(ReadRefusal::NotABlock { line: _ }) => unreachable!(),
        }
    }
}

// The stamp of the block before. None for block 0.
fn stamp_before(block: &Block) -> Option<Stamp>
    ensures { result ≡ previous_stamp block.now }
{
    match &block.previous {
        Some((hash, _)) => Some(Stamp {
            number: block.number.saturating_sub(1),
            hash: *hash,
        }),
        None => None,
    }
}
