use dubp_block::Block;
use std::marker::Model;
use std::snapshot::Snapshot;

/// Blocks that were taken off a chain, newest first. Contracts see their list.
///
/// It has no `Drop`: who has one must hand it to `settle` or `restore`.
pub struct Held {
    pub(crate) blocks: Vec<Block>,
}

impl Model for Held {
    ghost use Rattle.dubp_chain.specs.Chains.{Chain};

    ghost Value = { Chain };

    ghost use Rattle.std.specs.Coded.{codes};
    ghost use Rattle.dubp_block.specs.contracts.block.Block as block;

    ghost coded = { Prim.hlevel (codes, block.the_row.coded) };

    ghost view = { λ h. h.blocks.items };
}

/// What was before blocks were held: their chain, how many of its blocks could be taken off, and how many were.
#[derive(Drop)]
pub(crate) struct Before {
    // Oldest first.
    pub(crate) blocks: Snapshot<Vec<Block>>,
    pub(crate) kept: usize,
    pub(crate) taken: usize,
}

impl Model for Before {
    ghost use Rattle.std.specs.Prelude.{reverse};
    ghost use Rattle.dubp_kept.specs.KeptChain.{Out};

    ghost Value = { Out };

    ghost use Rattle.std.specs.Coded.{codes};
    ghost use Rattle.dubp_block.specs.contracts.block.Block as block;

    ghost coded = { Prim.hlevel (codes, block.the_row.coded) };

    ghost view = { λ b. record { chain = reverse b.blocks.value.items; kept = b.kept; taken = b.taken } };
}
