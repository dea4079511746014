use dubp_block::Block;
use dubp_rules::Rule;

/// Why a block was not accepted. The block is handed back.
#[derive(Debug, Drop)]
pub enum SubmitRefusal {
    /// The first rule of the table that the block breaks.
    Refused { rule: Rule, block: Block },
    /// There was no memory to check the block, or to keep it.
    NoMemory { block: Block },
}

/// Why blocks were not reversed: fewer can be.
#[derive(Clone, Copy, Debug, PartialEq, Eq)]
pub struct TooDeep {
    /// How many blocks can be reversed.
    pub kept: usize,
}
