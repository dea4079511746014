use dubp_atoms::Hash;
use dubp_block::Block;
use dubp_rules::Rule;

/// A forged block, and what it leaves out.
#[derive(Debug, Drop)]
pub struct Forged {
    /// It breaks no rule but `L05` and `G62`, which are kept once it is signed.
    pub block: Block,
    /// The SHA-256 of the text of each document that is not in the block, in the order of the pool, with the first rule that the block with
    /// it breaks.
    pub left: Vec<(Hash, Rule)>,
}

/// Why no block is forged.
#[derive(Clone, Copy, Debug, PartialEq, Eq)]
pub enum ForgeRefusal {
    /// The chain has no block.
    NoChain,
    /// The draft without documents breaks this rule.
    Refused(Rule),
    /// There is no room for the draft, or for what it is tried by.
    NoMemory,
}
