use dubp_atoms::{Hash, Key, Sig};
use dubp_block::Block;
use dubp_rules::Rule;

/// A chain that was made, and the verdicts that its blocks need.
#[derive(Debug, Drop)]
pub struct Chain {
    /// In ascending number.
    pub blocks: Vec<Block>,
    /// Block by block: the key, the hash of the message and the signature of each line in the order of the lines, then those of the block.
    pub verdicts: Vec<(Key, Hash, Sig)>,
}

/// Why no chain of the length that was asked for is made.
#[derive(Debug, Drop)]
pub enum GenRefusal {
    /// No nonce from 0 to 999,999 meets the difficulty of the block of this number.
    NoNonce { block: u64 },
    /// The block of this number breaks this rule first; `X01` where its text is too long, `G101` where its issuer is no member.
    Invalid { block: u64, rule: Rule },
    NoMemory,
}
