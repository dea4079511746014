use dubp_atoms::{Hash, Key, Sig};
use dubp_block::Block;

/// What a block of a generated chain says before it gets its header, and the verdicts that its lines need.
#[derive(Debug, Drop)]
pub struct Draft {
    /// A block whose issuer, time and lines are those of the generated one. Its header is that of a first block.
    pub block: Block,
    /// The key, the hash of the message and the signature of each verdict, in the order of the lines.
    pub verdicts: Vec<(Key, Hash, Sig)>,
}
