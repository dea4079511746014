use dubp_atoms::Stamp;
use dubp_rules::Rule;

/// A branch that the node chose and that failed. Protocol: choice.
#[derive(Clone, Copy, Debug)]
pub struct Failure {
    /// The stamp of its last block.
    pub tip: Stamp,
    /// The stamp of the block at which it failed.
    pub at: Stamp,
    /// The first rule that this block broke.
    pub rule: Rule,
}
