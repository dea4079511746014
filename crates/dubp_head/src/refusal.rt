use dubp_chain::Head;
use dubp_rules::Rule;

/// Why a block has no head within the limits.
#[derive(Debug, Drop)]
pub enum HeadRefusal {
    /// The first of X03, X04 and X08 that fails, and the head of the block with no dividend and the money of the head before.
    Refused { rule: Rule, head: Head },
    NoMemory,
}

/// A limit that a block passes, and its head with no dividend and the money of the head before.
#[derive(Debug, Drop)]
pub struct Passed {
    pub rule: Rule,
    pub head: Head,
}
