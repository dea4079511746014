use dubp_atoms::Stamp;

/// A stored block: its stamp, and that of the block before. Block 0 has none before it.
#[derive(Clone, Copy, Debug, PartialEq, Eq)]
pub struct Offered {
    pub stamp: Stamp,
    pub previous: Option<Stamp>,
}

/// What a choice depends on.
#[derive(Drop)]
pub struct View {
    /// The stored blocks, in the order in which they came.
    pub offers: Vec<Offered>,
    /// The stamps of the last blocks of the chain.
    pub recent: Vec<Stamp>,
    /// How many blocks the chain has.
    pub length: u64,
    /// How many of them can be reversed.
    pub kept: usize,
    /// The blocks at which a branch failed before.
    pub failed: Vec<Stamp>,
}
