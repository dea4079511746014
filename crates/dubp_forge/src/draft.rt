use dubp_block::Block;

/// A block under way, and which documents of the pool are in it.
#[derive(Drop)]
pub(crate) struct Draft {
    /// It has the lines of the documents; its header is made anew before it is tried.
    pub block: Block,
    /// The places of the documents in the pool, in the order in which they were added.
    pub places: Vec<usize>,
    /// For each document of the pool, whether it is in the draft.
    pub marks: Vec<bool>,
}
