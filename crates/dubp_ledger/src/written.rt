use dubp_block::Block;
use dubp_chain::Head;
use dubp_people_and_money::LeftBehind;

/// A block of a chain as the ledger keeps it: with its head, and what it left behind.
#[derive(Clone, Copy)]
pub struct WrittenBlock<'a> {
    /// The block.
    pub block: &'a Block,
    /// Its head.
    pub head: &'a Head,
    /// What it left behind that its lines do not tell, or tell only to who hashes them.
    pub left: &'a LeftBehind,
}
