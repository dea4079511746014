use dubp_atoms::Items;
use dubp_chain::Head;
use dubp_docs::TxHashes;
use dubp_params::Params;
use dubp_rules::Rule;

/// What was found of a block on the chain.
#[derive(Debug, Drop)]
pub enum Judgement {
    /// The first rule that it breaks.
    Breaks(Rule),
    /// It breaks none. These are the head and the parameters of the chain with it, and the hashes of its transactions, in order.
    Keeps(Head, Params, Items<TxHashes>),
}
