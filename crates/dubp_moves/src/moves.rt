use dubp_cond::SourceId;

/// What happens to a source. Protocol: statements.
#[derive(Clone, Copy, Debug, PartialEq, Eq)]
pub enum Kind {
    /// An output or a dividend made it.
    Made,
    /// An input spent it.
    Spent,
    /// It was cleared, since its condition had too little.
    Cleared,
}

/// A move of a condition: what happened to one of its sources, in the block of this number. Protocol: statements.
#[derive(Clone, Copy, Debug, PartialEq, Eq)]
pub struct Move {
    /// The number of the block.
    pub number: u64,
    /// What happened.
    pub kind: Kind,
    /// The amount of the source, in units of 10^`base`.
    pub amount: u64,
    /// The base of the source.
    pub base: u8,
    /// The name of the source.
    pub source: SourceId,
    /// The units that the condition has behind the move.
    pub balance: u128,
}
