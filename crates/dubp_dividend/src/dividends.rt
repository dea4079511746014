/// What each member is given: `amount` × 10^`base` units.
#[derive(Clone, Copy, Debug, PartialEq, Eq)]
pub struct Dividend {
    pub amount: u64,
    pub base: u8,
}

/// The rule that a re-evaluation breaks.
#[derive(Clone, Copy, Debug, PartialEq, Eq)]
pub enum Limit {
    /// The numerator reaches 2^127.
    X03,
    /// The base would pass 15.
    X04,
    /// The amount reaches 2^53.
    X08,
}
