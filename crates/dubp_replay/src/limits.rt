/// The raw bytes that a block has at most: rule `X01`.
pub const LONGEST_BLOCK: usize = 1_048_576;
