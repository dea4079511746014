/// Why a text was not read as a block.
#[derive(Clone, Copy, Debug, PartialEq, Eq)]
pub enum ReadRefusal {
    /// The bytes are not the text of a block.
    NotABlock {
        /// The first line, from 1, with which the lines begin no block any more; one more than there are lines where all of them
        /// begin a block. Only what ends with LF is a line.
        line: u64,
    },
    /// There was no room for the block.
    NoMemory,
}
