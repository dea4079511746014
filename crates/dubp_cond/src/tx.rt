use crate::output::Output;
use crate::source::Input;
use crate::unlock::UnlockLine;
use dubp_atoms::{Items, Key, Sig, Stamp};

/// A transaction: it spends its inputs, with its unlocks, and makes its outputs.
///
/// It is in range with 1 to 100 issuers, inputs, unlocks and outputs, a comment of at most 255 characters from the space to
/// `~`, and as many signatures as issuers. The locktime is in seconds, below 2^53.
#[derive(Debug, Drop)]
pub struct Tx {
    pub stamp: Stamp,
    pub locktime: u64,
    pub issuers: Items<Key>,
    pub inputs: Items<Input>,
    pub unlocks: Items<UnlockLine>,
    pub outputs: Items<Output>,
    pub comment: Items<u8>,
    pub sigs: Items<Sig>,
}
