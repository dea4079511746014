use dubp_atoms::{Hash, Key, Sig};
use dubp_block::Block;

/// A sealed block, and the verdict that its signature is right.
#[derive(Debug, Drop)]
pub struct Sealed {
    pub block: Block,
    /// The block's issuer.
    pub key: Key,
    /// The SHA-256 of the signed text.
    pub message: Hash,
    /// The block's signature.
    pub sig: Sig,
}

/// Why a draft was not sealed.
#[derive(Clone, Copy, Debug, PartialEq, Eq)]
pub enum SealRefusal {
    /// The block's hash meets the difficulty with no nonce from 0 to 999,999.
    NoNonce,
    /// There was no room. It never comes, since sealing takes no memory.
    NoMemory,
}
