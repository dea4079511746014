use crate::query::Query;
use dubp_atoms::{Hash, Key, Sig, Stamp};
use dubp_cond::CondText;

/// A command of the input, without the raw bytes of its frame. Protocol: commands and answers.
#[derive(Debug, Drop)]
pub enum Command {
    /// `VERDICT KEY HASH SIG`: the signature by this key of a text with this SHA-256 is right.
    Verdict { key: Key, hash: Hash, sig: Sig },
    /// `BLOCK LEN`: a block to be accepted. LEN raw bytes follow, and one byte more.
    Block { len: u64 },
    /// `REVERT K`: the last K blocks leave the chain.
    Revert { count: u64 },
    /// `OFFER LEN`: a block of a branch, to be stored. LEN raw bytes follow, and one byte more.
    Offer { len: u64 },
    /// `SWITCH STAMP`: the branch that ends at this stored block takes the place of the chain's last blocks.
    Switch { stamp: Stamp },
    /// `FORGET STAMP`: a stored block leaves the store.
    Forget { stamp: Stamp },
    /// `STATEMENT COND`: the moves of a condition, with what it has behind each.
    Statement { cond: CondText },
    /// `AUTO ON` or `AUTO OFF`: whether the node chooses among the stored branches by itself.
    Auto { on: bool },
    /// `FAILED`: the branches that the node chose and that failed.
    Failures,
    /// `PEND LEN`: a document that waits for a block. LEN raw bytes follow, and one byte more.
    Pend { len: u64 },
    /// `UNPEND HASH`: the document whose text has this SHA-256 waits no longer.
    Unpend { hash: Hash },
    /// `FORGE KEY TIME`: the block that this key can issue at this time, of the documents that wait.
    Forge { key: Key, time: u64 },
    /// A query, which changes nothing.
    Ask(Query),
}
