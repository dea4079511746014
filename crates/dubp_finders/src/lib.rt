//! What finds the slot of a key of a table by a hash of it, or by the key itself where it is a number counted from 0.
#![tactic(auto)]

mod by_hash;
mod by_number;

pub use by_hash::ByHash;
pub use by_number::ByNumber;
