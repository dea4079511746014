//! The values of a chain, as definitions: its heads, its people, its certifications and its money.
//!
//! A chain is a list of blocks, newest first (`specs/Chains`). `Heads` has the values at each block, `Members`, `People` and `Live` who is a
//! member and whose certifications are live, `Distance` who is near enough to the sentries, `Money` the sources and balances,
//! `Tables` what an index has at each key. All of them go down the list of blocks and ask nothing else.
//!
//! ```text
//! let stamp = head.stamp();
//! ```
#![tactic(auto)]

mod head;

pub use dubp_block::{Block, CertLine, Input, Params, put_input};
pub use dubp_docs::certification_hash;
pub use head::Head;
