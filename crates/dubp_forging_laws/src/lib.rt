//! Laws of drafts and of the blocks that are forged of documents that wait: each function does nothing, and its contract is the law.
//!
//! ```text
//! forging_is_one();
//! ```
#![tactic(auto)]

pub mod laws;
