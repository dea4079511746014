//! Laws of turns, most of them of turns in which a node chooses a branch: each function does nothing, and its contract is the law.
//!
//! ```text
//! resolves_one_way();
//! ```
#![tactic(auto)]

pub mod laws;
