//! The rule on distance on the chain with a block that stands to be judged: each key that joins or renews its membership is near
//! enough to the sentries.
//!
//! What is asked of the chain before the block, and of the chain with it, stands in one trait, `TwoChains`: no table is named here.
//! Nothing of the web of certifications is copied. What the block changes stands beside the chains and is made once a block: who
//! joins and who leaves, and the live certifications of each key that is an end of a certification of the block, or of one that has
//! its end up to the time of the block. Every other key has the live certifications that it had before. The chapters on distance and
//! on certifications in `docs/protocol` say the same in words.
//!
//! ```text
//! let passes = comers_pass(alloc, &chains, &block)?;
//! ```
#![tactic(auto)]

mod certified;
mod changed;
mod moved;
mod next_web;
mod rule;
mod two_chains;

pub use certified::{Certified, Counts, in_order};
pub use rule::comers_pass;
pub use two_chains::TwoChains;
