//! The heads of a chain: the values at each block, those of the next block, and the difficulty of a key.
//!
//! Contracts see `Heads` as the list of heads, newest first (`specs/HeadsStates`). `augment` gives the head of a block behind the
//! chain, as `next_head` of `dubp_chain` defines it, or names the limit that it passes; `head_rules` compares it with what the block
//! states. Nothing costs more than the window of times, the blocks by which the frame changes and a logarithm, whatever the length of
//! the chain.
//! Protocol: head values.
//!
//! ```text
//! let head = augment(&heads, &params, &block, members)?;
//! let broken = head_rules(&heads, &params, &head, &block)?;
//! heads.push(head, &params)?;
//! ```
#![tactic(auto)]

mod augmenting;
mod counts;
mod difficulties;
mod heads;
mod issuers;
pub mod laws;
mod money;
mod places;
mod refusal;
mod rules;
mod sizes;
mod times;

pub use augmenting::{augment, augment_over};
pub use difficulties::difficulty;
pub use dubp_validity::Record;
pub use heads::Heads;
pub use refusal::{HeadRefusal, Passed};
pub use rules::{head_rules, head_rules_over, stated_rules_over};
