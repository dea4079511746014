//! The moves of a condition on a chain, as definitions and laws.
//!
//! `specs/Moves` has the moves, as a filter of the records of each block with a running sum; `specs/Statements` what they keep, which is
//! proved of every sound chain; `specs/Accounts` how they are found block by block. The chapter on statements in `docs/protocol` says the
//! same in words.
//!
//! ```text
//! let made = Move { number: 2, kind: Kind::Made, amount: 1000, base: 0, source, balance: 1000 };
//! ```
#![tactic(auto)]

pub mod laws;
mod moves;

pub use moves::{Kind, Move};
