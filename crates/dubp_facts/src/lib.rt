//! What a chain tells of itself beside its people and its money, as tables that move: its parameters and its currency, and the hash
//! and the median time of each of its blocks.
//!
//! The time of a stamp and that of a certification, which names a block by its number, are one look each. The chapters on tables and
//! on the time of a stamp in `docs/protocol` say the same in words.
//!
//! ```text
//! let time = facts.made(&block, &line.stamp);
//! facts.write(&block, &head, &mut steps)?;
//! ```
#![tactic(auto)]

mod facts;

pub use facts::{BlockTime, Facts, First};
