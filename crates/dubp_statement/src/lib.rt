//! Statements: the moves of a condition on the chain of a ledger, each with what the condition has behind it.
//!
//! The blocks are gone through oldest first, and no records of them are put together. A `Tally` has the names of the condition's sources
//! that were made so far, its moves, and the units behind the last; `add_block` does to it what a block does: its transactions, its
//! dividends, and what it cleared. What an input spends, or a block clears, is known by its name; what is made is known by its
//! condition. `specs/Tallies` says how far a tally is the account that `dubp_moves` defines.
//!
//! The clause of `statement` has the laws that are
//! proved of all chains. Protocol: statements.
//!
//! ```text
//! let moves = statement(alloc, &ledger, &cond)?;
//! let last = moves.last().map(|m| m.balance);
//! ```
#![tactic(auto)]

mod blocks;
mod conditions;
mod moves;
mod tally;

pub use dubp_cond::CondText;
pub use dubp_ledger::{Ledger, PeopleAndMoney};
pub use dubp_replay::{Kind, Move};
pub use moves::statement;
