//! The texts of the answers to queries, and of that to STATEMENT.
//!
//! ```text
//! let answer = answer(alloc, &ledger, &Query::Head)?;
//! sink.write(answer.as_bytes())?;
//! put_answer(alloc, &ledger, &Asked::Head, &mut line)?;
//! let answer = statement_answer(alloc, &ledger, &cond)?;
//! ```
#![tactic(auto)]

mod asking;
mod lines;
mod moves;
mod telling;

pub use asking::answer;
pub use dubp_replay::{Answer, Asked, Query};
pub use dubp_statement::CondText;
pub use lines::{head_line, put_head_line};
pub use moves::statement_answer;
pub use telling::{put_answer, put_difficulty_line};
