//! What a ledger and the queries that it is asked want of the tables of the people and the money of a chain.
//!
//! `PeopleAndMoney` are tables that a block is judged by and written into, and of which queries are asked; those of
//! `LendsPeopleAndMoney` lend both too. What stands on a ledger is proved over any such tables, and reaches none; `dubp_books` has those
//! that there are.
//!
//! ```text
//! let tables = T::empty(alloc, secret);
//! let first = tables.first();
//! tables.put_identity(key, &mut line);
//! ```
#![tactic(auto)]

mod asking;
mod lending;

pub use asking::PeopleAndMoney;
pub use dubp_answers::SourceView;
pub use dubp_facts::First;
pub use dubp_kept::{Held, Judgement, Judges, Kept, LeftBehind, check_local_read, judge, trial};
pub use lending::LendsPeopleAndMoney;
