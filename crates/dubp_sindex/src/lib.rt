//! The index of unspent sources: which sources are unspent, those of each account, and the balances of accounts with the least.
//!
//! Contracts see the index by whose rows it has. A state is the list of rows `(SourceId, SourceRow)` in the order of making
//! (`specs/Rows.antt`); the index stands for a chain of states, newest first, as `dubp_undo` says of its `Tables`. Accounts
//! are numbers: `accounts` gives the texts of conditions in the order of their numbers. A text that has a number keeps it,
//! whatever the tables move. The rows stand once each, by their names and by their places. The chapter on money in
//! `docs/protocol` says what a source and a balance are.
//!
//! Within the tables a source is named by the number of its origin, which is the key that its dividend is paid to or the hash of its
//! transaction (`specs/Origins.antt`). Origins are numbered as accounts are: one that has a number keeps it.
//!
//! ```text
//! let mut index = SIndex::new(alloc);
//! let account = index.account(&cond)?;
//! index.mark()?;                              // the state before the block
//! index.make(id, row, &mut steps)?;           // at most 5 sets
//! assert!(index.balance(account) == 100);
//! index.spend(id, &mut steps)?;               // at most 5 sets
//! index.back(&mut steps);                     // as at the mark
//! ```
#![tactic(auto)]

mod accounts;
mod change;
mod laws;
mod link;
mod neighbours;
mod origins;
mod reading;
mod rows;
mod sindex;
mod text;
mod writing;

pub use laws::rows_stay;
pub use rows::{Balance, SourceRow, SourceRows};
pub use sindex::SIndex;
