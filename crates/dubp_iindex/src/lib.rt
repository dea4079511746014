//! The index of identities: for each key that has one its row, found by key and by uid, and the members in the order of their keys.
//!
//! Contracts see the index as tables of a chain of its own states, newest first. A state is the rows after a block, a finite map from keys
//! (`specs/Rows`); the key of a uid, the members and their number are functions of it. A call that reads answers what that function has in
//! the newest state; `put_row` makes of the newest state the one with the row. What blocks leave which rows is said above. Protocol:
//! people, tables.
//!
//! ```text
//! index.mark()?;                                // the state is kept
//! index.put_row(key, row, &mut steps)?;         // a new identity, who is no member yet
//! let key = index.key_of(row.uid);
//! let first = index.next_member(None);
//! index.back(&mut steps);                       // as at the mark
//! ```
#![tactic(auto)]

mod index;
mod row;
mod tables;
mod writing;

pub use index::IIndex;
pub use row::{Counts, IdentityRow, IdentityRows};
