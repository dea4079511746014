//! The index of memberships: what the lines of Joiners, Actives, Leavers and Revoked have made of each key.
//!
//! Contracts see the index by whose rows it has. A state is the rows after a block, a finite map from keys to rows in the
//! order of keys (`specs/Members.antt`); the index stands for a chain of states, as `dubp_undo` says of its `Tables`. The
//! chapters on people and on tables in `docs/protocol` say what a row is.
//!
//! ```text
//! let mut index = MIndex::new(alloc);
//! index.mark()?;                              // the state before the block
//! index.put_row(key, row, &mut steps)?;       // one set
//! assert!(index.row(key) == Some(row));
//! index.back(&mut steps);                     // as at the mark
//! assert!(index.row(key) == None);
//! ```
#![tactic(auto)]

mod member;

pub use member::{MIndex, MemberRow, MemberRows};
