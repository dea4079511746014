//! The index of certifications: a row for each pair of an issuer and a receiver, and what is counted in the rows.
//!
//! Contracts see it along a chain of states, newest first: a state is the rows after a block, a `FinMap` under pairs of texts.
//! Each table of the index is a function of the newest state (`specs/Rows`). Protocol: certifications, tables.
//!
//! ```text
//! let mut index = CIndex::new(alloc);
//! index.mark()?;                                        // the state before the block is kept
//! index.put_row(from, to, row, &mut steps)?;            // the row, and all that is counted in it
//! index.received(to);                                   // how many live certifications the key has received
//! index.next_received(to, None);                        // the first of their issuers
//! index.back(&mut steps);                               // as before the block
//! ```
#![tactic(auto)]

mod about;
mod changing;
mod index;
mod putting;
mod row;
mod sides;
mod tables;
mod walking;

pub use index::CIndex;
pub use row::{CertRow, CertRows, IssuerRow};
