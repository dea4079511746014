//! The records of a block, put together again where they are asked for: no chain keeps them.
//!
//! Most follow from the lines of the block, from its head and from the facts of a chain that it is a block of. What does not is what the
//! block left behind (`dubp_kept::LeftBehind`): what ended with it, whom it paid and what it cleared. There stand the hashes by which its
//! transactions are named too, so none is hashed again. The chapter on records in `docs/protocol` says the same in words.
//!
//! ```text
//! let mut records = Vec::new(alloc);
//! put_records(alloc, &block, &head, &facts, &left, &mut records)?;
//! ```
#![tactic(auto)]

mod copying;
mod lines;
mod money;
mod rows;

pub use dubp_docs::TxHashes;
pub use dubp_kept::{Held, Kept, LeftBehind, check_local_read};
pub use dubp_validity::Record;
pub use rows::put_records;
