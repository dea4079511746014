//! The documents that wait for a block.
//!
//! Contracts see a `Pool` as the list of its documents, in the order in which they came: at most 1,024, each of another text. Protocol: documents
//! that wait.
//!
//! ```text
//! let mut pool = Pool::with_secret(alloc, secret);
//! let hash = pool.add(text)?;
//! pool.at(0);
//! pool.remove(hash);
//! ```
#![tactic(auto)]

mod pool;
mod refusal;

pub use pool::{MOST_PENDING, Pool};
pub use refusal::PendRefusal;
