//! Blocks: their text, their hashes, their stamps and their size.
//!
//! Contracts see a `Block` as the record of its fields, with each section as a list. `read_block` accepts exactly the texts of
//! blocks, and refuses others with the first line with which the lines begin no block any more.
//!
//! ```text
//! let block = read_block(alloc, text)?;
//! let stamp = stamp_of(&block);
//! let is_right = block.inner_hash == inner_hash_of(&block);
//! ```
#![tactic(auto)]

mod block;
mod compact;
mod copying;
mod entries;
mod hashing;
mod kinds;
pub mod laws;
mod put_text;
mod reading;
mod refusal;
mod rows;
mod sections;
mod sizing;
mod transactions;
mod writing;

pub use block::{Block, CertLine, IdentityLine, MemberLine, RevokedLine};
pub use copying::copy_block;
pub use dubp_cond::{Input, put_input};
pub use dubp_params::Params;
pub use hashing::{block_hash, inner_hash, inner_hash_in, inner_hash_of, stamp_of};
pub use reading::{HashedBlock, read_block, read_hashed_block};
pub use refusal::ReadRefusal;
pub use sizing::size;
pub use writing::put_block;
