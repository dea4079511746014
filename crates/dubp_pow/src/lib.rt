//! Frames, difficulties and the proof of work: single values that the head of a chain is made of.
//!
//! Each call is an exact function of numbers, and takes no memory. `specs/` has their definitions: the frame of blocks over
//! which issuers are counted (`Frames`), the least difficulty (`LeastDifficulty`), the table of handicaps T (`Ladder`), the
//! difficulty of one issuer (`Difficulty`) and which hashes meet one (`Meeting`). `docs/protocol` says the same in words.
//!
//! ```text
//! let blocks = 3;
//! let difficulty = issuer_diff(70, params.percent_rot, 5, 2, handicap(blocks, 4));
//! if meets(&block_hash, difficulty) {
//!     frame = next_frame(frame, var);
//! }
//! ```
#![tactic(auto)]

mod difficulties;
mod frames;
mod ladders;
pub mod laws;
mod least;
mod meeting;
mod table;

pub use difficulties::{handicap, issuer_diff};
pub use frames::{next_frame, next_var};
pub use ladders::Ladder;
pub use least::next_pow_min;
pub use meeting::meets;
pub use table::ladder;
