//! Which stored branch a node chooses.
//!
//! Contracts see a `View` as the stored blocks with the stamps before them, the stamps of the last blocks of the chain, how long the chain
//! is, how many of its blocks can be reversed, and where branches failed before. `choose` tells the candidate of greatest number, the first
//! that was offered among equals. Its chapter is choice, of `docs/protocol`.
//!
//! ```text
//! let chosen = choose(alloc, secret, &view)?;
//! ```
#![tactic(auto)]

mod choosing;
mod gathering;
pub mod laws;
mod standing;
mod view;

pub use choosing::choose;
pub use view::{Offered, View};
