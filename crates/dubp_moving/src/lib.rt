//! Tables of a chain of blocks that move as one: what each move does, and what joins two or three of them.
//!
//! Such tables are seen as values: the state that they have, those that they kept, and those ahead. `Both` is two that move together,
//! `Three` three; `Along` has tables of a chain of states as those of a chain of blocks. The moves of `Tables` are proved once for all,
//! and each clause of a move is an equation. A `Definition` says what a table has at each key, for each chain.
#![tactic(auto)]

mod along;
mod both;
mod moving;
mod three;

pub use along::{Along, StateOf};
pub use both::Both;
pub use moving::{Definition, Shows, Tables};
pub use three::Three;
