//! One table of a chain of blocks, with its definition: what it has at each key, for each chain.
//!
//! A `Leaf` is an `UndoTable` whose slots are found by the order of their keys, a `Found` one with any finder and a summary; the moves of
//! both are those of `Tables`. What crates above take from the two crates below is handed on.
#![tactic(auto)]

mod found;
mod leaf;

pub use dubp_journal::{
    ByOrder, Finder, NoSummary, OrderedFinder, Summary, TellsLeast, UndoTable, Walk,
};
pub use dubp_moving::{Along, Both, Definition, Shows, StateOf, Tables, Three};
pub use found::Found;
pub use leaf::Leaf;
