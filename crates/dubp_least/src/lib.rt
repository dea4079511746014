//! Which slot of a table has the value with the least measure: a tournament between the slots, kept over every write and way back.
//!
//! A marker type gives each value its measure (`Measure`), and `Least` is the summary by it, for tables of `dubp_journal`.
#![tactic(auto)]

mod least;
mod matches;

pub use least::{Least, Measure};
