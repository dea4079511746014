//! A table that keeps its earlier states: one ordered map that goes back to them, and forth again, without memory.
//!
//! Contracts see an `UndoTable` as a `MovingTable`: `past` (the maps that are kept, oldest first), `now`, `ahead` (what
//! `hold` took off), `root`, `spare`, `room` and the placed keys. Beside each map stands how many keys were set between it
//! and its neighbour, so that one equation says which map a move gives and how many steps it takes.
//!
//! ```text
//! table.mark()?;                       // `now` is kept
//! table.set(7, Some(1), &mut steps)?;
//! table.reserve(1)?;                   // room for one way forward
//! table.hold(&mut steps);              // as at the mark
//! table.again(&mut steps);             // 7 has 1 again
//! table.back(&mut steps);              // as at the mark, for good
//! ```
#![tactic(auto)]

mod by_order;
mod finder;
mod hints;
mod moves;
mod places;
mod slots;
mod summary;
mod table;
mod walk;

pub use by_order::ByOrder;
pub use finder::{Finder, OrderedFinder};
pub use summary::{NoSummary, Summary, TellsLeast};
pub use table::UndoTable;
pub use walk::Walk;
