//! The texts of the answers to queries that ask no tables, and the parts of lines that those that ask them are made of.
//!
//! Each function gives a text as `dubp_replay` defines it, of what is handed to it: a block, its records, moves, unspent sources, a
//! difficulty. A line lies in its value and takes no memory; who has an empty one gives it (`put_diff_line` beside `diff_line`).
//! The chapter on commands and answers in `docs/protocol` says the same in words.
//!
//! ```text
//! let text = show_text(alloc, Some(&block))?;
//! let text = records_text(alloc, Some(records.as_slice()))?;
//! let text = statement_text(alloc, moves.as_slice())?;
//! let text = sources_lines(alloc, views.as_slice())?;
//! let line = diff_line(difficulty);
//! ```
#![tactic(auto)]

mod blocks;
mod difficulties;
mod moves;
mod records;
mod source_lines;
mod values;

pub use blocks::{none_text, show_text};
pub use difficulties::{diff_line, put_diff_line};
pub use moves::statement_text;
pub use records::records_text;
pub use source_lines::{SourceView, sources_lines};
pub use values::{add, put_none, put_spaced};
