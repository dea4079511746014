//! Who may spend a source: conditions, the unlocks that meet them, sources, and whole transactions.
//!
//! A condition is some ALLs, each with its items; a group holds a condition in parentheses and stays in the tree, so each
//! condition has one spelling. A `Cond` has the elements, and a `SpelledCond`, as an output has it, the spelling alone. Contracts
//! see both as a tree of plain data, and every other type as the record of its fields, so two transactions are equal where their
//! elements are. `read_..` accepts exactly the spelling, and `put_..` writes
//! it. `holds` is the truth of a condition, by cases on the tree. Protocol: conditions, unlocks, sources, transactions.
//!
//! ```text
//! let input = read_input(b"100:0:D:4tsFXtKofD6jK8zwLymgXWAoMBzhFx7KNANhtK86mKzA:5")?;
//! let cond = read_cond(alloc, b"SIG(4tsFXtKofD6jK8zwLymgXWAoMBzhFx7KNANhtK86mKzA) && CSV(3600)")?;
//! let unlocks = [Unlock::Sig(0)];
//! let may_spend = holds(&cond, &unlocks, &issuers, now, written);
//! let mut line: Line = ArrayVec::new();
//! put_cond(&cond, &mut line);
//! ```
#![tactic(auto)]

mod copying;
mod cursor;
mod front;
pub mod laws;
mod memory;
mod output;
mod passing;
mod reading;
mod source;
mod spelled;
mod tree;
mod truth;
mod tx;
mod unlock;
mod writing;

pub use copying::{copy_cond, copy_tx};
pub use output::{Output, is_output, put_output, read_output};
pub use passing::is_cond;
pub use reading::read_cond;
pub use source::{Input, SourceId, put_input, read_input};
pub use spelled::SpelledCond;
pub use tree::{All, Cond, CondText, Item};
pub use truth::holds;
pub use tx::Tx;
pub use unlock::{Unlock, UnlockLine, is_unlock, put_unlock, read_unlock};
pub use writing::put_cond;
