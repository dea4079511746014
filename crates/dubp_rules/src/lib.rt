//! The table of rules: which rules a block has to keep, in which order they are read, and the codes that
//! name them in texts.
//!
//! A block is refused by the first rule of the table that fails. `Rule` has the sentence of each rule,
//! `table` the order and `code` the texts. What a rule means on a chain is defined by the crate that
//! checks it: it gives a predicate on rules, and its checks find the first rule that fails by it.
//! Contracts say that with `FirstOf` and `IsFirst` of `specs/First.antt`, whose laws stand in
//! `proofs/FirstLaws.antt`. The chapter on rules in `docs/protocol` has the same table for readers.
//!
//! ```
//! use dubp_rules::{Rule, first_of};
//!
//! fn check(block: &Block) -> Option<Rule>
//!     ensures { FirstOf (Holds block.now) (L02 ∷ L15 ∷ []) result }
//! {
//!     first_of!(Rule::L02 => times_agree(block), Rule::L15 => nobody_certifies_themself(block))
//! }
//! ```
#![tactic(auto)]

mod codes;
mod first;
mod order;
mod rule;
mod sample;

pub use codes::{code, of_code};
pub use order::{RULES, RuleTable, place, table};
pub use rule::Rule;
pub use sample::{first_unsuited, try_first_unsuited};
