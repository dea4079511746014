//! Trials of the definitions on small chains whose values are known.
//!
//! `specs/Samples` has the chains, and `proofs/` the theorems, whose values are worked out by hand. Files that end with `Trials` try
//! each rule of blocks at its bound, and say in a table which theorem shows a block that keeps it and which one that breaks it; the
//! store of branches is tried in the same way. Files that end with `Checks` state what heads, people, money, records, tables, answers
//! and commands give. `try_definitions` plants wrong definitions and names the theorem that refuses each. Nothing stands on this crate,
//! and it has no code but one function that does nothing.
//!
//! ```text
//! tried();
//! ```
#![tactic(auto)]

/// The trials in `proofs/` have passed.
pub fn tried() {}
