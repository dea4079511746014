//! The local rules: what a block is checked against by itself, with the verdicts and the parameters of the chain.
//!
//! `check_local` names the first of `X02`, `X07`, `L01` to `L24` that a block breaks. Each rule is one function, true exactly where
//! the definition of that rule in `dubp_validity` holds, and `first_of!` puts them in the order of the table. What stands twice, and
//! what has a line, is asked of sets, so a block costs its length times a logarithm. Protocol: rules.
//!
//! ```text
//! let broken = check_local(alloc, &block, &verdicts, params)?;
//! ```
#![tactic(auto)]

mod check;
mod closing;
mod numbers;
mod once;
mod signatures;
mod transactions;
mod unlocks;

pub use check::{
    Asked, Checked, MadeHashes, check_local, check_local_hashed, check_local_read, check_unsigned,
};
