//! When a block is valid on a chain, as definitions, and the records that it writes to the indexes.
//!
//! `specs/LocalRules`, `HeadRules`, `PeopleRules` and `MoneyRules` have one definition for each rule, `Rules` the table of rules, the first that
//! a block breaks, and which chains are valid. `Records` has what a block writes to the indexes, and `Reduced` the rows that
//! records leave.
//!
//! ```text
//! let mut line: Line = ArrayVec::new();
//! put_record(&Record::Join { key, made }, &mut line);
//! ```
#![tactic(auto)]

mod record;

pub use dubp_chain::{Block, CertLine, Head, Params};
pub use record::{Record, put_record};
