//! The first of the rules on people that a block breaks on a chain.
//!
//! The rules stand in `dubp_people_rules`, `dubp_people_after` and `dubp_people_distance`; here they are read in the order of the table.
//! `Asked` has one function for each of them, of a block that stands to be judged on the chain of a registry, and `Judged` shows the
//! rule on distance that chain and the same with the block. `first_broken_of_people` takes the parameters and the time of the chain
//! with the block, `people_rules` its head; `PeopleRules` is the type of these rules that the books of a chain are told. The chapter on
//! rules in `docs/protocol` has the order.
//!
//! ```text
//! match first_broken_of_people(alloc, &registry, &block, &next, &verdicts)? {
//!     Some(rule) => refuse(rule),
//!     None => write(block),
//! }
//! ```
#![tactic(auto)]

mod asked;
mod first;
mod judged;
mod people;

pub use dubp_people_after::{Next, next_of};
pub use people::{PeopleRules, first_broken_of_people, people_rules};
