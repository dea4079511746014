//! The rules on transactions that are read on the money of a chain, for a block that stands to be judged on it, and the first of them that
//! the block breaks.
//!
//! Each rule of the table is one function, true exactly where the definition of that rule in `dubp_validity` holds. The chapter on
//! rules in `docs/protocol` has each rule in words. `first_broken_of_money` reads the six of them in the order of the table, over the hashes
//! of the block's transactions; `money_rules` makes these. The condition of each source of a chain of blocks can be read from its text
//! (`conditions_can_be_read`), so no rule fails for want of one.
//!
//! ```text
//! let broken = first_broken_of_money(alloc, &money, &head, &next, &block, hashes.as_slice())?;
//! ```
#![tactic(auto)]

mod checks;
mod conditions;
mod earlier;
mod first;
mod hashes;
mod inputs;
mod laws;
mod outputs;
mod sets;
mod spending;
mod times;

pub use dubp_left::{Next, next_of};
pub use dubp_money::Money;
pub use first::{first_broken_of_money, money_rules};
pub use hashes::Transactions;
pub use laws::conditions_can_be_read;
