//! The stored blocks of branches, and the switch to one of them.
//!
//! Contracts see a `Store` as the list of its blocks, in the order in which they came: at most 1,024, each of another stamp. `offer` stores a
//! block that keeps the rules which look at it alone. A stored block is kept as its text, and read again when a switch tries it. `switch`
//! takes the blocks of the chain off that stand behind the ancestor of a stored branch, and accepts the branch in their place: the whole of
//! it, or nothing changes. The way back takes no memory. The chapter on commands in `docs/protocol` says the same in words.
//!
//! ```text
//! let stamp = store.offer(bytes, &ledger, &verdicts)?;
//! store.switch(stamp, &mut ledger, &verdicts, &mut steps)?;
//! ```
#![tactic(auto)]

mod entries;
mod path;
mod refusals;
mod store;
mod stored;
mod switching;
mod written;

pub use dubp_ledger::{Ledger, PeopleAndMoney, SubmitRefusal, TooDeep};
pub use refusals::{OfferRefusal, SwitchRefusal};
pub use store::Store;
