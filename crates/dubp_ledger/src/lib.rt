//! The chain of accepted blocks.
//!
//! Contracts see a `Ledger` as its chain, newest block first, and how many of its blocks can be reversed. `submit` accepts a block exactly
//! where it breaks no rule of the table on the chain with the verdicts given, and else names the first that it breaks; a refusal hands
//! the block back and changes nothing. `trial` names the first that a block breaks which is not signed yet. `revert` takes the last
//! blocks off again, of which a hundred are kept so. `fill` gives a draft its header and its exclusions. Nothing is computed twice: the
//! hash of a block stands in its head. Protocol: chains; rules; the generator.
//!
//! ```text
//! let mut ledger: Ledger<Books<PeopleRules>> = Ledger::new(alloc);
//! let stamp = ledger.submit(block, &verdicts, &mut steps)?;
//! let head = ledger.head();
//! ledger.revert(1, &mut steps)?;
//! ```
#![tactic(auto)]

mod filling;
mod ledger;
mod refusal;
mod traces;
mod written;

pub use dubp_people_and_money::{
    Held, LeftBehind, LendsPeopleAndMoney, PeopleAndMoney, SourceView,
};
pub use ledger::Ledger;
pub use refusal::{SubmitRefusal, TooDeep};
pub use written::WrittenBlock;
