//! People of a chain with a block that stands to be judged on it, and the rules on people that ask them.
//!
//! `After` looks at the registry of the chain before the block, and beside it at what the block changes, which is made once a
//! block. The trait `WithBlock` says what it shows. Each rule is one function of anything of that kind, in the words of the table
//! of rules; two of them count certifications, and take memory. All rules on people as one are a trait, `RulesOnPeople`: so who asks
//! them waits for none. The chapters on people and on rules in `docs/protocol` say the same in words.
//!
//! ```text
//! let after = After::of(alloc, &registry, &block, &next)?;
//! issuers_are_members(&after, &block) && receivers_are_members(&after, &block)
//! ```
#![tactic(auto)]

mod after;
mod asking;
mod counted;
mod counts;
mod keys;
mod near;
mod partners;
mod rules;

pub use after::{After, Name, WithBlock};
pub use asking::RulesOnPeople;
pub use counted::{joiners_are_certified, stocks_are_kept};
pub use counts::{issuers, received, stock};
pub use dubp_registry::{First, Next, Registry, next_of};
pub use rules::{
    certifications_are_signed, issuers_are_members, memberships_have_identities,
    receivers_are_members, receivers_stay,
};
