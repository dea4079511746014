//! The registry of people: the indexes of identities, memberships and certifications, the queue of what falls due, the keys that have
//! to be excluded, and the facts of a chain, as tables that move together.
//!
//! Contracts see it by the chain that it stands for: `at registry c`, as `dubp_undo` says of its `Tables`. What a call finds is what the
//! definitions on the chain say; many of them hold on sound chains alone, whose blocks keep every rule that reads no verdict. No call
//! but `mark` and `reserve` takes memory. The chapters on people, certifications and tables in `docs/protocol` say what each word means.
//!
//! ```text
//! let registry = Registry::new(alloc);
//! let identity = registry.identity(key);
//! let is_member = registry.is_member(key);
//! ```
#![tactic(auto)]

mod indexes;
mod looks;
mod others;
mod registry;

pub use dubp_left::{BlockTime, Facts, First, Next, next_of};
pub use indexes::{CertificationsLeft, IdentitiesLeft, Indexes, MembershipsLeft};
pub use others::{KickedOf, Others, QueueLeft};
pub use registry::Registry;
