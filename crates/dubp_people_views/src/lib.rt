//! What is asked of the people of a chain: how many members there are with a block and who they are, who has to be excluded, an identity,
//! the key with a UID, the live certifications of a key, and how near it is to the sentries.
//!
//! Each function looks at the registry of the chain, and leaves it as it is. The clauses cite the definitions on chains and those of
//! the answers to queries. The chapters on people and on commands in `docs/protocol` say the same in words.
//!
//! ```text
//! let count = members_with(alloc, &registry, &block)?;
//! let keys = kicked(alloc, &registry)?;
//! if let Some(view) = identity(&registry, key) { .. }
//! if let Some(views) = certs(alloc, &registry, key)? { .. }
//! if let Some(view) = distance(alloc, &registry, key)? { .. }
//! ```
#![tactic(auto)]

mod certifications;
mod distances;
mod identities;
mod keys;
mod listing;
mod members;
mod standing;

pub use certifications::{CertificationView, certs};
pub use distances::{DistanceView, distance};
pub use dubp_registry::{BlockTime, First, Next, Registry, next_of};
pub use identities::{IdentityState, IdentityView, identity, key_of};
pub use keys::kicked;
pub use listing::member_keys;
pub use members::members_with;
pub use standing::Standing;
