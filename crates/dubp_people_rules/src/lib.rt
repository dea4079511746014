//! The rules on people that are read on the registry of the chain alone, without what the block changes in it.
//!
//! Each rule of the table is one function, true exactly where the definition of that rule in `dubp_validity` holds of the chain that
//! the registry stands for and the block that stands to be judged on it. No rule but `kicked_are_excluded` takes memory. The chapter
//! on rules in `docs/protocol` has each rule in words.
//!
//! ```text
//! let holds = identities_are_few(registry, block) && identities_are_in_time(registry, next, block);
//! ```
#![tactic(auto)]

mod certifications;
mod exclusions;
mod identities;
mod memberships;
mod revocations;
mod windows;

pub use certifications::{certifications_are_in_time, issuers_waited, live_pairs_are_renewed};
pub use exclusions::{excluded_are_kicked, kicked_are_excluded};
pub use identities::{
    identities_are_few, identities_are_in_time, identities_are_new, uids_are_new,
};
pub use memberships::{
    actives_are_members, joiners_are_no_members, leavers_may_leave, memberships_are_apart,
    memberships_are_in_time, memberships_are_newer, nobody_revoked_moves,
};
pub use revocations::{revocations_are_signed, revoked_have_identities};
