//! Distance: who of the sentries reaches a key by walks of certifications among members.
//!
//! A chain is asked through `Web`, one look a question. Contracts see a web as the lists that it shows: its members, by key, and the
//! pairs of keys, who certifies and who is certified; `specs/Walks.antt` of `dubp_atoms` says from them what a walk, a sentry and
//! the number reached are. The chapter on distance in `docs/protocol` says the same in words.
//!
//! ```text
//! let sentries = sentries(alloc, &web, steps_max)?;
//! let mut known = KnownIssuers::new(alloc, web.secret());
//! let sought = Sought::new(alloc, &web, &mut known, &sentries)?;
//! for target in joiners {
//!     let (reached, all) = reaches_among_known(alloc, &web, &mut known, &sought, target, steps_max)?;
//!     let is_far = u128::from(reached) * 100 < u128::from(all) * u128::from(percent);
//! }
//! let (reached, all) = reaches(alloc, &web, target, steps_max)?;
//! ```
#![tactic(auto)]

mod found;
mod known;
mod reaching;
mod sentry;
mod sought;
mod web;

pub use known::KnownIssuers;
pub use reaching::{reaches, reaches_among, reaches_among_known};
pub use sentry::{d_sen, sentries};
pub use sought::Sought;
pub use web::Web;
