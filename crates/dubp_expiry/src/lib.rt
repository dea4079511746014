//! The queue of what falls due: memberships that end, memberships that are revoked because they have ended for long, and
//! certifications that end, each at a time.
//!
//! Contracts see the queue by whose entries it has. A state is the set of entries after a block, in the order of time and
//! then of what falls due (`specs/DueOrder.antt`, `specs/Entries.antt`); the queue stands for a chain of states, as
//! `dubp_undo` says of its `Tables`. The chapters on people, certifications and tables in `docs/protocol`
//! say what falls due when.
//!
//! ```text
//! let mut queue = Queue::new(alloc);
//! queue.plan(1_000, Due::Membership(key), &mut steps)?;
//! queue.plan(2_000, Due::Revocation(key), &mut steps)?;
//! assert!(queue.due(999) == None);
//! assert!(queue.due(1_500) == Some((1_000, Due::Membership(key))));
//! assert!(queue.due_behind(Behind::Time(1_000), 2_000) == Some((2_000, Due::Revocation(key))));
//! queue.cancel(1_000, Due::Membership(key), &mut steps)?;
//! ```
#![tactic(auto)]

mod due;
mod laws;
mod queue;

pub use due::{Behind, Due};
pub use laws::{dues_are_ordered, entries_are_ordered};
pub use queue::{Counts, Entries, Queue};
