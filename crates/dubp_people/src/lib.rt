//! The people of a chain, behind which a block is written.
//!
//! `People` is the registry of `dubp_registry`: the indexes, the queue, the keys that have to be excluded, and the facts, as one.
//! `write_block` writes a block into the identities, then into memberships, certifications and the queue, notes by its lines and its ends
//! who has to be excluded, and writes the facts last; it hands out the records of the ends. `apply` appends those of the lines before them.
//! Contracts see the chain that the tables stand for, and the records. The rules on people stand in `dubp_people_rules` and
//! `dubp_people_after`. The chapters on people, records and tables in `docs/protocol` say the same in words.
//!
//! ```text
//! people.mark()?;
//! apply(alloc, &mut people, &block, &head, &mut records, &mut steps)?;
//! ```
#![tactic(auto)]

mod applying;
mod kicked;
mod next;
mod touching;
mod writing;

pub use applying::{apply, write_block};
pub use dubp_registry::{Next, Registry as People};
