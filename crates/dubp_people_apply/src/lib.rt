//! What a block writes into identities, memberships, certifications and the queue of what falls due, and the records of people: those of
//! all ends, and apart from them those of its lines.
//!
//! A line of Identities puts the row of a new identity, Joiners make members, and Excluded end that; nothing else changes an identity
//! (`write_identities`). In the other tables the lines come first (`write_memberships`, `write_certifications`): each takes the ends of what it makes anew out of the queue, and
//! plans the new ones where they are later than the time of the chain with the block. Then what the queue has up to that time is taken
//! (`take_due`), entry after entry. Who is at an end, by a line or by what is taken, has one record. `write_ends` is all of it, and makes
//! the records of the ends alone; `put_line_records` makes those of the lines, from the block and the facts of the chain below it.
//!
//! Contracts see the tables by what stands at each key (`specs/Held.antt`); `dubp_steps` says what a block makes of it, and `dubp_left`
//! which rows a chain leaves. `specs/Counting.antt` says how many keys a block sets. The chapters on people, certifications, tables and
//! records in `docs/protocol` say the same in words.
//!
//! ```text
//! write_identities(&mut identities, &block, &mut steps)?;
//! let since = heads.last().map(|head| head.median_time);
//! write_ends(alloc, &mut memberships, &mut certifications, &mut queue, &facts, since, &block, &next, &mut records, &mut steps)?;
//! ```
#![tactic(auto)]

mod at_once;
mod certifications;
mod ended;
mod identities;
mod laws;
mod memberships;
mod queue;
mod records;
mod taking;
mod whole;

pub use certifications::write_certifications;
pub use ended::Ended;
pub use identities::write_identities;
pub use laws::sets_fit;
pub use memberships::write_memberships;
pub use records::put_line_records;
pub use taking::take_due;
pub use whole::write_ends;
