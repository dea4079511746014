//! People: which rows a chain of blocks leaves in the indexes of identities, memberships and certifications and in the queue, and
//! what they say of the chain.
//!
//! `specs/Left` gathers the rows from the definitions on the chain. Each function here is a law: it does nothing, and its contract
//! is the law. `specs/Next` says when a block stands to be judged on a chain, and when it stands to be written. The chapters on people and on tables in `docs/protocol` say the same in words.
//!
//! ```text
//! rows_are_left();
//! ```
#![tactic(auto)]

mod next;

ghost use Rattle.dubp_left.specs.Laws.{RowsAreLeft, UidsAreFound, IdentitiesAreCounted, TimesAreWritten};

pub use dubp_chain::{Block, CertLine};
pub use dubp_facts::{BlockTime, Facts, First};
pub use next::{Next, next_of};

/// The rows that a chain leaves have at each key, each pair and each entry what the chain says.
pub fn rows_are_left()
    ensures { RowsAreLeft }
{}

/// On a sound chain an identity is found by its uid exactly where a line of Identities has it.
pub fn uids_are_found()
    ensures { UidsAreFound }
{}

/// On a sound chain there are as many identities as lines of Identities.
pub fn identities_are_counted()
    ensures { IdentitiesAreCounted }
{}

/// On a sound chain the time when a membership or a certification was written is that of the block with the number of its block.
pub fn times_are_written()
    ensures { TimesAreWritten }
{}
