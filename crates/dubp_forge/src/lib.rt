//! A block of the documents that wait.
//!
//! `forge` takes each document of a pool that the next block may have, and the block that they make gets its header and its exclusions
//! from the ledger; what is left out is told with the rule that it breaks. `dubp_forging/specs/Forged` says which block this is. Protocol:
//! forging.
//!
//! ```text
//! let forged = forge(alloc, &ledger, &pool, &verdicts, issuer, time)?;
//! let text = put_block(alloc, &forged.block)?;
//! let answer = forge_answer(alloc, &ledger, &pool, &verdicts, issuer, time)?;
//! ```
#![tactic(auto)]

mod adding;
mod answering;
mod asking;
mod draft;
mod forged;
mod forging;
mod lines;
mod runs;

pub use answering::forge_answer;
pub use dubp_ledger::{Ledger, PeopleAndMoney};
pub use dubp_pool::Pool;
pub use forged::{ForgeRefusal, Forged};
pub use forging::forge;
