//! Parts of a generator of chains that need no ledger: keys and names by number, a run of numbers, what each block says, and the sealing
//! of a block.
//!
//! Each call is an exact function of its arguments, and only `draft` and `first_draft` take memory. `specs/` has their definitions: which
//! keys and names there are (`Keys`), which number follows another (`Numbers`), what each block says (`Drafting`), and what a sealed
//! block is (`Sealing`). The chapter on the generator in
//! `docs/protocol` says the same in words.
//!
//! ```text
//! draft.issuer = key_of(7);
//! let sealed = seal(draft, difficulty)?;
//! let found_right = (sealed.key, sealed.message, sealed.sig);
//! ```
#![tactic(auto)]

mod begun;
mod blanks;
mod documents;
mod drafted;
mod drafting;
mod keys;
mod lines;
mod memory;
mod numbers;
mod payments;
mod people;
mod sealed;
mod sealing;
mod sections;
mod signing;

pub use drafted::Draft;
pub use drafting::{draft, first_draft, payer};
pub use keys::{KEYS, key_of, uid_of};
pub use numbers::next_number;
pub use sealed::{SealRefusal, Sealed};
pub use sealing::{seal, seal_hashed};
