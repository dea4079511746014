//! The generator: a valid chain from a number.
//!
//! `make_ledger` makes each block behind those before it: its lines by the run of numbers (`dubp_drafts`), its header and exclusions by the
//! ledger, the least nonce that meets the difficulty of its issuer; and gives the ledger its verdicts and the block before it makes the
//! next. The ledger is lent, so the blocks stay in it. `make_chain` makes them in a ledger of its own, and hands on copies. `specs/Generated`
//! says which chain this is, and where the making may end. The chapter on the generator in `docs/protocol` says the same in words.
//!
//! ```text
//! let made = make_chain::<Books<PeopleRules>, _>(alloc, 200, 7, &mut steps)?;
//! let last = made.blocks.last();
//! ```
#![tactic(auto)]

mod chain;
mod making;
mod next;
mod spending;

pub use chain::{Chain, GenRefusal};
pub use dubp_drafts::{KEYS, SealRefusal, Sealed, key_of, next_number, seal, uid_of};
pub use dubp_ledger::{Ledger, PeopleAndMoney};
pub use making::{make_chain, make_ledger};
