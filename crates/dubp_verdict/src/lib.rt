//! Which signatures were found right: a set of verdicts.
//!
//! A verdict says that the signature by a key of a message with a hash is right. It is given from outside, and never found out
//! here. Contracts see the set as the list of its verdicts, the newest first and each once, and `add` as `with_verdict` of
//! `specs/Verdicts.antt`. The chapter on verdicts in `docs/protocol` says the same in words.
//!
//! ```text
//! let mut verdicts = Verdicts::new(alloc);
//! verdicts.add(key, Hash::of(message), sig)?;
//! assert!(rt; verdicts.has(&key, message, &sig));
//! ```
#![tactic(auto)]

mod entry;
mod laws;
mod order;
mod verdicts;

pub use dubp_atoms::{Items, Key, Line, Stamp, Uid, put_bytes, put_number};
pub use laws::verdict_laws;
pub use verdicts::Verdicts;
