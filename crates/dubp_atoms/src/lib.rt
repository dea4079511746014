//! The atoms of the ledger's texts, and small parts that every crate above shares.
//!
//! An atom is a value with one spelling: keys, names, hashes, signatures, numbers, stamps. Contracts see `Key`, `Uid`, `Sig`,
//! `Hash` and `Currency` as their texts, and `Stamp` and `Dec` as records of their fields. `read` accepts exactly the
//! spelling, `put` writes it, and neither takes memory.
//!
//! ```text
//! let key = Key::read(b"4tsFXtKofD6jK8zwLymgXWAoMBzhFx7KNANhtK86mKzA")?;
//! let mut line: Line = ArrayVec::new();
//! key.put(&mut line);
//! put_number(1488987127, &mut line);
//! ```
#![tactic(auto)]

mod currency;
mod cutting;
mod dec;
mod hash;
mod hashing;
mod items;
mod key;
pub mod laws;
mod letters;
mod line;
mod number;
mod secret;
mod sig;
mod stamp;
mod text;
mod text_sink;
mod uid;

pub use currency::Currency;
pub use cutting::cut;
pub use dec::Dec;
pub use dubp_costs::{NoMemory, Steps};
pub use hash::Hash;
pub use hashing::Hashing;
pub use items::Items;
pub use key::Key;
pub use line::{Line, put_bytes};
pub use number::{put_number, put_signed, read_number, read_signed};
pub use secret::Secret;
pub use sig::Sig;
pub use stamp::Stamp;
pub use text_sink::TextSink;
pub use uid::Uid;
