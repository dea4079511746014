//! Documents: what people sign, and the text that they sign.
//!
//! Contracts see a `Doc` as the record of its fields. `specs/Spelling` has the text of each document, the part of it that is
//! signed, and which documents have one. `read_doc` accepts exactly such a text, `put_doc` writes it, and the hashes of what is
//! signed are made from the fields alone, without the text. Protocol: documents.
//!
//! ```text
//! let doc = read_doc(alloc, b"Version: 10\nType: Identity\n..")?;
//! let signed = identity_hash(&currency, &issuer, &uid, &timestamp);
//! let hashes = tx_hashes(&currency, &tx);
//! ```
#![tactic(auto)]

mod doc;
mod hashing;
mod kinds;
pub mod laws;
mod lists;
mod put_text;
mod read;
mod reading;
mod signing;
mod steps;
mod transaction;
mod writing;

pub use doc::{CertificationDoc, Doc, IdentityDoc, MembershipDoc, RevocationDoc, TxDoc};
pub use hashing::{
    TxHashes, all_tx_hashes, certification_hash, identity_hash, membership_hash, revocation_hash,
    tx_hash, tx_hashes,
};
pub use read::read_doc;
pub use writing::{put_doc, signed_text, signed_tx};
