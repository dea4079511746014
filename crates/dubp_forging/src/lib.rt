//! A block of the documents that wait, as definitions: the draft that documents make, the rules that it breaks, and the block that is forged.
//!
//! `specs/Filled` has the header that a draft gets behind a chain, `Drafts` the lines of documents and what a draft breaks, `Forged` the passes
//! through the documents that wait, and which of them are left out. Protocol: forging.
#![tactic(auto)]

pub use dubp_chain::Block;
