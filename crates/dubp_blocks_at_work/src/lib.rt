//! Tests of the texts of blocks, documents and conditions, of the rules on a block by itself, and of a first block's head and money, and nothing else.
//!
//! Each call is made with texts whose answers are known from outside. The tests stand above the crates that they try: a crate with
//! tests of its own is proved once more with them.
#![tactic(auto)]

#[cfg(test)]
mod blocks;
#[cfg(test)]
mod conditions;
#[cfg(test)]
mod documents;
#[cfg(test)]
mod heads;
#[cfg(test)]
mod money;
#[cfg(test)]
mod rules;
