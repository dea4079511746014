//! Laws of lists, and of the lists that a chain has: what stands in one, what stands once, what a filter leaves, the last line that
//! passes, records that change rows in turn, sums over what remains.
//!
//! There is no code here. The lemmas in `proofs/` are what the crates above prove their clauses with.
#![tactic(auto)]
