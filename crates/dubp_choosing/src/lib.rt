//! A node that chooses among stored blocks: its state as branches with what was chosen, and the laws of one try.
//!
//! There is no code here. The lemmas in `proofs/` are what the crates above prove their clauses with.
#![tactic(auto)]
