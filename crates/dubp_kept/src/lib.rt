//! The blocks of a chain with their heads and their tables, of which the last hundred can be taken off again, and how a block is judged
//! that is to stand on it.
//!
//! `Written` says what tables are that a block is written into. Contracts see a `Kept` as its chain, newest block first, and how many of
//! its blocks can be taken off; its tables stand for that chain whatever is added and taken off. Who adds a block knows that it breaks no
//! rule: `judge` told it. The chapters on tables and on commands in `docs/protocol` say the same in words.
//!
//! To judge a block, the parts of the table of rules are asked in its order: the local rules, the number, the place in the chain, the
//! limits, the rules on the header, and those that `Judges` answers from tables. The laws of the first failing rule join the parts, so no
//! proof goes over all rules at once. `trial` asks the same of a block that is not signed yet, but for the two rules that it keeps once it
//! is. The chapter on rules in `docs/protocol` has each rule in words.
//!
//! A switch to another branch takes blocks off and holds them (`hold`). Blocks of the branch are added in their place; then the held
//! ones are given up (`settle`), or those of the branch are taken off and the held ones put back (`restore`). Neither takes memory.
//! Contracts see as `out` what was before the blocks were held, and as long as they are, every block that can be taken off stays so.
//!
//! ```text
//! let mut kept = Kept::new(alloc, tables);
//! match judge(alloc, &kept, &block, &inner, &verdicts)? {
//!     Judgement::Breaks(rule) => refuse(rule),
//!     Judgement::Keeps(head, params, hashes) => kept.add(block, head, &params, hashes.as_slice(), &mut steps),
//! }
//! let bad = trial(alloc, &kept, &draft, &inner, &verdicts)?;
//! let block = kept.withdraw(&mut steps);
//!
//! let held = kept.hold(2, &mut steps)?;
//! kept.restore(held, &mut steps);
//! ```
#![tactic(auto)]

mod checks;
mod held;
mod judgement;
mod judges;
mod judging;
mod kept;
mod laws;
mod left_behind;
mod moves;
mod switch;
mod written;

pub use dubp_local::{Asked, Checked, MadeHashes, check_local_hashed, check_local_read};
pub use held::Held;
pub use judgement::Judgement;
pub use judges::Judges;
pub use judging::{judge, trial};
pub use kept::Kept;
pub use laws::parts_are_the_table;
pub use left_behind::LeftBehind;
pub use written::Written;
