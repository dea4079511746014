//! What the node answers, as definitions: the text of each answer, and what each command changes.
//!
//! `specs/Answers` has the texts, `Turns` what each command answers and how it changes the state, and runs of commands. They are said
//! in the values of a chain (`dubp_chain`), its rules and records (`dubp_validity`), its moves (`dubp_moves`) and the blocks that are forged behind it
//! (`dubp_forging`), whose types are given again here; what is proved of moves is in `move_laws`.
//!
//! ```text
//! let query = Query::Identity { key };
//! ```
#![tactic(auto)]

mod answer;
mod asked;
mod command;
mod failure;
mod limits;
mod query;

pub use answer::Answer;
pub use asked::Asked;
pub use command::Command;
pub use dubp_chain::Head;
pub use dubp_moves::{Kind, Move, laws as move_laws};
pub use dubp_validity::{Record, put_record};
pub use failure::Failure;
pub use limits::LONGEST_BLOCK;
pub use query::{Query, filled};
