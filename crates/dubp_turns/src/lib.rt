//! A node of a currency: the state that commands change, and the turn of each command.
//!
//! Contracts see a node as its verdicts, the chain of accepted blocks, how many of them can be reversed, the stored blocks of branches, whether
//! it chooses among these by itself, the branches that it chose and that failed, and the documents that wait. Its chapters are commands and
//! answers, choice, documents that wait, forging, and the generator, of `docs/protocol`. What looks at verdicts, chain and stored blocks alone
//! stands in `branches`.
//!
//! ```text
//! let mut node = Node::<Books<PeopleRules>>::new(alloc);
//! let answer = node.act(&command, frame, &mut steps);
//! let told = node.take_turn(&command, frame, &mut line, &mut steps);
//! node.tell(&Asked::Head, &mut line);
//! ```
#![tactic(auto)]

mod branches;
mod choosing;
mod forging;
mod node;
mod seeing;
mod stating;
mod texts;
mod told;

pub use branches::Branches;
pub use dubp_query::{Answer, Asked, head_line};
pub use node::Node;
pub use stating::{put_numbered, put_one, put_refused};
pub use told::Told;
