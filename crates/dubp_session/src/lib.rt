//! A run of the program over any source of bytes and any sink: commands are read from the one, and their answers written to the other;
//! or a chain is generated.
//!
//! `run` is the whole program. Its contract says what is written, and with which status the run ends. Its chapters are the input,
//! commands and answers, and the generator, of `docs/protocol`.
//!
//! ```text
//! let mut node = Node::<Books<PeopleRules>>::new(alloc);
//! let status = run(alloc, &["run"], &mut source, &mut sink, &mut node);
//! ```
#![tactic(auto)]

mod form;
mod generating;
mod running;
mod serving;
mod texts;

pub use dubp_atoms::Secret;
pub use dubp_entries::cutting;
pub use dubp_gen::PeopleAndMoney;
pub use dubp_outside::{MemSink, MemSource, ReadSource, WriteSink};
pub use dubp_turns::Node;
pub use running::{NO_ROOM, USAGE, run};
