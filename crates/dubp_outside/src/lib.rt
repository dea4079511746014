//! Where bytes come from and where they go, with counted faults.
//!
//! All else of the node meets the outside through the traits `Source` and `Sink`. A source has bytes `left` and a sink
//! has bytes `held`, each where it tells them, and each counts its `faults`. A call fails only where this count rose,
//! so that a failure has a cause outside of the code that calls, and a call that succeeds leaves the count as it was.
//!
//! `PlainSource`, `PlainSink`, `MemSource` and `MemSink` are in memory: contracts say all that each call does.
//! `ReadSource` and `WriteSink` stand over readers and writers of std: a terminal, a file or a pipe does not tell its
//! bytes, and then no contract says which bytes come or where they go.
//!
//! ```
//! let mut source = ReadSource::new(rt.stdin());
//! let mut sink = WriteSink::new(rt.stdout());
//! let mut piece = [0; 4096];
//! let count = source.read(&mut piece)?;
//! write_whole(&mut sink, &piece[..count])?;
//! ```
#![tactic(auto)]

mod copying;
mod errors;
mod held;
mod memory;
mod plain;
mod schedule;
mod sink;
mod source;
mod streams;
mod unread;

pub use errors::{Failed, NoMemory};
pub use memory::{MemSink, MemSource};
pub use plain::{PlainSink, PlainSource};
pub use sink::{Sink, write_whole};
pub use source::Source;
pub use streams::{ReadSource, WriteSink};
