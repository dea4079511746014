//! The entries of the input, and what it is to answer them: how bytes are cut into entries, which of them are sure to change nothing, answers that are
//! gathered before they are written, and, as definitions, what a run over some bytes writes.
//!
//! Nothing here stands on a node. Its chapters are the input, and commands and answers, of `docs/protocol`.
//!
//! ```text
//! let Found::Got(used, item) = take_one(phase, buffer.bytes()) else { .. };
//! if is_question(&item) {
//!     keep(&mut sink, &mut gathered, answer.as_bytes())?;
//! }
//! ```
#![tactic(auto)]

mod asking;
mod buffer;
mod ends;
mod gathered;
mod item;
mod laws;
mod reading;
mod remembered;

pub use asking::is_question;
pub use buffer::Buffer;
pub use ends::{Ending, InputEnd};
pub use gathered::{Gathered, flush, keep};
pub use item::Item;
pub use laws::cutting;
pub use reading::{Found, LONGEST_LINE, Phase, frame_head, line_end, take_one};
pub use remembered::Remembered;
