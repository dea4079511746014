//! The commands of the input.
//!
//! ```text
//! match read_command(line) {
//!     Some(Command::Block { len }) => ..,
//!     Some(Command::Ask(query)) => ..,
//!     None => ..,
//! }
//! match read_asked(line) {
//!     Some(Asked::Head) => ..,
//!     None => ..,
//! }
//! ```
#![tactic(auto)]

mod asking;
mod beginning;
mod framed;
mod reading;
mod words;

pub use asking::read_asked;
pub use beginning::begins_command;
pub use dubp_replay::{Asked, Command};
pub use framed::{Framed, read_framed};
pub use reading::read_command;
