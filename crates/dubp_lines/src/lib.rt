//! Texts of lines: reading line after line with the place of a refusal, and writing them.
//!
//! A reader takes a line at each place of its format. `Lines` is seen as the lines that are left and the bytes behind the
//! last LF; a refusal has how many lines are left, so the number of the refused line follows, and nothing is counted on the
//! way.
//!
//! ```text
//! let mut lines = Lines::of(text);
//! lines.take(b"Type: Block")?;
//! let number = lines.take_value::<u64>(b"Number: ")?;
//! ```
#![tactic(auto)]

mod as_text;
mod lines;
mod reading;
mod refusal;
mod writing;

pub use as_text::AsText;
pub use lines::{Lines, count_lines, next_line};
pub use reading::ReadText;
pub use refusal::{LineRefusal, Refused};
pub use writing::{put_field_line, put_line, put_number_line, put_signed_line, put_text_line};
