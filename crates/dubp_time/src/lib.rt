//! The median of times: of a list, and of a window from which times come and go.
//!
//! The median is that of a multiset: it does not change when the list is put in another order. Of an even
//! number of times it is the mean of the middle two, rounded down. `specs/Median.antt` defines it, and
//! `median` and `Window::middle` both give it. Contracts see a window as its times in rising order and
//! its room. The chapter on head values in `docs/protocol` says where the protocol takes a median.
//!
//! ```
//! let mut window = Window::new(alloc, 24)?;
//! window.insert(1000);
//! window.insert(1301);
//! assert_eq!(rt; window.middle(), Some(1150));
//! window.remove(1000);
//! assert_eq!(rt; window.middle(), median(alloc, &[1301])?);
//! ```
#![tactic(auto)]

mod medians;
mod window;

pub use dubp_atoms::{Hash, Key, Stamp};
pub use medians::{median, median_laws};
pub use window::Window;
