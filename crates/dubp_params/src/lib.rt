//! The parameters of a currency: their text, their ranges, and the times that follow from them.
//!
//! Contracts see `Params` as the record of its twenty fields. `read_params` and `put_params` agree with the one spelling;
//! a range is no part of it, since parameters out of range break rule `X02` and are a text all the same.
//!
//! ```text
//! let params = read_params(text)?;
//! if in_range(&params) {
//!     let latest = median_time + max_acceleration(&params);
//! }
//! ```
#![tactic(auto)]

mod boxed;
pub mod laws;
mod params;
mod ranges;
mod reading;
mod writing;

pub use boxed::{BoxedParams, boxed_params};
pub use dubp_atoms::{Dec, Hash};
pub use params::Params;
pub use ranges::{in_range, max_acceleration, max_gen_time, min_gen_time};
pub use reading::read_params;
pub use writing::put_params;
