//! The re-evaluation of the dividend.
//!
//! `next_dividend` is an exact function of whole numbers, and takes no memory. `specs/Reevaluation.antt` defines it in numbers
//! without a bound, and the code stays within 128 bits. Contracts see `Dividend` as the record of its amount and base.
//! The chapter on head values in `docs/protocol` says the same in words.
//!
//! ```text
//! let previous = Dividend { amount: 1000, base: 0 };
//! let next = next_dividend(previous, 1_000_000, 10, &params)?;
//! ```
#![tactic(auto)]

mod dividends;
mod division;
mod reevaluation;

pub use dividends::{Dividend, Limit};
pub use reevaluation::next_dividend;
