//! What is asked of the money of a chain, and the texts of the answers to queries, over tables alone.
//!
//! Each function gives the answer to one query. What stands behind it is that of the chain whose tables are given, as `dubp_replay`
//! defines it. A line lies in its value and takes no memory; who has an empty one gives it (`put_money_line` beside `money_line`, and so
//! on). The chapter on commands and answers in `docs/protocol` says the same in words.
//!
//! ```text
//! let line = money_line(&money);
//! let line = identity_line(&registry, key);
//! let line = distance_line(alloc, &registry, key)?;
//! let units = balance(&money, &cond);
//! let found = sources(alloc, &money, &cond)?;
//! let text = sources_text(alloc, &money, &cond)?;
//! let text = certs_text(alloc, &registry, key)?;
//! ```
#![tactic(auto)]

mod certifications;
mod distance;
mod money;
mod money_views;
mod people;
mod source_texts;

pub use certifications::certs_text;
pub use distance::{distance_line, put_distance_line};
pub use dubp_answers::SourceView;
pub use dubp_money::Money;
pub use money::{balance_line, money_line, put_balance_line, put_money_line};
pub use money_views::{balance, first_source, sources};
pub use people::{identity_line, put_identity_line, put_uid_line, uid_line};
pub use source_texts::sources_text;
