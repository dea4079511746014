//! What one more block makes of the money of a chain: sources, balances and totals, and the rows that stand in the index of sources.
//!
//! Each function here is a law: it does nothing, and its contract is the law. `specs/Steps` says what a block does to money in
//! the order of work: its transactions spend and make, dividends are made behind them, and then the conditions that have too
//! little are cleared. `specs/Left` gives the rows that a chain leaves in the index, where a list of texts numbers the
//! conditions, and `specs/Clearing` says what clearing leaves of rows and takes from them. The chapters on money, records and
//! tables in `docs/protocol` say the same in words.
//!
//! ```text
//! spends_and_makes();
//! clears_rows();
//! ```
#![tactic(auto)]

mod laws;

pub use laws::{
    clears_by_balance, clears_rows, kept_have_enough, limit_stays, made_are_small, made_stay_few,
    others_have_enough, places_are_there, rows_are_at, sources_are_rows,
    sources_are_rows_before_clearing, sources_stay, spends_and_makes, states_stay, totals_go_on,
    transactions_go_on, units_fit,
};
