//! Money: the unspent sources of a chain, the hashes of its transactions and its totals, and what a block does to sources.
//!
//! `Sources` stands for the chain itself, over the index of `dubp_sindex`: the rows that each block leaves, with the accounts as
//! the index numbers them. While a block is written, contracts see the index by the rows that it has (`specs/Index`). First
//! transactions spend and make, one after the other, and dividends are made behind them (`spend_and_make`); then the accounts
//! that have too little are cleared (`clear_block`), and the index stands for the chain with the block. `Money` holds the sources
//! with the tables that stand beside them, the hashes of transactions, the totals and the facts, and its `apply` writes a block
//! into all of them; `apply_hashed` takes the hashes of its transactions. Where a call is refused, what is kept stays so, and
//! `back` undoes all of it. The chapters on money and records in `docs/protocol` say the same in words.
//!
//! ```text
//! money.mark()?;
//! money.apply_hashed(alloc, &block, &head, &members, &hashes, &mut records, &mut steps)?;
//! assert!(money.has_transaction(hashes[0].whole));
//! ```
#![tactic(auto)]

mod applying;
mod beside;
mod blocks;
mod clearing;
mod counting;
mod making;
mod money;
mod paying;
mod sources;
mod spending;
mod telling;
mod transactions;
mod writing;

pub use blocks::{clear_block, pay, spend_and_make};
pub use clearing::{clear_accounts, put_clears};
pub use dubp_atoms::Secret;
pub use dubp_facts::Facts;
pub use making::{NewSource, make_outputs, put_makes};
pub use money::{Money, Totals, TotalsOf, TransactionsOf};
pub use paying::{Payment, pay_dividends, put_dividends};
pub use sources::Sources;
pub use spending::{put_spends, spend_inputs};
pub use telling::put_transactions;
pub use transactions::{write_transaction, write_transactions};
