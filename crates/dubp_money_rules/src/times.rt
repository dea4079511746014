//! The rule on the age of transactions.
ghost use Rattle.std.specs.Prelude.{◌↔◌, IsTrue};
ghost use Rattle.std.specs.List.{AllByRecursion};
ghost use Rattle.dubp_chain.specs.Chains.{Chain};
ghost use Rattle.dubp_validity.specs.Rules.{IsSound};
ghost use Rattle.dubp_validity.specs.PeopleRules.{IsInWindow};
ghost use Rattle.dubp_validity.specs.MoneyRules.{TransactionsAreInTime};
ghost use Rattle.dubp_left.specs.Next.{IsAsked};
ghost use Rattle.dubp_money_rules.specs.Lines.{IsTxInTime};

use dubp_block::Block;
use dubp_cond::Tx;
use dubp_left::{Facts, Next};
use dubp_moving::Tables;

/// How long a transaction may wait, in seconds.
const TX_WINDOW: u64 = 604_800;

/// The stamp of each transaction has a time, and the time of the chain with the block is at most 604,800 seconds above it: rule
/// `G103`.
pub fn transactions_are_in_time(facts: &Facts, next: &Next, block: &Block) -> bool
    ensures { (c : Chain) → ⟦<Facts as Tables<Block>>⟧.at facts.now c → IsAsked c block.now next.now → (IsTrue result ↔ TransactionsAreInTime c block.now) }
{
    are_in_time(facts, next, block, block.transactions.as_slice())
}

fn are_in_time(facts: &Facts, next: &Next, block: &Block, txs: &[Tx]) -> bool
    ensures { (c : Chain) → ⟦<Facts as Tables<Block>>⟧.at facts.now c → IsSound c → (IsTrue result ↔ AllByRecursion (IsTxInTime c block.now next.now) txs.now) }
{
    txs.iter().all(|tx| is_in_time(facts, next, block, tx))
}

fn is_in_time(facts: &Facts, next: &Next, block: &Block, tx: &Tx) -> bool
    ensures { (c : Chain) → ⟦<Facts as Tables<Block>>⟧.at facts.now c → IsSound c → (IsTrue result ↔ IsTxInTime c block.now next.now tx.now) }
{
    let made = facts.made(block, &tx.stamp);
    is_in_window(next.time, TX_WINDOW, made)
}

/// Whether what was made at this time is at most `window` seconds old at `now`. Times are in seconds; what has none is not.
fn is_in_window(now: u64, window: u64, made: Option<u64>) -> bool
    ensures { IsTrue result ↔ IsInWindow now window made }
{
    match made {
        Some(made) => now <= made.saturating_add(window),
        None => false,
    }
}
