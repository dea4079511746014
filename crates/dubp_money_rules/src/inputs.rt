//! The rules on the sources that inputs spend.
ghost use Rattle.std.specs.Prelude.{◌≡◌, ◌↔◌, ◌+◌, ◌≤◌, IsTrue, MatchOption, ⊤};
ghost use Rattle.std.specs.List.{AllByRecursion};
ghost use Rattle.dubp_chain.specs.Chains.{Chain};
ghost use Rattle.dubp_validity.specs.Rules.{IsSound};
ghost use Rattle.dubp_validity.specs.MoneyRules.{InputsAreThere, LocktimesHaveEnded};
ghost use Rattle.dubp_left.specs.Next.{IsAsked};
ghost use Rattle.dubp_money_rules.specs.Spending.{AreNumbered, EachAt, IsThere, AreThere, HasEnded, HaveEnded, at_hand};

use crate::spending::time_spent;
use dubp_atoms::Hash;
use dubp_block::Block;
use dubp_cond::{Input, Tx};
use dubp_left::Next;
use dubp_money::Sources;
use dubp_moving::Tables;
use indexmap::IndexSet;

/// Each input is an unspent source of the chain, or an output of an earlier transaction of the block, with its amount and base: rule
/// `G87`. The numbers are the hashes of the transactions of the block, in order.
pub fn inputs_are_there(
    sources: &Sources,
    numbers: &IndexSet<Hash>,
    next: &Next,
    block: &Block,
) -> bool
    ensures { (c : Chain) → ⟦<Sources as Tables<Block>>⟧.at sources.now c → IsAsked c block.now next.now → AreNumbered numbers.now.keys block.now → (IsTrue result ↔ InputsAreThere c block.now) }
{
    all_are_there(sources, numbers, next.time, block)
}

fn all_are_there(sources: &Sources, numbers: &IndexSet<Hash>, time: u64, block: &Block) -> bool
    ensures { (c : Chain) → ⟦<Sources as Tables<Block>>⟧.at sources.now c → IsSound c → AreNumbered numbers.now.keys block.now → (IsTrue result ↔ EachAt time c block.now AreThere block.now.transactions) }
{
    let txs = block.transactions.as_slice();
    for i in 0..txs.len() {
        if !are_there(sources, numbers, time, block, i, &txs[i]) {
            return false;
        }
    }
    true
}

/// Whether the inputs of the transaction of this number are there.
fn are_there(
    sources: &Sources,
    numbers: &IndexSet<Hash>,
    time: u64,
    block: &Block,
    number: usize,
    tx: &Tx,
) -> bool
    ensures { (c : Chain) → ⟦<Sources as Tables<Block>>⟧.at sources.now c → IsSound c → AreNumbered numbers.now.keys block.now → (IsTrue result ↔ AreThere tx.now (at_hand time c block.now number)) }
{
    let inputs = tx.inputs.as_slice();
    inputs_are_found(sources, numbers, time, block, number, inputs)
}

fn inputs_are_found(
    sources: &Sources,
    numbers: &IndexSet<Hash>,
    time: u64,
    block: &Block,
    number: usize,
    inputs: &[Input],
) -> bool
    ensures { (c : Chain) → ⟦<Sources as Tables<Block>>⟧.at sources.now c → IsSound c → AreNumbered numbers.now.keys block.now → (IsTrue result ↔ AllByRecursion (IsThere (at_hand time c block.now number)) inputs.now) }
{
    inputs.iter().all(|input| is_there(sources, numbers, time, block, number, input))
}

fn is_there(
    sources: &Sources,
    numbers: &IndexSet<Hash>,
    time: u64,
    block: &Block,
    number: usize,
    input: &Input,
) -> bool
    ensures { (c : Chain) → ⟦<Sources as Tables<Block>>⟧.at sources.now c → IsSound c → AreNumbered numbers.now.keys block.now → (IsTrue result ↔ IsThere (at_hand time c block.now number) input.now) }
{
    time_spent(sources, numbers, time, block, number, input).is_some()
}

/// For each input that is there, the time of the chain with the block is at least Locktime above the median time of the block that
/// made its source: rule `G89`. The numbers are the hashes of the transactions of the block, in order.
pub fn locktimes_have_ended(
    sources: &Sources,
    numbers: &IndexSet<Hash>,
    next: &Next,
    block: &Block,
) -> bool
    ensures { (c : Chain) → ⟦<Sources as Tables<Block>>⟧.at sources.now c → IsAsked c block.now next.now → AreNumbered numbers.now.keys block.now → (IsTrue result ↔ LocktimesHaveEnded c block.now) }
{
    all_have_ended(sources, numbers, next.time, block)
}

fn all_have_ended(sources: &Sources, numbers: &IndexSet<Hash>, time: u64, block: &Block) -> bool
    ensures { (c : Chain) → ⟦<Sources as Tables<Block>>⟧.at sources.now c → IsSound c → AreNumbered numbers.now.keys block.now → (IsTrue result ↔ EachAt time c block.now (HaveEnded time) block.now.transactions) }
{
    let txs = block.transactions.as_slice();
    for i in 0..txs.len() {
        if !have_ended(sources, numbers, time, block, i, &txs[i]) {
            return false;
        }
    }
    true
}

/// Whether the locktime of the transaction of this number has ended for each of its inputs.
fn have_ended(
    sources: &Sources,
    numbers: &IndexSet<Hash>,
    time: u64,
    block: &Block,
    number: usize,
    tx: &Tx,
) -> bool
    ensures { (c : Chain) → ⟦<Sources as Tables<Block>>⟧.at sources.now c → IsSound c → AreNumbered numbers.now.keys block.now → (IsTrue result ↔ HaveEnded time tx.now (at_hand time c block.now number)) }
{
    let locktime = tx.locktime;
    let inputs = tx.inputs.as_slice();
    inputs_have_ended(sources, numbers, time, block, number, locktime, inputs)
}

fn inputs_have_ended(
    sources: &Sources,
    numbers: &IndexSet<Hash>,
    time: u64,
    block: &Block,
    number: usize,
    locktime: u64,
    inputs: &[Input],
) -> bool
    ensures { (c : Chain) → ⟦<Sources as Tables<Block>>⟧.at sources.now c → IsSound c → AreNumbered numbers.now.keys block.now → (IsTrue result ↔ AllByRecursion (HasEnded time locktime (at_hand time c block.now number)) inputs.now) }
{
    inputs.iter().all(|input| has_ended(sources, numbers, time, block, number, locktime, input))
}

fn has_ended(
    sources: &Sources,
    numbers: &IndexSet<Hash>,
    time: u64,
    block: &Block,
    number: usize,
    locktime: u64,
    input: &Input,
) -> bool
    ensures { (c : Chain) → ⟦<Sources as Tables<Block>>⟧.at sources.now c → IsSound c → AreNumbered numbers.now.keys block.now → (IsTrue result ↔ HasEnded time locktime (at_hand time c block.now number) input.now) }
{
    let made = time_spent(sources, numbers, time, block, number, input);
    has_waited(time, locktime, made)
}

/// Whether `now` is at least `wait` seconds behind the time, where there is one. Times are in seconds.
fn has_waited(now: u64, wait: u64, made: Option<u64>) -> bool
    ensures { IsTrue result ↔ MatchOption made ⊤ (λ time. time + wait ≤ now) }
{
    match made {
        Some(made) => made <= now && wait <= now - made,
        None => true,
    }
}
