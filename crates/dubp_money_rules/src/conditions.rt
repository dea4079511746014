//! The rule on the conditions of the sources that inputs spend.
ghost use Rattle.std.specs.Prelude.{◌≡◌, ◌↔◌, ◌==◌, ◌≤◌, IfOk, IsTrue, Some, option_copied, slice_get};
ghost use Rattle.std.specs.List.{count_by};
ghost use Rattle.dubp_cond.specs.Tree.{CondTree};
ghost use Rattle.dubp_cond.specs.Conditions.{IsCond, cond_text};
ghost use Rattle.dubp_cond.specs.Truth.{IsTrueAt};
ghost use Rattle.dubp_sindex.specs.Accounts.{accounts};
ghost use Rattle.dubp_chain.specs.Chains.{Chain};
ghost use Rattle.dubp_chain.specs.Money.{unspent};
ghost use Rattle.dubp_validity.specs.Rules.{IsSound};
ghost use Rattle.dubp_left.specs.Next.{IsAsked};
ghost use Rattle.dubp_validity.specs.LocalRules.{InputsAreUnlockedOnce};
ghost use Rattle.dubp_validity.specs.MoneyRules.{ConditionsAreTrue, IsOpened, spent, unlocks_of};
ghost use Rattle.dubp_money_rules.specs.Spending.{AreNumbered, AreOpened, AreUnlockedOnce, EachAt, HaveConditions, IsRead, IsSeenOpened, at_hand, seen_in, seen_output};

use crate::spending::{fitting_row, output_named};
use dubp_atoms::{Hash, Key, NoMemory};
use dubp_block::Block;
use dubp_cond::{Cond, Input, Output, Tx, Unlock, holds, read_cond};
use dubp_left::Next;
use dubp_money::Sources;
use dubp_moving::Tables;
use dubp_sindex::SourceRow;
use indexmap::IndexSet;
use std::alloc::Global;

/// When the unspent source of the chain that the input spends was made, in seconds, and its condition. None where there is none.
///
/// `NoMemory` where there is none for the condition.
fn condition_of_source(
    alloc: Global,
    sources: &Sources,
    input: &Input,
) -> Result<Option<(u64, Cond)>, NoMemory>
    ensures { IfOk result (λ found. (c : Chain) → ⟦<Sources as Tables<Block>>⟧.at sources.now c → IsSound c → HaveConditions c → found ≡ seen_in (spent (unspent c) input.now)) }
{
    match fitting_row(sources.index.unspent(input.source), input) {
        Some(row) => {
            let found = condition_of_row(alloc, sources, &row)?;
            Ok(found)
        }
        None => Ok(None),
    }
}

/// When the source of the row was made, and the condition of its account.
fn condition_of_row(
    alloc: Global,
    sources: &Sources,
    row: &SourceRow,
) -> Result<Option<(u64, Cond)>, NoMemory>
    ensures { IfOk result (λ found. (c : CondTree) → IsCond c → slice_get (accounts sources.now.index) row.now.account ≡ Some (cond_text c) → found ≡ Some (row.now.made_at, c)) }
{
    if row.account >= sources.index.account_count() {
        return Ok(None);
    }
    match read_cond(alloc, sources.index.cond_text(row.account))? {
        Some(cond) => Ok(Some((row.made_at, cond))),
        None => Ok(None),
    }
}

/// The unlocks of the input at this place, which has one line of them.
fn unlocks_at(tx: &Tx, place: usize) -> &[Unlock]
    ensures { count_by (λ line. line.input == place) tx.now.unlocks ≡ 1 → result.now ≡ unlocks_of tx.now place }
{
    for line in tx.unlocks.as_slice() {
        if line.input == place as u64 {
            return line.list.as_slice();
        }
    }
    &[]
}

/// Whether the condition of a source made at `written` is true at `now` for these unlocks and issuers. Times are in seconds.
fn is_true_at(cond: &Cond, unlocks: &[Unlock], issuers: &[Key], now: u64, written: u64) -> bool
    ensures { written ≤ now → (IsTrue result ↔ IsTrueAt (record { unlocks = unlocks.now; issuers = issuers.now; now = now; written = written }) cond.now) }
{
    written <= now && holds(cond, unlocks, issuers, now, written)
}

/// For each input that is there, the condition of its source is true: rule `G88`. The numbers are the hashes of the transactions of the
/// block, in order.
///
/// `NoMemory` where there is none for a condition.
pub fn conditions_are_true(
    alloc: Global,
    sources: &Sources,
    numbers: &IndexSet<Hash>,
    next: &Next,
    block: &Block,
) -> Result<bool, NoMemory>
    ensures { IfOk result (λ holds. (c : Chain) → ⟦<Sources as Tables<Block>>⟧.at sources.now c → IsAsked c block.now next.now → HaveConditions c → AreNumbered numbers.now.keys block.now → (IsTrue holds ↔ ConditionsAreTrue c block.now)) }
{
    let opened = all_are_opened(alloc, sources, numbers, next.time, block)?;
    Ok(opened)
}

fn all_are_opened(
    alloc: Global,
    sources: &Sources,
    numbers: &IndexSet<Hash>,
    time: u64,
    block: &Block,
) -> Result<bool, NoMemory>
    ensures { IfOk result (λ holds. (c : Chain) → ⟦<Sources as Tables<Block>>⟧.at sources.now c → IsRead c block.now time numbers.now.keys → InputsAreUnlockedOnce block.now → (IsTrue holds ↔ EachAt time c block.now (AreOpened time) block.now.transactions)) }
{
    let txs = block.transactions.as_slice();
    for i in 0..txs.len() {
        if !inputs_are_opened(alloc, sources, numbers, time, block, i, &txs[i])? {
            return Ok(false);
        }
    }
    Ok(true)
}

fn inputs_are_opened(
    alloc: Global,
    sources: &Sources,
    numbers: &IndexSet<Hash>,
    time: u64,
    block: &Block,
    number: usize,
    tx: &Tx,
) -> Result<bool, NoMemory>
    ensures { IfOk result (λ holds. (c : Chain) → ⟦<Sources as Tables<Block>>⟧.at sources.now c → IsRead c block.now time numbers.now.keys → AreUnlockedOnce tx.now → (IsTrue holds ↔ AreOpened time tx.now (at_hand time c block.now number))) }
{
    let inputs = tx.inputs.as_slice();
    for place in 0..inputs.len() {
        let input = &inputs[place];
        if !is_opened(
            alloc, sources, numbers, time, block, number, tx, place, input,
        )? {
            return Ok(false);
        }
    }
    Ok(true)
}

/// Whether the condition of the source that the input at this place of the transaction of this number spends is true, where there is
/// one.
fn is_opened(
    alloc: Global,
    sources: &Sources,
    numbers: &IndexSet<Hash>,
    time: u64,
    block: &Block,
    number: usize,
    tx: &Tx,
    place: usize,
    input: &Input,
) -> Result<bool, NoMemory>
    ensures { IfOk result (λ holds. (c : Chain) → ⟦<Sources as Tables<Block>>⟧.at sources.now c → IsRead c block.now time numbers.now.keys → count_by (λ line. line.input == place) tx.now.unlocks ≡ 1 → (IsTrue holds ↔ IsOpened time tx.now (at_hand time c block.now number) (place, input.now))) }
{
    let unlocks = unlocks_at(tx, place);
    let issuers = tx.issuers.as_slice();
    match condition_of_source(alloc, sources, input)? {
        Some((made, cond)) => Ok(is_true_at(&cond, unlocks, issuers, time, made)),
        None => {
            let txs = block.transactions.as_slice();
            let output = output_named(numbers, txs, number, input.source);
            let opened = output_is_opened(alloc, output, time, input, unlocks, issuers)?;
            Ok(opened)
        }
    }
}

/// Whether the condition of the output is true, where there is one that the input can spend.
fn output_is_opened(
    alloc: Global,
    output: Option<&Output>,
    time: u64,
    input: &Input,
    unlocks: &[Unlock],
    issuers: &[Key],
) -> Result<bool, NoMemory>
    ensures { IfOk result (λ opened. IsTrue opened ↔ IsSeenOpened time unlocks.now issuers.now (seen_output time input.now (option_copied output.entry))) }
{
    match output {
        Some(output) if output.amount == input.amount && output.base == input.base => {
            let cond = output.cond.tree(alloc)?;
            Ok(is_true_at(&cond, unlocks, issuers, time, time))
        }
        _ => Ok(true),
    }
}
