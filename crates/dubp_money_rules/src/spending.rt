//! What the inputs of a block spend.
ghost use Rattle.std.specs.Prelude.{◌≡◌, ◌↔◌, ◌+◌, ◌≤◌, IsTrue, IfOk, MatchOption, Some, option_copied, ⊤};
ghost use Rattle.dubp_block.specs.declared.block.Block.{Block as BlockValue};
ghost use Rattle.dubp_chain.specs.Chains.{Chain};
ghost use Rattle.dubp_chain.specs.Money.{unspent};
ghost use Rattle.dubp_validity.specs.Rules.{IsSound};
ghost use Rattle.dubp_validity.specs.MoneyRules.{spent};
ghost use Rattle.dubp_money_rules.specs.Spending.{AreNumbered, made_before, time_in, time_spent, fitting_row, time_of_row, time_of_output, output_at, output_named};

use dubp_atoms::Hash;
use dubp_block::Block;
use dubp_cond::{Input, Output, SourceId, Tx};
use dubp_money::Sources;
use dubp_moving::Tables;
use dubp_sindex::SourceRow;
use indexmap::IndexSet;

/// When the source was made that an input of the transaction of this number spends, in seconds. None where there is none.
pub(crate) fn time_spent(
    sources: &Sources,
    numbers: &IndexSet<Hash>,
    time: u64,
    block: &Block,
    number: usize,
    input: &Input,
) -> Option<u64>
    ensures { (c : Chain) → ⟦<Sources as Tables<Block>>⟧.at sources.now c → IsSound c → AreNumbered numbers.now.keys block.now → result ≡ time_spent time c block.now number input.now }
{
    match time_of_source(sources, input) {
        Some(made) => Some(made),
        None => time_made(numbers, time, block, number, input),
    }
}

/// When the unspent source of the chain was made that the input spends.
fn time_of_source(sources: &Sources, input: &Input) -> Option<u64>
    ensures { (c : Chain) → ⟦<Sources as Tables<Block>>⟧.at sources.now c → IsSound c → result ≡ time_in (spent (unspent c) input.now) }
{
    let row = sources.index.unspent(input.source);
    time_in_row(row, input)
}

fn time_in_row(row: Option<SourceRow>, input: &Input) -> Option<u64>
    ensures { result ≡ time_of_row input.now row }
{
    match fitting_row(row, input) {
        Some(row) => Some(row.made_at),
        None => None,
    }
}

/// The row, where it has the amount and the base of the input.
pub(crate) fn fitting_row(row: Option<SourceRow>, input: &Input) -> Option<SourceRow>
    ensures { result ≡ fitting_row input.now row }
{
    match row {
        Some(row) if row.amount == input.amount && row.base == input.base => Some(row),
        _ => None,
    }
}

/// When the output of an earlier transaction of the block was made that the input spends.
fn time_made(
    numbers: &IndexSet<Hash>,
    time: u64,
    block: &Block,
    number: usize,
    input: &Input,
) -> Option<u64>
    ensures { AreNumbered numbers.now.keys block.now → result ≡ time_in (spent (made_before time block.now number) input.now) }
{
    let output = output_named(numbers, block.transactions.as_slice(), number, input.source);
    time_in_output(output, time, input)
}

fn time_in_output(output: Option<&Output>, time: u64, input: &Input) -> Option<u64>
    ensures { result ≡ time_of_output time input.now (option_copied output.entry) }
{
    match output {
        Some(output) if output.amount == input.amount && output.base == input.base => Some(time),
        _ => None,
    }
}

/// The output of this name, where a transaction before the number makes it.
pub(crate) fn output_named<'a>(
    numbers: &IndexSet<Hash>,
    txs: &'a [Tx],
    number: usize,
    id: SourceId,
) -> Option<&'a Output>
    ensures { option_copied result ≡ output_named numbers.now.keys txs.now number id }
{
    match id {
        SourceId::D { .. } => None,
        SourceId::T { tx, index } => {
            let place = numbers.get_index_of(&tx)?;
            output_at(txs, number, place, index)
        }
    }
}

fn output_at(txs: &[Tx], number: usize, place: usize, index: u64) -> Option<&Output>
    ensures { option_copied result ≡ output_at txs.now number (Some place) index }
{
    if place >= number {
        return None;
    }
    let tx = txs.get(place)?;
    tx.outputs.as_slice().get(index as usize)
}
