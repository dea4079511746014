//! Rules on what each transaction moves.
ghost use Rattle.std.specs.Prelude.{◌≡◌, ◌↔◌, ◌^◌, ◌*◌, ◌<◌, ◌≤◌, IsTrue, All, length, sum_by};
ghost use Rattle.dubp_cond.specs.Sources.{IsInput};
ghost use Rattle.dubp_cond.specs.Outputs.{IsOutput};
ghost use Rattle.dubp_cond.specs.Transactions.{IsTx};
ghost use Rattle.dubp_block.specs.Sections.{compact_lines};
ghost use Rattle.dubp_block.specs.Text.{IsBlock};
ghost use Rattle.dubp_validity.specs.OfChain.{units as units_of};
ghost use Rattle.dubp_validity.specs.LocalRules.{TransactionsAreShort, AmountsAreNotZero, MovesSomething, TransactionsAreBalanced, IsBalanced, input_units, output_units};

use dubp_block::Block;
use dubp_cond::{Input, Output, Tx};

/// The most lines of a transaction in its compact form.
const MOST_LINES: u128 = 100;

/// Each transaction has at most 100 lines in its compact form: rule `L18`.
pub(crate) fn transactions_are_short(block: &Block) -> bool
    ensures { IsTrue result ↔ TransactionsAreShort block.now }
{
    block
        .transactions
        .as_slice()
        .iter()
        .all(|tx| compact_line_count(tx) <= MOST_LINES)
}

fn compact_line_count(tx: &Tx) -> u128
    ensures { result ≡ length (compact_lines tx.now) }
{
    let comment_lines = if tx.comment.is_empty() { 0 } else { 1 };
    // before the issuers stand the first line and the stamp
    2 + tx.issuers.len() as u128
        + tx.inputs.len() as u128
        + tx.unlocks.len() as u128
        + tx.outputs.len() as u128
        + comment_lines
        + tx.sigs.len() as u128
}

/// The amount of each input and output is at least 1: rule `L22`.
pub(crate) fn amounts_are_not_zero(block: &Block) -> bool
    ensures { IsTrue result ↔ AmountsAreNotZero block.now }
{
    block
        .transactions
        .as_slice()
        .iter()
        .all(|tx| moves_something(tx))
}

fn moves_something(tx: &Tx) -> bool
    ensures { IsTrue result ↔ MovesSomething tx.now }
{
    tx.inputs.as_slice().iter().all(|input| input.amount >= 1)
        && tx
            .outputs
            .as_slice()
            .iter()
            .all(|output| output.amount >= 1)
}

/// In each transaction the inputs have as many units as the outputs: rule `L23`.
pub(crate) fn transactions_are_balanced(block: &Block) -> bool
    requires { IsBlock block.now }
    ensures { IsTrue result ↔ TransactionsAreBalanced block.now }
{
    for tx in block.transactions.as_slice() {
        if !is_balanced(tx) {
            return false;
        }
    }
    true
}

fn is_balanced(tx: &Tx) -> bool
    requires { IsTx tx.now }
    ensures { IsTrue result ↔ IsBalanced tx.now }
{
    units_of_inputs(tx.inputs.as_slice()) == units_of_outputs(tx.outputs.as_slice())
}

fn units_of_inputs(inputs: &[Input]) -> u128
    requires few { length inputs.now ≤ 100 }
    requires each { All IsInput inputs.now }
    ensures { result ≡ sum_by input_units inputs.now }
{
    let mut sum: u128 = 0;
    for input in inputs {
        sum += units(input.amount, input.base);
    }
    sum
}

fn units_of_outputs(outputs: &[Output]) -> u128
    requires few { length outputs.now ≤ 100 }
    requires each { All IsOutput outputs.now }
    ensures { result ≡ sum_by output_units outputs.now }
{
    let mut sum: u128 = 0;
    for output in outputs {
        sum += units(output.amount, output.base);
    }
    sum
}

/// How many units an amount of this base has.
#[tactic(auto, using(crate::proofs::Amounts::units_small))]
fn units(amount: u64, base: u8) -> u128
    requires { base ≤ 15 }
    ensures value { result ≡ units_of amount base }
    ensures small { result < 2 ^ 114 }
{
    amount as u128 * 10u128.pow(base as u32)
}
