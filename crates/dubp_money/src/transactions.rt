ghost use Rattle.std.specs.Prelude.{◌≡◌, ◌+◌, ◌*◌, ◌^◌, ◌≤◌, List, map, length, OnOk, IfOk};
ghost use Rattle.std.specs.List.{flat_map};
ghost use Rattle.dubp_block.specs.Text.{IsBlock};
ghost use Rattle.dubp_docs.specs.declared.hashing.TxHashes.{TxHashes as TxHashesValue};
ghost use Rattle.dubp_chain.specs.Money.{hashes_in};
ghost use Rattle.dubp_sindex.specs.Accounts.{accounts};
ghost use Rattle.dubp_sindex.specs.Rows.{Entry, AreRows};
ghost use Rattle.dubp_money_steps.specs.Left.{HasTexts};
ghost use Rattle.dubp_money.specs.Index.{HasRows, Stays};
ghost use Rattle.dubp_money.specs.Texts.{Grows};
ghost use Rattle.dubp_money.specs.Writing.{without_inputs};
ghost use Rattle.dubp_money.specs.Making.{outputs_at, CanFollow, with_made};
ghost use Rattle.dubp_money.specs.Transactions.{all_outputs, all_written, records_of};

use crate::counting::place_behind;
use crate::making::make_outputs;
use crate::spending::spend_inputs;
use dubp_atoms::{Hash, NoMemory, Steps};
use dubp_block::Block;
use dubp_cond::Tx;
use dubp_docs::TxHashes;
use dubp_sindex::{SIndex, SourceRows};
use dubp_undo::Tables;
use std::sync::ledger::Ledger as StepBook;

/// What a transaction of this hash, at this time in seconds, spends and makes. Its outputs stand from this place on in the order of
/// making. At most five sets for each input and each output.
///
/// On `NoMemory` some of it may be written; what is kept stays so.
pub fn write_transaction<L: StepBook>(
    index: &mut SIndex,
    tx: &Tx,
    hash: &Hash,
    time: u64,
    order: u64,
    steps: &mut Steps<L>,
) -> Result<(), NoMemory>
    ensures at { OnOk result ((rows : List Entry) → AreRows rows → CanFollow (without_inputs tx.now.inputs rows) order (outputs_at time hash.now tx.now) → HasRows index.old rows → HasRows index.new (with_made (accounts index.new) (without_inputs tx.now.inputs rows) order (outputs_at time hash.now tx.now))) }
    ensures has { OnOk result (HasTexts (accounts index.new) (outputs_at time hash.now tx.now)) }
    ensures texts { Grows (accounts index.old) (accounts index.new) }
    ensures stays { Stays index.old index.new }
    ensures steps { OnOk result (steps.new ≤ steps.old + 5 * (length tx.now.inputs + length tx.now.outputs)) }
    ensures others { ⟦<SIndex as Tables<SourceRows>>⟧.others index.new ≡ ⟦<SIndex as Tables<SourceRows>>⟧.others index.old }
    ensures count { ⟦<SIndex as Tables<SourceRows>>⟧.count index.new + steps.old ≤ ⟦<SIndex as Tables<SourceRows>>⟧.count index.old + steps.new }
{
    spend_inputs(index, tx, steps)?;
    make_outputs(index, tx, hash, time, order, steps)?;
    Ok(())
}

/// What the transactions of the block, which have these hashes, spend and make at this time in seconds, one after the other. What they
/// make stands from this place on in the order of making; the answer is the place behind it, where that is at most 2^63. At most five
/// sets a record.
///
/// On `NoMemory` some of it may be written; what is kept stays so.
pub fn write_transactions<L: StepBook>(
    index: &mut SIndex,
    block: &Block,
    hashes: &[TxHashes],
    time: u64,
    order: u64,
    steps: &mut Steps<L>,
) -> Result<u64, NoMemory>
    requires block { IsBlock block.now }
    requires hashes { map (λ (h : TxHashesValue). h.whole) hashes.now ≡ hashes_in block.now }
    ensures at { OnOk result ((rows : List Entry) → AreRows rows → CanFollow rows order (all_outputs time block.now.currency block.now.transactions) → HasRows index.old rows → HasRows index.new ((all_written (accounts index.new) time block.now.currency order rows block.now.transactions).1)) }
    ensures order { IfOk result (λ n. order + length (all_outputs time block.now.currency block.now.transactions) ≤ 2 ^ 63 → n ≡ order + length (all_outputs time block.now.currency block.now.transactions)) }
    ensures has { OnOk result (HasTexts (accounts index.new) (all_outputs time block.now.currency block.now.transactions)) }
    ensures texts { Grows (accounts index.old) (accounts index.new) }
    ensures stays { Stays index.old index.new }
    ensures steps { OnOk result (steps.new ≤ steps.old + 5 * length (flat_map (records_of time block.now.currency) block.now.transactions)) }
    ensures others { ⟦<SIndex as Tables<SourceRows>>⟧.others index.new ≡ ⟦<SIndex as Tables<SourceRows>>⟧.others index.old }
    ensures count { ⟦<SIndex as Tables<SourceRows>>⟧.count index.new + steps.old ≤ ⟦<SIndex as Tables<SourceRows>>⟧.count index.old + steps.new }
{
    let txs = block.transactions.as_slice();
    let mut place = order;
    for i in 0..txs.len() {
        let tx = &txs[i];
        let hash = &hashes[i].whole;
        write_transaction(index, tx, hash, time, place, steps)?;
        place = place_behind(place, tx.outputs.len() as u64);
    }
    Ok(place)
}
