ghost use Rattle.std.specs.Prelude.{◌≡◌, ◌+◌, ◌*◌, ◌≤◌, List, ◌∷◌, length, map, OnOk, IfOk};
ghost use Rattle.std.specs.List.{flat_map};
ghost use Rattle.dubp_block.specs.Text.{IsBlock};
ghost use Rattle.dubp_block.specs.declared.block.Block.{Block as BlockValue};
ghost use Rattle.dubp_undo.specs.States.{states};
ghost use Rattle.dubp_docs.specs.declared.hashing.TxHashes.{TxHashes as TxHashesValue};
ghost use Rattle.dubp_chain.specs.Chains.{Chain};
ghost use Rattle.dubp_chain.specs.Money.{hashes_in};
ghost use Rattle.dubp_validity.specs.Records.{clearing_records};
ghost use Rattle.dubp_sindex.specs.Accounts.{accounts};
ghost use Rattle.dubp_sindex.specs.Rows.{Entry, AreRows};
ghost use Rattle.dubp_money_steps.specs.Left.{HasTexts, sources_left, sources_before_clearing};
ghost use Rattle.dubp_money_steps.specs.Clearing.{clear_record};
ghost use Rattle.dubp_money.specs.Index.{HasRows, Stays};
ghost use Rattle.dubp_money.specs.Texts.{Grows, Fits};
ghost use Rattle.dubp_money.specs.Making.{CanFollow, with_made};
ghost use Rattle.dubp_money.specs.Transactions.{records_of};
ghost use Rattle.dubp_money.specs.Blocks.{paid, IsWritten, IsCleared};

use crate::clearing::clear_accounts;
use crate::paying::{Payment, pay_dividends};
use crate::transactions::write_transactions;
use dubp_atoms::{Key, NoMemory, Steps};
use dubp_block::Block;
use dubp_cond::SourceId;
use dubp_docs::TxHashes;
use dubp_sindex::{SIndex, SourceRow, SourceRows};
use dubp_undo::Tables;
use std::alloc::Global;
use std::sync::ledger::Ledger as StepBook;

/// What is paid to the members, where something is: as `pay_dividends`. At most five sets a member.
pub fn pay<L: StepBook>(
    index: &mut SIndex,
    payment: Option<Payment>,
    members: &[Key],
    order: u64,
    steps: &mut Steps<L>,
) -> Result<(), NoMemory>
    ensures at { OnOk result ((rows : List Entry) → AreRows rows → CanFollow rows order (paid payment members.now) → HasRows index.old rows → HasRows index.new (with_made (accounts index.new) rows order (paid payment members.now))) }
    ensures has { OnOk result (HasTexts (accounts index.new) (paid payment members.now)) }
    ensures texts { Grows (accounts index.old) (accounts index.new) }
    ensures stays { Stays index.old index.new }
    ensures steps { OnOk result (steps.new ≤ steps.old + 5 * length (paid payment members.now)) }
    ensures others { ⟦<SIndex as Tables<SourceRows>>⟧.others index.new ≡ ⟦<SIndex as Tables<SourceRows>>⟧.others index.old }
    ensures count { ⟦<SIndex as Tables<SourceRows>>⟧.count index.new + steps.old ≤ ⟦<SIndex as Tables<SourceRows>>⟧.count index.old + steps.new }
{
    match payment {
        None => Ok(()),
        Some(payment) => {
            pay_dividends(index, payment, members, order, steps)?;
            Ok(())
        }
    }
}

/// What the transactions of the block spend and make, and what it pays to the members of the chain with it: all that it does to sources
/// before it clears. `hashes` are those of the transactions, `time` is the time of the chain with the block, in seconds, and `made` how
/// many sources the chain made. At most five sets a record.
///
/// On `NoMemory` some of it may be written; what is kept stays so.
pub fn spend_and_make<L: StepBook>(
    index: &mut SIndex,
    block: &Block,
    hashes: &[TxHashes],
    time: u64,
    payment: Option<Payment>,
    members: &[Key],
    made: u64,
    steps: &mut Steps<L>,
) -> Result<(), NoMemory>
    requires block { IsBlock block.now }
    requires hashes { map (λ (h : TxHashesValue). h.whole) hashes.now ≡ hashes_in block.now }
    ensures at { OnOk result ((c : Chain) → IsWritten c block.now time payment members.now made → Fits (accounts index.old) c → HasRows index.old (sources_left (accounts index.old) c) → HasRows index.new (sources_before_clearing (accounts index.new) c block.now)) }
    ensures fits { OnOk result ((c : Chain) → IsWritten c block.now time payment members.now made → Fits (accounts index.old) c → Fits (accounts index.new) (block.now ∷ c)) }
    ensures texts { Grows (accounts index.old) (accounts index.new) }
    ensures stays { Stays index.old index.new }
    ensures steps { OnOk result (steps.new ≤ steps.old + 5 * (length (flat_map (records_of time block.now.currency) block.now.transactions) + length (paid payment members.now))) }
    ensures others { ⟦<SIndex as Tables<SourceRows>>⟧.others index.new ≡ ⟦<SIndex as Tables<SourceRows>>⟧.others index.old }
    ensures count { ⟦<SIndex as Tables<SourceRows>>⟧.count index.new + steps.old ≤ ⟦<SIndex as Tables<SourceRows>>⟧.count index.old + steps.new }
{
    let behind = write_transactions(index, block, hashes, time, made, steps)?;
    pay(index, payment, members, behind, steps)?;
    Ok(())
}

/// Clears, of what stands when the block has spent and made, each account that has less than the limit, and hands out what it took, in
/// the order of making. Behind it the index stands for the chain with the block. At most five sets a source.
///
/// On `NoMemory` some of it may be cleared; what is kept stays so.
pub fn clear_block<L: StepBook>(
    index: &mut SIndex,
    alloc: Global,
    limit: u128,
    steps: &mut Steps<L>,
) -> Result<Vec<(SourceId, SourceRow)>, NoMemory>
    ensures at { OnOk result ((c : Chain) (b : BlockValue) → IsCleared c b limit (accounts index.old) → HasRows index.old (sources_before_clearing (accounts index.old) c b) → ⟦<SIndex as Tables<SourceRows>>⟧.at index.new (states (sources_left (accounts index.new)) (b ∷ c))) }
    ensures taken { IfOk result (λ taken. (c : Chain) (b : BlockValue) → IsCleared c b limit (accounts index.old) → HasRows index.old (sources_before_clearing (accounts index.old) c b) → map clear_record taken.items ≡ clearing_records c b) }
    ensures texts { accounts index.new ≡ accounts index.old }
    ensures stays { Stays index.old index.new }
    ensures steps { IfOk result (λ taken. steps.new ≤ steps.old + 5 * length taken.items) }
    ensures others { ⟦<SIndex as Tables<SourceRows>>⟧.others index.new ≡ ⟦<SIndex as Tables<SourceRows>>⟧.others index.old }
    ensures count { ⟦<SIndex as Tables<SourceRows>>⟧.count index.new + steps.old ≤ ⟦<SIndex as Tables<SourceRows>>⟧.count index.old + steps.new }
{
    let taken = clear_accounts(index, alloc, limit, steps)?;
    Ok(taken)
}
