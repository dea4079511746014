ghost use Rattle.std.specs.Prelude.{◌≡◌, ◌+◌, ◌*◌, ◌≤◌, ◌∷◌, ◌++◌, map, length, IfOk, OnOk, OnErr};
ghost use Rattle.dubp_block.specs.Text.{IsBlock};
ghost use Rattle.dubp_docs.specs.declared.hashing.TxHashes.{TxHashes as TxHashesValue};
ghost use Rattle.dubp_chain.specs.Chains.{Chain};
ghost use Rattle.dubp_chain.specs.Money.{hashes_in};
ghost use Rattle.dubp_money.specs.Tables.{totals_of};
ghost use Rattle.dubp_validity.specs.Records.{clearing_records};
ghost use Rattle.dubp_money.specs.Applied.{IsApplied, ArePaid, money_records};

use crate::clearing::put_clears;
use crate::money::{Money, Totals};
use crate::telling::{put_payment, put_transactions};
use crate::writing::{payment_of, write_all};
use dubp_atoms::{Key, NoMemory, Steps};
use dubp_block::Block;
use dubp_chain::Head;
use dubp_docs::{TxHashes, all_tx_hashes};
use dubp_undo::Tables;
use dubp_validity::Record;
use std::alloc::Global;
use std::sync::ledger::Ledger as StepBook;

/// The totals of the empty chain.
const NO_TOTALS: Totals = Totals {
    issued: 0,
    unspent: 0,
    cleared: 0,
    made: 0,
};

impl Money {
    /// Writes the block, whose head this is, behind the chain: its transactions, the dividends of the members, what is cleared, the
    /// totals, the hashes and the facts. Appends its records of money in the order of the protocol.
    ///
    /// The block is in range. `members` are those of the chain with the block, by key, where the head has a dividend; else they are not
    /// looked at. It adds at most eight steps for each of these records, and eight. What is kept stays so.
    ///
    /// `NoMemory` where there is no room: the records are as before then, and what was written until then stands in the tables until they
    /// go back to what is kept.
    pub fn apply<L: StepBook>(
        &mut self,
        alloc: Global,
        block: &Block,
        head: &Head,
        members: &[Key],
        out: &mut Vec<Record>,
        steps: &mut Steps<L>,
    ) -> Result<(), NoMemory>
        requires block { IsBlock block.now }
        ensures at { OnOk result ((c : Chain) → IsApplied c block.now head.now → ArePaid (block.now ∷ c) head.now members.now → ⟦<Money as Tables<Block>>⟧.at self.old c → ⟦<Money as Tables<Block>>⟧.at self.new (block.now ∷ c)) }
        ensures records { OnOk result ((c : Chain) → IsApplied c block.now head.now → ArePaid (block.now ∷ c) head.now members.now → ⟦<Money as Tables<Block>>⟧.at self.old c → out.new.items ≡ out.old.items ++ money_records c block.now) }
        ensures others { ⟦<Money as Tables<Block>>⟧.others self.new ≡ ⟦<Money as Tables<Block>>⟧.others self.old }
        ensures count { ⟦<Money as Tables<Block>>⟧.count self.new + steps.old ≤ ⟦<Money as Tables<Block>>⟧.count self.old + steps.new }
        ensures stays { (n : ⟦<Money as Tables<Block>>⟧.Now) (c : Chain) → ⟦<Money as Tables<Block>>⟧.is (⟦<Money as Tables<Block>>⟧.names self.old) n c → ⟦<Money as Tables<Block>>⟧.is (⟦<Money as Tables<Block>>⟧.names self.new) n c }
        ensures steps { OnOk result ((c : Chain) → IsApplied c block.now head.now → ArePaid (block.now ∷ c) head.now members.now → ⟦<Money as Tables<Block>>⟧.at self.old c → steps.new ≤ steps.old + (8 * length (money_records c block.now) + 8)) }
        ensures refused { OnErr result (out.new.items ≡ out.old.items) }
    {
        let hashes = all_tx_hashes(alloc, &block.currency, block.transactions.as_slice())?;
        self.apply_hashed(alloc, block, head, members, hashes.as_slice(), out, steps)?;
        Ok(())
    }

    /// As `apply`, where the hashes of the block's transactions are at hand: `hashes`, in their order.
    pub fn apply_hashed<L: StepBook>(
        &mut self,
        alloc: Global,
        block: &Block,
        head: &Head,
        members: &[Key],
        hashes: &[TxHashes],
        out: &mut Vec<Record>,
        steps: &mut Steps<L>,
    ) -> Result<(), NoMemory>
        requires block { IsBlock block.now }
        requires hashes { map (λ (h : TxHashesValue). h.whole) hashes.now ≡ hashes_in block.now }
        ensures at { OnOk result ((c : Chain) → IsApplied c block.now head.now → ArePaid (block.now ∷ c) head.now members.now → ⟦<Money as Tables<Block>>⟧.at self.old c → ⟦<Money as Tables<Block>>⟧.at self.new (block.now ∷ c)) }
        ensures records { OnOk result ((c : Chain) → IsApplied c block.now head.now → ArePaid (block.now ∷ c) head.now members.now → ⟦<Money as Tables<Block>>⟧.at self.old c → out.new.items ≡ out.old.items ++ money_records c block.now) }
        ensures others { ⟦<Money as Tables<Block>>⟧.others self.new ≡ ⟦<Money as Tables<Block>>⟧.others self.old }
        ensures count { ⟦<Money as Tables<Block>>⟧.count self.new + steps.old ≤ ⟦<Money as Tables<Block>>⟧.count self.old + steps.new }
        ensures stays { (n : ⟦<Money as Tables<Block>>⟧.Now) (c : Chain) → ⟦<Money as Tables<Block>>⟧.is (⟦<Money as Tables<Block>>⟧.names self.old) n c → ⟦<Money as Tables<Block>>⟧.is (⟦<Money as Tables<Block>>⟧.names self.new) n c }
        ensures steps { OnOk result ((c : Chain) → IsApplied c block.now head.now → ArePaid (block.now ∷ c) head.now members.now → ⟦<Money as Tables<Block>>⟧.at self.old c → steps.new ≤ steps.old + (8 * length (money_records c block.now) + 8)) }
        ensures refused { OnErr result (out.new.items ≡ out.old.items) }
    {
        let mut cleared = self.write(alloc, block, head, members, hashes, steps)?;
        let mut records = all_records(alloc, block, head, members, hashes, &mut cleared)?;
        append(&mut records, out)?;
        Ok(())
    }

    /// As `apply_hashed`, without records: what is handed out are those of what is cleared, in the order of making.
    pub fn write<L: StepBook>(
        &mut self,
        alloc: Global,
        block: &Block,
        head: &Head,
        members: &[Key],
        hashes: &[TxHashes],
        steps: &mut Steps<L>,
    ) -> Result<Vec<Record>, NoMemory>
        requires block { IsBlock block.now }
        requires hashes { map (λ (h : TxHashesValue). h.whole) hashes.now ≡ hashes_in block.now }
        ensures at { OnOk result ((c : Chain) → IsApplied c block.now head.now → ArePaid (block.now ∷ c) head.now members.now → ⟦<Money as Tables<Block>>⟧.at self.old c → ⟦<Money as Tables<Block>>⟧.at self.new (block.now ∷ c)) }
        ensures cleared { IfOk result (λ cleared. (c : Chain) → IsApplied c block.now head.now → ArePaid (block.now ∷ c) head.now members.now → ⟦<Money as Tables<Block>>⟧.at self.old c → cleared.items ≡ clearing_records c block.now) }
        ensures others { ⟦<Money as Tables<Block>>⟧.others self.new ≡ ⟦<Money as Tables<Block>>⟧.others self.old }
        ensures count { ⟦<Money as Tables<Block>>⟧.count self.new + steps.old ≤ ⟦<Money as Tables<Block>>⟧.count self.old + steps.new }
        ensures stays { (n : ⟦<Money as Tables<Block>>⟧.Now) (c : Chain) → ⟦<Money as Tables<Block>>⟧.is (⟦<Money as Tables<Block>>⟧.names self.old) n c → ⟦<Money as Tables<Block>>⟧.is (⟦<Money as Tables<Block>>⟧.names self.new) n c }
        ensures steps { OnOk result ((c : Chain) → IsApplied c block.now head.now → ArePaid (block.now ∷ c) head.now members.now → ⟦<Money as Tables<Block>>⟧.at self.old c → steps.new ≤ steps.old + (8 * length (money_records c block.now) + 8)) }
    {
        let before = self.totals_so_far();
        let tables = &mut self.tables;
        let taken = write_all(
            &mut tables.first,
            &mut tables.second,
            &mut tables.third,
            alloc,
            block,
            head,
            members,
            hashes,
            before,
            steps,
        )?;
        let mut cleared = Vec::new(alloc);
        put_clears(taken.as_slice(), &mut cleared)?;
        Ok(cleared)
    }

    /// The totals, each of which is 0 where the chain is empty.
    fn totals_so_far(&self) -> Totals
        ensures { (c : Chain) → ⟦<Money as Tables<Block>>⟧.at self.now c → result ≡ totals_of c }
    {
        match self.totals() {
            Some(totals) => totals,
            None => NO_TOTALS,
        }
    }
}

/// The records of money of the block, whose head this is and whose transactions have these hashes, in the order of the protocol: those of what
/// is cleared are moved behind the others.
fn all_records(
    alloc: Global,
    block: &Block,
    head: &Head,
    members: &[Key],
    hashes: &[TxHashes],
    cleared: &mut Vec<Record>,
) -> Result<Vec<Record>, NoMemory>
    requires block { IsBlock block.now }
    requires hashes { map (λ (h : TxHashesValue). h.whole) hashes.now ≡ hashes_in block.now }
    ensures { IfOk result (λ records. (c : Chain) → IsApplied c block.now head.now → ArePaid (block.now ∷ c) head.now members.now → cleared.old.items ≡ clearing_records c block.now → records.items ≡ money_records c block.now) }
{
    let mut records = Vec::new(alloc);
    put_transactions(alloc, block, hashes, &mut records)?;
    put_payment(payment_of(block, head), members, &mut records)?;
    append(cleared, &mut records)?;
    Ok(records)
}

/// Moves the records behind those that are there.
fn append(records: &mut Vec<Record>, out: &mut Vec<Record>) -> Result<(), NoMemory>
    ensures appended { OnOk result (out.new.items ≡ out.old.items ++ records.old.items) }
    ensures refused { OnErr result (out.new.items ≡ out.old.items) }
{
    out.append(records).map_err(|_| NoMemory)
}
