ghost use Rattle.std.specs.Prelude.{◌≡◌, ◌+◌, ◌≤◌, ◌∷◌, map, length, OnOk};
ghost use Rattle.dubp_block.specs.declared.block.Block.{Block as BlockValue};
ghost use Rattle.dubp_docs.specs.declared.hashing.TxHashes.{TxHashes as TxHashesValue};
ghost use Rattle.dubp_chain.specs.Chains.{Chain};
ghost use Rattle.dubp_chain.specs.Money.{hashes_in};
ghost use Rattle.dubp_money.specs.Tables.{totals_of};

use crate::money::{HashTable, HashesAndTotals, Totals};
use dubp_atoms::{NoMemory, Steps};
use dubp_block::Block;
use dubp_docs::TxHashes;
use dubp_undo::Tables;
use std::sync::ledger::Ledger as StepBook;

/// Notes the hash of each transaction of a block: one step for each.
fn write_hashes<L: StepBook>(
    table: &mut HashTable,
    hashes: &[TxHashes],
    steps: &mut Steps<L>,
) -> Result<(), NoMemory>
    ensures at { OnOk result ((c : Chain) (b : BlockValue) → map (λ (h : TxHashesValue). h.whole) hashes.now ≡ hashes_in b → ⟦<HashTable as Tables<Block>>⟧.at table.old c → ⟦<HashTable as Tables<Block>>⟧.at table.new (b ∷ c)) }
    ensures others { ⟦<HashTable as Tables<Block>>⟧.others table.new ≡ ⟦<HashTable as Tables<Block>>⟧.others table.old }
    ensures count { ⟦<HashTable as Tables<Block>>⟧.count table.new + steps.old ≤ ⟦<HashTable as Tables<Block>>⟧.count table.old + steps.new }
    ensures steps { OnOk result (steps.new ≤ steps.old + length hashes.now) }
{
    for hash in hashes {
        table.set(hash.whole, Some(()), steps)?;
    }
    Ok(())
}

/// Writes into the tables beside the sources: the hashes of the transactions of the block, and the totals of the chain with it. One
/// step for each hash, and one.
pub(crate) fn write_beside<L: StepBook>(
    tables: &mut HashesAndTotals,
    hashes: &[TxHashes],
    totals: Totals,
    steps: &mut Steps<L>,
) -> Result<(), NoMemory>
    ensures at { OnOk result ((c : Chain) (b : BlockValue) → map (λ (h : TxHashesValue). h.whole) hashes.now ≡ hashes_in b → totals ≡ totals_of (b ∷ c) → ⟦<HashesAndTotals as Tables<Block>>⟧.at tables.old c → ⟦<HashesAndTotals as Tables<Block>>⟧.at tables.new (b ∷ c)) }
    ensures others { ⟦<HashesAndTotals as Tables<Block>>⟧.others tables.new ≡ ⟦<HashesAndTotals as Tables<Block>>⟧.others tables.old }
    ensures count { ⟦<HashesAndTotals as Tables<Block>>⟧.count tables.new + steps.old ≤ ⟦<HashesAndTotals as Tables<Block>>⟧.count tables.old + steps.new }
    ensures steps { OnOk result (steps.new ≤ steps.old + (length hashes.now + 1)) }
{
    write_hashes(&mut tables.first, hashes, steps)?;
    tables.second.set((), Some(totals), steps)?;
    Ok(())
}
