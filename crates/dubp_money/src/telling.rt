//! The records of money of a block, in the order of the protocol.
ghost use Rattle.std.specs.Prelude.{◌≡◌, ℕ, ◌++◌, List, map, take, length, OnOk};
ghost use Rattle.std.specs.List.{flat_map};
ghost use Rattle.dubp_block.specs.Text.{IsBlock};
ghost use Rattle.dubp_docs.specs.declared.hashing.TxHashes.{TxHashes as TxHashesValue};
ghost use Rattle.dubp_chain.specs.Money.{hashes_in};
ghost use Rattle.dubp_validity.specs.declared.record.Record.TheVariants.{Dividend};
ghost use Rattle.dubp_validity.specs.Records.{input_of};
ghost use Rattle.dubp_money.specs.Blocks.{paid};
ghost use Rattle.dubp_money.specs.Transactions.{records_at, records_of};

use crate::making::put_makes;
use crate::paying::{Payment, put_dividends};
use crate::spending::put_spends;
use dubp_atoms::{Hash, Key, NoMemory};
use dubp_block::Block;
use dubp_cond::Tx;
use dubp_docs::TxHashes;
use dubp_validity::Record;
use std::alloc::Global;

// Appends the records of a transaction of this hash: what it spends, and what it makes.
#[tactic(auto, using(crate::proofs::Begins::begins_on))]
fn put_transaction(
    alloc: Global,
    tx: &Tx,
    hash: &Hash,
    out: &mut Vec<Record>,
) -> Result<(), NoMemory>
    ensures appended { OnOk result ((time : ℕ) → out.new.items ≡ out.old.items ++ records_at time hash.now tx.now) }
    ensures begins { take (length out.old.items) out.new.items ≡ out.old.items }
{
    put_spends(tx, out)?;
    put_makes(alloc, tx, hash, out)?;
    Ok(())
}

/// Appends the records of the transactions of the block, which have these hashes.
pub fn put_transactions(
    alloc: Global,
    block: &Block,
    hashes: &[TxHashes],
    out: &mut Vec<Record>,
) -> Result<(), NoMemory>
    requires block { IsBlock block.now }
    requires hashes { map (λ (h : TxHashesValue). h.whole) hashes.now ≡ hashes_in block.now }
    ensures appended { OnOk result ((time : ℕ) → out.new.items ≡ out.old.items ++ flat_map (records_of time block.now.currency) block.now.transactions) }
    ensures begins { take (length out.old.items) out.new.items ≡ out.old.items }
{
    let txs = block.transactions.as_slice();
    for i in 0..txs.len() {
        put_transaction(alloc, &txs[i], &hashes[i].whole, out)?;
    }
    Ok(())
}

/// Appends the records of what is paid to the members, where something is.
pub(crate) fn put_payment(
    payment: Option<Payment>,
    members: &[Key],
    out: &mut Vec<Record>,
) -> Result<(), NoMemory>
    ensures appended { OnOk result (out.new.items ≡ out.old.items ++ map (λ s. Dividend (input_of s)) (paid payment members.now)) }
    ensures begins { take (length out.old.items) out.new.items ≡ out.old.items }
{
    match payment {
        None => Ok(()),
        Some(payment) => put_dividends(payment, members, out),
    }
}
