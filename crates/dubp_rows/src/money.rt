//! The records of transactions and of dividends.
ghost use Rattle.std.specs.Prelude.{◌≡◌, ◌++◌, Some, map, take, length, OnOk};
ghost use Rattle.std.specs.List.{flat_map};
ghost use Rattle.dubp_block.specs.declared.block.Block.{Block as BlockValue};
ghost use Rattle.dubp_chain.specs.Chains.{Chain};
ghost use Rattle.dubp_chain.specs.OfDocs.{tx_hash};
ghost use Rattle.dubp_chain.specs.Money.{dividends_at, hashes_in};
ghost use Rattle.dubp_validity.specs.Records.{input_of, transaction_records};
ghost use Rattle.dubp_validity.specs.declared.record.Record.TheVariants.{Dividend};

use dubp_atoms::{Hash, Key, NoMemory};
use dubp_block::Block;
use dubp_chain::Head;
use dubp_cond::Tx;
use dubp_money::{Payment, put_dividends, put_makes, put_spends};
use dubp_validity::Record;
use std::alloc::Global;

// What a transaction of this hash spends, and then what it makes.
#[tactic(auto, using(dubp_money::proofs::Begins::begins_on))]
fn put_transaction(
    alloc: Global,
    tx: &Tx,
    hash: &Hash,
    out: &mut Vec<Record>,
) -> Result<(), NoMemory>
    ensures appended { OnOk result ((c : Chain) (b : BlockValue) → hash.now ≡ tx_hash b.currency tx.now → out.new.items ≡ out.old.items ++ transaction_records c b tx.now) }
    ensures begins { take (length out.old.items) out.new.items ≡ out.old.items }
{
    put_spends(tx, out)?;
    put_makes(alloc, tx, hash, out)
}

/// Appends the records of the transactions of the block, which have these hashes, one after the other.
///
/// `NoMemory` where there is no room for them; some may have been appended then, behind what was there.
#[tactic(auto, using(dubp_money::proofs::Begins::begins_on))]
pub(crate) fn put_transactions(
    alloc: Global,
    block: &Block,
    hashes: &[Hash],
    out: &mut Vec<Record>,
) -> Result<(), NoMemory>
    ensures appended { OnOk result ((c : Chain) → hashes.now ≡ hashes_in block.now → out.new.items ≡ out.old.items ++ flat_map (transaction_records c block.now) block.now.transactions) }
    ensures begins { take (length out.old.items) out.new.items ≡ out.old.items }
{
    let txs = block.transactions.as_slice();
    for (tx, hash) in txs.iter().zip(hashes) {
        put_transaction(alloc, tx, hash, out)?;
    }
    Ok(())
}

/// Appends the records of what the block, whose head this is, pays to these members; none where it pays nothing.
///
/// `NoMemory` where there is no room for them; some may have been appended then, behind what was there.
pub(crate) fn put_payments(
    block: &Block,
    head: &Head,
    members: &[Key],
    out: &mut Vec<Record>,
) -> Result<(), NoMemory>
    ensures appended { OnOk result (out.new.items ≡ out.old.items ++ map (λ s. Dividend (input_of s)) (dividends_at block.now.number (Some head.now) members.now)) }
    ensures begins { take (length out.old.items) out.new.items ≡ out.old.items }
{
    let Some(amount) = head.ud else {
        return Ok(());
    };
    let payment = Payment {
        amount,
        base: head.unit_base,
        number: block.number,
        time: head.median_time,
    };
    put_dividends(payment, members, out)
}
