//! The rule on the hashes of transactions.
ghost use Rattle.std.specs.Prelude.{◌≡◌, ◌↔◌, IfOk, IsTrue, MatchOption, false};
ghost use Rattle.std.specs.List.{AllByRecursion};
ghost use Rattle.dubp_atoms.specs.Same.{same_text};
ghost use Rattle.dubp_block.specs.declared.block.Block.{Block as BlockValue};
ghost use Rattle.dubp_chain.specs.Words.{each_once};
ghost use Rattle.dubp_chain.specs.Chains.{Chain};
ghost use Rattle.dubp_chain.specs.Money.{hashes_in};
ghost use Rattle.dubp_chain.specs.Tables.{has_transaction};
ghost use Rattle.dubp_validity.specs.MoneyRules.{TransactionsAreNew};
ghost use Rattle.dubp_money_rules.specs.Lines.{IsHashNew, whole_hashes};
ghost use Rattle.dubp_money_rules.specs.Spending.{AreNumbered};

use crate::sets::{set_once, stand_once};
use dubp_atoms::{Hash, NoMemory};
use dubp_docs::TxHashes;
use indexmap::IndexSet;
use std::alloc::Global;

/// What knows the transactions of the chain that it stands for by their hashes.
pub trait Transactions {
    ghost of: { Self → Chain → Type 0 };

    /// Whether the chain has a transaction of this hash. It takes no memory.
    fn has_transaction(&self, hash: Hash) -> bool
        ensures { (c : Chain) → of self.now c → result ≡ has_transaction c hash };
}

/// No transaction has the hash of a transaction of the chain, or of an earlier one of the block, whose hashes these are: rule
/// `X05`.
///
/// `NoMemory` where there is none to look for a hash that stands twice.
pub fn transactions_are_new<S: Transactions>(
    alloc: Global,
    earlier: &S,
    hashes: &[TxHashes],
) -> Result<bool, NoMemory>
    ensures { IfOk result (λ holds. (c : Chain) (b : BlockValue) → S.of earlier.now c → whole_hashes hashes.now ≡ hashes_in b → (IsTrue holds ↔ TransactionsAreNew c b)) }
{
    if !are_new(earlier, hashes) {
        return Ok(false);
    }
    let once = hashes_stand_once(alloc, hashes)?;
    Ok(once)
}

fn are_new<S: Transactions>(earlier: &S, hashes: &[TxHashes]) -> bool
    ensures { (c : Chain) → S.of earlier.now c → (IsTrue result ↔ AllByRecursion (IsHashNew c) hashes.now) }
{
    hashes.iter().all(|hash| is_new(earlier, hash))
}

fn is_new<S: Transactions>(earlier: &S, hash: &TxHashes) -> bool
    ensures { (c : Chain) → S.of earlier.now c → (IsTrue result ↔ IsHashNew c hash.now) }
{
    !earlier.has_transaction(hash.whole)
}

/// Whether no transaction of the list has the hash of another.
fn hashes_stand_once(alloc: Global, hashes: &[TxHashes]) -> Result<bool, NoMemory>
    ensures { IfOk result (λ once. once ≡ each_once same_text (whole_hashes hashes.now)) }
{
    let whole = all_whole(alloc, hashes)?;
    stand_once(alloc, whole.as_slice())
}

/// The set of the hashes of the transactions of a block, in their order, by which inputs find outputs of the block. None where one
/// stands twice.
pub fn tx_numbers(alloc: Global, hashes: &[TxHashes]) -> Result<Option<IndexSet<Hash>>, NoMemory>
    ensures { IfOk result (λ found. (b : BlockValue) → whole_hashes hashes.now ≡ hashes_in b → MatchOption found (each_once same_text (hashes_in b) ≡ false) (λ set. AreNumbered set.keys b)) }
{
    let whole = all_whole(alloc, hashes)?;
    let numbers = set_once(alloc, whole.as_slice())?;
    Ok(numbers)
}

/// The hashes by which the transactions are named.
fn all_whole(alloc: Global, hashes: &[TxHashes]) -> Result<Vec<Hash>, NoMemory>
    ensures { IfOk result (λ whole. whole.items ≡ whole_hashes hashes.now) }
{
    let mut whole = Vec::new(alloc);
    for hash in hashes {
        whole.push(hash.whole).map_err(|_| NoMemory)?;
    }
    Ok(whole)
}
