//! The first rule on money that a block breaks.
ghost use Rattle.std.specs.Prelude.{◌≡◌, ◌∷◌, IfOk, Some};
ghost use Rattle.dubp_block.specs.Text.{IsBlock};
ghost use Rattle.dubp_chain.specs.Chains.{Chain};
ghost use Rattle.dubp_chain.specs.Heads.{head_of};
ghost use Rattle.dubp_chain.specs.Money.{hashes_in};
ghost use Rattle.dubp_verdict.specs.Verdicts.{Verdicts};
ghost use Rattle.dubp_rules.specs.First.{FirstOf, IsFirst};
ghost use Rattle.dubp_money_rules.specs.OfValidity.{Holds};
ghost use Rattle.dubp_money_rules.specs.OfLeft.{IsAsked};
ghost use Rattle.dubp_money_rules.specs.OfLeft.{Next as NextValue};
ghost use Rattle.dubp_money_rules.specs.Lines.{whole_hashes};
ghost use Rattle.dubp_money_rules.specs.Judging.{AreBlocks, money_rules};

use crate::checks::first_behind_hashes;
use crate::earlier::Earlier;
use crate::hashes::{transactions_are_new, tx_numbers};
use crate::{Money, Next, next_of};
use dubp_atoms::NoMemory;
use dubp_block::Block;
use dubp_chain::Head;
use dubp_docs::{TxHashes, all_tx_hashes};
use dubp_moving::Tables;
use dubp_rules::Rule;
use std::alloc::Global;

/// The first of the rules on money, in the order of the table, that the block breaks on the chain, or None where it keeps them all.
///
/// The blocks of the chain are in range, and the block stands to be judged on it: it keeps each rule up to `X08` that reads no
/// verdict. `head` is the head of the chain with the block, `next` its parameters and time, and `hashes` are those of the
/// transactions of the block, in order. `NoMemory` where there is no room for the set of these hashes, or for a condition of the
/// chain.
pub fn first_broken_of_money(
    alloc: Global,
    money: &Money,
    head: &Head,
    next: &Next,
    block: &Block,
    hashes: &[TxHashes],
) -> Result<Option<Rule>, NoMemory>
    ensures { IfOk result (λ found. (v : Verdicts) (c : Chain) → ⟦<Money as Tables<Block>>⟧.at money.now c → IsAsked c block.now next.now → head_of (block.now ∷ c) ≡ Some head.now → AreBlocks c → whole_hashes hashes.now ≡ hashes_in block.now → IsFirst (Holds v c block.now) money_rules found) }
{
    if !transactions_are_new(alloc, &Earlier { money }, hashes)? {
        return Ok(Some(Rule::X05));
    }
    match tx_numbers(alloc, hashes)? {
        Some(numbers) => {
            let found = first_behind_hashes(alloc, money, &numbers, head, next, block)?;
            Ok(found)
        }
        None => Ok(Some(Rule::X05)),
    }
}

/// The same, where the hashes of the block's transactions are not at hand. The block is in range. `NoMemory` also where there is none
/// for these hashes.
pub fn money_rules(
    alloc: Global,
    money: &Money,
    head: &Head,
    block: &Block,
) -> Result<Option<Rule>, NoMemory>
    requires block { IsBlock block.now }
    ensures { IfOk result (λ found. (v : Verdicts) (c : Chain) (next : NextValue) → ⟦<Money as Tables<Block>>⟧.at money.now c → IsAsked c block.now next → head_of (block.now ∷ c) ≡ Some head.now → AreBlocks c → IsFirst (Holds v c block.now) money_rules found) }
{
    let hashes = all_tx_hashes(alloc, &block.currency, block.transactions.as_slice())?;
    let next = next_of(money.facts(), block, head);
    let found = first_broken_of_money(alloc, money, head, &next, block, hashes.as_slice())?;
    Ok(found)
}
