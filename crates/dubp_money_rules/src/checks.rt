//! The rules on money behind the one on hashes, for a block that stands to be judged on the money of a chain.
ghost use Rattle.std.specs.Prelude.{◌↔◌, IsTrue, IfOk, List};
ghost use Rattle.dubp_atoms.specs.Same.{Text};
ghost use Rattle.dubp_chain.specs.Chains.{Chain};
ghost use Rattle.dubp_chain.specs.declared.head.Head.{Head as HeadValue};
ghost use Rattle.dubp_money_rules.specs.OfLeft.{Next as NextValue};
ghost use Rattle.dubp_verdict.specs.Verdicts.{Verdicts};
ghost use Rattle.dubp_rules.specs.First.{FirstOf};
ghost use Rattle.dubp_money_rules.specs.OfValidity.{Holds};
ghost use Rattle.dubp_money_rules.specs.OfValidity.{ConditionsAreTrue, InputsAreThere, LocktimesHaveEnded, TransactionsAreInTime};
ghost use Rattle.dubp_money_rules.specs.Judging.{rules_behind_hashes};
ghost use Rattle.dubp_money_rules.specs.Judged.{IsJudged};

use crate::conditions::conditions_are_true;
use crate::inputs::{inputs_are_there, locktimes_have_ended};
use crate::outputs::output_bases_fit;
use crate::times::transactions_are_in_time;
use crate::{Money, Next};
use dubp_atoms::{Hash, NoMemory};
use dubp_block::Block;
use dubp_chain::Head;
use dubp_rules::{Rule, first_of};
use indexmap::IndexSet;
use std::alloc::Global;

/// The first of the rules on money behind `X05` that the block breaks, whose head this is. The numbers are the hashes of its
/// transactions, in order.
pub(crate) fn first_behind_hashes(
    alloc: Global,
    money: &Money,
    numbers: &IndexSet<Hash>,
    head: &Head,
    next: &Next,
    block: &Block,
) -> Result<Option<Rule>, NoMemory>
    ensures { IfOk result (λ found. (v : Verdicts) (c : Chain) → IsJudged money.now numbers.now.keys head.now next.now block.now c → FirstOf (Holds v c block.now) rules_behind_hashes found) }
{
    Ok(first_of!(
        Rule::G103 => are_in_time(money, next, block),
        Rule::G87 => are_there(money, numbers, next, block),
        Rule::G88 => are_opened(alloc, money, numbers, next, block)?,
        Rule::G89 => have_ended(money, numbers, next, block),
        Rule::G90 => output_bases_fit(head, block),
    ))
}

fn are_in_time(money: &Money, next: &Next, block: &Block) -> bool
    ensures { (keys : List Text) (head : HeadValue) (c : Chain) → IsJudged money.now keys head next.now block.now c → (IsTrue result ↔ TransactionsAreInTime c block.now) }
{
    transactions_are_in_time(money.facts(), next, block)
}

fn are_there(money: &Money, numbers: &IndexSet<Hash>, next: &Next, block: &Block) -> bool
    ensures { (head : HeadValue) (c : Chain) → IsJudged money.now numbers.now.keys head next.now block.now c → (IsTrue result ↔ InputsAreThere c block.now) }
{
    inputs_are_there(money.sources(), numbers, next, block)
}

fn are_opened(
    alloc: Global,
    money: &Money,
    numbers: &IndexSet<Hash>,
    next: &Next,
    block: &Block,
) -> Result<bool, NoMemory>
    ensures { IfOk result (λ holds. (head : HeadValue) (c : Chain) → IsJudged money.now numbers.now.keys head next.now block.now c → (IsTrue holds ↔ ConditionsAreTrue c block.now)) }
{
    let opened = conditions_are_true(alloc, money.sources(), numbers, next, block)?;
    Ok(opened)
}

fn have_ended(money: &Money, numbers: &IndexSet<Hash>, next: &Next, block: &Block) -> bool
    ensures { (head : HeadValue) (c : Chain) → IsJudged money.now numbers.now.keys head next.now block.now c → (IsTrue result ↔ LocktimesHaveEnded c block.now) }
{
    locktimes_have_ended(money.sources(), numbers, next, block)
}
