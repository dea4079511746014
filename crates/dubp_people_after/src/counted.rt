ghost use Rattle.std.specs.Prelude.{◌↔◌, ◌≤◌, IsTrue, IfOk};
ghost use Rattle.dubp_block.specs.declared.block.Block.{Block as BlockValue};
ghost use Rattle.dubp_chain.specs.Chains.{Chain};
ghost use Rattle.dubp_registry.specs.OfValidity.{JoinersAreCertified, StocksAreKept};
ghost use Rattle.dubp_people_after.specs.Lines.{HasEnough, KeepsStock};

use crate::after::WithBlock;
use crate::counts::{received, stock};
use dubp_atoms::NoMemory;
use dubp_block::{Block, CertLine, MemberLine};
use std::alloc::Global;

/// Each issuer of a certification has at most sigStock live certifications issued in the new chain: rule `G66`.
///
/// `NoMemory` where there is no memory to count them.
pub fn stocks_are_kept<A: WithBlock>(
    alloc: Global,
    after: &A,
    block: &Block,
) -> Result<bool, NoMemory>
    ensures { IfOk result (λ holds. (c : Chain) → A.after after.now c block.now → (IsTrue holds ↔ StocksAreKept c block.now)) }
{
    let lines = block.certifications.as_slice();
    for line in lines {
        if !keeps_stock(alloc, after, line)? {
            return Ok(false);
        }
    }
    Ok(true)
}

fn keeps_stock<A: WithBlock>(alloc: Global, after: &A, line: &CertLine) -> Result<bool, NoMemory>
    ensures { IfOk result (λ holds. (c : Chain) (b : BlockValue) → A.after after.now c b → (IsTrue holds ↔ KeepsStock c b line.now)) }
{
    let count = stock(alloc, after, line.from)?;
    Ok(is_within(count, after.params().sig_stock))
}

/// Each key of Joiners has at least sigQty live certifications received in the new chain: rule `G79`.
///
/// `NoMemory` where there is no memory to count them.
pub fn joiners_are_certified<A: WithBlock>(
    alloc: Global,
    after: &A,
    block: &Block,
) -> Result<bool, NoMemory>
    ensures { IfOk result (λ holds. (c : Chain) → A.after after.now c block.now → (IsTrue holds ↔ JoinersAreCertified c block.now)) }
{
    let lines = block.joiners.as_slice();
    for line in lines {
        if !has_enough(alloc, after, line)? {
            return Ok(false);
        }
    }
    Ok(true)
}

fn has_enough<A: WithBlock>(alloc: Global, after: &A, line: &MemberLine) -> Result<bool, NoMemory>
    ensures { IfOk result (λ holds. (c : Chain) (b : BlockValue) → A.after after.now c b → (IsTrue holds ↔ HasEnough c b line.now)) }
{
    let count = received(alloc, after, line.key)?;
    Ok(is_within(after.params().sig_qty, count))
}

fn is_within(low: u64, high: u64) -> bool
    ensures { IsTrue result ↔ (low ≤ high) }
{
    low <= high
}
