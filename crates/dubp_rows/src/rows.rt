//! The records of a block.
ghost use Rattle.std.specs.Prelude.{◌≡◌, ◌∷◌, ◌++◌, Some, take, length, OnOk};
ghost use Rattle.std.specs.List.{AllByRecursion};
ghost use Rattle.dubp_block.specs.Text.{IsBlock};
ghost use Rattle.dubp_chain.specs.Chains.{Chain};
ghost use Rattle.dubp_chain.specs.Heads.{head_of};
ghost use Rattle.dubp_validity.specs.Records.{records};
ghost use Rattle.dubp_validity.specs.Rules.{IsSound};
ghost use Rattle.dubp_kept.specs.LeftBehind.{left_behind};

use crate::copying::put_copies;
use crate::lines::put_lines;
use crate::money::{put_payments, put_transactions};
use dubp_atoms::NoMemory;
use dubp_block::Block;
use dubp_chain::Head;
use dubp_kept::LeftBehind;
use dubp_money::Facts;
use dubp_moving::Tables;
use dubp_validity::Record;
use std::alloc::Global;

/// Appends the records of the block, in the order of the protocol, from its lines, its head, the facts of a chain that it is a block of,
/// and what it left behind. The block is in range.
///
/// `NoMemory` where there is no room for them; some may have been appended then, behind what was there.
#[tactic(auto, using(dubp_money::proofs::Begins::begins_on))]
pub fn put_records(
    alloc: Global,
    block: &Block,
    head: &Head,
    facts: &Facts,
    left: &LeftBehind,
    out: &mut Vec<Record>,
) -> Result<(), NoMemory>
    requires text { IsBlock block.now }
    ensures appended { OnOk result ((d c : Chain) → ⟦<Facts as Tables<Block>>⟧.at facts.now (d ++ block.now ∷ c) → IsSound (d ++ block.now ∷ c) → AllByRecursion IsBlock (d ++ block.now ∷ c)
        → head_of (block.now ∷ c) ≡ Some head.now → left.now ≡ left_behind c block.now → out.new.items ≡ out.old.items ++ records c block.now) }
    ensures begins { take (length out.old.items) out.new.items ≡ out.old.items }
{
    put_lines(alloc, block, facts, out)?;
    put_copies(alloc, left.ended.as_slice(), out)?;
    put_transactions(alloc, block, left.transactions.as_slice(), out)?;
    put_payments(block, head, left.paid.as_slice(), out)?;
    put_copies(alloc, left.cleared.as_slice(), out)
}
