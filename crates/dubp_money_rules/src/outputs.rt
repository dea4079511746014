//! The rule on the bases of outputs.
ghost use Rattle.std.specs.Prelude.{◌≡◌, ◌↔◌, ◌∷◌, ◌≤◌, IsTrue, Some};
ghost use Rattle.std.specs.List.{AllByRecursion};
ghost use Rattle.dubp_chain.specs.Chains.{Chain};
ghost use Rattle.dubp_chain.specs.Heads.{head_of};
ghost use Rattle.dubp_validity.specs.MoneyRules.{OutputBasesFit};
ghost use Rattle.dubp_money_rules.specs.Lines.{HasBases};

use dubp_block::Block;
use dubp_chain::Head;
use dubp_cond::{Output, Tx};

/// The base of each output is at most the unit base of the chain with the block, whose head this is: rule `G90`.
pub fn output_bases_fit(head: &Head, block: &Block) -> bool
    ensures { (c : Chain) → head_of (block.now ∷ c) ≡ Some head.now → (IsTrue result ↔ OutputBasesFit c block.now) }
{
    bases_fit(head.unit_base, block.transactions.as_slice())
}

/// Whether no output of the transactions has a base above this one.
fn bases_fit(base: u8, txs: &[Tx]) -> bool
    ensures { IsTrue result ↔ AllByRecursion (HasBases base) txs.now }
{
    txs.iter().all(|tx| has_bases(base, tx.outputs.as_slice()))
}

fn has_bases(base: u8, outputs: &[Output]) -> bool
    ensures { IsTrue result ↔ AllByRecursion (λ output. output.base ≤ base) outputs.now }
{
    outputs.iter().all(|output| output.base <= base)
}
