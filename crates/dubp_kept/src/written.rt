ghost use Rattle.std.specs.Prelude.{◌≡◌, ◌+◌, ◌≤◌, ◌∷◌, ℕ, Some, IfOk, OnOk};
ghost use Rattle.dubp_block.specs.Text.{IsBlock};
ghost use Rattle.dubp_chain.specs.Chains.{Chain};
ghost use Rattle.dubp_chain.specs.Heads.{head_of};
ghost use Rattle.dubp_head.specs.OfValidity.{IsSound, IsShort};
ghost use Rattle.dubp_local.specs.Local.{all_hashes};
ghost use Rattle.dubp_kept.specs.KeptChain.{most_steps};
ghost use Rattle.dubp_kept.specs.LeftBehind.{left_behind};

use crate::left_behind::LeftBehind;
use dubp_atoms::{NoMemory, Steps};
use dubp_block::Block;
use dubp_chain::Head;
use dubp_docs::TxHashes;
use dubp_moving::Tables;
use std::alloc::Global;
use std::sync::ledger::Ledger as StepBook;

/// Tables of a chain that blocks are written into.
pub trait Written: Tables<Block> {
    /// Writes the block, whose head this is, behind the chain: it breaks no rule there but such as read verdicts. `hashes` are those of its
    /// transactions, in order. Hands out what the block leaves behind.
    ///
    /// `NoMemory` where there is no room: what was written until then stands in the tables, and what is kept stays so.
    fn write<L: StepBook>(
        &mut self,
        alloc: Global,
        block: &Block,
        head: &Head,
        hashes: &[TxHashes],
        steps: &mut Steps<L>,
    ) -> Result<LeftBehind, NoMemory>
        requires text { IsBlock block.now }
        requires short { IsShort block.now }
        requires hashes { hashes.now ≡ all_hashes block.now }
        ensures at { OnOk result ((c : Chain) → IsSound (block.now ∷ c) → IsBlock block.now → head_of (block.now ∷ c) ≡ Some head.now → Self.at self.old c → Self.at self.new (block.now ∷ c)) }
        ensures left { IfOk result (λ left. (c : Chain) → IsSound (block.now ∷ c) → IsBlock block.now → head_of (block.now ∷ c) ≡ Some head.now → Self.at self.old c → left ≡ left_behind c block.now) }
        ensures steps { OnOk result ((c : Chain) → IsSound (block.now ∷ c) → IsBlock block.now → head_of (block.now ∷ c) ≡ Some head.now → Self.at self.old c → steps.new ≤ steps.old + most_steps c block.now) }
        ensures others { Self.others self.new ≡ Self.others self.old }
        ensures count { Self.count self.new + steps.old ≤ Self.count self.old + steps.new }
        ensures stays { (n : Self.Now) (c : Chain) → Self.is (Self.names self.old) n c → Self.is (Self.names self.new) n c };
}
