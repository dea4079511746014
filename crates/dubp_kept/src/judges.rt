ghost use Rattle.std.specs.Prelude.{◌≡◌, ◌∷◌, IfOk, length};
ghost use Rattle.dubp_block.specs.Text.{IsBlock};
ghost use Rattle.dubp_chain.specs.Chains.{Chain};
ghost use Rattle.dubp_chain.specs.Members.{member, members};
ghost use Rattle.dubp_rules.specs.First.{IsFirst};
ghost use Rattle.dubp_validity.specs.Rules.{Holds, IsSound};
ghost use Rattle.dubp_kept.specs.OfLocal.{all_hashes};
ghost use Rattle.dubp_kept.specs.Parts.{table_parts};
ghost use Rattle.dubp_kept.specs.Judged.{IsToJudge};

use crate::Written;
use dubp_atoms::{Key, NoMemory};
use dubp_block::Block;
use dubp_chain::Head;
use dubp_docs::TxHashes;
use dubp_moving::Tables;
use dubp_params::Params;
use dubp_rules::Rule;
use dubp_verdict::Verdicts;
use std::alloc::Global;

/// Tables of a chain that tell what a block behind it does to members, and which rules on people and on money it breaks.
pub trait Judges: Written {
    /// Whether the key is a member. It takes no memory.
    fn is_member(&self, key: Key) -> bool
        ensures { (c : Chain) → Self.at self.now c → IsSound c → result ≡ member c key };

    /// How many members the chain has with the block, which is in range.
    fn members_with(&self, alloc: Global, block: &Block) -> Result<u64, NoMemory>
        requires { IsBlock block.now }
        ensures { IfOk result (λ count. (c : Chain) → Self.at self.now c → IsSound c → count ≡ length (members (block.now ∷ c))) };

    /// The first of the rules from `X06` on that the block breaks. Each rule up to `X08` that reads no verdict holds; the head and the
    /// parameters are those of the chain with the block, and `hashes` those of its transactions, in order.
    fn first_broken(
        &self,
        alloc: Global,
        block: &Block,
        head: &Head,
        params: &Params,
        hashes: &[TxHashes],
        verdicts: &Verdicts,
    ) -> Result<Option<Rule>, NoMemory>
        requires to_judge { (c : Chain) × (Self.at self.now c × IsToJudge c block.now head.now params.now) }
        requires hashes { hashes.now ≡ all_hashes block.now }
        ensures { IfOk result (λ found. (c : Chain) → Self.at self.now c → IsToJudge c block.now head.now params.now → IsFirst (Holds verdicts.now c block.now) table_parts found) };
}
