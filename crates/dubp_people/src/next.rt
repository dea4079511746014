ghost use Rattle.std.specs.Prelude.{◌≡◌, option_map};
ghost use Rattle.dubp_chain.specs.Chains.{Chain};
ghost use Rattle.dubp_chain.specs.Heads.{head_of};
ghost use Rattle.dubp_validity.specs.HeadRules.{NumberIsNext};
ghost use Rattle.dubp_validity.specs.Rules.{IsSound};

use dubp_block::Block;
use dubp_registry::Registry;
use dubp_undo::Tables;

/// The time of the chain below the block, in seconds. None where it is empty.
pub(crate) fn time_before(registry: &Registry, block: &Block) -> Option<u64>
    ensures { (c : Chain) → ⟦<Registry as Tables<Block>>⟧.at registry.now c → IsSound c → NumberIsNext c block.now → result ≡ option_map (λ h. h.median_time) (head_of c) }
{
    match block.number.checked_sub(1) {
        Some(last) => registry.time_numbered(last),
        None => None,
    }
}
