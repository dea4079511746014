ghost use Rattle.std.specs.Prelude.{◌≡◌, IfOk};
ghost use Rattle.dubp_chain.specs.Chains.{Chain};
ghost use Rattle.dubp_chain.specs.Members.{members};
ghost use Rattle.dubp_registry.specs.OfValidity.{IsSound};

use dubp_atoms::{Key, NoMemory};
use dubp_block::Block;
use dubp_moving::Tables;
use dubp_registry::Registry;
use std::alloc::Global;

/// The members, by key.
///
/// `NoMemory` where there is none for the list.
pub fn member_keys(alloc: Global, registry: &Registry) -> Result<Vec<Key>, NoMemory>
    ensures { IfOk result (λ keys. (c : Chain) → ⟦<Registry as Tables<Block>>⟧.at registry.now c → IsSound c → keys.items ≡ members c) }
{
    registry.member_list(alloc)
}
