ghost use Rattle.std.specs.Prelude.{◌≡◌, ◌∷◌, ◌++◌, [], IfOk, OnOk};
ghost use Rattle.dubp_chain.specs.Chains.{Chain};
ghost use Rattle.dubp_chain.specs.Live.{kick};
ghost use Rattle.dubp_validity.specs.Rules.{IsSound};

use crate::Registry;
use dubp_atoms::{Key, NoMemory};
use dubp_block::Block;
use dubp_moving::Tables;
use std::alloc::Global;

/// The keys that the chain has to exclude, by key.
///
/// `NoMemory` where there is none for the list.
pub fn kicked(alloc: Global, registry: &Registry) -> Result<Vec<Key>, NoMemory>
    ensures { IfOk result (λ keys. (c : Chain) → ⟦<Registry as Tables<Block>>⟧.at registry.now c → IsSound c → keys.items ≡ kick c) }
{
    let mut keys = Vec::new(alloc);
    let mut after = None;
    // what a registry stands for is no value, so no measure speaks of it; there are fewer keys than turns
    'kicked: for _ in 0..u64::MAX {
        let Some(key) = registry.next_kicked(after) else {
            return Ok(keys);
        };
        push(&mut keys, key)?;
        after = Some(key);
    }
    Err(NoMemory)
}

/// Appends the key.
pub(crate) fn push(keys: &mut Vec<Key>, key: Key) -> Result<(), NoMemory>
    ensures { OnOk result (keys.new.items ≡ keys.old.items ++ key ∷ []) }
{
    keys.push(key).map_err(|_| NoMemory)
}
