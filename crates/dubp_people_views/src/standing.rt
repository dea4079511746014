ghost use Rattle.std.specs.Prelude.{◌≡◌};
ghost use Rattle.dubp_chain.specs.Chains.{Chain};
ghost use Rattle.dubp_chain.specs.Members.{members};
ghost use Rattle.dubp_chain.specs.Live.{live_pairs};
ghost use Rattle.dubp_registry.specs.OfValidity.{IsSound};

use dubp_atoms::{Key, NoMemory, Secret};
use dubp_block::Block;
use dubp_moving::Tables;
use dubp_registry::Registry;
use dubp_wot::Web;
use std::alloc::Global;

/// The members of the chain of a registry and its live certifications, as a web.
#[derive(Drop)]
pub struct Standing<'a> {
    pub registry: &'a Registry,
}

impl<'a> Web for Standing<'a> {
    ghost shows = { λ w keys pairs. (c : Chain) × (⟦<Registry as Tables<Block>>⟧.at w.registry.now c × (IsSound c × ((keys ≡ members c) × (pairs ≡ live_pairs c)))) };

    fn is_member(&self, key: &Key) -> bool {
        self.registry.is_member(*key)
    }

    fn count_members(&self) -> u64 {
        self.registry.members()
    }

    fn next_member(&self, after: Option<Key>) -> Option<Key> {
        self.registry.next_member(after)
    }

    fn members(&self, alloc: Global) -> Result<Vec<Key>, NoMemory> {
        let keys = self.registry.member_list(alloc)?;
        Ok(keys)
    }

    fn next_issuer(&self, to: Key, after: Option<Key>) -> Option<Key> {
        self.registry.next_issuer(to, after)
    }

    fn issuers(&self, alloc: Global, to: Key) -> Result<Vec<Key>, NoMemory> {
        let keys = self.registry.issuers(alloc, to)?;
        Ok(keys)
    }

    fn stock(&self, key: &Key) -> u64 {
        self.registry.stock(*key)
    }

    fn received(&self, key: &Key) -> u64 {
        self.registry.received(*key)
    }

    fn secret(&self) -> Secret {
        self.registry.secret()
    }
}
