ghost use Rattle.std.specs.Prelude.{◌↔◌, ◌∷◌, ◌<◌, ◌^◌, length, IfOk, IsTrue};
ghost use Rattle.dubp_block.specs.declared.block.Block.{Block as BlockValue};
ghost use Rattle.dubp_chain.specs.Chains.{Chain};
ghost use Rattle.dubp_chain.specs.Members.{members};
ghost use Rattle.dubp_validity.specs.PeopleRules.{ComersPass};
ghost use Rattle.dubp_people_distance.specs.Certified.{IsCertified};
ghost use Rattle.dubp_people_checks.specs.OfLeft.{IsAsked};

use crate::Next;
use dubp_atoms::{Key, NoMemory, Secret};
use dubp_block::Block;
use dubp_expiry::{Behind, Due};
use dubp_moving::Tables;
use dubp_params::Params;
use dubp_people_after::{After, Registry, WithBlock, issuers, stock};
use dubp_people_distance::{Certified, Counts, TwoChains, in_order};
use std::alloc::Global;

/// Each key of Joiners and Actives passes the distance rule in the new chain: rule `G76`.
///
/// There are below 2 ^ 21 members in the new chain. `NoMemory` where there is no memory for what the block changes or for the search.
pub(crate) fn comers_pass<'a>(
    alloc: Global,
    registry: &Registry,
    after: &After<'a>,
    block: &Block,
    next: &Next,
) -> Result<bool, NoMemory>
    requires few { (c : Chain) × (⟦<Registry as Tables<Block>>⟧.at registry.now c × (IsAsked c block.now next.now × (⟦<After<'a> as WithBlock>⟧.after after.now c block.now × (length (members (block.now ∷ c)) < 2 ^ 21)))) }
    ensures { IfOk result (λ holds. (c : Chain) → ⟦<Registry as Tables<Block>>⟧.at registry.now c → IsAsked c block.now next.now → ⟦<After<'a> as WithBlock>⟧.after after.now c block.now → (IsTrue holds ↔ ComersPass c block.now)) }
{
    let chains = Judged {
        registry,
        after,
        next,
    };
    dubp_people_distance::comers_pass(alloc, &chains, block)
}

/// The registry of a chain, and beside it what a block changes.
#[derive(Drop)]
struct Judged<'a> {
    registry: &'a Registry,
    after: &'a After<'a>,
    next: &'a Next,
}

impl<'a> TwoChains for Judged<'a> {
    ghost stand = { λ s c b. ⟦<Registry as Tables<Block>>⟧.at s.registry.now c × (⟦<After<'a> as WithBlock>⟧.after s.after.now c b × IsAsked c b s.next.now) };

    fn was_member(&self, key: Key) -> bool {
        self.registry.is_member(key)
    }

    fn count_before(&self) -> u64 {
        self.registry.members()
    }

    fn next_before(&self, after: Option<Key>) -> Option<Key> {
        self.registry.next_member(after)
    }

    fn issuer_before(&self, to: Key, after: Option<Key>) -> Option<Key> {
        self.registry.next_issuer(to, after)
    }

    fn issuers_before(&self, alloc: Global, to: Key) -> Result<Vec<Key>, NoMemory> {
        self.registry.issuers(alloc, to)
    }

    fn counts_before(&self, key: Key) -> Counts {
        Counts {
            stock: self.registry.stock(key),
            received: self.registry.received(key),
        }
    }

    fn due_behind(&self, behind: Behind) -> Option<(u64, Due)> {
        self.registry.due_behind(behind, self.next.time)
    }

    fn is_member(&self, key: Key) -> bool {
        self.after.is_member(key)
    }

    fn certified(&self, alloc: Global, key: Key) -> Result<Certified, NoMemory> {
        let found = certified_of(alloc, self.after, key)?;
        Ok(found)
    }

    fn params(&self) -> Params {
        self.after.params()
    }

    fn secret(&self) -> Secret {
        self.registry.secret()
    }
}

/// The live certifications of the key on the chain with the block.
fn certified_of<A: WithBlock>(alloc: Global, after: &A, key: Key) -> Result<Certified, NoMemory>
    ensures { IfOk result (λ x. (c : Chain) (b : BlockValue) → A.after after.now c b → IsCertified (b ∷ c) key x) }
{
    let found = issuers(alloc, after, key)?;
    let issuers = in_order(alloc, &found)?;
    let stock = stock(alloc, after, key)?;
    let received = found.len() as u64;
    Ok(Certified {
        issuers,
        stock,
        received,
    })
}
