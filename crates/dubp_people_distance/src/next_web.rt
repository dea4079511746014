ghost use Rattle.std.specs.Prelude.{Bool, ◌∷◌, ◌||◌, ◌<◌, ◌^◌, Option, length, IfOk, IsTrue};
ghost use Rattle.std.specs.BTreeSet.{contains};
ghost use Rattle.indexmap.specs.IndexMap.{get};
ghost use Rattle.dubp_atoms.specs.Same.{Text, same_text};
ghost use Rattle.dubp_block.specs.declared.block.Block.{Block as BlockValue};
ghost use Rattle.dubp_chain.specs.Chains.{Chain};
ghost use Rattle.dubp_chain.specs.Live.{live_pairs};
ghost use Rattle.dubp_chain.specs.Members.{members};
ghost use Rattle.dubp_iindex.specs.Order.{IsNext};
ghost use Rattle.dubp_iindex.specs.Rows.{texts};
ghost use Rattle.dubp_people_distance.specs.Webs.{IsMade, IsWebOf};

use crate::certified::{Certified, keys_in_order, next_above};
use crate::changed::changed_by;
use crate::moved::{count_with, joined_by, left_by, next_staying};
use crate::two_chains::TwoChains;
use dubp_atoms::{Key, NoMemory, Secret};
use dubp_block::Block;
use dubp_wot::Web;
use indexmap::{IndexMap, IndexSet};
use std::alloc::Global;
use std::collections::BTreeSet;

/// The members of a chain with a block that stands to be judged, and its live certifications, as a web.
#[derive(Drop)]
pub(crate) struct NextWeb<'a, T: TwoChains> {
    chains: &'a T,
    /// Who is a member with the block and not before.
    joined: BTreeSet<Key>,
    /// Who is a member before the block and not with it.
    left: IndexSet<Key, Secret>,
    /// How many members there are with the block.
    count: u64,
    /// The live certifications with the block, where they may be others than before.
    changed: IndexMap<Key, Certified, Secret>,
}

impl<'a, T: TwoChains> NextWeb<'a, T> {
    /// What the block changes on the chain.
    ///
    /// `NoMemory` where there is no memory for it.
    pub(crate) fn of(
        alloc: Global,
        chains: &'a T,
        block: &Block,
    ) -> Result<NextWeb<'a, T>, NoMemory>
        requires few { (c : Chain) × (T.stand chains.now c block.now × (length (members (block.now ∷ c)) < 2 ^ 21)) }
        ensures { IfOk result (λ w. (c : Chain) → T.stand chains.now c block.now → ⟦<NextWeb<'a, T> as Web>⟧.shows w (members (block.now ∷ c)) (live_pairs (block.now ∷ c))) }
    {
        let joined = joined_by(alloc, chains, block)?;
        let left = left_by(alloc, chains, block)?;
        let changed = changed_by(alloc, chains, block)?;
        let count = count_with(chains, &joined, &left);
        Ok(NextWeb {
            chains,
            joined,
            left,
            count,
            changed,
        })
    }
}

impl<'a, T: TwoChains> Web for NextWeb<'a, T> {
    ghost shows = { λ w keys pairs. (c : Chain) × (b : BlockValue) × (T.stand w.chains.now c b × (IsMade c b (contains texts w.joined) w.left.keys w.count (get same_text w.changed) × IsWebOf (b ∷ c) keys pairs)) };

    fn is_member(&self, key: &Key) -> bool {
        self.chains.is_member(*key)
    }

    fn count_members(&self) -> u64 {
        self.count
    }

    fn next_member(&self, after: Option<Key>) -> Option<Key> {
        let staying = next_staying(self.chains, &self.left, after);
        let joining = next_above(&self.joined, &after);
        lesser(staying, joining)
    }

    fn next_issuer(&self, to: Key, after: Option<Key>) -> Option<Key> {
        match self.changed.get(&to) {
            Some(certified) => next_above(&certified.issuers, &after),
            None => self.chains.issuer_before(to, after),
        }
    }

    fn issuers(&self, alloc: Global, to: Key) -> Result<Vec<Key>, NoMemory> {
        match self.changed.get(&to) {
            None => self.chains.issuers_before(alloc, to),
            Some(certified) => keys_in_order(alloc, &certified.issuers),
        }
    }

    fn stock(&self, key: &Key) -> u64 {
        match self.changed.get(key) {
            Some(certified) => certified.stock,
            None => self.chains.counts_before(*key).stock,
        }
    }

    fn received(&self, key: &Key) -> u64 {
        match self.changed.get(key) {
            Some(certified) => certified.received,
            None => self.chains.counts_before(*key).received,
        }
    }

    fn secret(&self) -> Secret {
        self.chains.secret()
    }
}

/// The lesser of two keys, of which either may be missing: the next of those that either is the next of.
fn lesser(one: Option<Key>, other: Option<Key>) -> Option<Key>
    ensures { (p q : Text → Bool) (after : Option Text) → IsNext (λ k. IsTrue (p k)) after one → IsNext (λ k. IsTrue (q k)) after other → IsNext (λ k. IsTrue (p k || q k)) after result }
{
    let Some(first) = one else {
        return other;
    };
    let Some(second) = other else {
        return one;
    };
    if second < first {
        Some(second)
    } else {
        Some(first)
    }
}
