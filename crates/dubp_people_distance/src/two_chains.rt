ghost use Rattle.std.specs.Prelude.{◌≡◌, ◌∷◌, None, IsTrue, length, IfOk, IfSome, IfNone};
ghost use Rattle.dubp_block.specs.declared.block.Block.{Block as BlockValue};
ghost use Rattle.dubp_chain.specs.Chains.{Chain, params};
ghost use Rattle.dubp_chain.specs.Live.{live, received, stock};
ghost use Rattle.dubp_chain.specs.Members.{member, members};
ghost use Rattle.dubp_expiry.specs.Entries.{IsBehind, IsNextDue, NoneIsDue};
ghost use Rattle.dubp_iindex.specs.Order.{IsNext, AreNext};
ghost use Rattle.dubp_left.specs.Left.{queue_left};
ghost use Rattle.dubp_left.specs.OfSteps.{now_of};
ghost use Rattle.dubp_people_distance.specs.Certified.{IsCertified};
ghost use Rattle.dubp_people_distance.specs.Stated.{AreStated};

use crate::certified::{Certified, Counts};
use dubp_atoms::{Key, NoMemory, Secret};
use dubp_expiry::{Behind, Due};
use dubp_params::Params;
use std::alloc::Global;

/// A chain, and the same chain with a block that stands to be judged on it. Only `issuers_before` and `certified` take memory.
pub trait TwoChains {
    /// `stand s c b`: the block b stands to be judged on the chain c, and s shows the people of c, and of c with b on it.
    ghost stand: { Self → Chain → BlockValue → Type 0 };

    /// Whether the key is a member of the chain before the block.
    fn was_member(&self, key: Key) -> bool
        ensures { (c : Chain) (b : BlockValue) → stand self.now c b → result ≡ member c key };

    /// How many members the chain before the block has.
    fn count_before(&self) -> u64
        ensures { (c : Chain) (b : BlockValue) → stand self.now c b → result ≡ length (members c) };

    /// The least member of the chain before the block that is above `after`, or the least of all. None exactly where there is none.
    fn next_before(&self, after: Option<Key>) -> Option<Key>
        ensures { (c : Chain) (b : BlockValue) → stand self.now c b → IsNext (λ k. IsTrue (member c k)) after result };

    /// The least key above `after`, or the least of all, from whom the key has a live certification before the block.
    fn issuer_before(&self, to: Key, after: Option<Key>) -> Option<Key>
        ensures { (c : Chain) (b : BlockValue) → stand self.now c b → IsNext (λ a. IsTrue (live c a to)) after result };

    /// All keys from whom the key has a live certification before the block, in the order of their texts. `NoMemory` where there is none
    /// for the list.
    fn issuers_before(&self, alloc: Global, to: Key) -> Result<Vec<Key>, NoMemory>
        ensures { IfOk result (λ keys. (c : Chain) (b : BlockValue) → stand self.now c b → AreNext (λ a. IsTrue (live c a to)) None keys.items) };

    /// How many live certifications the key has before the block.
    fn counts_before(&self, key: Key) -> Counts
        ensures stock { (c : Chain) (b : BlockValue) → stand self.now c b → result.stock ≡ stock c key }
        ensures received { (c : Chain) (b : BlockValue) → stand self.now c b → result.received ≡ received c key };

    /// The first entry of the queue of the chain before the block, behind the place and up to the time of the block.
    fn due_behind(&self, behind: Behind) -> Option<(u64, Due)>
        ensures found { (c : Chain) (b : BlockValue) → stand self.now c b → IfSome result (IsNextDue (queue_left c) (IsBehind behind) (now_of c b)) }
        ensures none { (c : Chain) (b : BlockValue) → stand self.now c b → IfNone result (NoneIsDue (queue_left c) (IsBehind behind) (now_of c b)) };

    /// Whether the key is a member of the chain with the block.
    fn is_member(&self, key: Key) -> bool
        ensures { (c : Chain) (b : BlockValue) → stand self.now c b → result ≡ member (b ∷ c) key };

    /// The live certifications of the key on the chain with the block. `NoMemory` where there is no memory for them.
    fn certified(&self, alloc: Global, key: Key) -> Result<Certified, NoMemory>
        ensures { IfOk result (λ x. (c : Chain) (b : BlockValue) → stand self.now c b → IsCertified (b ∷ c) key x) };

    /// The parameters of the chain with the block.
    fn params(&self) -> Params
        ensures value { (c : Chain) (b : BlockValue) → stand self.now c b → result ≡ params (b ∷ c) }
        ensures stated { (c : Chain) (b : BlockValue) → stand self.now c b → AreStated result };

    /// What keys are hashed by in sets that live as long as a block.
    fn secret(&self) -> Secret;
}
