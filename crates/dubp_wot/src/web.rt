ghost use Rattle.std.specs.Prelude.{◌≡◌, ◌↔◌, List, None, IfOk, IsTrue, Contains, length};
ghost use Rattle.dubp_atoms.specs.Same.{Text};
ghost use Rattle.dubp_atoms.specs.Walks.{received_of, stock_of};
ghost use Rattle.dubp_wot.specs.Order.{IsInOrder, IsNextMember, IsNextIssuer, AreNextIssuers};

use crate::sentry::push;
use dubp_atoms::{Key, NoMemory, Secret};
use std::alloc::Global;

/// The members of a chain and its live certifications. Only `members` and `issuers` take memory.
///
/// Contracts see two lists that a web shows, `shows w members pairs`:
/// - the members, each once, in the order of their texts;
/// - the pairs, who certifies and who is certified, in any order and as often as it may be.
///
/// A clause holds of all lists that the web shows.
pub trait Web {
    ghost shows: { Self → List Text → List (Text × Text) → Type 0 };

    /// Whether the key is a member.
    fn is_member(&self, key: &Key) -> bool
        ensures { (members : List Text) (pairs : List (Text × Text)) → shows self.now members pairs → (IsTrue result ↔ Contains members key.now) };

    /// How many members there are.
    fn count_members(&self) -> u64
        ensures count { (members : List Text) (pairs : List (Text × Text)) → shows self.now members pairs → result ≡ length members }
        ensures in_order { (members : List Text) (pairs : List (Text × Text)) → shows self.now members pairs → IsInOrder members };

    /// The least member above `after`, or the least of all. None exactly where there is none.
    fn next_member(&self, after: Option<Key>) -> Option<Key>
        ensures { (members : List Text) (pairs : List (Text × Text)) → shows self.now members pairs → IsNextMember members after result };

    /// All members, in the order of their texts. `NoMemory` where there is none for the list.
    fn members(&self, alloc: Global) -> Result<Vec<Key>, NoMemory>
        ensures { IfOk result (λ keys. (members : List Text) (pairs : List (Text × Text)) → shows self.now members pairs → keys.items ≡ members) }
    {
        // that they stand in order is told with their number
        let _count = self.count_members();
        let mut keys = Vec::new(alloc);
        let mut after = None;
        // what a web shows is no value, so no measure speaks of it; there are fewer members than turns
        'members: for _ in 0..u64::MAX {
            let Some(key) = self.next_member(after) else {
                return Ok(keys);
            };
            push(&mut keys, key)?;
            after = Some(key);
        }
        Err(NoMemory)
    }

    /// The least key above `after` that certifies `to`, or the least of all. None exactly where there is none.
    fn next_issuer(&self, to: Key, after: Option<Key>) -> Option<Key>
        ensures { (members : List Text) (pairs : List (Text × Text)) → shows self.now members pairs → IsNextIssuer pairs to after result };

    /// All keys that certify `to`, in the order of their texts. `NoMemory` where there is none for the list.
    fn issuers(&self, alloc: Global, to: Key) -> Result<Vec<Key>, NoMemory>
        ensures { IfOk result (λ keys. (members : List Text) (pairs : List (Text × Text)) → shows self.now members pairs → AreNextIssuers pairs to None keys.items) }
    {
        let mut keys = Vec::new(alloc);
        let mut after = None;
        // what a web shows is no value, so no measure speaks of it; there are fewer issuers than turns
        'issuers: for _ in 0..u64::MAX {
            let Some(from) = self.next_issuer(to, after) else {
                return Ok(keys);
            };
            push(&mut keys, from)?;
            after = Some(from);
        }
        Err(NoMemory)
    }

    /// How many keys this key certifies.
    fn stock(&self, key: &Key) -> u64
        ensures { (members : List Text) (pairs : List (Text × Text)) → shows self.now members pairs → result ≡ stock_of pairs key.now };

    /// By how many keys this key is certified.
    fn received(&self, key: &Key) -> u64
        ensures { (members : List Text) (pairs : List (Text × Text)) → shows self.now members pairs → result ≡ received_of pairs key.now };

    /// What keys are hashed by in sets that live as long as a question.
    fn secret(&self) -> Secret;
}
