ghost use Rattle.std.specs.Prelude.{◌≡◌, ◌↔◌, IsTrue, ℕ, Option, None, is_some, length, map, IfOk, IfSome, IfNone};
ghost use Rattle.dubp_atoms.specs.Same.{Text};
ghost use Rattle.dubp_left.specs.OfChain.{Block as BlockValue};
ghost use Rattle.dubp_left.specs.OfChain.{names};
ghost use Rattle.dubp_left.specs.OfChain.{Chain};
ghost use Rattle.dubp_left.specs.OfChain.{member, members};
ghost use Rattle.dubp_left.specs.OfChain.{made, certification_made};
ghost use Rattle.dubp_left.specs.OfChain.{identity_lines, leaving, revoked};
ghost use Rattle.dubp_left.specs.OfChain.{live, received, stock, wrote};
ghost use Rattle.dubp_left.specs.OfChain.{is_to_be_excluded};
ghost use Rattle.dubp_left.specs.OfFacts.{IsSound};
ghost use Rattle.dubp_iindex.specs.Order.{IsNext, AreNext};
ghost use Rattle.dubp_expiry.specs.Entries.{IsBehind, IsNextDue, NoneIsDue};
ghost use Rattle.dubp_left.specs.OfFacts.{first_at};
ghost use Rattle.dubp_left.specs.Laws.{time_numbered};
ghost use Rattle.dubp_left.specs.Left.{identity_left, membership_left, certification_left, queue_left};

use crate::registry::Registry;
use dubp_atoms::{Key, NoMemory, Stamp, Uid};
use dubp_cindex::CertRow;
use dubp_expiry::{Behind, Due};
use dubp_iindex::IdentityRow;
use dubp_left::{Block, CertLine, First};
use dubp_mindex::MemberRow;
use dubp_undo::Tables;
use std::alloc::Global;

impl Registry {
    /// The identity of the key, or None where it has none.
    pub fn identity(&self, key: Key) -> Option<IdentityRow>
        ensures { (c : Chain) → ⟦<Registry as Tables<Block>>⟧.at self.now c → result ≡ identity_left c key }
    {
        self.iindex().row(key)
    }

    /// Whether a line of Identities has the uid.
    pub fn has_uid(&self, uid: Uid) -> bool
        ensures { (c : Chain) → ⟦<Registry as Tables<Block>>⟧.at self.now c → IsSound c → result ≡ names (map (λ line. line.uid) (identity_lines c)) uid }
    {
        self.iindex().key_of(uid).is_some()
    }

    /// How many lines of Identities there are.
    pub fn identities(&self) -> u64
        ensures { (c : Chain) → ⟦<Registry as Tables<Block>>⟧.at self.now c → IsSound c → result ≡ length (identity_lines c) }
    {
        self.iindex().identities()
    }

    /// Whether the key is a member.
    pub fn is_member(&self, key: Key) -> bool
        ensures { (c : Chain) → ⟦<Registry as Tables<Block>>⟧.at self.now c → IsSound c → result ≡ member c key }
    {
        match self.identity(key) {
            Some(row) => row.member,
            None => false,
        }
    }

    /// How many members there are.
    pub fn members(&self) -> u64
        ensures { (c : Chain) → ⟦<Registry as Tables<Block>>⟧.at self.now c → IsSound c → result ≡ length (members c) }
    {
        self.iindex().members()
    }

    /// The least member above `after`, or the least of all. None exactly where there is none.
    pub fn next_member(&self, after: Option<Key>) -> Option<Key>
        ensures { (c : Chain) → ⟦<Registry as Tables<Block>>⟧.at self.now c → IsSound c → IsNext (λ k. IsTrue (member c k)) after result }
    {
        self.iindex().next_member(after)
    }

    /// All members, in the order of their texts. `NoMemory` where there is none for the list.
    pub fn member_list(&self, alloc: Global) -> Result<Vec<Key>, NoMemory>
        ensures { IfOk result (λ keys. (c : Chain) → ⟦<Registry as Tables<Block>>⟧.at self.now c → IsSound c → keys.items ≡ members c) }
    {
        let mut keys = Vec::new(alloc);
        self.iindex().put_members(&mut keys)?;
        Ok(keys)
    }

    /// The last membership of the key, or None where it has none.
    pub fn membership(&self, key: Key) -> Option<MemberRow>
        ensures { (c : Chain) → ⟦<Registry as Tables<Block>>⟧.at self.now c → result ≡ membership_left c key }
    {
        self.mindex().row(key)
    }

    /// Whether the key is leaving.
    pub fn is_leaving(&self, key: Key) -> bool
        ensures { (c : Chain) → ⟦<Registry as Tables<Block>>⟧.at self.now c → result ≡ leaving c key }
    {
        match self.membership(key) {
            Some(row) => row.leaving,
            None => false,
        }
    }

    /// Whether the key is revoked.
    pub fn is_revoked(&self, key: Key) -> bool
        ensures { (c : Chain) → ⟦<Registry as Tables<Block>>⟧.at self.now c → IsSound c → result ≡ revoked c key }
    {
        match self.membership(key) {
            Some(row) => row.revoked,
            None => false,
        }
    }

    /// The last certification from one key to another, or None where there is none.
    pub fn certification(&self, from: Key, to: Key) -> Option<CertRow>
        ensures { (c : Chain) → ⟦<Registry as Tables<Block>>⟧.at self.now c → result ≡ certification_left c (from, to) }
    {
        self.cindex().row(from, to)
    }

    /// How many live certifications the key has received.
    pub fn received(&self, to: Key) -> u64
        ensures { (c : Chain) → ⟦<Registry as Tables<Block>>⟧.at self.now c → result ≡ received c to }
    {
        self.cindex().received(to)
    }

    /// How many of the certifications that the key has issued are live.
    pub fn stock(&self, from: Key) -> u64
        ensures { (c : Chain) → ⟦<Registry as Tables<Block>>⟧.at self.now c → result ≡ stock c from }
    {
        match self.cindex().issuer(from) {
            Some(row) => row.stock,
            None => 0,
        }
    }

    /// The number of the block with the last certification that the key issued, or None where it issued none.
    pub fn last_issued(&self, from: Key) -> Option<u64>
        ensures { (c : Chain) → ⟦<Registry as Tables<Block>>⟧.at self.now c → IsSound c → result ≡ wrote c from }
    {
        match self.cindex().issuer(from) {
            Some(row) => Some(row.written),
            None => None,
        }
    }

    /// The least key above `after`, or the least of all, from whom the key has a live certification. None exactly where there is none.
    pub fn next_issuer(&self, to: Key, after: Option<Key>) -> Option<Key>
        ensures { (c : Chain) → ⟦<Registry as Tables<Block>>⟧.at self.now c → IsNext (λ a. IsTrue (live c a to)) after result }
    {
        self.cindex().next_received(to, after)
    }

    /// All keys from whom the key has a live certification, in the order of their texts. `NoMemory` where there is none for the list.
    pub fn issuers(&self, alloc: Global, to: Key) -> Result<Vec<Key>, NoMemory>
        ensures { IfOk result (λ keys. (c : Chain) → ⟦<Registry as Tables<Block>>⟧.at self.now c → AreNext (λ a. IsTrue (live c a to)) None keys.items) }
    {
        let mut keys = Vec::new(alloc);
        self.cindex().put_issuers(&mut keys, &to)?;
        Ok(keys)
    }

    /// The first entry of the queue behind the place, where its time, in seconds, is at most `now`. None where there is none.
    pub fn due_behind(&self, behind: Behind, now: u64) -> Option<(u64, Due)>
        ensures found { (c : Chain) → ⟦<Registry as Tables<Block>>⟧.at self.now c → IfSome result (IsNextDue (queue_left c) (IsBehind behind) now) }
        ensures none { (c : Chain) → ⟦<Registry as Tables<Block>>⟧.at self.now c → IfNone result (NoneIsDue (queue_left c) (IsBehind behind) now) }
    {
        self.queue().due_behind(behind, now)
    }

    /// Whether the key has to be excluded.
    pub fn is_kicked(&self, key: Key) -> bool
        ensures { (c : Chain) → ⟦<Registry as Tables<Block>>⟧.at self.now c → result ≡ is_to_be_excluded c key }
    {
        self.tables.second.tables.second.get(key).is_some()
    }

    /// The least key above `after`, or the least of all, that has to be excluded. None exactly where there is none.
    pub fn next_kicked(&self, after: Option<Key>) -> Option<Key>
        ensures { (c : Chain) → ⟦<Registry as Tables<Block>>⟧.at self.now c → IsNext (λ k. IsTrue (is_to_be_excluded c k)) after result }
    {
        match self.tables.second.tables.second.next_after(after) {
            Some(entry) => Some(entry.0),
            None => None,
        }
    }

    /// The parameters and the currency, or None where the chain is empty.
    pub fn first(&self) -> Option<First>
        ensures { (c : Chain) → ⟦<Registry as Tables<Block>>⟧.at self.now c → result ≡ first_at c tt }
    {
        self.facts().first()
    }

    /// When what the stamp of a line of the next block dates was made, in seconds. None where it has no time.
    pub fn made(&self, block: &Block, stamp: &Stamp) -> Option<u64>
        ensures { (c : Chain) → ⟦<Registry as Tables<Block>>⟧.at self.now c → IsSound c → result ≡ made c block.now stamp.now }
    {
        self.facts().made(block, stamp)
    }

    /// When a certification of the next block was made, in seconds. None where it has no time.
    pub fn certification_made(&self, block: &Block, line: &CertLine) -> Option<u64>
        ensures { (c : Chain) → ⟦<Registry as Tables<Block>>⟧.at self.now c → result ≡ certification_made c block.now line.now }
    {
        self.facts().certification_made(block, line)
    }

    /// The median time of the block of this number, in seconds, or None where the chain has none.
    pub fn time_numbered(&self, number: u64) -> Option<u64>
        ensures { (c : Chain) → ⟦<Registry as Tables<Block>>⟧.at self.now c → result ≡ time_numbered c number }
    {
        match self.facts().time_of(number) {
            Some(at) => Some(at.time),
            None => None,
        }
    }
}
