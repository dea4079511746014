ghost use Rattle.std.specs.Prelude.{◌+◌, nat_lt, ◌≡◌, ◌∷◌, IfOk, OnOk, Some, option_map};
ghost use Rattle.std.specs.List.{list_any};
ghost use Rattle.indexmap.specs.IndexMap.{get};
ghost use Rattle.indexmap.specs.IndexSet.{contains};
ghost use Rattle.dubp_atoms.specs.Same.{same_text, empty_stamp};
ghost use Rattle.dubp_block.specs.declared.block.Block.{Block as BlockValue};
ghost use Rattle.dubp_chain.specs.Chains.{Chain, params};
ghost use Rattle.dubp_chain.specs.Live.{live, live_at};
ghost use Rattle.dubp_registry.specs.OfSteps.{certification_time, now_of};
ghost use Rattle.dubp_chain.specs.Made.{certification_stamp};
ghost use Rattle.dubp_chain.specs.Members.{member};
ghost use Rattle.dubp_chain.specs.People.{identity, identity_lines, leaving};
ghost use Rattle.dubp_registry.specs.OfValidity.{is_identity_of, may_certify};
ghost use Rattle.dubp_registry.specs.OfLeft.{IsAsked};
ghost use Rattle.dubp_people_after.specs.Keys.{AreKeysOf, identity_in, same_pair};
ghost use Rattle.dubp_people_after.specs.Near.{HasIssuers, HasReceivers};
ghost use Rattle.dubp_people_after.specs.Names.{is_repeated, name_of, name_of_line, stamp_at};
ghost use Rattle.dubp_people_after.specs.Partners.{is_partner};

use crate::keys::{Keys, keys_of, put_all};
use crate::near::put_rows;
use dubp_atoms::{Hash, Key, NoMemory, Secret, Sig, Stamp, Uid};
use dubp_block::{Block, CertLine, MemberLine};
use dubp_moving::Tables;
use dubp_params::Params;
use dubp_registry::{BlockTime, Next, Registry};
use indexmap::IndexSet;
use std::alloc::Global;

/// The people of a chain with one block more, and what is looked up in them. Only `near` takes memory.
pub trait WithBlock {
    /// `after a c b`: the block b stands to be judged on the chain c, and a shows the people of c with b on it.
    ghost after: { Self → Chain → BlockValue → Type 0 };

    /// Whether the key is a member.
    fn is_member(&self, key: Key) -> bool
        ensures { (c : Chain) (b : BlockValue) → after self.now c b → result ≡ member (b ∷ c) key };

    /// Whether the key is leaving.
    fn is_leaving(&self, key: Key) -> bool
        ensures { (c : Chain) (b : BlockValue) → after self.now c b → result ≡ leaving (b ∷ c) key };

    /// Whether the key is a member of the chain before the block, or of that with the block where the first is empty.
    fn may_certify(&self, key: Key) -> bool
        ensures { (c : Chain) (b : BlockValue) → after self.now c b → result ≡ may_certify c b key };

    /// The name of the key, or None where it has no identity.
    fn name(&self, key: Key) -> Option<Name>
        ensures { (c : Chain) (b : BlockValue) → after self.now c b → result ≡ option_map name_of (identity (b ∷ c) key) };

    /// Whether a line of Identities, of the chain or of the block, has the key, the UID and the identity stamp of the membership.
    fn has_identity(&self, line: &MemberLine) -> bool
        ensures { (c : Chain) (b : BlockValue) → after self.now c b → result ≡ list_any (is_identity_of line.now) (identity_lines (b ∷ c)) };

    /// The stamp of the block that a certification of this block was made on, or None where the chain has none.
    fn certification_stamp(&self, line: &CertLine) -> Option<Stamp>
        ensures { (c : Chain) (b : BlockValue) → after self.now c b → result ≡ certification_stamp c line.now };

    /// Whether the last certification from one key to another is live.
    fn is_live(&self, from: Key, to: Key) -> bool
        ensures { (c : Chain) (b : BlockValue) → after self.now c b → result ≡ live (b ∷ c) from to };

    /// The parameters of the chain.
    fn params(&self) -> Params
        ensures { (c : Chain) (b : BlockValue) → after self.now c b → result ≡ params (b ∷ c) };

    /// Keys among which are all from whom the key has a live certification, and all to whom it has issued one.
    ///
    /// It looks at the live certifications of the key and at those lines of the block that name it, however many more the block has.
    /// `NoMemory` where there is no memory for the set.
    fn near(&self, alloc: Global, key: Key) -> Result<IndexSet<Key, Secret>, NoMemory>
        ensures issuers { IfOk result (λ near. (c : Chain) (b : BlockValue) → after self.now c b → HasIssuers c b key (contains same_text near)) }
        ensures receivers { IfOk result (λ near. (c : Chain) (b : BlockValue) → after self.now c b → HasReceivers c b key (contains same_text near)) };

    /// What keys are hashed by in sets that live as long as a block.
    fn secret(&self) -> Secret;
}

/// The people of a chain with a block that stands to be judged on it.
///
/// The registry of the chain stays as it is, and nothing of it is copied: what the block changes stands beside it, and is made once.
#[derive(Drop)]
pub struct After<'a> {
    registry: &'a Registry,
    block: &'a Block,
    next: Next,
    keys: Keys,
}

/// What a document about an identity repeats of it.
#[derive(Clone, Copy, Debug, PartialEq, Eq)]
pub struct Name {
    pub uid: Uid,
    pub stamp: Stamp,
    pub sig: Sig,
}

impl<'a> WithBlock for After<'a> {
    ghost after = { λ a c b. ⟦<Registry as Tables<Block>>⟧.at a.registry.now c × (IsAsked c b a.next × AreKeysOf b (contains same_text a.keys.joining) (contains same_text a.keys.coming) (contains same_text a.keys.leaving) (contains same_text a.keys.excluded) (get same_text a.keys.identities) (get same_pair a.keys.certifications) (is_partner a.keys.partners) × (a.block.now ≡ b)) };

    fn is_member(&self, key: Key) -> bool {
        if self.keys.excluded.contains(&key) {
            return false;
        }
        if self.keys.joining.contains(&key) {
            return true;
        }
        self.registry.is_member(key)
    }

    fn is_leaving(&self, key: Key) -> bool {
        if self.keys.leaving.contains(&key) {
            return true;
        }
        if self.keys.coming.contains(&key) {
            return false;
        }
        self.registry.is_leaving(key)
    }

    fn may_certify(&self, key: Key) -> bool {
        match self.registry.first() {
            None => self.is_member(key),
            Some(_) => self.registry.is_member(key),
        }
    }

    fn name(&self, key: Key) -> Option<Name> {
        match self.name_made(key) {
            Some(name) => Some(name),
            None => self.name_before(key),
        }
    }

    fn has_identity(&self, line: &MemberLine) -> bool {
        let made = self.name_made(line.key);
        let before = self.name_before(line.key);
        repeats(line, made) || repeats(line, before)
    }

    fn certification_stamp(&self, line: &CertLine) -> Option<Stamp> {
        match self.registry.first() {
            None => first_stamp(),
            Some(_) => stamp_of(line.number, self.registry.facts().time_of(line.number)),
        }
    }

    fn is_live(&self, from: Key, to: Key) -> bool {
        match self.keys.certification_of(from, to) {
            Some(line) => self.lasts(self.made_at(&line)),
            None => self.is_live_before(from, to),
        }
    }

    fn params(&self) -> Params {
        self.next.params
    }

    fn near(&self, alloc: Global, key: Key) -> Result<IndexSet<Key, Secret>, NoMemory> {
        let mut near = IndexSet::with_hasher(alloc, self.registry.secret());
        self.put_near(alloc, key, &mut near)?;
        Ok(near)
    }

    fn secret(&self) -> Secret {
        self.registry.secret()
    }
}

impl<'a> After<'a> {
    /// What the block changes on the chain of the registry.
    ///
    /// `NoMemory` where there is no memory for the keys that the block names.
    pub fn of(
        alloc: Global,
        registry: &'a Registry,
        block: &'a Block,
        next: &Next,
    ) -> Result<After<'a>, NoMemory>
        ensures { IfOk result (λ a. (c : Chain) → ⟦<Registry as Tables<Block>>⟧.at registry.now c → IsAsked c block.now next.now → ⟦<After<'a> as WithBlock>⟧.after a c block.now) }
    {
        let keys = keys_of(alloc, registry.secret(), block)?;
        Ok(After {
            registry,
            block,
            next: *next,
            keys,
        })
    }

    /// Puts the keys into the set that the key has certifications with, on the chain before the block or by the block.
    fn put_near(
        &self,
        alloc: Global,
        key: Key,
        near: &mut IndexSet<Key, Secret>,
    ) -> Result<(), NoMemory>
        ensures issuers { OnOk result ((c : Chain) (b : BlockValue) → ⟦<After<'a> as WithBlock>⟧.after self.now c b → HasIssuers c b key (contains same_text near.new)) }
        ensures receivers { OnOk result ((c : Chain) (b : BlockValue) → ⟦<After<'a> as WithBlock>⟧.after self.now c b → HasReceivers c b key (contains same_text near.new)) }
    {
        let rows = self.registry.cindex().rows_of(alloc, key)?;
        put_rows(near, rows.as_slice())?;
        put_all(near, self.keys.partners_of(key))?;
        Ok(())
    }

    /// Whether the last certification on the chain before the block, from one key to another, is live at the time of the block.
    fn is_live_before(&self, from: Key, to: Key) -> bool
        ensures { (c : Chain) (b : BlockValue) → ⟦<After<'a> as WithBlock>⟧.after self.now c b → result ≡ live_at (now_of c b) c from to }
    {
        match self.registry.certification(from, to) {
            Some(row) => row.live && self.lasts(row.made),
            None => false,
        }
    }

    /// When the certification of the block was made, in seconds; 0 where it has no time.
    fn made_at(&self, line: &CertLine) -> u64
        ensures { (c : Chain) (b : BlockValue) → ⟦<After<'a> as WithBlock>⟧.after self.now c b → result ≡ certification_time c b line.now }
    {
        match self.registry.certification_made(self.block, line) {
            Some(time) => time,
            None => 0,
        }
    }

    /// Whether what was made at this time is live at the time of the block.
    fn lasts(&self, made: u64) -> bool
        ensures { result ≡ nat_lt self.now.next.time (made + self.now.next.params.sig_validity) }
    {
        match self.next.time.checked_sub(made) {
            Some(age) => age < self.next.params.sig_validity,
            None => true,
        }
    }

    /// The name that the block makes of the key.
    fn name_made(&self, key: Key) -> Option<Name>
        ensures { (c : Chain) (b : BlockValue) → ⟦<After<'a> as WithBlock>⟧.after self.now c b → result ≡ option_map name_of_line (identity_in b key) }
    {
        match self.keys.line_of(key) {
            Some(line) => Some(Name {
                uid: line.uid,
                stamp: line.stamp,
                sig: line.sig,
            }),
            None => None,
        }
    }

    /// The name of the key on the chain before the block.
    fn name_before(&self, key: Key) -> Option<Name>
        ensures { (c : Chain) (b : BlockValue) → ⟦<After<'a> as WithBlock>⟧.after self.now c b → result ≡ option_map name_of (identity c key) }
    {
        match self.registry.identity(key) {
            Some(row) => Some(Name {
                uid: row.uid,
                stamp: row.stamp,
                sig: row.sig,
            }),
            None => None,
        }
    }
}

/// Whether there is a name, and the membership repeats its UID and stamp.
fn repeats(line: &MemberLine, name: Option<Name>) -> bool
    ensures { result ≡ is_repeated line.now name }
{
    match name {
        Some(name) => line.uid == name.uid && line.identity_stamp == name.stamp,
        None => false,
    }
}

/// The stamp of the block of this number.
fn stamp_of(number: u64, at: Option<BlockTime>) -> Option<Stamp>
    ensures { result ≡ option_map (stamp_at number) at }
{
    match at {
        Some(at) => Some(Stamp {
            number,
            hash: at.hash,
        }),
        None => None,
    }
}

/// The SHA-256 of the empty text.
const EMPTY_HASH: &[u8; 64] = b"E3B0C44298FC1C149AFBF4C8996FB92427AE41E4649B934CA495991B7852B855";

/// The stamp of the empty text.
fn first_stamp() -> Option<Stamp>
    ensures { result ≡ Some empty_stamp }
{
    match Hash::read(EMPTY_HASH.as_slice()) {
        Some(hash) => Some(Stamp { number: 0, hash }),
        None => None,
    }
}
