ghost use Rattle.std.specs.Prelude.{◌≡◌, List, [], ℕ};
ghost use Rattle.dubp_undo.specs.States.{states};
ghost use Rattle.dubp_left.specs.OfChain.{Chain};
ghost use Rattle.dubp_left.specs.Left.{identities_left, memberships_left, certifications_left, queue_left};

use crate::indexes::Indexes;
use crate::others::Others;
use dubp_atoms::{NoMemory, Secret, Steps};
use dubp_cindex::{CIndex, CertRows};
use dubp_expiry::{Entries, Queue};
use dubp_iindex::{IIndex, IdentityRows};
use dubp_left::{Block, Facts};
use dubp_mindex::{MIndex, MemberRows};
use dubp_undo::{Both, Tables};
use std::alloc::Global;
use std::sync::ledger::Ledger as StepBook;

type RegistryTables = Both<Block, Indexes, Others>;

/// The people of a chain: its indexes, the queue of what falls due, the keys that have to be excluded, and its facts.
#[derive(Drop)]
pub struct Registry {
    pub tables: RegistryTables,
    /// What its tables hash keys by.
    secret: Secret,
}

impl Tables<Block> for Registry {
    ghost Now = { ⟦<RegistryTables as Tables<Block>>⟧.Now };

    ghost Names = { ⟦<RegistryTables as Tables<Block>>⟧.Names };

    ghost now = { λ t. ⟦<RegistryTables as Tables<Block>>⟧.now t.tables };

    ghost count = { λ t. ⟦<RegistryTables as Tables<Block>>⟧.count t.tables };

    ghost others = { λ t. ⟦<RegistryTables as Tables<Block>>⟧.others t.tables };

    ghost spare = { λ t. ⟦<RegistryTables as Tables<Block>>⟧.spare t.tables };

    ghost names = { λ t. ⟦<RegistryTables as Tables<Block>>⟧.names t.tables };

    ghost is = { ⟦<RegistryTables as Tables<Block>>⟧.is };

    ghost at = { λ t c. ⟦<RegistryTables as Tables<Block>>⟧.at t.tables c };

    fn depth(&self) -> usize {
        self.tables.depth()
    }

    fn mark(&mut self) -> Result<(), NoMemory> {
        self.tables.mark()?;
        Ok(())
    }

    fn unmark(&mut self) {
        self.tables.unmark();
    }

    fn reserve(&mut self, k: usize) -> Result<(), NoMemory> {
        self.tables.reserve(k)?;
        Ok(())
    }

    fn hold<L: StepBook>(&mut self, steps: &mut Steps<L>) {
        self.tables.hold(steps);
    }

    fn back<L: StepBook>(&mut self, steps: &mut Steps<L>) {
        self.tables.back(steps);
    }

    fn again<L: StepBook>(&mut self, steps: &mut Steps<L>) {
        self.tables.again(steps);
    }

    fn drop_oldest(&mut self) {
        self.tables.drop_oldest();
    }

    fn drop_ahead(&mut self) {
        self.tables.drop_ahead();
    }

    ghost is_at = { λ t c is. is };

    ghost at_is = { λ t c is. is };
}

impl Registry {
    /// That of the empty chain. It takes no memory.
    pub fn new(alloc: Global) -> Registry
        ensures at { ⟦<Registry as Tables<Block>>⟧.at result [] }
        ensures count { ⟦<Registry as Tables<Block>>⟧.count result ≡ 0 }
        ensures kept { (⟦<Registry as Tables<Block>>⟧.others result).kept ≡ [] }
        ensures ahead { (⟦<Registry as Tables<Block>>⟧.others result).ahead ≡ [] }
    {
        Registry::with_secret(alloc, Secret::known())
    }

    /// That of the empty chain, whose keys and uids strangers choose: they are hashed by the secret. It takes no memory.
    pub fn with_secret(alloc: Global, secret: Secret) -> Registry
        ensures at { ⟦<Registry as Tables<Block>>⟧.at result [] }
        ensures count { ⟦<Registry as Tables<Block>>⟧.count result ≡ 0 }
        ensures kept { (⟦<Registry as Tables<Block>>⟧.others result).kept ≡ [] }
        ensures ahead { (⟦<Registry as Tables<Block>>⟧.others result).ahead ≡ [] }
    {
        Registry {
            tables: Both::new(Indexes::new(alloc, secret), Others::new(alloc)),
            secret,
        }
    }

    /// What its tables hash keys by, for sets that live as long as a block.
    pub fn secret(&self) -> Secret {
        self.secret
    }

    /// The index of identities.
    pub fn iindex(&self) -> &IIndex
        ensures { (c : Chain) → ⟦<Registry as Tables<Block>>⟧.at self.now c → ⟦<IIndex as Tables<IdentityRows>>⟧.at result.now (states identities_left c) }
    {
        &self.tables.first.tables.first.tables
    }

    /// The index of memberships.
    pub fn mindex(&self) -> &MIndex
        ensures { (c : Chain) → ⟦<Registry as Tables<Block>>⟧.at self.now c → ⟦<MIndex as Tables<MemberRows>>⟧.at result.now (states memberships_left c) }
    {
        &self.tables.first.tables.second.tables
    }

    /// The index of certifications.
    pub fn cindex(&self) -> &CIndex
        ensures { (c : Chain) → ⟦<Registry as Tables<Block>>⟧.at self.now c → ⟦<CIndex as Tables<CertRows>>⟧.at result.now (states certifications_left c) }
    {
        &self.tables.first.tables.third.tables
    }

    /// The queue of what falls due.
    pub fn queue(&self) -> &Queue
        ensures { (c : Chain) → ⟦<Registry as Tables<Block>>⟧.at self.now c → ⟦<Queue as Tables<Entries>>⟧.at result.now (states queue_left c) }
    {
        &self.tables.second.tables.first.tables
    }

    /// The parameters, the currency and the times of the blocks.
    pub fn facts(&self) -> &Facts
        ensures { (c : Chain) → ⟦<Registry as Tables<Block>>⟧.at self.now c → ⟦<Facts as Tables<Block>>⟧.at result.now c }
    {
        &self.tables.second.tables.third
    }
}
