ghost use Rattle.std.specs.Prelude.{◌≡◌, List, [], ℕ};
ghost use Rattle.dubp_left.specs.OfChain.{Chain};
ghost use Rattle.dubp_left.specs.Left.{identities_left, memberships_left, certifications_left};

use dubp_atoms::{NoMemory, Secret, Steps};
use dubp_cindex::{CIndex, CertRows};
use dubp_iindex::{IIndex, IdentityRows};
use dubp_left::Block;
use dubp_mindex::{MIndex, MemberRows};
use dubp_undo::{Along, StateOf, Tables, Three};
use std::alloc::Global;
use std::sync::ledger::Ledger as StepBook;

/// The identities that a chain leaves.
pub struct IdentitiesLeft;

impl StateOf<Block, IdentityRows> for IdentitiesLeft {
    ghost after = { identities_left };
}

/// The memberships that a chain leaves.
pub struct MembershipsLeft;

impl StateOf<Block, MemberRows> for MembershipsLeft {
    ghost after = { memberships_left };
}

/// The certifications that a chain leaves.
pub struct CertificationsLeft;

impl StateOf<Block, CertRows> for CertificationsLeft {
    ghost after = { certifications_left };
}

type IndexTables = Three<
    Block,
    Along<Block, IdentityRows, IIndex, IdentitiesLeft>,
    Along<Block, MemberRows, MIndex, MembershipsLeft>,
    Along<Block, CertRows, CIndex, CertificationsLeft>,
>;

/// The indexes of identities, memberships and certifications.
#[derive(Drop)]
pub struct Indexes {
    pub tables: IndexTables,
}

impl Tables<Block> for Indexes {
    ghost Now = { ⟦<IndexTables as Tables<Block>>⟧.Now };

    ghost Names = { ⟦<IndexTables as Tables<Block>>⟧.Names };

    ghost now = { λ t. ⟦<IndexTables as Tables<Block>>⟧.now t.tables };

    ghost count = { λ t. ⟦<IndexTables as Tables<Block>>⟧.count t.tables };

    ghost others = { λ t. ⟦<IndexTables as Tables<Block>>⟧.others t.tables };

    ghost spare = { λ t. ⟦<IndexTables as Tables<Block>>⟧.spare t.tables };

    ghost names = { λ t. ⟦<IndexTables as Tables<Block>>⟧.names t.tables };

    ghost is = { ⟦<IndexTables as Tables<Block>>⟧.is };

    ghost at = { λ t c. ⟦<IndexTables as Tables<Block>>⟧.at t.tables c };

    fn depth(&self) -> usize {
        self.tables.depth()
    }

    fn mark(&mut self) -> Result<(), NoMemory> {
        self.tables.mark()?;
        Ok(())
    }

    fn unmark(&mut self) {
        self.tables.unmark();
    }

    fn reserve(&mut self, k: usize) -> Result<(), NoMemory> {
        self.tables.reserve(k)?;
        Ok(())
    }

    fn hold<L: StepBook>(&mut self, steps: &mut Steps<L>) {
        self.tables.hold(steps);
    }

    fn back<L: StepBook>(&mut self, steps: &mut Steps<L>) {
        self.tables.back(steps);
    }

    fn again<L: StepBook>(&mut self, steps: &mut Steps<L>) {
        self.tables.again(steps);
    }

    fn drop_oldest(&mut self) {
        self.tables.drop_oldest();
    }

    fn drop_ahead(&mut self) {
        self.tables.drop_ahead();
    }

    ghost is_at = { λ t c is. is };

    ghost at_is = { λ t c is. is };
}

impl Indexes {
    /// Those of the empty chain. The secret is what keys and uids are hashed by. It takes no memory.
    pub fn new(alloc: Global, secret: Secret) -> Indexes
        ensures at { ⟦<Indexes as Tables<Block>>⟧.at result [] }
        ensures count { ⟦<Indexes as Tables<Block>>⟧.count result ≡ 0 }
        ensures kept { (⟦<Indexes as Tables<Block>>⟧.others result).kept ≡ [] }
        ensures ahead { (⟦<Indexes as Tables<Block>>⟧.others result).ahead ≡ [] }
    {
        Indexes {
            tables: Three::new(
                Along::new(IIndex::with_secret(alloc, secret)),
                Along::new(MIndex::with_secret(alloc, secret)),
                Along::new(CIndex::with_secret(alloc, secret)),
            ),
        }
    }
}
