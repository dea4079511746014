ghost use Rattle.std.specs.Prelude.{◌≡◌, ℕ, List, []};
ghost use Rattle.std.specs.FinMap as map;
ghost use Rattle.std.specs.Option.{unwrap_or};
ghost use Rattle.dubp_undo.specs.States.{newest};
ghost use Rattle.dubp_cindex.specs.Orders.{IsNextIssuer};
ghost use Rattle.dubp_cindex.specs.Rows.{Rows, issuer_in, received_in, live_pairs};

use crate::row::{CertRow, CertRows, IssuerRow};
use crate::sides::no_received;
use crate::tables::CertTables;
use crate::walking::{Place, next_of};
use dubp_atoms::{Key, NoMemory, Secret, Steps};
use dubp_finders::ByHash;
use dubp_undo::{Found, Leaf, NoSummary, Tables, Three};
use std::alloc::Global;
use std::sync::ledger::Ledger as StepBook;

/// The certifications, each under its issuer and receiver, with what is counted in them.
///
/// Contracts see it along a chain of states, as `Tables` does. No reading call takes memory but `rows_of` and `put_issuers`. Protocol: certifications, tables.
#[derive(Drop)]
pub struct CIndex {
    pub(crate) tables: CertTables,
}

impl CIndex {
    /// The index in which nothing is written, hashed by the secret that everybody knows. It takes no memory.
    pub fn new(alloc: Global) -> CIndex
        ensures at { ⟦<CIndex as Tables<CertRows>>⟧.at result [] }
        ensures count { ⟦<CIndex as Tables<CertRows>>⟧.count result ≡ 0 }
        ensures kept { (⟦<CIndex as Tables<CertRows>>⟧.others result).kept ≡ [] }
        ensures ahead { (⟦<CIndex as Tables<CertRows>>⟧.others result).ahead ≡ [] }
    {
        CIndex::with_secret(alloc, Secret::known())
    }

    /// The same index, in which what is counted for a key is found by this secret.
    pub fn with_secret(alloc: Global, secret: Secret) -> CIndex
        ensures at { ⟦<CIndex as Tables<CertRows>>⟧.at result [] }
        ensures count { ⟦<CIndex as Tables<CertRows>>⟧.count result ≡ 0 }
        ensures kept { (⟦<CIndex as Tables<CertRows>>⟧.others result).kept ≡ [] }
        ensures ahead { (⟦<CIndex as Tables<CertRows>>⟧.others result).ahead ≡ [] }
    {
        CIndex {
            tables: Three::new(
                Leaf::new(alloc),
                no_received(alloc, secret),
                Found::over(ByHash::new(alloc, secret), NoSummary, alloc),
            ),
        }
    }

    /// The row of the pair, or `None` where the issuer never certified the receiver.
    pub fn row(&self, from: Key, to: Key) -> Option<CertRow>
        ensures { (s : List Rows) → ⟦<CIndex as Tables<CertRows>>⟧.at self.now s → result ≡ map.get (newest map.empty s) (from, to) }
    {
        self.tables.first.get(Place {
            owner: from,
            other: Some(to),
        })
    }

    /// What the key has issued, or `None` where it never certified.
    pub fn issuer(&self, from: Key) -> Option<IssuerRow>
        ensures { (s : List Rows) → ⟦<CIndex as Tables<CertRows>>⟧.at self.now s → result ≡ issuer_in (newest map.empty s) from }
    {
        self.tables.third.get(from)
    }

    /// How many live certifications the key has received.
    pub fn received(&self, to: Key) -> u64
        ensures { (s : List Rows) → ⟦<CIndex as Tables<CertRows>>⟧.at self.now s → result ≡ received_in (newest map.empty s) to }
    {
        self.tables.second.tables.second.get(to).unwrap_or(0)
    }

    /// The least issuer above `after`, or the least of all where that is `None`, of whom the key has a live certification.
    /// `None` where there is none.
    pub fn next_received(&self, to: Key, after: Option<Key>) -> Option<Key>
        ensures { (s : List Rows) → ⟦<CIndex as Tables<CertRows>>⟧.at self.now s → IsNextIssuer (live_pairs (newest map.empty s)) to after result }
    {
        let (issuer, _) = next_of(&self.tables.second.tables.first, &to, &after)?;
        Some(issuer)
    }
}

impl Tables<CertRows> for CIndex {
    ghost Now = { ⟦<CertTables as Tables<CertRows>>⟧.Now };

    ghost Names = { ⟦<CertTables as Tables<CertRows>>⟧.Names };

    ghost now = { λ t. ⟦<CertTables as Tables<CertRows>>⟧.now t.tables };

    ghost count = { λ t. ⟦<CertTables as Tables<CertRows>>⟧.count t.tables };

    ghost others = { λ t. ⟦<CertTables as Tables<CertRows>>⟧.others t.tables };

    ghost spare = { λ t. ⟦<CertTables as Tables<CertRows>>⟧.spare t.tables };

    ghost names = { λ t. ⟦<CertTables as Tables<CertRows>>⟧.names t.tables };

    ghost is = { ⟦<CertTables as Tables<CertRows>>⟧.is };

    ghost at = { λ t c. ⟦<CertTables as Tables<CertRows>>⟧.at t.tables c };

    fn depth(&self) -> usize {
        self.tables.depth()
    }

    fn mark(&mut self) -> Result<(), NoMemory> {
        self.tables.mark()?;
        Ok(())
    }

    fn unmark(&mut self) {
        self.tables.unmark();
    }

    fn reserve(&mut self, k: usize) -> Result<(), NoMemory> {
        self.tables.reserve(k)?;
        Ok(())
    }

    fn hold<L: StepBook>(&mut self, steps: &mut Steps<L>) {
        self.tables.hold(steps);
    }

    fn back<L: StepBook>(&mut self, steps: &mut Steps<L>) {
        self.tables.back(steps);
    }

    fn again<L: StepBook>(&mut self, steps: &mut Steps<L>) {
        self.tables.again(steps);
    }

    fn drop_oldest(&mut self) {
        self.tables.drop_oldest();
    }

    fn drop_ahead(&mut self) {
        self.tables.drop_ahead();
    }

    ghost is_at = { λ t c is. is };

    ghost at_is = { λ t c is. is };
}
