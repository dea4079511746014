ghost use Rattle.std.specs.Prelude.{◌≡◌, ◌+◌, ◌≤◌, List, [], OnOk, IsOk};
ghost use Rattle.dubp_cindex.specs.Changes.{Makes, IsReady, sets_of};
ghost use Rattle.dubp_cindex.specs.Orders.{text_cmp, place_cmp};
ghost use Rattle.dubp_cindex.specs.Rows.{Rows};

use crate::changing::{Change, make, make_found, ready_for, ready_found};
use crate::row::CertRows;
use crate::tables::{Counted, Received, ReceivedBy};
use crate::walking::Place;
use dubp_atoms::{Key, NoMemory, Secret, Steps};
use dubp_finders::ByHash;
use dubp_undo::{Both, Found, Leaf, NoSummary, Tables};
use std::alloc::Global;
use std::sync::ledger::Ledger as StepBook;

type ReceivedSide = Both<CertRows, Leaf<CertRows, Place, (), ReceivedBy>, Counted<u64, Received>>;

/// Who certifies each key, and how many do.
#[derive(Drop)]
pub struct ReceivedTables {
    pub tables: ReceivedSide,
}

impl Tables<CertRows> for ReceivedTables {
    ghost Now = { ⟦<ReceivedSide as Tables<CertRows>>⟧.Now };

    ghost Names = { ⟦<ReceivedSide as Tables<CertRows>>⟧.Names };

    ghost now = { λ t. ⟦<ReceivedSide as Tables<CertRows>>⟧.now t.tables };

    ghost count = { λ t. ⟦<ReceivedSide as Tables<CertRows>>⟧.count t.tables };

    ghost others = { λ t. ⟦<ReceivedSide as Tables<CertRows>>⟧.others t.tables };

    ghost spare = { λ t. ⟦<ReceivedSide as Tables<CertRows>>⟧.spare t.tables };

    ghost names = { λ t. ⟦<ReceivedSide as Tables<CertRows>>⟧.names t.tables };

    ghost is = { ⟦<ReceivedSide as Tables<CertRows>>⟧.is };

    ghost at = { λ t c. ⟦<ReceivedSide as Tables<CertRows>>⟧.at t.tables c };

    fn depth(&self) -> usize {
        self.tables.depth()
    }

    fn mark(&mut self) -> Result<(), NoMemory> {
        self.tables.mark()?;
        Ok(())
    }

    fn unmark(&mut self) {
        self.tables.unmark();
    }

    fn reserve(&mut self, k: usize) -> Result<(), NoMemory> {
        self.tables.reserve(k)?;
        Ok(())
    }

    fn hold<L: StepBook>(&mut self, steps: &mut Steps<L>) {
        self.tables.hold(steps);
    }

    fn back<L: StepBook>(&mut self, steps: &mut Steps<L>) {
        self.tables.back(steps);
    }

    fn again<L: StepBook>(&mut self, steps: &mut Steps<L>) {
        self.tables.again(steps);
    }

    fn drop_oldest(&mut self) {
        self.tables.drop_oldest();
    }

    fn drop_ahead(&mut self) {
        self.tables.drop_ahead();
    }

    ghost is_at = { λ t c is. is };

    ghost at_is = { λ t c is. is };
}

/// Nothing is received. The secret is what the receivers are hashed by.
pub fn no_received(alloc: Global, secret: Secret) -> ReceivedTables
    ensures at { ⟦<ReceivedTables as Tables<CertRows>>⟧.at result [] }
    ensures count { ⟦<ReceivedTables as Tables<CertRows>>⟧.count result ≡ 0 }
    ensures kept { (⟦<ReceivedTables as Tables<CertRows>>⟧.others result).kept ≡ [] }
    ensures ahead { (⟦<ReceivedTables as Tables<CertRows>>⟧.others result).ahead ≡ [] }
{
    let pairs = Leaf::new(alloc);
    let counted = Found::over(ByHash::new(alloc, secret), NoSummary, alloc);
    let tables = Both::new(pairs, counted);
    ReceivedTables { tables }
}

/// Makes both keys ready where their values change.
pub fn ready_side(
    side: &mut ReceivedTables,
    place: &Place,
    pair: &Change<()>,
    key: &Key,
    value: &Change<u64>,
) -> Result<(), NoMemory>
    ensures now { ⟦<ReceivedTables as Tables<CertRows>>⟧.now side.new ≡ ⟦<ReceivedTables as Tables<CertRows>>⟧.now side.old }
    ensures count { ⟦<ReceivedTables as Tables<CertRows>>⟧.count side.new ≡ ⟦<ReceivedTables as Tables<CertRows>>⟧.count side.old }
    ensures others { ⟦<ReceivedTables as Tables<CertRows>>⟧.others side.new ≡ ⟦<ReceivedTables as Tables<CertRows>>⟧.others side.old }
    ensures ready_first { OnOk result (IsReady place_cmp side.new.tables.first.table place.now pair.now) }
    ensures ready_second { OnOk result (IsReady text_cmp side.new.tables.second.table key.now value.now) }
{
    ready_for(&mut side.tables.first, *place, pair)?;
    ready_found(&mut side.tables.second, *key, value)?;
    Ok(())
}

/// Sets both keys where their values change.
pub fn make_side<L: StepBook>(
    side: &mut ReceivedTables,
    place: &Place,
    pair: &Change<()>,
    key: &Key,
    value: &Change<u64>,
    steps: &mut Steps<L>,
) -> Result<(), NoMemory>
    ensures first { OnOk result (Makes place_cmp side.old.tables.first.table.now side.new.tables.first.table.now place.now pair.now) }
    ensures second { OnOk result (Makes text_cmp side.old.tables.second.table.now side.new.tables.second.table.now key.now value.now) }
    ensures others { ⟦<ReceivedTables as Tables<CertRows>>⟧.others side.new ≡ ⟦<ReceivedTables as Tables<CertRows>>⟧.others side.old }
    ensures count { ⟦<ReceivedTables as Tables<CertRows>>⟧.count side.new + steps.old ≤ ⟦<ReceivedTables as Tables<CertRows>>⟧.count side.old + steps.new }
    ensures steps { OnOk result (steps.new ≡ steps.old + (sets_of pair.now + sets_of value.now)) }

    ensures succeeds { IsReady place_cmp side.old.tables.first.table place.now pair.now → IsReady text_cmp side.old.tables.second.table key.now value.now → IsOk result }
{
    make(&mut side.tables.first, *place, pair, steps)?;
    make_found(&mut side.tables.second, *key, value, steps)?;
    Ok(())
}
