ghost use Rattle.std.specs.Prelude.{◌≡◌, ◌+◌, ◌≤◌, ◌++◌, ◌∷◌, [], OnOk, OnErr};
ghost use Rattle.dubp_sindex.specs.Accounts.{accounts};
ghost use Rattle.dubp_sindex.specs.Rows.{AreRows, IsNewRow, IsFreeRow, with_row, without};
ghost use Rattle.dubp_sindex.specs.States.{States, rows_of};

use crate::SIndex;
use crate::change::{Change, join, part, put, units_of};
use crate::link::Link;
use crate::neighbours::{last_of, neighbours};
use crate::rows::{LinkedRow, SourceRow, SourceRows};
use dubp_atoms::{NoMemory, Steps};
use dubp_cond::SourceId;
use dubp_undo::Tables;
use std::sync::ledger::Ledger as StepBook;

impl SIndex {
    /// The source is unspent, with this row, whose place in the order of making no other has; the units of all unspent sources,
    /// with its own, are below 2^128. At most five sets.
    ///
    /// `NoMemory` where there is no memory for its origin or for its keys; then all is as it was, but that its origin may have a number.
    pub fn make<L: StepBook>(
        &mut self,
        id: SourceId,
        row: SourceRow,
        steps: &mut Steps<L>,
    ) -> Result<(), NoMemory>
        ensures at { OnOk result ((s t : States) → ⟦<SIndex as Tables<SourceRows>>⟧.at self.old s → AreRows (rows_of s) → IsNewRow (rows_of s) (id, row) → ⟦<SIndex as Tables<SourceRows>>⟧.at self.new ((rows_of s ++ (id, row) ∷ []) ∷ t)) }
        ensures between { OnOk result ((s t : States) → ⟦<SIndex as Tables<SourceRows>>⟧.at self.old s → AreRows (rows_of s) → IsFreeRow (rows_of s) (id, row) → ⟦<SIndex as Tables<SourceRows>>⟧.at self.new (with_row (id, row) (rows_of s) ∷ t)) }
        ensures others { ⟦<SIndex as Tables<SourceRows>>⟧.others self.new ≡ ⟦<SIndex as Tables<SourceRows>>⟧.others self.old }
        ensures count { ⟦<SIndex as Tables<SourceRows>>⟧.count self.new + steps.old ≤ ⟦<SIndex as Tables<SourceRows>>⟧.count self.old + steps.new }
        ensures steps { OnOk result (steps.new ≤ steps.old + 5) }
        ensures accounts { accounts self.new ≡ accounts self.old }
        ensures stays { (n : ⟦<SIndex as Tables<SourceRows>>⟧.Now) (s : States) → ⟦<SIndex as Tables<SourceRows>>⟧.is (⟦<SIndex as Tables<SourceRows>>⟧.names self.old) n s → ⟦<SIndex as Tables<SourceRows>>⟧.is (⟦<SIndex as Tables<SourceRows>>⟧.names self.new) n s }

        ensures refused { OnErr result (⟦<SIndex as Tables<SourceRows>>⟧.now self.new ≡ ⟦<SIndex as Tables<SourceRows>>⟧.now self.old) }
        ensures no_step { OnErr result (steps.new ≡ steps.old) }
    {
        self.make_at(&id, row, steps)
    }

    // a key that holds a text is copied behind a reference alone
    fn make_at<L: StepBook>(
        &mut self,
        id: &SourceId,
        row: SourceRow,
        steps: &mut Steps<L>,
    ) -> Result<(), NoMemory>
        ensures at { OnOk result ((s t : States) → ⟦<SIndex as Tables<SourceRows>>⟧.at self.old s → AreRows (rows_of s) → IsNewRow (rows_of s) (id.now, row) → ⟦<SIndex as Tables<SourceRows>>⟧.at self.new ((rows_of s ++ (id.now, row) ∷ []) ∷ t)) }
        ensures between { OnOk result ((s t : States) → ⟦<SIndex as Tables<SourceRows>>⟧.at self.old s → AreRows (rows_of s) → IsFreeRow (rows_of s) (id.now, row) → ⟦<SIndex as Tables<SourceRows>>⟧.at self.new (with_row (id.now, row) (rows_of s) ∷ t)) }
        ensures others { ⟦<SIndex as Tables<SourceRows>>⟧.others self.new ≡ ⟦<SIndex as Tables<SourceRows>>⟧.others self.old }
        ensures count { ⟦<SIndex as Tables<SourceRows>>⟧.count self.new + steps.old ≤ ⟦<SIndex as Tables<SourceRows>>⟧.count self.old + steps.new }
        ensures steps { OnOk result (steps.new ≤ steps.old + 5) }
        ensures accounts { accounts self.new ≡ accounts self.old }
        ensures stays { (n : ⟦<SIndex as Tables<SourceRows>>⟧.Now) (s : States) → ⟦<SIndex as Tables<SourceRows>>⟧.is (⟦<SIndex as Tables<SourceRows>>⟧.names self.old) n s → ⟦<SIndex as Tables<SourceRows>>⟧.is (⟦<SIndex as Tables<SourceRows>>⟧.names self.new) n s }

        ensures refused { OnErr result (⟦<SIndex as Tables<SourceRows>>⟧.now self.new ≡ ⟦<SIndex as Tables<SourceRows>>⟧.now self.old) }
        ensures no_step { OnErr result (steps.new ≡ steps.old) }
    {
        let name = self.origins.add(id)?;
        let place = row.order as usize;
        let balance = self.tables.third.get(row.account);
        let (before, after) = neighbours(&self.tables.second, last_of(balance), place);
        let here = Link::to(place);
        let change = Change {
            place,
            own: Some(LinkedRow {
                name,
                row,
                before,
                after,
            }),
            before,
            after,
            behind: here,
            ahead: here,
            account: row.account,
            balance: Some(join(balance, row.account, units_of(row), place, before, after)),
        };
        put(&mut self.tables, name, &change, steps)?;
        Ok(())
    }

    /// The source is no longer unspent. At most five sets, and none where it was not unspent.
    ///
    /// `NoMemory` where there is no memory for its keys; then all is as it was.
    pub fn spend<L: StepBook>(&mut self, id: SourceId, steps: &mut Steps<L>) -> Result<(), NoMemory>
        ensures at { OnOk result ((s t : States) → ⟦<SIndex as Tables<SourceRows>>⟧.at self.old s → AreRows (rows_of s) → ⟦<SIndex as Tables<SourceRows>>⟧.at self.new (without id (rows_of s) ∷ t)) }
        ensures others { ⟦<SIndex as Tables<SourceRows>>⟧.others self.new ≡ ⟦<SIndex as Tables<SourceRows>>⟧.others self.old }
        ensures count { ⟦<SIndex as Tables<SourceRows>>⟧.count self.new + steps.old ≤ ⟦<SIndex as Tables<SourceRows>>⟧.count self.old + steps.new }
        ensures steps { OnOk result (steps.new ≤ steps.old + 5) }
        ensures accounts { accounts self.new ≡ accounts self.old }
        ensures stays { (n : ⟦<SIndex as Tables<SourceRows>>⟧.Now) (s : States) → ⟦<SIndex as Tables<SourceRows>>⟧.is (⟦<SIndex as Tables<SourceRows>>⟧.names self.old) n s → ⟦<SIndex as Tables<SourceRows>>⟧.is (⟦<SIndex as Tables<SourceRows>>⟧.names self.new) n s }

        ensures refused { OnErr result (⟦<SIndex as Tables<SourceRows>>⟧.now self.new ≡ ⟦<SIndex as Tables<SourceRows>>⟧.now self.old) }
        ensures no_step { OnErr result (steps.new ≡ steps.old) }
    {
        self.spend_at(&id, steps)
    }

    fn spend_at<L: StepBook>(&mut self, id: &SourceId, steps: &mut Steps<L>) -> Result<(), NoMemory>
        ensures at { OnOk result ((s t : States) → ⟦<SIndex as Tables<SourceRows>>⟧.at self.old s → AreRows (rows_of s) → ⟦<SIndex as Tables<SourceRows>>⟧.at self.new (without id.now (rows_of s) ∷ t)) }
        ensures others { ⟦<SIndex as Tables<SourceRows>>⟧.others self.new ≡ ⟦<SIndex as Tables<SourceRows>>⟧.others self.old }
        ensures count { ⟦<SIndex as Tables<SourceRows>>⟧.count self.new + steps.old ≤ ⟦<SIndex as Tables<SourceRows>>⟧.count self.old + steps.new }
        ensures steps { OnOk result (steps.new ≤ steps.old + 5) }
        ensures accounts { accounts self.new ≡ accounts self.old }
        ensures stays { (n : ⟦<SIndex as Tables<SourceRows>>⟧.Now) (s : States) → ⟦<SIndex as Tables<SourceRows>>⟧.is (⟦<SIndex as Tables<SourceRows>>⟧.names self.old) n s → ⟦<SIndex as Tables<SourceRows>>⟧.is (⟦<SIndex as Tables<SourceRows>>⟧.names self.new) n s }

        ensures refused { OnErr result (⟦<SIndex as Tables<SourceRows>>⟧.now self.new ≡ ⟦<SIndex as Tables<SourceRows>>⟧.now self.old) }
        ensures no_step { OnErr result (steps.new ≡ steps.old) }
    {
        let Some(name) = self.origins.find(id) else {
            return Ok(());
        };
        let Some(place) = self.tables.first.get(name) else {
            return Ok(());
        };
        let Some(linked) = self.tables.second.get(place) else {
            return Ok(());
        };
        let row = linked.row;
        let before = linked.before;
        let after = linked.after;
        let change = Change {
            place,
            own: None,
            before,
            after,
            behind: after,
            ahead: before,
            account: row.account,
            balance: part(
                self.tables.third.get(row.account),
                units_of(row),
                before,
                after,
            ),
        };
        put(&mut self.tables, name, &change, steps)?;
        Ok(())
    }
}
