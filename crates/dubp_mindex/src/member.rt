ghost use Rattle.std.specs.Prelude.{◌≡◌, ℕ, ◌+◌, ◌≤◌, ◌∷◌, List, [], OnOk, OnErr};
ghost use Rattle.std.specs.FinMap.{insert};
ghost use Rattle.dubp_mindex.specs.Members.{Members, member_at, members};

use dubp_atoms::{Key, NoMemory, Secret, Steps};
use dubp_finders::ByHash;
use dubp_undo::{Definition, Found, NoSummary, Tables};
use std::alloc::Global;
use std::marker::Model;
use std::sync::ledger::Ledger as StepBook;

/// What the lines of a key have made of its membership.
#[derive(Clone, Copy, Debug, PartialEq, Eq)]
pub struct MemberRow {
    /// The number of the block whose stamp the last line of Joiners, Actives or Leavers names.
    pub last_number: u64,
    /// The time of the block whose stamp the last line of Joiners or Actives names, in seconds.
    pub made: u64,
    /// The number of the block that has the last line.
    pub written: u64,
    /// Whether the last line of Joiners, Actives or Leavers is one of Leavers.
    pub leaving: bool,
    /// Whether the membership is revoked, by a line or by time.
    pub revoked: bool,
}

/// The rows after a block: a state of the index. No value of it is made.
#[derive(Drop)]
pub struct MemberRows {
    nothing: (),
}

impl Model for MemberRows {
    ghost use Rattle.std.specs.Cmp.Lexicographic.{slice_cmp};
    ghost use Rattle.std.specs.Coded.{coded_list, coded_ℕ};
    ghost use Rattle.std.specs.FinMap.{code, empty};
    ghost use Rattle.dubp_mindex.specs.Members.{Members, row_code};

    ghost Value = { Members };

    ghost coded = { code (coded_list coded_ℕ) row_code };

    ghost view = { λ a. empty };
}

/// The row of each key.
pub struct Rows;

impl Definition<MemberRows, Key, MemberRow> for Rows {
    ghost at = { member_at };
}

/// The table of rows.
type RowTable = Found<MemberRows, Key, MemberRow, Rows, ByHash<Key, Secret>, NoSummary>;

/// The index of memberships: the row of each key.
#[derive(Drop)]
pub struct MIndex {
    tables: RowTable,
}

impl Tables<MemberRows> for MIndex {
    ghost Now = { ⟦<RowTable as Tables<MemberRows>>⟧.Now };

    ghost Names = { ⟦<RowTable as Tables<MemberRows>>⟧.Names };

    ghost now = { λ t. ⟦<RowTable as Tables<MemberRows>>⟧.now t.tables };

    ghost count = { λ t. ⟦<RowTable as Tables<MemberRows>>⟧.count t.tables };

    ghost others = { λ t. ⟦<RowTable as Tables<MemberRows>>⟧.others t.tables };

    ghost spare = { λ t. ⟦<RowTable as Tables<MemberRows>>⟧.spare t.tables };

    ghost names = { λ t. ⟦<RowTable as Tables<MemberRows>>⟧.names t.tables };

    ghost is = { ⟦<RowTable as Tables<MemberRows>>⟧.is };

    ghost at = { λ t c. ⟦<RowTable as Tables<MemberRows>>⟧.at t.tables c };

    fn depth(&self) -> usize {
        self.tables.depth()
    }

    fn mark(&mut self) -> Result<(), NoMemory> {
        self.tables.mark()?;
        Ok(())
    }

    fn unmark(&mut self) {
        self.tables.unmark();
    }

    fn reserve(&mut self, k: usize) -> Result<(), NoMemory> {
        self.tables.reserve(k)?;
        Ok(())
    }

    fn hold<L: StepBook>(&mut self, steps: &mut Steps<L>) {
        self.tables.hold(steps);
    }

    fn back<L: StepBook>(&mut self, steps: &mut Steps<L>) {
        self.tables.back(steps);
    }

    fn again<L: StepBook>(&mut self, steps: &mut Steps<L>) {
        self.tables.again(steps);
    }

    fn drop_oldest(&mut self) {
        self.tables.drop_oldest();
    }

    fn drop_ahead(&mut self) {
        self.tables.drop_ahead();
    }

    ghost use Rattle.std.specs.Ordering.{nat_cmp};

    ghost is_at = { λ t c is. is };

    ghost at_is = { λ t c is. is };
}

impl MIndex {
    /// The index in which no key has a row, hashed by the secret that everybody knows. It takes no memory.
    pub fn new(alloc: Global) -> MIndex
        ensures at { ⟦<MIndex as Tables<MemberRows>>⟧.at result [] }
        ensures count { ⟦<MIndex as Tables<MemberRows>>⟧.count result ≡ 0 }
        ensures kept { (⟦<MIndex as Tables<MemberRows>>⟧.others result).kept ≡ [] }
        ensures ahead { (⟦<MIndex as Tables<MemberRows>>⟧.others result).ahead ≡ [] }
    {
        MIndex::with_secret(alloc, Secret::known())
    }

    /// The same index, whose keys are hashed by this secret.
    pub fn with_secret(alloc: Global, secret: Secret) -> MIndex
        ensures at { ⟦<MIndex as Tables<MemberRows>>⟧.at result [] }
        ensures count { ⟦<MIndex as Tables<MemberRows>>⟧.count result ≡ 0 }
        ensures kept { (⟦<MIndex as Tables<MemberRows>>⟧.others result).kept ≡ [] }
        ensures ahead { (⟦<MIndex as Tables<MemberRows>>⟧.others result).ahead ≡ [] }
    {
        MIndex {
            tables: Found::over(ByHash::new(alloc, secret), NoSummary, alloc),
        }
    }

    /// The row of the key, or `None` where it has none. It takes no memory.
    pub fn row(&self, key: Key) -> Option<MemberRow>
        ensures { (s : List Members) → ⟦<MIndex as Tables<MemberRows>>⟧.at self.now s → result ≡ member_at s key }
    {
        self.tables.get(key)
    }

    /// Gives the key the row, in place of the one that it had. One set, and one step.
    ///
    /// `NoMemory` comes where there is no room for the key or for the row before; all is as it was then.
    pub fn put_row<L: StepBook>(
        &mut self,
        key: Key,
        row: MemberRow,
        steps: &mut Steps<L>,
    ) -> Result<(), NoMemory>
        ensures at { OnOk result ((s t : List Members) → ⟦<MIndex as Tables<MemberRows>>⟧.at self.old s → ⟦<MIndex as Tables<MemberRows>>⟧.at self.new (insert (members s) key row ∷ t)) }
        ensures others { ⟦<MIndex as Tables<MemberRows>>⟧.others self.new ≡ ⟦<MIndex as Tables<MemberRows>>⟧.others self.old }
        ensures count { ⟦<MIndex as Tables<MemberRows>>⟧.count self.new + steps.old ≤ ⟦<MIndex as Tables<MemberRows>>⟧.count self.old + steps.new }
        ensures step { OnOk result (steps.new ≡ steps.old + 1) }

        ensures refused { OnErr result (⟦<MIndex as Tables<MemberRows>>⟧.now self.new ≡ ⟦<MIndex as Tables<MemberRows>>⟧.now self.old) }
        ensures no_step { OnErr result (steps.new ≡ steps.old) }
    {
        self.tables.set(key, Some(row), steps)?;
        Ok(())
    }
}
