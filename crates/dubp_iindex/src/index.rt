ghost use Rattle.std.specs.Prelude.{◌≡◌, ◌+◌, ◌≤◌, List, [], ◌∷◌, ◌++◌, length, Some, IsOk, OnOk, OnErr};
ghost use Rattle.std.specs.FinMap as map;
ghost use Rattle.dubp_atoms.specs.Same.{Text};
ghost use Rattle.dubp_iindex.specs.Order.{IsNextMember, IsNextKey};
ghost use Rattle.dubp_iindex.specs.Rows as rows;
ghost use Rattle.dubp_iindex.specs.Rows.{Rows, newest_rows, texts, one, key_with, FitsRows};
ghost use Rattle.dubp_iindex.specs.Writing.{sets, writes_of, CanSet, IsReady, IsWritten};

use crate::row::{IdentityRow, IdentityRows};
use crate::tables::AllTables;
use crate::writing::{Writes, ready_for, ready_found, set_for, set_found, writes_for};
use dubp_atoms::{Key, NoMemory, Secret, Steps, Uid};
use dubp_finders::ByHash;
use dubp_undo::{Both, Found, Leaf, NoSummary, Tables, Three};
use std::alloc::Global;
use std::ops::Bound;
use std::sync::ledger::Ledger as StepBook;

/// The identities of a chain: the row of each key, found by key and by uid, and the members in the order of their keys.
#[derive(Drop)]
pub struct IIndex {
    tables: AllTables,
}

impl Tables<IdentityRows> for IIndex {
    ghost Now = { ⟦<AllTables as Tables<IdentityRows>>⟧.Now };

    ghost Names = { ⟦<AllTables as Tables<IdentityRows>>⟧.Names };

    ghost now = { λ t. ⟦<AllTables as Tables<IdentityRows>>⟧.now t.tables };

    ghost count = { λ t. ⟦<AllTables as Tables<IdentityRows>>⟧.count t.tables };

    ghost others = { λ t. ⟦<AllTables as Tables<IdentityRows>>⟧.others t.tables };

    ghost spare = { λ t. ⟦<AllTables as Tables<IdentityRows>>⟧.spare t.tables };

    ghost names = { λ t. ⟦<AllTables as Tables<IdentityRows>>⟧.names t.tables };

    ghost is = { ⟦<AllTables as Tables<IdentityRows>>⟧.is };

    ghost at = { λ t c. ⟦<AllTables as Tables<IdentityRows>>⟧.at t.tables c };

    fn depth(&self) -> usize {
        self.tables.depth()
    }

    fn mark(&mut self) -> Result<(), NoMemory> {
        self.tables.mark()?;
        Ok(())
    }

    fn unmark(&mut self) {
        self.tables.unmark();
    }

    fn reserve(&mut self, k: usize) -> Result<(), NoMemory> {
        self.tables.reserve(k)?;
        Ok(())
    }

    fn hold<L: StepBook>(&mut self, steps: &mut Steps<L>) {
        self.tables.hold(steps);
    }

    fn back<L: StepBook>(&mut self, steps: &mut Steps<L>) {
        self.tables.back(steps);
    }

    fn again<L: StepBook>(&mut self, steps: &mut Steps<L>) {
        self.tables.again(steps);
    }

    fn drop_oldest(&mut self) {
        self.tables.drop_oldest();
    }

    fn drop_ahead(&mut self) {
        self.tables.drop_ahead();
    }

    ghost is_at = { λ t c is. is };

    ghost at_is = { λ t c is. is };
}

impl IIndex {
    /// The index without identities, which keeps no earlier state, hashed by the secret that everybody knows. It takes no memory.
    pub fn new(alloc: Global) -> IIndex
        ensures at { ⟦<IIndex as Tables<IdentityRows>>⟧.at result [] }
        ensures count { ⟦<IIndex as Tables<IdentityRows>>⟧.count result ≡ 0 }
        ensures kept { (⟦<IIndex as Tables<IdentityRows>>⟧.others result).kept ≡ [] }
        ensures ahead { (⟦<IIndex as Tables<IdentityRows>>⟧.others result).ahead ≡ [] }
    {
        IIndex::with_secret(alloc, Secret::known())
    }

    /// The same index, whose uids are hashed by this secret.
    pub fn with_secret(alloc: Global, secret: Secret) -> IIndex
        ensures at { ⟦<IIndex as Tables<IdentityRows>>⟧.at result [] }
        ensures count { ⟦<IIndex as Tables<IdentityRows>>⟧.count result ≡ 0 }
        ensures kept { (⟦<IIndex as Tables<IdentityRows>>⟧.others result).kept ≡ [] }
        ensures ahead { (⟦<IIndex as Tables<IdentityRows>>⟧.others result).ahead ≡ [] }
    {
        let rows = Leaf::new(alloc);
        let uids = Found::over(ByHash::new(alloc, secret), NoSummary, alloc);
        let members = Leaf::new(alloc);
        let counts = Leaf::new(alloc);
        let derived = Three::new(uids, members, counts);
        let tables = Both::new(rows, derived);
        IIndex { tables }
    }

    /// The row of the key, or `None` where it has no identity.
    pub fn row(&self, key: Key) -> Option<IdentityRow>
        ensures { (s : List Rows) → ⟦<IIndex as Tables<IdentityRows>>⟧.at self.now s → result ≡ map.get (newest_rows s) key }
    {
        self.tables.first.get(key)
    }

    /// The key of the identity with this uid, or `None` where there is none.
    pub fn key_of(&self, uid: Uid) -> Option<Key>
        ensures { (s : List Rows) → ⟦<IIndex as Tables<IdentityRows>>⟧.at self.now s → result ≡ key_with uid (newest_rows s) }
    {
        self.tables.second.first.get(uid)
    }

    /// The least member above `after`, or the least of all where `after` is `None`. `None` exactly where there is none.
    pub fn next_member(&self, after: Option<Key>) -> Option<Key>
        ensures { (s : List Rows) → ⟦<IIndex as Tables<IdentityRows>>⟧.at self.now s → IsNextMember (newest_rows s) after result }
    {
        match self.tables.second.second.next_after(after) {
            Some(entry) => Some(entry.0),
            None => None,
        }
    }

    /// Appends the members in the order of their texts. It looks at these alone.
    ///
    /// `NoMemory` where there is none for the list; it begins with what stood in it then.
    pub fn put_members(&self, members: &mut Vec<Key>) -> Result<(), NoMemory>
        ensures put { OnOk result ((s : List Rows) → ⟦<IIndex as Tables<IdentityRows>>⟧.at self.now s → members.new.items ≡ members.old.items ++ rows.members (newest_rows s)) }

        ensures refused { OnErr result ((some : List Text) × (members.new.items ≡ members.old.items ++ some)) }
    {
        let mut walk = self.tables.second.second.walk_from(Bound::Unbounded);
        while let Some((key, ())) = walk.next() {
            put(members, key)?;
        }
        Ok(())
    }

    /// The least key above `after` that has an identity, or the least of all where `after` is `None`. `None` exactly where there is none.
    pub fn next_key(&self, after: Option<Key>) -> Option<Key>
        ensures { (s : List Rows) → ⟦<IIndex as Tables<IdentityRows>>⟧.at self.now s → IsNextKey (newest_rows s) after result }
    {
        match self.tables.first.next_after(after) {
            Some(entry) => Some(entry.0),
            None => None,
        }
    }

    /// How many identities there are.
    pub fn identities(&self) -> u64
        ensures { (s : List Rows) → ⟦<IIndex as Tables<IdentityRows>>⟧.at self.now s → result ≡ map.len (newest_rows s) }
    {
        match self.tables.second.third.get(()) {
            Some(counts) => counts.identities,
            None => 0,
        }
    }

    /// How many members there are.
    pub fn members(&self) -> u64
        ensures { (s : List Rows) → ⟦<IIndex as Tables<IdentityRows>>⟧.at self.now s → result ≡ length (rows.members (newest_rows s)) }
    {
        match self.tables.second.third.get(()) {
            Some(counts) => counts.members,
            None => 0,
        }
    }

    /// Puts the row at the key: of a new identity, or in place of the row that it had. What is kept stays so.
    ///
    /// A new row is 3 steps, or 4 where it is a member's. Over a row that stands it is one step, or 3 where the member comes or goes.
    /// `NoMemory` leaves all as it was; it comes where memory ends, or where a number of identities would be no u64.
    pub fn put_row<L: StepBook>(
        &mut self,
        key: Key,
        row: IdentityRow,
        steps: &mut Steps<L>,
    ) -> Result<(), NoMemory>
        ensures at { OnOk result ((s t : List Rows) → ⟦<IIndex as Tables<IdentityRows>>⟧.at self.old s → FitsRows (newest_rows s) key row → ⟦<IIndex as Tables<IdentityRows>>⟧.at self.new (map.insert (newest_rows s) key row ∷ t)) }
        ensures others { ⟦<IIndex as Tables<IdentityRows>>⟧.others self.new ≡ ⟦<IIndex as Tables<IdentityRows>>⟧.others self.old }
        ensures count { ⟦<IIndex as Tables<IdentityRows>>⟧.count self.new + steps.old ≤ ⟦<IIndex as Tables<IdentityRows>>⟧.count self.old + steps.new }
        ensures steps { OnOk result (steps.new ≤ steps.old + 4) }
        ensures exact_steps { OnOk result ((s : List Rows) → ⟦<IIndex as Tables<IdentityRows>>⟧.at self.old s → steps.new ≡ steps.old + writes_of (map.get (newest_rows s) key) row) }

        ensures refused { OnErr result (⟦<IIndex as Tables<IdentityRows>>⟧.now self.new ≡ ⟦<IIndex as Tables<IdentityRows>>⟧.now self.old) }
        ensures no_step { OnErr result (steps.new ≡ steps.old) }
    {
        let old = self.tables.first.get(key);
        let counts = self.tables.second.third.get(());
        let writes = writes_for(&old, &counts, key, &row)?;
        self.make_ready(key, &row, &writes)?;
        self.set_all(key, &row, writes, steps)?;
        Ok(())
    }

    /// Makes all that is set for the row ready. The tables stay.
    fn make_ready(&mut self, key: Key, row: &IdentityRow, writes: &Writes) -> Result<(), NoMemory>
        ensures now { ⟦<IIndex as Tables<IdentityRows>>⟧.now self.new ≡ ⟦<IIndex as Tables<IdentityRows>>⟧.now self.old }
        ensures count { ⟦<IIndex as Tables<IdentityRows>>⟧.count self.new ≡ ⟦<IIndex as Tables<IdentityRows>>⟧.count self.old }
        ensures others { ⟦<IIndex as Tables<IdentityRows>>⟧.others self.new ≡ ⟦<IIndex as Tables<IdentityRows>>⟧.others self.old }
        ensures rows_ready { OnOk result (CanSet texts key self.new.tables.first.table) }
        ensures uids_ready { OnOk result (IsReady texts row.now.uid writes.now.uid self.new.tables.second.first.table) }
        ensures members_ready { OnOk result (IsReady texts key writes.now.member self.new.tables.second.second.table) }
        ensures counts_ready { OnOk result (IsReady one tt writes.now.counts self.new.tables.second.third.table) }
    {
        let derived = &mut self.tables.second;
        self.tables.first.ready(key, 1)?;
        ready_found(&mut derived.first, row.uid, &writes.uid)?;
        ready_for(&mut derived.second, key, &writes.member)?;
        ready_for(&mut derived.third, (), &writes.counts)?;
        Ok(())
    }

    /// Sets the row, and all that is set for it. `NoMemory` comes only where one of these is not ready.
    fn set_all<L: StepBook>(
        &mut self,
        key: Key,
        row: &IdentityRow,
        writes: Writes,
        steps: &mut Steps<L>,
    ) -> Result<(), NoMemory>
        ensures rows { OnOk result (IsWritten texts key (Some (Some row.now)) self.old.tables.first.table.now self.new.tables.first.table.now) }
        ensures uids { OnOk result (IsWritten texts row.now.uid writes.uid self.old.tables.second.first.table.now self.new.tables.second.first.table.now) }
        ensures members { OnOk result (IsWritten texts key writes.member self.old.tables.second.second.table.now self.new.tables.second.second.table.now) }
        ensures counts { OnOk result (IsWritten one tt writes.counts self.old.tables.second.third.table.now self.new.tables.second.third.table.now) }
        ensures others { ⟦<IIndex as Tables<IdentityRows>>⟧.others self.new ≡ ⟦<IIndex as Tables<IdentityRows>>⟧.others self.old }
        ensures count { ⟦<IIndex as Tables<IdentityRows>>⟧.count self.new + steps.old ≤ ⟦<IIndex as Tables<IdentityRows>>⟧.count self.old + steps.new }
        ensures step { OnOk result (steps.new ≡ steps.old + (1 + (sets writes.uid + (sets writes.member + sets writes.counts)))) }
        ensures succeeds { CanSet texts key self.old.tables.first.table → IsReady texts row.now.uid writes.uid self.old.tables.second.first.table → IsReady texts key writes.member self.old.tables.second.second.table → IsReady one tt writes.counts self.old.tables.second.third.table → IsOk result }
    {
        let derived = &mut self.tables.second;
        set_for(&mut self.tables.first, key, Some(Some(*row)), steps)?;
        set_found(&mut derived.first, row.uid, writes.uid, steps)?;
        set_for(&mut derived.second, key, writes.member, steps)?;
        set_for(&mut derived.third, (), writes.counts, steps)?;
        Ok(())
    }
}

// Appends the key.
fn put(keys: &mut Vec<Key>, key: Key) -> Result<(), NoMemory>
    ensures put { OnOk result (keys.new.items ≡ keys.old.items ++ key ∷ []) }
    ensures refused { OnErr result (keys.new.items ≡ keys.old.items) }
{
    keys.push(key).map_err(|_| NoMemory)
}
