ghost use Rattle.std.specs.Prelude.{◌≡◌, ◌<◌, ◌^◌, ◌++◌, ◌∷◌, [], slice_get, option_map, OnOk, IfOk, IfSome, IfNone};
ghost use Rattle.dubp_sindex.specs.Origins.{source_in};
ghost use Rattle.dubp_sindex.specs.Rows.{AreRows, IsLeastBalance, row_at, of_account, units_in};
ghost use Rattle.dubp_sindex.specs.States.{States, rows_of};

use crate::SIndex;
use crate::origins::Origins;
use crate::rows::{Balance, LinkedRow, SourceRow, SourceRows};
use dubp_atoms::NoMemory;
use dubp_cond::SourceId;
use dubp_undo::Tables;
use std::alloc::Global;

impl SIndex {
    /// The row of the source, or `None` where it is not unspent. It takes no memory.
    pub fn unspent(&self, id: SourceId) -> Option<SourceRow>
        ensures { (s : States) → ⟦<SIndex as Tables<SourceRows>>⟧.at self.now s → result ≡ row_at id (rows_of s) }
    {
        let name = self.origins.find(&id)?;
        let place = self.tables.first.get(name)?;
        let linked = self.tables.second.get(place)?;
        Some(linked.row)
    }

    /// The units of the account: 0 where it has no unspent source. It takes no memory.
    pub fn balance(&self, account: usize) -> u128
        ensures { (s : States) → ⟦<SIndex as Tables<SourceRows>>⟧.at self.now s → result ≡ units_in account (rows_of s) }
    {
        match self.tables.third.get(account) {
            Some(balance) => balance.units,
            None => 0,
        }
    }

    /// The least balance among accounts with an unspent source, and its account: the least number of those that have it.
    /// `None` where no source is unspent. It takes no memory, and one look.
    pub fn lowest(&self) -> Option<(u128, usize)>
        ensures found { (s : States) → ⟦<SIndex as Tables<SourceRows>>⟧.at self.now s → IfSome result (IsLeastBalance (rows_of s)) }
        ensures none { (s : States) → ⟦<SIndex as Tables<SourceRows>>⟧.at self.now s → IfNone result (rows_of s ≡ []) }
    {
        match self.tables.third.lowest() {
            Some((account, balance)) => Some(units_of(account, balance)),
            None => None,
        }
    }

    /// The first unspent source of the account in the order of making, or `None` where it has none. It takes no memory, and two looks.
    pub fn first_source(&self, account: usize) -> Option<(SourceId, SourceRow)>
        ensures { (s : States) → ⟦<SIndex as Tables<SourceRows>>⟧.at self.now s → AreRows (rows_of s) → result ≡ slice_get (of_account account (rows_of s)) 0 }
    {
        let balance = self.tables.third.get(account)?;
        let linked = self.tables.second.get(balance.first)?;
        entry_of(&self.origins, &linked)
    }

    /// The unspent sources of the account, in the order of making.
    ///
    /// `NoMemory` where there is no memory for the answer.
    pub fn sources(
        &self,
        alloc: Global,
        account: usize,
    ) -> Result<Vec<(SourceId, SourceRow)>, NoMemory>
        ensures { (s : States) → ⟦<SIndex as Tables<SourceRows>>⟧.at self.now s → AreRows (rows_of s) → IfOk result (λ found. found.items ≡ of_account account (rows_of s)) }
    {
        let mut found = Vec::new(alloc);
        let Some(balance) = self.tables.third.get(account) else {
            return Ok(found);
        };
        let mut here = Some(balance.first);
        'walk: for _ in 0..balance.count {
            let Some(place) = here else {
                return Ok(found);
            };
            let Some(linked) = self.tables.second.get(place) else {
                return Ok(found);
            };
            let Some(entry) = entry_of(&self.origins, &linked) else {
                return Ok(found);
            };
            here = linked.after.place();
            put_entry(&mut found, entry)?;
        }
        Ok(found)
    }
}

// The source with its row, where its origin has a number.
fn entry_of(origins: &Origins, linked: &LinkedRow) -> Option<(SourceId, SourceRow)>
    ensures { result ≡ option_map (λ id. (id, linked.now.row)) (source_in origins.now linked.now.name) }
{
    let id = origins.source(linked.name)?;
    Some((id, linked.row))
}

// The units of the account, whose number has 64 bits.
fn units_of(account: usize, balance: Balance) -> (u128, usize)
    ensures value { result ≡ (balance.units, account) }
    ensures fits { account < 2 ^ 64 }
{
    (balance.units, account)
}

fn put_entry(
    found: &mut Vec<(SourceId, SourceRow)>,
    entry: (SourceId, SourceRow),
) -> Result<(), NoMemory>
    ensures { OnOk result (found.new.items ≡ found.old.items ++ entry ∷ []) }
{
    found.push(entry).map_err(|_| NoMemory)
}
