ghost use Rattle.std.specs.Prelude.{◌≡◌, true, false, List, [], ◌∷◌, ◌++◌, None, Some, OnOk, OnErr, IfOk, map, filter};
ghost use Rattle.std.specs.FinMap as finite;
ghost use Rattle.dubp_atoms.specs.Same.{Text};
ghost use Rattle.dubp_undo.specs.MovingTable.{get};
ghost use Rattle.dubp_undo.specs.States.{newest};
ghost use Rattle.dubp_cindex.specs.Orders.{place_cmp, AreNextIssuers};
ghost use Rattle.dubp_cindex.specs.Rows.{Rows, live_pairs, live_to, live_from, issuers_to, told, rows_about};

use crate::index::CIndex;
use crate::row::{CertRow, CertRows};
use crate::walking::{Place, next_in};
use dubp_atoms::{Key, NoMemory};
use dubp_undo::Tables;
use std::alloc::Global;
use std::ops::Bound;

impl CIndex {
    /// The live certifications that the key has received, by issuer, and then those that it has issued, by receiver: the issuer,
    /// the receiver and the row of each. It looks at these, and passes over the rows of the key's own certifications that have ended.
    pub fn rows_of(&self, alloc: Global, key: Key) -> Result<Vec<(Key, Key, CertRow)>, NoMemory>
        ensures { (s : List Rows) → ⟦<CIndex as Tables<CertRows>>⟧.at self.now s → IfOk result (λ found. found.items ≡ rows_about (newest finite.empty s) key) }
    {
        let mut found = Vec::new(alloc);
        self.put_received(&mut found, &key)?;
        self.put_issued(&mut found, &key)?;
        Ok(found)
    }

    /// Appends the issuers of the live certifications that the key has received, in the order of their texts. It looks at these alone.
    ///
    /// `NoMemory` where there is none for the list; it begins with what stood in it then.
    pub fn put_issuers(&self, issuers: &mut Vec<Key>, to: &Key) -> Result<(), NoMemory>
        ensures put { OnOk result ((s : List Rows) → ⟦<CIndex as Tables<CertRows>>⟧.at self.now s → issuers.new.items ≡ issuers.old.items ++ issuers_to (newest finite.empty s) to.now) }
        ensures next { OnOk result ((s : List Rows) (keys : List Text) → ⟦<CIndex as Tables<CertRows>>⟧.at self.now s → issuers.new.items ≡ issuers.old.items ++ keys → AreNextIssuers (live_pairs (newest finite.empty s)) to.now None keys) }

        ensures refused { OnErr result ((some : List Text) × (issuers.new.items ≡ issuers.old.items ++ some)) }
    {
        let mut walk = self.tables.second.tables.first.walk_from(Bound::Excluded(Place {
            owner: *to,
            other: None,
        }));
        while let Some((from, ())) = next_in(&mut walk, to) {
            put(issuers, from)?;
        }
        Ok(())
    }

    // The live certifications that the key has received, behind those that were found.
    fn put_received(&self, found: &mut Vec<(Key, Key, CertRow)>, key: &Key) -> Result<(), NoMemory>
        ensures { OnOk result ((s : List Rows) → ⟦<CIndex as Tables<CertRows>>⟧.at self.now s → found.new.items ≡ found.old.items ++ map told (filter (live_to key.now) (finite.entries (newest finite.empty s)))) }
    {
        let mut walk = self.tables.second.tables.first.walk_from(Bound::Excluded(Place {
            owner: *key,
            other: None,
        }));
        while let Some((from, ())) = next_in(&mut walk, key) {
            self.put_told(found, &from, key)?;
        }
        Ok(())
    }

    // The live certifications that the key has issued, behind those that were found.
    fn put_issued(&self, found: &mut Vec<(Key, Key, CertRow)>, key: &Key) -> Result<(), NoMemory>
        ensures { OnOk result ((s : List Rows) → ⟦<CIndex as Tables<CertRows>>⟧.at self.now s → found.new.items ≡ found.old.items ++ map told (filter (live_from key.now) (finite.entries (newest finite.empty s)))) }
    {
        let mut walk = self.tables.first.walk_from(Bound::Excluded(Place {
            owner: *key,
            other: None,
        }));
        while let Some((to, row)) = next_in(&mut walk, key) {
            put_live(found, key, &to, row)?;
        }
        Ok(())
    }

    // The row of the pair, behind those that were found.
    fn put_told(
        &self,
        found: &mut Vec<(Key, Key, CertRow)>,
        from: &Key,
        to: &Key,
    ) -> Result<(), NoMemory>
        ensures { OnOk result ((row : CertRow) → get place_cmp self.now.tables.first.table.now (from.now, Some to.now) ≡ Some row → found.new.items ≡ found.old.items ++ (from.now, to.now, row) ∷ []) }
    {
        match self.tables.first.get(Place {
            owner: *from,
            other: Some(*to),
        }) {
            Some(row) => found.push((*from, *to, row)).map_err(|_| NoMemory),
            None => Ok(()),
        }
    }
}

// Appends the row of the pair, where it lives.
fn put_live(
    found: &mut Vec<(Key, Key, CertRow)>,
    from: &Key,
    to: &Key,
    row: CertRow,
) -> Result<(), NoMemory>
    ensures live { OnOk result (row.live ≡ true → found.new.items ≡ found.old.items ++ (from.now, to.now, row) ∷ []) }
    ensures ended { OnOk result (row.live ≡ false → found.new.items ≡ found.old.items) }
{
    if row.live {
        found.push((*from, *to, row)).map_err(|_| NoMemory)
    } else {
        Ok(())
    }
}

// Appends the key.
fn put(keys: &mut Vec<Key>, key: Key) -> Result<(), NoMemory>
    ensures put { OnOk result (keys.new.items ≡ keys.old.items ++ key ∷ []) }
    ensures refused { OnErr result (keys.new.items ≡ keys.old.items) }
{
    keys.push(key).map_err(|_| NoMemory)
}
