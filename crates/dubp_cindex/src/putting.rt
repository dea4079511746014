ghost use Rattle.std.specs.Prelude.{◌≡◌, ◌==◌, ◌+◌, ◌≤◌, ℕ, List, ◌∷◌, Some, false, nat_lt, if◌then◌else◌, OnOk, OnErr, IfOk, IsOk};
ghost use Rattle.std.specs.FinMap as map;
ghost use Rattle.std.specs.Option.{option_map_or};
ghost use Rattle.dubp_atoms.specs.Same.{same_text};
ghost use Rattle.dubp_undo.specs.MovingTable.{get, IsPlaced};
ghost use Rattle.dubp_undo.specs.States.{newest};
ghost use Rattle.dubp_cindex.specs.Changes.{IsReady, changed, counted, sets_in};
ghost use Rattle.dubp_cindex.specs.Orders.{Place, text_cmp, place_cmp};
ghost use Rattle.dubp_cindex.specs.declared.changing.Change.TheVariants.{Stays};
ghost use Rattle.dubp_cindex.specs.Putting.{AreChanges, IsGreatestBesides};
ghost use Rattle.dubp_cindex.specs.Rows.{Rows, row_at, lives, one_if, number_if, issuer_in, stock_in, written_in};

use crate::changing::{Change, make_found, ready_found};
use crate::index::CIndex;
use crate::row::{CertRow, CertRows, IssuerRow};
use crate::sides::{make_side, ready_side};
use crate::tables::Written;
use crate::walking::{Place, next_in};
use dubp_atoms::{Key, NoMemory, Steps};
use dubp_undo::{Leaf, Tables};
use std::ops::Bound;
use std::sync::ledger::Ledger as StepBook;

// What is to be written, and what becomes of the other tables.
#[derive(Drop)]
struct Changes {
    row: CertRow,
    pair: Change<()>,
    received: Change<u64>,
    issuer: Change<IssuerRow>,
}

fn is_live(row: &Option<CertRow>) -> bool
    ensures { result ≡ lives row.now }
{
    match row {
        Some(row) => row.live,
        None => false,
    }
}

// What becomes of the pair in the tables of live pairs.
fn pair_change(before: &Option<CertRow>, row: &CertRow) -> Change<()>
    ensures is { changed result (one_if (lives before.now)) ≡ one_if row.now.live }
    ensures stays { lives before.now ≡ row.now.live → result ≡ Stays }
{
    if is_live(before) == row.live {
        Change::Stays
    } else if row.live {
        Change::Becomes(Some(()))
    } else {
        Change::Becomes(None)
    }
}

// The count behind the pair's change.
fn count_after(count: u64, pair: &Change<()>) -> Result<u64, NoMemory>
    ensures { IfOk result (λ n. n ≡ counted pair.now count) }
{
    match pair {
        Change::Stays => Ok(count),
        Change::Becomes(None) => Ok(count.saturating_sub(1)),
        Change::Becomes(Some(())) => count.checked_add(1).ok_or(NoMemory),
    }
}

fn number(count: u64) -> Option<u64>
    ensures { result ≡ number_if count }
{
    if count == 0 { None } else { Some(count) }
}

// What becomes of the count of the receiver, where it is this one before.
fn received_change(count: u64, pair: &Change<()>) -> Result<Change<u64>, NoMemory>
    ensures is { IfOk result (λ change. changed change (number_if count) ≡ number_if (counted pair.now count)) }
    ensures stays { pair.now ≡ Stays → IfOk result (λ change. change ≡ Stays) }
{
    if let Change::Stays = pair {
        return Ok(Change::Stays);
    }
    let after = count_after(count, pair)?;
    Ok(Change::Becomes(number(after)))
}

fn stock_of(row: &Option<IssuerRow>) -> u64
    ensures { result ≡ option_map_or (λ r. r.stock) row.now 0 }
{
    match row {
        Some(row) => row.stock,
        None => 0,
    }
}

// What becomes of the row of the issuer, which is this one behind.
fn issuer_becomes(was: &Option<IssuerRow>, is: IssuerRow) -> Change<IssuerRow>
    ensures is { changed result was.now ≡ Some is }
    ensures stays { was.now ≡ Some is → result ≡ Stays }
{
    if let Some(was) = was {
        if was.stock == is.stock && was.written == is.written {
            return Change::Stays;
        }
    }
    Change::Becomes(Some(is))
}

// The greater of the two blocks, where the other key is not the one that is left out.
fn higher(best: u64, written: u64, other: &Key, to: &Key) -> u64
    ensures { result ≡ (if same_text other.now to.now then best else if nat_lt best written then written else best) }
{
    if other == to {
        best
    } else if best < written {
        written
    } else {
        best
    }
}

// Whether there is a row of this block.
fn is_of_block(row: &Option<CertRow>, written: u64) -> bool
    ensures { result ≡ option_map_or (λ r. r.written == written) row.now false }
{
    match row {
        Some(row) => row.written == written,
        None => false,
    }
}

// The greatest block of the issuer's rows to others, or `least` where that is greater.
fn greatest_besides(
    rows: &Leaf<CertRows, Place, CertRow, Written>,
    from: &Key,
    to: &Key,
    least: u64,
) -> u64
    ensures { IsGreatestBesides (λ y. get place_cmp rows.now.table.now (from.now, Some y)) to.now least result }
{
    let mut best = least;
    let mut walk = rows.walk_from(Bound::Excluded(Place {
        owner: *from,
        other: None,
    }));
    while let Some((other, row)) = next_in(&mut walk, from) {
        best = higher(best, row.written, &other, to);
    }
    best
}

// The block in which the issuer last wrote, behind the row.
fn written_after(
    rows: &Leaf<CertRows, Place, CertRow, Written>,
    from: &Key,
    to: &Key,
    row: &CertRow,
    before: &Option<CertRow>,
    was: &Option<IssuerRow>,
) -> u64
    ensures { (state : Rows) → ((k : Place) → get place_cmp rows.now.table.now k ≡ row_at state k.0 k.1) → before.now ≡ map.get state (from.now, to.now) → was.now ≡ issuer_in state from.now
        → result ≡ written_in (map.insert state (from.now, to.now) row.now) from.now }
{
    let Some(issuer) = was else {
        return row.written;
    };
    if issuer.written <= row.written {
        return row.written;
    }
    if is_of_block(before, issuer.written) {
        return greatest_besides(rows, from, to, row.written);
    }
    issuer.written
}

impl CIndex {
    /// Puts the row of the pair, and changes all that is counted in the rows.
    ///
    /// At most four keys are set: the row, and where the certification begins or ends the pair under its receiver and the count of
    /// the receiver, and what the key has issued where that changes. The block in which a key last wrote is told without a walk
    /// where the row's block is not below it, or where the row that is replaced was not of that block.
    ///
    /// `NoMemory` comes where memory ends, or where a count would pass 64 bits; all is as before then.
    pub fn put_row<L: StepBook>(
        &mut self,
        from: Key,
        to: Key,
        row: CertRow,
        steps: &mut Steps<L>,
    ) -> Result<(), NoMemory>
        ensures at { OnOk result ((s t : List Rows) → ⟦<CIndex as Tables<CertRows>>⟧.at self.old s → ⟦<CIndex as Tables<CertRows>>⟧.at self.new (map.insert (newest map.empty s) (from, to) row ∷ t)) }
        ensures others { ⟦<CIndex as Tables<CertRows>>⟧.others self.new ≡ ⟦<CIndex as Tables<CertRows>>⟧.others self.old }
        ensures count { ⟦<CIndex as Tables<CertRows>>⟧.count self.new + steps.old ≤ ⟦<CIndex as Tables<CertRows>>⟧.count self.old + steps.new }
        ensures steps { OnOk result (steps.new ≤ steps.old + 4) }
        ensures once { OnOk result ((s : List Rows) → ⟦<CIndex as Tables<CertRows>>⟧.at self.old s → lives (map.get (newest map.empty s) (from, to)) ≡ row.live
            → issuer_in (map.insert (newest map.empty s) (from, to) row) from ≡ issuer_in (newest map.empty s) from
            → steps.new ≡ steps.old + 1) }

        ensures refused { OnErr result (⟦<CIndex as Tables<CertRows>>⟧.now self.new ≡ ⟦<CIndex as Tables<CertRows>>⟧.now self.old) }
        ensures no_step { OnErr result (steps.new ≡ steps.old) }
    {
        let changes = self.changes(&from, &to, row)?;
        self.make_ready(&from, &to, &changes)?;
        self.make_all(&from, &to, &changes, steps)?;
        Ok(())
    }

    // What becomes of the row of the issuer.
    fn issuer_change(
        &self,
        from: &Key,
        to: &Key,
        row: &CertRow,
        before: &Option<CertRow>,
        pair: &Change<()>,
    ) -> Result<Change<IssuerRow>, NoMemory>
        ensures { IfOk result (λ change. (s : List Rows) → ⟦<CIndex as Tables<CertRows>>⟧.at self.now s → before.now ≡ map.get (newest map.empty s) (from.now, to.now)
            → counted pair.now (stock_in (newest map.empty s) from.now) ≡ stock_in (map.insert (newest map.empty s) (from.now, to.now) row.now) from.now
            → (changed change (issuer_in (newest map.empty s) from.now) ≡ issuer_in (map.insert (newest map.empty s) (from.now, to.now) row.now) from.now)
            × (issuer_in (map.insert (newest map.empty s) (from.now, to.now) row.now) from.now ≡ issuer_in (newest map.empty s) from.now → change ≡ Stays)) }
    {
        let was = self.issuer(*from);
        let stock = count_after(stock_of(&was), pair)?;
        let written = written_after(&self.tables.first, from, to, row, before, &was);
        Ok(issuer_becomes(&was, IssuerRow { stock, written }))
    }

    // What becomes of all tables where the row is put.
    fn changes(&self, from: &Key, to: &Key, row: CertRow) -> Result<Changes, NoMemory>
        ensures row { IfOk result (λ c. c.row ≡ row) }
        ensures are { IfOk result (λ c. (s : List Rows) → ⟦<CIndex as Tables<CertRows>>⟧.at self.now s → AreChanges (newest map.empty s) from.now to.now row c.pair c.received c.issuer) }
    {
        let before = self.row(*from, *to);
        let pair = pair_change(&before, &row);
        let received = received_change(self.received(*to), &pair)?;
        let issuer = self.issuer_change(from, to, &row, &before, &pair)?;
        Ok(Changes {
            row,
            pair,
            received,
            issuer,
        })
    }

    // Makes each key ready that is to be set.
    fn make_ready(&mut self, from: &Key, to: &Key, changes: &Changes) -> Result<(), NoMemory>
        ensures now { ⟦<CIndex as Tables<CertRows>>⟧.now self.new ≡ ⟦<CIndex as Tables<CertRows>>⟧.now self.old }
        ensures count { ⟦<CIndex as Tables<CertRows>>⟧.count self.new ≡ ⟦<CIndex as Tables<CertRows>>⟧.count self.old }
        ensures others { ⟦<CIndex as Tables<CertRows>>⟧.others self.new ≡ ⟦<CIndex as Tables<CertRows>>⟧.others self.old }
        ensures ready { OnOk result (IsPlaced place_cmp (from.now, Some to.now) self.new.tables.first.table.placed × (1 ≤ self.new.tables.first.table.room)) }
        ensures ready_received { OnOk result (IsReady place_cmp self.new.tables.second.tables.first.table (to.now, Some from.now) changes.now.pair × IsReady text_cmp self.new.tables.second.tables.second.table to.now changes.now.received) }
        ensures ready_issued { OnOk result (IsReady text_cmp self.new.tables.third.table from.now changes.now.issuer) }
    {
        self.tables.first.ready(
            Place {
                owner: *from,
                other: Some(*to),
            },
            1,
        )?;
        ready_side(
            &mut self.tables.second,
            &Place {
                owner: *to,
                other: Some(*from),
            },
            &changes.pair,
            to,
            &changes.received,
        )?;
        ready_found(&mut self.tables.third, *from, &changes.issuer)?;
        Ok(())
    }

    // Sets the row, and each key whose value changes.
    fn make_all<L: StepBook>(
        &mut self,
        from: &Key,
        to: &Key,
        changes: &Changes,
        steps: &mut Steps<L>,
    ) -> Result<(), NoMemory>
        ensures at { OnOk result ((s t : List Rows) → ⟦<CIndex as Tables<CertRows>>⟧.at self.old s → AreChanges (newest map.empty s) from.now to.now changes.now.row changes.now.pair changes.now.received changes.now.issuer
            → ⟦<CIndex as Tables<CertRows>>⟧.at self.new (map.insert (newest map.empty s) (from.now, to.now) changes.now.row ∷ t)) }
        ensures others { ⟦<CIndex as Tables<CertRows>>⟧.others self.new ≡ ⟦<CIndex as Tables<CertRows>>⟧.others self.old }
        ensures count { ⟦<CIndex as Tables<CertRows>>⟧.count self.new + steps.old ≤ ⟦<CIndex as Tables<CertRows>>⟧.count self.old + steps.new }
        ensures steps { OnOk result (steps.new ≡ steps.old + sets_in changes.now.pair changes.now.received changes.now.issuer) }

        ensures succeeds { IsPlaced place_cmp (from.now, Some to.now) self.old.tables.first.table.placed × (1 ≤ self.old.tables.first.table.room)
            → IsReady place_cmp self.old.tables.second.tables.first.table (to.now, Some from.now) changes.now.pair × IsReady text_cmp self.old.tables.second.tables.second.table to.now changes.now.received
            → IsReady text_cmp self.old.tables.third.table from.now changes.now.issuer
            → IsOk result }
    {
        let received_by = Place {
            owner: *to,
            other: Some(*from),
        };
        self.tables.first.set(
            Place {
                owner: *from,
                other: Some(*to),
            },
            Some(changes.row),
            steps,
        )?;
        make_side(
            &mut self.tables.second,
            &received_by,
            &changes.pair,
            to,
            &changes.received,
            steps,
        )?;
        make_found(&mut self.tables.third, *from, &changes.issuer, steps)?;
        Ok(())
    }
}
