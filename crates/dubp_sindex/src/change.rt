ghost use Rattle.std.specs.Prelude.{◌≡◌, ◌+◌, ◌≤◌, ◌==◌, ◌∷◌, [], ℕ, List, min, option_map, if◌then◌else◌, IfSome, IsOk, OnOk, OnErr};
ghost use Rattle.std.specs.Option.{option_and_then, option_map_or};
ghost use Rattle.std.specs.Ordering.{nat_cmp};
ghost use Rattle.dubp_undo.specs.MovingTable.{get, IsPlaced, PlacesStay};
ghost use Rattle.dubp_sindex.specs.Rows.{Entry, units};
ghost use Rattle.dubp_sindex.specs.Origins.{OriginTexts};
ghost use Rattle.dubp_sindex.specs.Changes.{IsChanged, JoinFits, changed, is_place, joined, parted, with_after, with_before};

use crate::link::Link;
use crate::origins::Name;
use crate::rows::{Balance, LinkedRow, NumberedRows, Rows, SourceRow, SourceTables};
use dubp_atoms::{NoMemory, Steps};
use dubp_undo::Tables;
use std::sync::ledger::Ledger as StepBook;

/// What becomes of one source.
#[derive(Clone, Copy, Debug, PartialEq, Eq)]
pub struct Change {
    /// Its place.
    pub place: usize,
    /// What stands there from now on: its row, or `None` where it is spent.
    pub own: Option<LinkedRow>,
    /// The place of the source before it in the list of its account.
    pub before: Link,
    /// The place of the source behind it.
    pub after: Link,
    /// What stands behind the one before it from now on.
    pub behind: Link,
    /// What stands before the one behind it from now on.
    pub ahead: Link,
    /// Its account.
    pub account: usize,
    /// What the account has from now on.
    pub balance: Option<Balance>,
}

/// The greatest base.
const MAX_BASE: u8 = 15;

/// The units of the row. A base above 15 counts as 15.
pub fn units_of(row: SourceRow) -> u128
    ensures { result ≡ units row.amount (min row.base 15) }
{
    u128::from(row.amount) * 10_u128.pow(u32::from(row.base.min(MAX_BASE)))
}

// The first of two places where there is a neighbour, the second where there is none.
fn either(neighbour: Link, place: usize, own: usize) -> usize
    ensures { result ≡ option_map_or (λ _. place) neighbour own }
{
    match neighbour.place() {
        Some(_) => place,
        None => own,
    }
}

/// The balance of the account with one source more at this place, between these neighbours, exact where the sums are numbers of 128 and
/// 64 bits.
pub fn join(
    balance: Option<Balance>,
    account: usize,
    units: u128,
    place: usize,
    before: Link,
    after: Link,
) -> Balance
    ensures { JoinFits balance units → result ≡ joined balance account units place before after }
{
    match balance {
        Some(balance) => Balance {
            account,
            units: balance.units.saturating_add(units),
            count: balance.count.saturating_add(1),
            first: either(before, balance.first, place),
            last: either(after, balance.last, place),
        },
        None => Balance {
            account,
            units,
            count: 1,
            first: place,
            last: place,
        },
    }
}

/// The balance with one source less, which had these neighbours, or `None` where that was the last.
pub fn part(balance: Option<Balance>, units: u128, before: Link, after: Link) -> Option<Balance>
    ensures { result ≡ option_and_then (parted units before after) balance }
{
    let balance = balance?;
    let rest = Balance {
        units: balance.units.saturating_sub(units),
        count: balance.count.saturating_sub(1),
        ..balance
    };
    match (before.place(), after.place()) {
        (None, None) => None,
        (None, Some(first)) => Some(Balance { first, ..rest }),
        (Some(last), None) => Some(Balance { last, ..rest }),
        (Some(_), Some(_)) => Some(rest),
    }
}

// Another source stands behind the one at this place. At most one set.
fn set_after<L: StepBook>(
    rows: &mut Rows,
    place: Link,
    after: Link,
    steps: &mut Steps<L>,
) -> Result<(), NoMemory>
    ensures now { OnOk result ((q : ℕ) → get nat_cmp rows.new.table.now q ≡ changed (is_place q place) (with_after after) (get nat_cmp rows.old.table.now q)) }
    ensures others { ⟦<Rows as Tables<NumberedRows>>⟧.others rows.new ≡ ⟦<Rows as Tables<NumberedRows>>⟧.others rows.old }
    ensures count { ⟦<Rows as Tables<NumberedRows>>⟧.count rows.new + steps.old ≤ ⟦<Rows as Tables<NumberedRows>>⟧.count rows.old + steps.new }
    ensures steps { OnOk result (steps.new ≤ steps.old + 1) }
    ensures placed { OnOk result (PlacesStay nat_cmp rows.old.table.placed rows.new.table.placed) }
    ensures room { rows.old.table.room ≤ rows.new.table.room + 1 }
    ensures succeeds { IfSome place (λ p. IsPlaced nat_cmp p rows.old.table.placed) → 1 ≤ rows.old.table.room → IsOk result }
{
    if let Some(place) = place.place() {
        if let Some(row) = rows.get(place) {
            rows.set(place, Some(LinkedRow { after, ..row }), steps)?;
        }
    }
    Ok(())
}

// Another source stands before the one at this place. At most one set.
fn set_before<L: StepBook>(
    rows: &mut Rows,
    place: Link,
    before: Link,
    steps: &mut Steps<L>,
) -> Result<(), NoMemory>
    ensures now { OnOk result ((q : ℕ) → get nat_cmp rows.new.table.now q ≡ changed (is_place q place) (with_before before) (get nat_cmp rows.old.table.now q)) }
    ensures others { ⟦<Rows as Tables<NumberedRows>>⟧.others rows.new ≡ ⟦<Rows as Tables<NumberedRows>>⟧.others rows.old }
    ensures count { ⟦<Rows as Tables<NumberedRows>>⟧.count rows.new + steps.old ≤ ⟦<Rows as Tables<NumberedRows>>⟧.count rows.old + steps.new }
    ensures steps { OnOk result (steps.new ≤ steps.old + 1) }
    ensures placed { OnOk result (PlacesStay nat_cmp rows.old.table.placed rows.new.table.placed) }
    ensures room { rows.old.table.room ≤ rows.new.table.room + 1 }
    ensures succeeds { IfSome place (λ p. IsPlaced nat_cmp p rows.old.table.placed) → 1 ≤ rows.old.table.room → IsOk result }
{
    if let Some(place) = place.place() {
        if let Some(row) = rows.get(place) {
            rows.set(place, Some(LinkedRow { before, ..row }), steps)?;
        }
    }
    Ok(())
}

// Places the key of a neighbour, where there is one, and makes room for three keys. No step.
fn ready_at(rows: &mut Rows, place: Link) -> Result<(), NoMemory>
    ensures now { rows.new.table.now ≡ rows.old.table.now }
    ensures others { ⟦<Rows as Tables<NumberedRows>>⟧.others rows.new ≡ ⟦<Rows as Tables<NumberedRows>>⟧.others rows.old }
    ensures count { ⟦<Rows as Tables<NumberedRows>>⟧.count rows.new ≡ ⟦<Rows as Tables<NumberedRows>>⟧.count rows.old }
    ensures placed { OnOk result (IfSome place (λ p. IsPlaced nat_cmp p rows.new.table.placed)) }
    ensures stay { OnOk result (PlacesStay nat_cmp rows.old.table.placed rows.new.table.placed) }
    ensures room { rows.old.table.room ≤ rows.new.table.room }
{
    if let Some(place) = place.place() {
        rows.ready(place, 3)?;
    }
    Ok(())
}

// Places the keys of a source and of its neighbours, and makes room for them. No step.
fn ready_rows(rows: &mut Rows, change: &Change) -> Result<(), NoMemory>
    ensures now { rows.new.table.now ≡ rows.old.table.now }
    ensures others { ⟦<Rows as Tables<NumberedRows>>⟧.others rows.new ≡ ⟦<Rows as Tables<NumberedRows>>⟧.others rows.old }
    ensures count { ⟦<Rows as Tables<NumberedRows>>⟧.count rows.new ≡ ⟦<Rows as Tables<NumberedRows>>⟧.count rows.old }
    ensures own { OnOk result (IsPlaced nat_cmp change.now.place rows.new.table.placed) }
    ensures before { OnOk result (IfSome change.now.before (λ p. IsPlaced nat_cmp p rows.new.table.placed)) }
    ensures after { OnOk result (IfSome change.now.after (λ p. IsPlaced nat_cmp p rows.new.table.placed)) }
    ensures room { OnOk result (3 ≤ rows.new.table.room) }
{
    rows.ready(change.place, 3)?;
    ready_at(rows, change.before)?;
    ready_at(rows, change.after)?;
    Ok(())
}

// Makes the change of the source and of its neighbours in the table of rows. At most three sets.
fn set_rows<L: StepBook>(
    rows: &mut Rows,
    change: &Change,
    steps: &mut Steps<L>,
) -> Result<(), NoMemory>
    ensures now { OnOk result ((q : ℕ) → get nat_cmp rows.new.table.now q ≡ (if q == change.now.place then change.now.own else changed (is_place q change.now.after) (with_before change.now.ahead) (changed (is_place q change.now.before) (with_after change.now.behind) (get nat_cmp rows.old.table.now q)))) }
    ensures others { ⟦<Rows as Tables<NumberedRows>>⟧.others rows.new ≡ ⟦<Rows as Tables<NumberedRows>>⟧.others rows.old }
    ensures count { ⟦<Rows as Tables<NumberedRows>>⟧.count rows.new + steps.old ≤ ⟦<Rows as Tables<NumberedRows>>⟧.count rows.old + steps.new }
    ensures steps { OnOk result (steps.new ≤ steps.old + 3) }
    ensures succeeds { IsPlaced nat_cmp change.now.place rows.old.table.placed → IfSome change.now.before (λ p. IsPlaced nat_cmp p rows.old.table.placed) → IfSome change.now.after (λ p. IsPlaced nat_cmp p rows.old.table.placed) → 3 ≤ rows.old.table.room → IsOk result }
{
    set_after(rows, change.before, change.behind, steps)?;
    set_before(rows, change.after, change.ahead, steps)?;
    rows.set(change.place, change.own, steps)?;
    Ok(())
}

// The place of the source, where it has a row.
fn named_place(change: &Change) -> Option<usize>
    ensures { result ≡ option_map (λ _. change.now.place) change.now.own }
{
    match change.own {
        Some(_) => Some(change.place),
        None => None,
    }
}

/// Makes the change of the source in each table. At most five sets.
///
/// `NoMemory` where there is no memory for its keys; then every table is as it was.
pub fn put<L: StepBook>(
    tables: &mut SourceTables,
    name: Name,
    change: &Change,
    steps: &mut Steps<L>,
) -> Result<(), NoMemory>
    ensures at { OnOk result ((o : OriginTexts) (old new : List Entry) → ⟦<SourceTables as Tables<NumberedRows>>⟧.at tables.old ((o, old) ∷ []) → IsChanged o name change.now old new → ⟦<SourceTables as Tables<NumberedRows>>⟧.at tables.new ((o, new) ∷ [])) }
    ensures others { ⟦<SourceTables as Tables<NumberedRows>>⟧.others tables.new ≡ ⟦<SourceTables as Tables<NumberedRows>>⟧.others tables.old }
    ensures count { ⟦<SourceTables as Tables<NumberedRows>>⟧.count tables.new + steps.old ≤ ⟦<SourceTables as Tables<NumberedRows>>⟧.count tables.old + steps.new }
    ensures steps { OnOk result (steps.new ≤ steps.old + 5) }

    ensures refused { OnErr result (⟦<SourceTables as Tables<NumberedRows>>⟧.now tables.new ≡ ⟦<SourceTables as Tables<NumberedRows>>⟧.now tables.old) }
    ensures no_step { OnErr result (steps.new ≡ steps.old) }
{
    let named = named_place(change);
    ready_rows(&mut tables.second, change)?;
    tables.third.ready(change.account, 1)?;
    // The name needs no `ready`, since its set is the first, and may be refused while nothing has changed.
    tables.first.set(name, named, steps)?;
    tables.third.set(change.account, change.balance, steps)?;
    set_rows(&mut tables.second, change, steps)?;
    Ok(())
}
