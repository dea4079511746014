ghost use Rattle.std.specs.Prelude.{◌≡◌, ◌+◌, ◌-◌, ◌≤◌, OnOk, IsOk, IfOk, cond, is_some};
ghost use Rattle.dubp_iindex.specs.Writing as writing;
ghost use Rattle.dubp_iindex.specs.Writing.{bit, sets, IsReady, IsWritten, AreWrites};

use crate::row::{Counts, IdentityRow, IdentityRows};
use dubp_atoms::{Key, NoMemory, Steps};
use dubp_undo::{Definition, Finder, Found, Leaf, NoSummary, Tables};
use std::sync::ledger::Ledger as StepBook;

/// What a key of a table gets: `None` where it is not set, else its new value, or `None` in it where it loses its value.
pub type Write<V> = Option<Option<V>>;

/// What a row that is put sets besides itself: the key of its uid, itself among the members, and the numbers.
#[derive(Drop)]
pub struct Writes {
    pub uid: Write<Key>,
    pub member: Write<()>,
    pub counts: Write<Counts>,
}

/// Makes the key ready to be set, where it is to be. The table stays. `NoMemory` comes only where the key is to be set.
pub fn ready_for<K: Ord + Copy, V: Copy + Eq, D: Definition<IdentityRows, K, V>>(
    table: &mut Leaf<IdentityRows, K, V, D>,
    key: K,
    write: &Write<V>,
) -> Result<(), NoMemory>
    ensures now { ⟦<Leaf<IdentityRows, K, V, D> as Tables<IdentityRows>>⟧.now table.new ≡ ⟦<Leaf<IdentityRows, K, V, D> as Tables<IdentityRows>>⟧.now table.old }
    ensures count { ⟦<Leaf<IdentityRows, K, V, D> as Tables<IdentityRows>>⟧.count table.new ≡ ⟦<Leaf<IdentityRows, K, V, D> as Tables<IdentityRows>>⟧.count table.old }
    ensures others { ⟦<Leaf<IdentityRows, K, V, D> as Tables<IdentityRows>>⟧.others table.new ≡ ⟦<Leaf<IdentityRows, K, V, D> as Tables<IdentityRows>>⟧.others table.old }
    ensures ready { OnOk result (IsReady K.cmp key write.now table.new.table) }
{
    match write {
        Some(_) => {
            table.ready(key, 1)?;
            Ok(())
        }
        None => Ok(()),
    }
}

/// The same of a table whose slots are found by F.
pub fn ready_found<K: Copy, V: Copy + Eq, D: Definition<IdentityRows, K, V>, F: Finder<K>>(
    table: &mut Found<IdentityRows, K, V, D, F, NoSummary>,
    key: K,
    write: &Write<V>,
) -> Result<(), NoMemory>
    ensures now { ⟦<Found<IdentityRows, K, V, D, F, NoSummary> as Tables<IdentityRows>>⟧.now table.new ≡ ⟦<Found<IdentityRows, K, V, D, F, NoSummary> as Tables<IdentityRows>>⟧.now table.old }
    ensures count { ⟦<Found<IdentityRows, K, V, D, F, NoSummary> as Tables<IdentityRows>>⟧.count table.new ≡ ⟦<Found<IdentityRows, K, V, D, F, NoSummary> as Tables<IdentityRows>>⟧.count table.old }
    ensures others { ⟦<Found<IdentityRows, K, V, D, F, NoSummary> as Tables<IdentityRows>>⟧.others table.new ≡ ⟦<Found<IdentityRows, K, V, D, F, NoSummary> as Tables<IdentityRows>>⟧.others table.old }
    ensures ready { OnOk result (IsReady F.cmp key write.now table.new.table) }
{
    match write {
        Some(_) => {
            table.ready(key, 1)?;
            Ok(())
        }
        None => Ok(()),
    }
}

/// Sets the key, where it is to be: one step then.
///
/// `NoMemory` comes only where the key is not ready.
pub fn set_for<K: Ord + Copy, V: Copy + Eq, D: Definition<IdentityRows, K, V>, L: StepBook>(
    table: &mut Leaf<IdentityRows, K, V, D>,
    key: K,
    write: Write<V>,
    steps: &mut Steps<L>,
) -> Result<(), NoMemory>
    ensures now { OnOk result (IsWritten K.cmp key write (⟦<Leaf<IdentityRows, K, V, D> as Tables<IdentityRows>>⟧.now table.old) (⟦<Leaf<IdentityRows, K, V, D> as Tables<IdentityRows>>⟧.now table.new)) }
    ensures others { ⟦<Leaf<IdentityRows, K, V, D> as Tables<IdentityRows>>⟧.others table.new ≡ ⟦<Leaf<IdentityRows, K, V, D> as Tables<IdentityRows>>⟧.others table.old }
    ensures count { ⟦<Leaf<IdentityRows, K, V, D> as Tables<IdentityRows>>⟧.count table.new + steps.old ≤ ⟦<Leaf<IdentityRows, K, V, D> as Tables<IdentityRows>>⟧.count table.old + steps.new }
    ensures step { OnOk result (steps.new ≡ steps.old + sets write) }
    ensures succeeds { IsReady K.cmp key write table.old.table → IsOk result }
{
    match write {
        Some(value) => {
            table.set(key, value, steps)?;
            Ok(())
        }
        None => Ok(()),
    }
}

/// The same of a table whose slots are found by F.
pub fn set_found<
    K: Copy,
    V: Copy + Eq,
    D: Definition<IdentityRows, K, V>,
    F: Finder<K>,
    L: StepBook,
>(
    table: &mut Found<IdentityRows, K, V, D, F, NoSummary>,
    key: K,
    write: Write<V>,
    steps: &mut Steps<L>,
) -> Result<(), NoMemory>
    ensures now { OnOk result (IsWritten F.cmp key write (⟦<Found<IdentityRows, K, V, D, F, NoSummary> as Tables<IdentityRows>>⟧.now table.old) (⟦<Found<IdentityRows, K, V, D, F, NoSummary> as Tables<IdentityRows>>⟧.now table.new)) }
    ensures others { ⟦<Found<IdentityRows, K, V, D, F, NoSummary> as Tables<IdentityRows>>⟧.others table.new ≡ ⟦<Found<IdentityRows, K, V, D, F, NoSummary> as Tables<IdentityRows>>⟧.others table.old }
    ensures count { ⟦<Found<IdentityRows, K, V, D, F, NoSummary> as Tables<IdentityRows>>⟧.count table.new + steps.old ≤ ⟦<Found<IdentityRows, K, V, D, F, NoSummary> as Tables<IdentityRows>>⟧.count table.old + steps.new }
    ensures step { OnOk result (steps.new ≡ steps.old + sets write) }
    ensures succeeds { IsReady F.cmp key write table.old.table → IsOk result }
{
    match write {
        Some(value) => {
            table.set(key, value, steps)?;
            Ok(())
        }
        None => Ok(()),
    }
}

/// What is set for a row that is put where `old` stood. `NoMemory` where a number would be no u64.
pub fn writes_for(
    old: &Option<IdentityRow>,
    counts: &Option<Counts>,
    key: Key,
    row: &IdentityRow,
) -> Result<Writes, NoMemory>
    ensures { IfOk result (AreWrites old.now counts.now key row.now) }
{
    let was = was_member(old);
    let member = member_write(was, row.member);
    let counts = counts_write(old, counts, row)?;
    Ok(Writes {
        uid: uid_write(old, key),
        member,
        counts,
    })
}

/// A new identity's uid gets its key.
fn uid_write(old: &Option<IdentityRow>, key: Key) -> Write<Key>
    ensures { result ≡ writing.uid_write old.now key }
{
    if old.is_some() { None } else { Some(Some(key)) }
}

/// Whether the row is there, and a member's.
fn was_member(old: &Option<IdentityRow>) -> bool
    ensures { result ≡ writing.was_member old.now }
{
    match old {
        Some(row) => row.member,
        None => false,
    }
}

/// The key of a member comes or goes.
fn member_write(was: bool, is: bool) -> Write<()>
    ensures { result ≡ writing.member_write was is }
{
    match (was, is) {
        (false, true) => Some(Some(())),
        (true, false) => Some(None),
        _ => None,
    }
}

/// The numbers, where one of them changes. `NoMemory` where one is no u64.
fn counts_write(
    old: &Option<IdentityRow>,
    counts: &Option<Counts>,
    row: &IdentityRow,
) -> Result<Write<Counts>, NoMemory>
    ensures { IfOk result (λ write. write ≡ writing.counts_write counts.now old.now row.now) }
{
    let was = was_member(old);
    if old.is_some() && member_write(was, row.member).is_none() {
        return Ok(None);
    }
    let before = counts.unwrap_or(Counts {
        identities: 0,
        members: 0,
    });
    let identities = more_identities(before.identities, old)?;
    let members = more_members(before.members, was, row.member)?;
    Ok(Some(Some(Counts {
        identities,
        members,
    })))
}

/// How many identities there are then. `NoMemory` where that is no u64.
fn more_identities(identities: u64, old: &Option<IdentityRow>) -> Result<u64, NoMemory>
    ensures { IfOk result (λ n. n ≡ identities + cond (is_some old.now) 0 1) }
{
    if old.is_some() {
        return Ok(identities);
    }
    identities.checked_add(1).ok_or(NoMemory)
}

/// How many members there are then. `NoMemory` where that is no u64.
fn more_members(members: u64, was: bool, is: bool) -> Result<u64, NoMemory>
    ensures { IfOk result (λ n. n ≡ (members + bit is) - bit was) }
{
    if is && !was {
        return members.checked_add(1).ok_or(NoMemory);
    }
    if was && !is {
        return Ok(members.saturating_sub(1));
    }
    Ok(members)
}
